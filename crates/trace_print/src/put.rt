//! Pieces of a text that grows.
ghost use Rattle.std.specs.Prelude.{◌≡◌, ◌++◌, [], ◌∷◌, OnOk, codes, decimal};
ghost use Rattle.flat_model.specs.Trace.{value_text};
ghost use Rattle.rational_time.specs.Fraction.{instant_text};
ghost use Rattle.trace_print.specs.Printed.{name_text, argument_text, call_text, conversion_text, interval_text};

use flat_model::{Conversion, FlatName};
use itoa::Buffer;
use rational_time::Ratio;
use std::alloc::AllocError;
use sync_values::Value;

pub(crate) fn put(out: &mut Vec<u8>, piece: &[u8]) -> Result<(), AllocError>
    ensures { OnOk result (out.new.items ≡ out.old.items ++ piece.now) }
{
    out.extend_from_slice(piece)
}

pub(crate) fn put_number(out: &mut Vec<u8>, number: u64) -> Result<(), AllocError>
    ensures { OnOk result (out.new.items ≡ out.old.items ++ decimal number) }
{
    let mut buffer = Buffer::new();
    put(out, buffer.format(number).as_bytes())
}

pub(crate) fn put_instant(out: &mut Vec<u8>, at: Ratio) -> Result<(), AllocError>
    ensures { OnOk result (out.new.items ≡ out.old.items ++ instant_text at) }
{
    put_number(out, at.num())?;
    if at.den() != 1 {
        put(out, b"/")?;
        put_number(out, at.den())?;
    }
    Ok(())
}

pub(crate) fn put_value(out: &mut Vec<u8>, value: Value) -> Result<(), AllocError>
    ensures { OnOk result (out.new.items ≡ out.old.items ++ value_text value) }
{
    match value {
        Value::Int(number) => {
            let mut buffer = Buffer::new();
            put(out, buffer.format(number).as_bytes())
        }
        Value::Bool(true) => put(out, b"true"),
        Value::Bool(false) => put(out, b"false"),
    }
}

/// Adds the text of a name by its number.
pub(crate) fn put_name(out: &mut Vec<u8>, names: &[FlatName], x: u32) -> Result<(), AllocError>
    ensures { OnOk result (out.new.items ≡ out.old.items ++ name_text names.now x) }
{
    match names.get(x as usize) {
        Some(name) => put(out, name.text.as_bytes()),
        None => Ok(()),
    }
}

/// Adds the text of an argument that may lack.
fn put_argument(out: &mut Vec<u8>, names: &[FlatName], x: Option<u32>) -> Result<(), AllocError>
    ensures { OnOk result (out.new.items ≡ out.old.items ++ argument_text names.now x) }
{
    match x {
        Some(x) => put_name(out, names, x),
        None => Ok(()),
    }
}

/// Adds the call of an operator on a name.
pub(crate) fn put_operator(
    out: &mut Vec<u8>,
    names: &[FlatName],
    function: &[u8],
    x: Option<u32>,
) -> Result<(), AllocError>
    ensures { OnOk result (out.new.items ≡ out.old.items ++ call_text function.now (argument_text names.now x ∷ [])) }
{
    put(out, function)?;
    put(out, b"(")?;
    put_argument(out, names, x)?;
    put(out, b")")
}

/// Adds the interval of a clock, so many times.
pub(crate) fn put_interval(
    out: &mut Vec<u8>,
    names: &[FlatName],
    x: Option<u32>,
    k: u32,
) -> Result<(), AllocError>
    ensures { OnOk result (out.new.items ≡ out.old.items ++ interval_text (argument_text names.now x) k) }
{
    put(out, b"integer((interval(")?;
    put_argument(out, names, x)?;
    put(out, b") * ")?;
    put_number(out, u64::from(k))?;
    put(out, b"))")
}

/// Adds a conversion by a factor.
fn put_factor(
    out: &mut Vec<u8>,
    names: &[FlatName],
    function: &[u8],
    x: u32,
    factor: u32,
) -> Result<(), AllocError>
    ensures { OnOk result (out.new.items ≡ out.old.items ++ call_text function.now (name_text names.now x ∷ decimal factor ∷ [])) }
{
    put(out, function)?;
    put(out, b"(")?;
    put_name(out, names, x)?;
    put(out, b", ")?;
    put_number(out, u64::from(factor))?;
    put(out, b")")
}

/// Adds a conversion by a counter and a resolution.
fn put_shift(
    out: &mut Vec<u8>,
    names: &[FlatName],
    function: &[u8],
    x: u32,
    counter: u32,
    resolution: u32,
) -> Result<(), AllocError>
    ensures { OnOk result (out.new.items ≡ out.old.items ++ call_text function.now (name_text names.now x ∷ decimal counter ∷ decimal resolution ∷ [])) }
{
    put(out, function)?;
    put(out, b"(")?;
    put_name(out, names, x)?;
    put(out, b", ")?;
    put_number(out, u64::from(counter))?;
    put(out, b", ")?;
    put_number(out, u64::from(resolution))?;
    put(out, b")")
}

/// Adds the clock of so many seconds.
pub(crate) fn put_rational(
    out: &mut Vec<u8>,
    counter: u32,
    resolution: u32,
) -> Result<(), AllocError>
    ensures { OnOk result (out.new.items ≡ out.old.items ++ call_text (codes "Clock") (decimal counter ∷ decimal resolution ∷ [])) }
{
    put(out, b"Clock(")?;
    put_number(out, u64::from(counter))?;
    put(out, b", ")?;
    put_number(out, u64::from(resolution))?;
    put(out, b")")
}

/// Adds a conversion of a name.
pub(crate) fn put_conversion(
    out: &mut Vec<u8>,
    names: &[FlatName],
    by: Conversion,
    x: u32,
) -> Result<(), AllocError>
    ensures { OnOk result (out.new.items ≡ out.old.items ++ conversion_text by (name_text names.now x)) }
{
    match by {
        Conversion::Sub(factor) => put_factor(out, names, b"subSample", x, factor),
        Conversion::Super(factor) => put_factor(out, names, b"superSample", x, factor),
        Conversion::Shift(counter, resolution) => {
            put_shift(out, names, b"shiftSample", x, counter, resolution)
        }
        Conversion::Back(counter, resolution) => {
            put_shift(out, names, b"backSample", x, counter, resolution)
        }
        Conversion::NoClock => put_operator(out, names, b"noClock", Some(x)),
    }
}
