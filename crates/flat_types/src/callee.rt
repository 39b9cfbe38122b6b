//! What a name calls.
ghost use Rattle.std.specs.Prelude.{◌≡◌};
ghost use Rattle.flat_types.specs.Callees as spec;

use flat_model::Fun;

/// An operator of clocked variables, which takes names.
#[derive(Clone, Copy)]
pub enum Operator {
    Previous,
    Hold,
    NoClock,
    SubSample,
    SuperSample,
    ShiftSample,
    BackSample,
    FirstTick,
}

/// What a name calls.
#[derive(Clone, Copy)]
pub enum Callee {
    Arithmetic(Fun),
    Operator(Operator),
    Sample,
    Clock,
    Integer,
    Interval,
    /// A function of the language that the profile leaves out.
    LeftOut,
    Unknown,
}

/// The arithmetic function of a name.
fn function_called(name: &[u8]) -> Option<Fun>
    ensures { result ≡ spec.function_called name.now }
{
    if name == b"div".as_slice() {
        Some(Fun::Div)
    } else if name == b"mod".as_slice() {
        Some(Fun::Mod)
    } else if name == b"rem".as_slice() {
        Some(Fun::Rem)
    } else if name == b"abs".as_slice() {
        Some(Fun::Abs)
    } else if name == b"min".as_slice() {
        Some(Fun::Min)
    } else if name == b"max".as_slice() {
        Some(Fun::Max)
    } else {
        None
    }
}

/// The operator of a name.
fn operator_called(name: &[u8]) -> Option<Operator>
    ensures { result ≡ spec.operator_called name.now }
{
    if name == b"previous".as_slice() {
        Some(Operator::Previous)
    } else if name == b"hold".as_slice() {
        Some(Operator::Hold)
    } else if name == b"noClock".as_slice() {
        Some(Operator::NoClock)
    } else if name == b"subSample".as_slice() {
        Some(Operator::SubSample)
    } else if name == b"superSample".as_slice() {
        Some(Operator::SuperSample)
    } else if name == b"shiftSample".as_slice() {
        Some(Operator::ShiftSample)
    } else if name == b"backSample".as_slice() {
        Some(Operator::BackSample)
    } else if name == b"firstTick".as_slice() {
        Some(Operator::FirstTick)
    } else {
        None
    }
}

/// Whether the profile leaves the function of this name out.
fn is_left_out(name: &[u8]) -> bool
    ensures { result ≡ spec.is_left_out name.now }
{
    name == b"pre".as_slice()
        || name == b"edge".as_slice()
        || name == b"change".as_slice()
        || name == b"delay".as_slice()
        || name == b"noEvent".as_slice()
        || name == b"smooth".as_slice()
}

/// What a name calls that is neither an arithmetic function nor an operator with names.
fn other_called(name: &[u8]) -> Callee
    ensures { result ≡ spec.other_called name.now }
{
    if name == b"sample".as_slice() {
        Callee::Sample
    } else if name == b"Clock".as_slice() {
        Callee::Clock
    } else if name == b"integer".as_slice() {
        Callee::Integer
    } else if name == b"interval".as_slice() {
        Callee::Interval
    } else if is_left_out(name) {
        Callee::LeftOut
    } else {
        Callee::Unknown
    }
}

/// What a name calls.
pub fn called(name: &[u8]) -> Callee
    ensures { result ≡ spec.callee name.now }
{
    if let Some(function) = function_called(name) {
        return Callee::Arithmetic(function);
    }
    match operator_called(name) {
        Some(operator) => Callee::Operator(operator),
        None => other_called(name),
    }
}
