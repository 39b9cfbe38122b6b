//! The text of a flat model.
ghost use Rattle.std.specs.Prelude.{◌≡◌, ◌++◌, OnOk, IfOk};
ghost use Rattle.trace_print.specs.Modes.{input_text, start_text, kind_text, name_line, name_lines, when_text, equation_text, equation_line, equation_lines, flat_text};

use crate::expr::{put_clock, put_expr};
use crate::put::{put, put_number, put_value};
use flat_model::{Equation, FlatModel, FlatName, NameKind};
use std::alloc::{AllocError, Global};
use sync_values::NoMemory;

/// Adds the start of a name, and whether it is an input.
fn put_start(out: &mut Vec<u8>, name: &FlatName) -> Result<(), AllocError>
    ensures { OnOk result (out.new.items ≡ out.old.items ++ start_text name.now.start name.now.input) }
{
    put_value(out, name.start)?;
    if name.input {
        put(out, b" input")?;
    }
    Ok(())
}

fn put_kind(out: &mut Vec<u8>, name: &FlatName) -> Result<(), AllocError>
    ensures { OnOk result (out.new.items ≡ out.old.items ++ kind_text name.now.kind name.now.start name.now.input) }
{
    match name.kind {
        NameKind::Integer => {
            put(out, b"Integer ")?;
            put_start(out, name)
        }
        NameKind::Boolean => {
            put(out, b"Boolean ")?;
            put_start(out, name)
        }
        NameKind::Clock => put(out, b"Clock"),
    }
}

fn put_name_line(out: &mut Vec<u8>, name: &FlatName) -> Result<(), AllocError>
    ensures { OnOk result (out.new.items ≡ out.old.items ++ name_line name.now) }
{
    put(out, b"var ")?;
    put(out, name.text.as_bytes())?;
    put(out, b" ")?;
    put_kind(out, name)?;
    put(out, b"\n")
}

fn put_name_lines(out: &mut Vec<u8>, names: &[FlatName]) -> Result<(), AllocError>
    ensures { OnOk result (out.new.items ≡ out.old.items ++ name_lines names.now) }
{
    for name in names {
        put_name_line(out, name)?;
    }
    Ok(())
}

/// Adds the clock of the clause in which an equation stands.
fn put_when(out: &mut Vec<u8>, flat: &FlatModel, clause: Option<u32>) -> Result<(), AllocError>
    ensures { OnOk result (out.new.items ≡ out.old.items ++ when_text flat.now clause) }
{
    let Some(clause) = clause else {
        return Ok(());
    };
    put(out, b" when ")?;
    match flat.clauses.as_slice().get(clause as usize) {
        Some(clock) => put_clock(out, flat.names.as_slice(), clock),
        None => Ok(()),
    }
}

fn put_equation(out: &mut Vec<u8>, flat: &FlatModel, equation: &Equation) -> Result<(), AllocError>
    ensures { OnOk result (out.new.items ≡ out.old.items ++ equation_text flat.now equation.now) }
{
    match equation {
        Equation::Valued {
            left,
            right,
            clause,
        } => {
            put_when(out, flat, *clause)?;
            put(out, b": ")?;
            put_expr(out, flat.names.as_slice(), left)?;
            put(out, b" = ")?;
            put_expr(out, flat.names.as_slice(), right)
        }
        Equation::Clocks {
            left,
            right,
            clause,
        } => {
            put_when(out, flat, *clause)?;
            put(out, b": ")?;
            put_clock(out, flat.names.as_slice(), left)?;
            put(out, b" = ")?;
            put_clock(out, flat.names.as_slice(), right)
        }
    }
}

fn put_equation_line(
    out: &mut Vec<u8>,
    flat: &FlatModel,
    number: u64,
    equation: &Equation,
) -> Result<(), AllocError>
    ensures { OnOk result (out.new.items ≡ out.old.items ++ equation_line flat.now number equation.now) }
{
    put(out, b"eq ")?;
    put_number(out, number)?;
    put_equation(out, flat, equation)?;
    put(out, b"\n")
}

fn put_equation_lines(out: &mut Vec<u8>, flat: &FlatModel) -> Result<(), AllocError>
    ensures { OnOk result (out.new.items ≡ out.old.items ++ equation_lines flat.now 1 flat.now.equations) }
{
    let mut number = 0;
    for equation in flat.equations.as_slice() {
        number += 1;
        put_equation_line(out, flat, number, equation)?;
    }
    Ok(())
}

/// The text of a flat model: a line for each name, with its type and start, and a line for each equation, with round
/// brackets around every operator. Equations are printed from 1.
///
/// # Errors
///
/// Where memory does not suffice.
pub fn flat_text(alloc: Global, flat: &FlatModel) -> Result<Vec<u8>, NoMemory>
    ensures { IfOk result (λ bytes. bytes.items ≡ flat_text flat.now) }
{
    let mut out = Vec::new(alloc);
    put_name_lines(&mut out, flat.names.as_slice())?;
    put_equation_lines(&mut out, flat)?;
    Ok(out)
}
