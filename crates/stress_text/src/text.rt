ghost use Rattle.std.specs.Prelude.{◌≡◌, ◌%◌, ◌<◌, ◌≤◌, ◌^◌, ◌++◌, IfOk, OnOk, length};
ghost use Rattle.stress_text.specs.Text.{around, declaration_line, declaration_lines, equation_lines, hold_line, lines_of, rate, sampled, step_line, stress_text, when_line};

use itoa::Buffer;
use std::alloc::{AllocError, Global};

/// How often in a second the clocks of members tick, in turn.
const RATES: [u64; 6] = [1000, 500, 250, 200, 125, 100];

fn put(out: &mut Vec<u8>, piece: &[u8]) -> Result<(), AllocError>
    ensures { OnOk result (out.new.items ≡ out.old.items ++ piece.now) }
{
    out.extend_from_slice(piece)
}

/// Adds a piece of text with a number in it.
fn put_around(out: &mut Vec<u8>, before: &[u8], number: u64, after: &[u8]) -> Result<(), AllocError>
    ensures { OnOk result (out.new.items ≡ out.old.items ++ around before.now number after.now) }
{
    let mut buffer = Buffer::new();
    put(out, before)?;
    put(out, buffer.format(number).as_bytes())?;
    put(out, after)
}

/// How often in a second the clock of a member ticks.
#[tactic(auto, unfolding(crate::specs::Text::rate))]
fn rate(k: u64) -> u64
    ensures { result ≡ rate k }
{
    RATES[(k % 6) as usize]
}

/// Adds the line of a name of a member, by its letter.
#[tactic(auto, unfolding(crate::specs::Text::declaration_line))]
fn put_declaration_line(out: &mut Vec<u8>, letter: &[u8], k: u64) -> Result<(), AllocError>
    requires { k < 2 ^ 32 }
    ensures { OnOk result (out.new.items ≡ out.old.items ++ declaration_line letter.now k) }
{
    put(out, b"  Integer ")?;
    put_around(out, letter, k + 1, b";\n")
}

/// Adds the lines of the two names of a member.
fn put_declaration(out: &mut Vec<u8>, k: u64) -> Result<(), AllocError>
    requires { k < 2 ^ 32 }
    ensures { OnOk result (out.new.items ≡ out.old.items ++ declaration_lines k) }
{
    put_declaration_line(out, b"x", k)?;
    put_declaration_line(out, b"h", k)
}

/// Adds what a member samples.
fn put_sampled(out: &mut Vec<u8>, k: u64) -> Result<(), AllocError>
    ensures { OnOk result (out.new.items ≡ out.old.items ++ sampled (k % 4) k) }
{
    if k % 4 == 0 {
        return Ok(());
    }
    put_around(out, b"sample(h", k, b") + ")
}

/// Adds the step of a member, by its value at the tick before.
#[tactic(auto, unfolding(crate::specs::Text::step_line))]
fn put_step(out: &mut Vec<u8>, k: u64) -> Result<(), AllocError>
    requires { k < 2 ^ 32 }
    ensures { OnOk result (out.new.items ≡ out.old.items ++ step_line k) }
{
    put_around(out, b"    x", k + 1, b" = mod(")?;
    put_around(out, b"previous(x", k + 1, b") * 31 + ")?;
    put_sampled(out, k)?;
    put_around(out, b"", k + 1, b", 1000);\n")
}

/// Adds the value of a member, held.
#[tactic(auto, unfolding(crate::specs::Text::hold_line))]
fn put_hold(out: &mut Vec<u8>, k: u64) -> Result<(), AllocError>
    requires { k < 2 ^ 32 }
    ensures { OnOk result (out.new.items ≡ out.old.items ++ hold_line k) }
{
    put_around(out, b"  h", k + 1, b" = ")?;
    put_around(out, b"hold(x", k + 1, b");\n")
}

/// Adds the clock of a member.
#[tactic(auto, unfolding(crate::specs::Text::when_line))]
fn put_when(out: &mut Vec<u8>, k: u64) -> Result<(), AllocError>
    ensures { OnOk result (out.new.items ≡ out.old.items ++ when_line k) }
{
    put_around(out, b"  when Clock(1, ", rate(k), b") then\n")
}

/// Adds the clause of a member, and what is held.
fn put_equations(out: &mut Vec<u8>, k: u64) -> Result<(), AllocError>
    requires { k < 2 ^ 32 }
    ensures { OnOk result (out.new.items ≡ out.old.items ++ equation_lines k) }
{
    put_when(out, k)?;
    put_step(out, k)?;
    put(out, b"  end when;\n")?;
    put_hold(out, k)
}

fn put_all_declarations(out: &mut Vec<u8>, members: u64) -> Result<(), AllocError>
    requires { members < 2 ^ 32 }
    ensures { OnOk result (out.new.items ≡ out.old.items ++ lines_of declaration_lines members) }
{
    for k in 0..members {
        put_declaration(out, k)?;
    }
    Ok(())
}

fn put_all_equations(out: &mut Vec<u8>, members: u64) -> Result<(), AllocError>
    requires { members < 2 ^ 32 }
    ensures { OnOk result (out.new.items ≡ out.old.items ++ lines_of equation_lines members) }
{
    for k in 0..members {
        put_equations(out, k)?;
    }
    Ok(())
}

/// The text of so many members.
#[tactic(auto, unfolding(crate::specs::Text::stress_text))]
fn write_text(alloc: Global, members: u64) -> Result<Vec<u8>, AllocError>
    requires { members < 2 ^ 32 }
    ensures { IfOk result (λ bytes. bytes.items ≡ stress_text members) }
{
    let mut out = Vec::new(alloc);
    put(&mut out, b"model Stress\n")?;
    put_all_declarations(&mut out, members)?;
    put(&mut out, b"equation\n")?;
    put_all_equations(&mut out, members)?;
    put(&mut out, b"end Stress;\n")?;
    Ok(out)
}

/// The text of the stress model: each member has a name that a clock of its own steps, by its own value and mostly by
/// what the member before holds, and a name that holds it.
///
/// # Errors
///
/// Where memory does not suffice.
///
/// Source: this project's own.
#[tactic(auto, using(crate::proofs::Lengths::text_short))]
pub fn stress_text(alloc: Global, members: u64) -> Result<Vec<u8>, AllocError>
    requires { members ≤ 1000 }
    ensures text { IfOk result (λ bytes. bytes.items ≡ stress_text members) }
    ensures short { IfOk result (λ bytes. length bytes.items ≤ 400000) }
{
    write_text(alloc, members)
}
