//! The places of broken rules.
ghost use Rattle.std.specs.Prelude.{◌≡◌, ◌≤◌, length};
ghost use Rattle.flat_answer.specs.Places.{place_at};
ghost use Rattle.mo_lexer.specs.Tokens.{model_limit};
ghost use Rattle.mo_flatten.specs.private.Ends.{end_of};

use class_scopes::RuleEnd;
use flat_answer::FlattenEnd;
use flat_model::Place;

/// The line and the column of the byte at a place of a text, both from 1. A place behind the end is that of the end.
fn place_at(text: &[u8], at: u32) -> Place
    requires { length text.now ≤ model_limit }
    ensures { result ≡ place_at text.now at }
{
    let front = (at as usize).min(text.len());
    let mut line = 1u32;
    let mut column = 1u32;
    for byte in &text[..front] {
        if *byte == b'\n' {
            line += 1;
            column = 1;
        } else {
            column += 1;
        }
    }
    Place::At { line, column }
}

/// A broken rule of the text, at its line and column.
pub fn placed(text: &[u8], end: RuleEnd) -> FlattenEnd
    requires { length text.now ≤ model_limit }
    ensures { result ≡ end_of text.now end }
{
    match end {
        RuleEnd::Broken(code, at) => FlattenEnd::Fault {
            code,
            place: place_at(text, at),
        },
        RuleEnd::NoMemory => FlattenEnd::NoMemory,
    }
}
