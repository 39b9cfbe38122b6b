ghost use Rattle.std.specs.Prelude.{◌≡◌, ◌≤◌, IfOk, length};
ghost use Rattle.flat_answer.specs.Places.{place_at};
ghost use Rattle.mo_lexer.specs.Tokens.{model_limit};

use flat_model::Place;
use std::alloc::{AllocError, Global};
use sync_values::Text;

/// The line and the column of the byte at a place of a text, both from 1. A place behind the end is that of the end.
pub fn place_at(text: &[u8], at: u32) -> Place
    requires { length text.now ≤ model_limit }
    ensures { result ≡ place_at text.now at }
{
    let front = (at as usize).min(text.len());
    let mut line = 1u32;
    let mut column = 1u32;
    for byte in &text[..front] {
        if *byte == b'\n' {
            line += 1;
            column = 1;
        } else {
            column += 1;
        }
    }
    Place::At { line, column }
}

/// The same place once more.
pub fn copied(alloc: Global, place: &Place) -> Result<Place, AllocError>
    ensures { IfOk result (λ copy. copy ≡ place.now) }
{
    Ok(match place {
        Place::At { line, column } => Place::At {
            line: *line,
            column: *column,
        },
        Place::Equation(number) => Place::Equation(*number),
        Place::Name(text) => Place::Name(Text::from_bytes(alloc, text.as_bytes())?),
        Place::Cell { row, column } => Place::Cell {
            row: *row,
            column: *column,
        },
        Place::Model => Place::Model,
        Place::Table => Place::Table,
        Place::Plan => Place::Plan,
    })
}
