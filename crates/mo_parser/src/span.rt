//! Pieces of the text.
ghost use Rattle.std.specs.Prelude.{◌≡◌};
ghost use Rattle.mo_parser.specs.grammar.Spans as spans;

use crate::tree::Span;

/// The bytes of a piece of the text, and none where it does not lie in the text.
pub fn spelled(text: &[u8], span: Span) -> &[u8]
    ensures { result.now ≡ spans.spelled text.now span }
{
    let (at, end) = (span.at as usize, span.end as usize);
    if at <= end && end <= text.len() {
        &text[at..end]
    } else {
        &[]
    }
}
