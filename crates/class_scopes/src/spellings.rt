//! Names of a text by their spelling.
ghost use Rattle.std.specs.Prelude.{◌≡◌, map};
ghost use Rattle.class_scopes.specs.Spelled as named;

use mo_parser::{Span, spelled};

/// Whether a name is `time` alone, which needs no declaration. Source: MLS 3.6, chapter 3, "Built-in Variable time".
pub fn is_time(text: &[u8], parts: &[Span]) -> bool
    ensures { result ≡ named.is_time (map (named.spelled text.now) parts.now) }
{
    match parts {
        [part] => spelled(text, *part) == b"time".as_slice(),
        _ => false,
    }
}
