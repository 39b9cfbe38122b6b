//! Flat names.
ghost use Rattle.std.specs.Prelude.{◌≡◌, ◌++◌, IfOk};
ghost use Rattle.class_scopes.specs.Spelled as spellings;

use mo_parser::{Path, spelled};
use std::alloc::{AllocError, Global};

/// The parts of a name with dots between them.
pub fn dotted(alloc: Global, text: &[u8], path: &Path) -> Result<Vec<u8>, AllocError>
    ensures { IfOk result (λ name. name.items ≡ spellings.dotted (spellings.idents text.now path.now)) }
{
    let mut name = Vec::new(alloc);
    if let [first, rest @ ..] = path.parts.as_slice() {
        name.extend_from_slice(spelled(text, *first))?;
        for part in rest {
            name.push(b'.')?;
            name.extend_from_slice(spelled(text, *part))?;
        }
    }
    Ok(name)
}

/// What stands before a name in its scope, and the name.
pub fn flat_name(
    alloc: Global,
    text: &[u8],
    scope: &[u8],
    path: &Path,
) -> Result<Vec<u8>, AllocError>
    ensures { IfOk result (λ name. name.items ≡ scope.now ++ spellings.dotted (spellings.idents text.now path.now)) }
{
    let mut name = Vec::from_slice(alloc, scope)?;
    name.extend_from_slice(dotted(alloc, text, path)?.as_slice())?;
    Ok(name)
}
