//! Paths that arguments of modifications give something to.
ghost use Rattle.std.specs.Prelude.{◌≡◌, [], IfOk, OnOk, OnErr, map};
ghost use Rattle.mo_parser.specs.declared.tree.Arg.TheViews.{out-Arg};
ghost use Rattle.class_scopes.specs.Places as places;
ghost use Rattle.class_scopes.specs.Spelled.{spelled};
ghost use Rattle.class_scopes.specs.Tables.{number_of, Declares};
ghost use Rattle.argument_rules.specs.Paths as meaning;

use class_scopes::{lesser, place_of};
use indexmap::IndexMap;
use mo_parser::{Arg, Span, spelled};
use std::alloc::{AllocError, Global};
use std::marker::Model;

/// A path, each of its names with a dot behind it, and the place of the argument that ends it.
#[derive(Drop)]
pub struct Leaf {
    pub path: Vec<u8>,
    pub place: u32,
}

/// Paths, each with the number at which it stands first.
#[derive(Drop)]
struct Seen {
    numbers: IndexMap<Vec<u8>, usize>,
}

impl Model for Seen {
    ghost use Rattle.std.specs.Prelude.{List, ℕ, map};

    ghost Value = { List (List ℕ × ℕ) };

    ghost view = { λ seen. map (λ entry. (entry.0.items, entry.1)) seen.numbers.entries };
}

impl Seen {
    fn new(alloc: Global) -> Seen
        ensures { result ≡ [] }
    {
        Seen {
            numbers: IndexMap::new(alloc),
        }
    }

    /// The first number of a path, if it was seen.
    fn number(&self, path: &[u8]) -> Option<usize>
        ensures { result ≡ number_of self.now path.now }
    {
        self.numbers.get(path).copied()
    }

    /// Adds a path if it is new, and tells whether it is.
    fn declare(&mut self, alloc: Global, path: &[u8], number: usize) -> Result<bool, AllocError>
        ensures declared { IfOk result (λ added. Declares self.old path.now number added self.new) }
        ensures err { OnErr result (self.new ≡ self.old) }
    {
        if self.number(path).is_some() {
            return Ok(false);
        }
        let key = Vec::from_slice(alloc, path)?;
        self.numbers.insert(key, number)?;
        Ok(true)
    }
}

/// A prefix with names behind it, each with a dot.
fn along(alloc: Global, text: &[u8], prefix: &[u8], parts: &[Span]) -> Result<Vec<u8>, AllocError>
    ensures { IfOk result (λ path. path.items ≡ meaning.along prefix.now (map (spelled text.now) parts.now)) }
{
    let mut path = Vec::from_slice(alloc, prefix)?;
    for part in parts {
        path.extend_from_slice(spelled(text, *part))?;
        path.push(b'.')?;
    }
    Ok(path)
}

/// Whether an argument counts by its own path: it has a value, or no nested arguments.
fn counts(arg: &Arg) -> bool
    ensures { result ≡ meaning.counts (out-Arg arg.now).args (out-Arg arg.now).binding }
{
    if arg.args.is_empty() {
        true
    } else {
        arg.binding.is_some()
    }
}

/// Adds the paths of an argument behind a prefix.
#[cycle(leaves)]
fn leaves_of(
    alloc: Global,
    text: &[u8],
    prefix: &[u8],
    arg: &Arg,
    found: &mut Vec<Leaf>,
) -> Result<(), AllocError>
    ensures { OnOk result (meaning.Adds found.old.items (meaning.leaves_of text.now arg.now prefix.now) found.new.items) }
{
    let path = along(alloc, text, prefix, arg.name.parts.as_slice())?;
    leaves_in(alloc, text, path.as_slice(), arg.args.as_slice(), found)?;
    if counts(arg) {
        found.push(Leaf {
            path,
            place: place_of(&arg.name),
        })?;
    }
    Ok(())
}

/// Adds the paths of several arguments behind a prefix.
#[cycle(leaves)]
fn leaves_in(
    alloc: Global,
    text: &[u8],
    prefix: &[u8],
    args: &[Arg],
    found: &mut Vec<Leaf>,
) -> Result<(), AllocError>
    ensures { OnOk result (meaning.Adds found.old.items (meaning.leaves_in text.now prefix.now args.now) found.new.items) }
{
    for arg in args {
        leaves_of(alloc, text, prefix, arg, found)?;
    }
    Ok(())
}

/// The least place of a path that stood before.
fn repeated(alloc: Global, leaves: &[Leaf]) -> Result<Option<u32>, AllocError>
    ensures { IfOk result (λ least. least ≡ places.least (places.repeats [] (map meaning.entry leaves.now))) }
{
    let mut seen = Seen::new(alloc);
    let mut least = None;
    for (number, leaf) in leaves.iter().enumerate() {
        if !seen.declare(alloc, leaf.path.as_slice(), number)? {
            least = lesser(least, Some(leaf.place));
        }
    }
    Ok(least)
}

/// The least place of an argument that gives something to a path for the second time, among several.
pub fn given_twice(alloc: Global, text: &[u8], args: &[Arg]) -> Result<Option<u32>, AllocError>
    ensures { IfOk result (λ least. least ≡ places.least (meaning.given_twice text.now args.now)) }
{
    let mut leaves = Vec::new(alloc);
    leaves_in(alloc, text, &[], args, &mut leaves)?;
    let least = repeated(alloc, leaves.as_slice())?;
    Ok(least)
}
