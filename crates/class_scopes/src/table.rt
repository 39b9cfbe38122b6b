//! Tables of names.
ghost use Rattle.std.specs.Prelude.{◌≡◌, [], ◌<◌, IfOk, OnErr, length, map};
ghost use Rattle.class_scopes.specs.Spelled.{spelled};
ghost use Rattle.class_scopes.specs.Places as places;
ghost use Rattle.class_scopes.specs.Tables.{number_of, Declares, IsTableOf, span_entry};

use indexmap::IndexMap;
use mo_parser::{Span, spelled};
use std::alloc::{AllocError, Global};
use std::marker::Model;

/// Names, each with the number at which it stands first.
#[derive(Drop)]
pub struct Table {
    numbers: IndexMap<Vec<u8>, usize>,
}

impl Model for Table {
    ghost use Rattle.std.specs.Prelude.{List, ℕ, map};

    ghost Value = { List (List ℕ × ℕ) };

    ghost view = { λ t. map (λ entry. (entry.0.items, entry.1)) t.numbers.entries };
}

impl Table {
    /// A table without names.
    pub fn new(alloc: Global) -> Table
        ensures { result ≡ [] }
    {
        Table {
            numbers: IndexMap::new(alloc),
        }
    }

    /// The number of a name, if it is there.
    pub fn number(&self, name: &[u8]) -> Option<usize>
        ensures { result ≡ number_of self.now name.now }
    {
        self.numbers.get(name).copied()
    }

    /// Adds a name at the end if it is new, and tells whether it is. Memory that is refused changes nothing.
    pub fn declare(&mut self, alloc: Global, name: &[u8], number: usize) -> Result<bool, AllocError>
        ensures declared { IfOk result (λ added. Declares self.old name.now number added self.new) }
        ensures err { OnErr result (self.new ≡ self.old) }
    {
        if self.number(name).is_some() {
            return Ok(false);
        }
        let key = Vec::from_slice(alloc, name)?;
        self.numbers.insert(key, number)?;
        Ok(true)
    }
}

/// The lesser of two places.
pub fn lesser(a: Option<u32>, b: Option<u32>) -> Option<u32>
    ensures { result ≡ places.lesser a b }
{
    match (a, b) {
        (None, other) | (other, None) => other,
        (Some(a), Some(b)) => Some(a.min(b)),
    }
}

/// Names by the numbers of their first places, and the least place of a name that stood before.
#[derive(Drop)]
pub struct Declared {
    pub table: Table,
    pub repeated: Option<u32>,
}

/// The table of the names at these places of the text.
pub fn table_of(alloc: Global, text: &[u8], spans: &[Span]) -> Result<Declared, AllocError>
    ensures table { IfOk result (λ declared. IsTableOf (map (spelled text.now) spans.now) declared.table) }
    ensures repeated { IfOk result (λ declared. declared.repeated ≡ places.least (places.repeats [] (map (span_entry text.now) spans.now))) }
{
    let mut table = Table::new(alloc);
    let mut repeated = None;
    for (number, span) in spans.iter().enumerate() {
        if !table.declare(alloc, spelled(text, *span), number)? {
            repeated = lesser(repeated, Some(span.at));
        }
    }
    Ok(Declared { table, repeated })
}
