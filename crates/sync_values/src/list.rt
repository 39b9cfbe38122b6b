ghost use Rattle.std.specs.Prelude.{◌≡◌, [], ◌∷◌, ◌++◌, ◌<◌, ◌≤◌, ◌+◌, ◌↔◌, IsTrue, length, slice_get, MatchOption, IfOk, OnOk, OnErr, OnSome, vec_len, vec_capacity};
ghost use Rattle.std.specs.Option.{option_copied};

use std::alloc::{AllocError, Global};
use std::marker::Model;

/// A vector that contracts see as the list of its elements.
#[derive(Debug, Drop)]
pub struct List<T> {
    items: Vec<T>,
}

impl<T> Model for List<T> {
    ghost use Rattle.std.specs.Prelude.{List};
    ghost use Rattle.std.specs.Coded.{coded_list};

    ghost Value = { List T };

    ghost coded = { coded_list T.code };

    ghost view = { λ it. it.items.items };
}

impl<T> List<T> {
    /// The empty list. It takes no memory before the first `push`.
    pub fn new(alloc: Global) -> List<T>
        ensures { result ≡ [] }
    {
        List {
            items: Vec::new(alloc),
        }
    }

    /// The empty list, with memory for `capacity` elements taken at once.
    pub fn with_capacity(alloc: Global, capacity: usize) -> Result<List<T>, AllocError>
        ensures { IfOk result (λ list. list ≡ []) }
    {
        Ok(List {
            items: Vec::with_capacity(alloc, capacity)?,
        })
    }

    /// The elements of a vector, in their order.
    pub fn from_vec(items: Vec<T>) -> List<T>
        ensures { result ≡ items.items }
    {
        List { items }
    }

    /// The vector of the elements.
    pub fn into_vec(self) -> Vec<T>
        ensures { result.items ≡ self }
    {
        let List { items } = self;
        items
    }

    pub fn as_slice(&self) -> &[T]
        ensures { result.now ≡ self.now }
    {
        self.items.as_slice()
    }

    pub fn len(&self) -> usize
        ensures { result ≡ length self.now }
    {
        self.items.len()
    }

    pub fn is_empty(&self) -> bool
        ensures { IsTrue result ↔ (self.now ≡ []) }
    {
        self.items.is_empty()
    }

    /// The element at a place, counted from 0.
    pub fn get(&self, at: usize) -> Option<&T>
        ensures value { option_copied result ≡ slice_get self.now at }
        ensures within { OnSome result (at < length self.now) }
    {
        self.items.get(at)
    }
}

impl<T: Drop> List<T> {
    /// Adds an element at the end. A list that memory is refused for stays as it was.
    pub fn push(&mut self, item: T) -> Result<(), AllocError>
        ensures ok { OnOk result (self.new ≡ self.old ++ item ∷ []) }
        ensures err { OnErr result (self.new ≡ self.old) }
    {
        self.items.push(item)?;
        Ok(())
    }

    /// Takes the last element off.
    pub fn pop(&mut self) -> Option<T>
        ensures { MatchOption result ((self.old ≡ []) × (self.new ≡ [])) (λ last. self.old ≡ self.new ++ last ∷ []) }
    {
        self.items.pop()
    }
}
