ghost use Rattle.std.specs.Prelude.{◌≡◌, ◌+◌, ◌<◌, ◌^◌, [], ◌∷◌, length, OnOk, OnErr, IfErr};
ghost use Rattle.cell_keys.specs.declared.keys.NoCell.TheVariants.{Memory};
ghost use Rattle.cell_keys.specs.Cells.{cell_of, with_key, Adds};

use crate::key::CellKey;
use indexmap::IndexSet;
use std::alloc::Global;
use std::marker::Model;

/// Why there is no further cell.
#[derive(Clone, Copy)]
pub enum NoCell {
    /// Memory is refused.
    Memory,
    /// There are 2^32 - 1 cells.
    Large,
}

/// Distinct keys, at most 2^32 - 1, which contracts see as a list in the order in which they were added.
#[derive(Drop)]
pub struct CellKeys {
    keys: IndexSet<CellKey>,
}

impl Model for CellKeys {
    ghost use Rattle.std.specs.Prelude.{List, length, ◌<◌, ◌^◌};
    ghost use Rattle.cell_keys.specs.declared.key.CellKey.{CellKey};

    ghost Value = { List CellKey };

    ghost view = { λ it. it.keys.keys };

    ghost invariant = { λ it. length it.keys.keys < 2 ^ 32 };
}

impl CellKeys {
    /// No keys yet; takes no memory.
    pub fn new(alloc: Global) -> CellKeys
        ensures { result ≡ [] }
    {
        CellKeys {
            keys: IndexSet::new(alloc),
        }
    }

    /// How many keys there are.
    pub fn len(&self) -> u32
        ensures { result ≡ length self.now }
    {
        self.keys.len() as u32
    }

    /// The keys in their order.
    pub fn as_slice(&self) -> &[CellKey]
        ensures { result.now ≡ self.now }
    {
        self.keys.as_slice()
    }

    /// The cell of a key, if it has one. It takes no memory.
    pub fn number(&self, key: CellKey) -> Option<u32>
        ensures { result ≡ cell_of self.now key }
    {
        let place = self.keys.get_index_of(&key)?;
        Some(place as u32)
    }

    /// Gives a key a cell behind the others, if it has none; where memory is refused, nothing is done.
    #[tactic(auto, using(crate::proofs::Distinct::key_added))]
    fn put(&mut self, key: CellKey) -> Result<(), NoCell>
        requires { length self.old + 1 < 2 ^ 32 }
        ensures added { OnOk result (self.new ≡ with_key self.old key) }
        ensures err { OnErr result (self.new ≡ self.old) }
        ensures refused { IfErr result (λ end. end ≡ Memory) }
    {
        match self.keys.insert(key) {
            Ok(_) => Ok(()),
            Err(_) => Err(NoCell::Memory),
        }
    }

    /// Gives a key a cell behind the others, if it has none. `Large` comes only where 2^32 - 1 keys have cells and this one
    /// has none.
    pub fn add(&mut self, key: CellKey) -> Result<(), NoCell>
        ensures adds { Adds self.old (key ∷ []) self.new result }
        ensures err { OnErr result (self.new ≡ self.old) }
    {
        if self.number(key).is_some() {
            return Ok(());
        }
        if self.len() == u32::MAX {
            return Err(NoCell::Large);
        }
        self.put(key)
    }
}
