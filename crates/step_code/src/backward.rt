ghost use Rattle.std.specs.Prelude.{◌≡◌, [], ◌∷◌, length, reverse, OnOk, OnErr};

use crate::machine::Instr;
use std::alloc::{AllocError, Global};
use std::marker::Model;

/// Instructions that are made from the last to the first, so that the length of what a jump passes is known.
#[derive(Drop)]
pub struct Backward {
    items: Vec<Instr>,
}

impl Model for Backward {
    ghost use Rattle.std.specs.Prelude.{List, reverse};
    ghost use Rattle.std.specs.Coded.{coded_list};
    ghost use Rattle.step_code.specs.declared.machine.Instr.{Instr};

    ghost Value = { List Instr };

    ghost view = { λ it. reverse it.items.items };
}

impl Backward {
    /// No instructions yet; takes no memory.
    pub fn new(alloc: Global) -> Backward
        ensures { result ≡ [] }
    {
        Backward {
            items: Vec::new(alloc),
        }
    }

    /// How many instructions there are.
    pub fn len(&self) -> usize
        ensures { result ≡ length self.now }
    {
        self.items.len()
    }

    /// One more instruction before the others; where memory is refused, none.
    pub fn add(&mut self, instr: Instr) -> Result<(), AllocError>
        ensures ok { OnOk result (self.new ≡ instr ∷ self.old) }
        ensures err { OnErr result (self.new ≡ self.old) }
    {
        self.items.push(instr)?;
        Ok(())
    }

    /// The instructions from the first to the last.
    pub fn finish(self) -> Vec<Instr>
        ensures { result.items ≡ self }
    {
        let Backward { mut items } = self;
        items.reverse();
        items
    }
}
