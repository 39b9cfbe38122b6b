//! Sums over all that instances have.
ghost use Rattle.std.specs.Prelude.{◌≡◌, ◌≤◌, ◌+◌, IfOk, length, min, sum_by};
ghost use Rattle.flat_instances.specs.Instances.{instances};
ghost use Rattle.instance_totals.specs.Weights as weights;
ghost use Rattle.instance_totals.specs.private.Levels as levels;

use class_scopes::{File, TypeName};
use mo_parser::Element;
use std::alloc::{AllocError, Global};

/// One more than the levels of components, for the equations of the last of them.
const LEVELS: usize = 33;

/// The number of a class, or 0 where it has none.
pub fn number_at(numbers: &[usize], class: usize) -> usize
    ensures { result ≡ weights.number_at numbers.now class }
{
    match numbers.get(class) {
        Some(number) => *number,
        None => 0,
    }
}

/// The sum of two numbers, or `most` where it is more.
pub fn added(a: usize, b: usize, most: usize) -> usize
    ensures { result ≡ min (a + b) most }
{
    a.saturating_add(b).min(most)
}

/// What is summed up: a number for each variable, and a number for the equations of each class. A sum above `most` is told as
/// `most`.
#[derive(Clone, Copy)]
pub struct Weighing<'a> {
    pub file: &'a File<'a>,
    pub variable: usize,
    pub own: &'a [usize],
    pub most: usize,
}

impl<'a> Weighing<'a> {
    /// The sum of a component, from the sums of classes.
    fn weight(&self, below: &[usize], element: &Element) -> usize
        ensures { result ≡ levels.weight self.now.file.now.text.now self.now.file.now.classes.now self.now.variable (weights.number_at below.now) element.now }
    {
        match self.file.type_of(&element.base) {
            Some(TypeName::Simple(_)) => self.variable,
            Some(TypeName::Class(class)) => {
                if self.file.is_simple(TypeName::Class(class)) {
                    self.variable
                } else {
                    number_at(below, class)
                }
            }
            _ => 0,
        }
    }

    /// The sum of a class, from those of the classes of its components.
    fn total_in(&self, below: &[usize], class: usize) -> usize
        ensures { result ≡ min (levels.next self.now.file.now.text.now self.now.file.now.classes.now self.now.variable self.now.own.now (weights.number_at below.now) class) self.now.most }
    {
        let mut total = number_at(self.own, class).min(self.most);
        for element in self.file.elements_of(class) {
            total = added(total, self.weight(below, element), self.most);
        }
        total
    }

    /// The sums of all classes, from those with a level less.
    fn totals_above(&self, alloc: Global, below: &[usize]) -> Result<Vec<usize>, AllocError>
        requires { length self.now.own.now ≤ length self.now.file.now.classes.now }
        ensures { IfOk result (λ totals. levels.AreNext self.now.file.now.text.now self.now.file.now.classes.now self.now.variable self.now.own.now self.now.most below.now totals.items) }
    {
        let mut totals = Vec::new(alloc);
        for class in 0..self.file.classes.len() {
            totals.push(self.total_in(below, class))?;
        }
        Ok(totals)
    }

    /// The sums of all classes, down to the last level.
    fn totals(&self, alloc: Global) -> Result<Vec<usize>, AllocError>
        requires { length self.now.own.now ≤ length self.now.file.now.classes.now }
        ensures { IfOk result (λ totals. levels.AreTotals self.now.file.now.text.now self.now.file.now.classes.now self.now.variable self.now.own.now self.now.most LEVELS totals.items) }
    {
        let mut below = Vec::new(alloc);
        for level in 0..LEVELS {
            let totals = self.totals_above(alloc, below.as_slice())?;
            if totals.as_slice() == below.as_slice() {
                return Ok(below);
            }
            below = totals;
        }
        Ok(below)
    }

    /// The sum over all that the instances of a class have, or `most` where it is more. The work is that of the classes of the
    /// file, level by level, however many instances there are. Memory that is refused is the only error.
    pub fn total(&self, alloc: Global, class: usize) -> Result<usize, AllocError>
        requires { length self.now.own.now ≤ length self.now.file.now.classes.now }
        ensures { IfOk result (λ total. total ≡ min (sum_by (weights.weight self.now.variable self.now.own.now) (instances self.now.file.now.text.now self.now.file.now.classes.now class)) self.now.most) }
    {
        let totals = self.totals(alloc)?;
        Ok(number_at(totals.as_slice(), class))
    }
}
