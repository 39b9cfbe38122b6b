//! What an equation reads while the values of a moment are being found.
ghost use Rattle.std.specs.Prelude.{◌≡◌};
ghost use Rattle.tree_step.specs.Frames.{shown_elapsed};

use crate::cell::{Cell, Standing, cell_at};
use flat_model::{Elapsed, Left, Lookup};
use sync_values::Value;

/// What is shown of a clock at a moment: whether it ticks, and where it does, whether it does for the first time, and its
/// interval. Of an event clock that ticks for the first time the end of the interval alone counts.
#[derive(Clone, Copy)]
pub struct ClockNow {
    pub ticks: bool,
    pub first: bool,
    pub interval: Elapsed,
}

impl ClockNow {
    fn elapsed(&self) -> Elapsed
        ensures { result ≡ shown_elapsed self.now.first self.now.interval }
    {
        match self.interval {
            Elapsed::Period(period) => Elapsed::Period(period),
            Elapsed::Between(from, to) => {
                if self.first {
                    Elapsed::Between(to, to)
                } else {
                    Elapsed::Between(from, to)
                }
            }
        }
    }
}

/// The cells of the names that can be read, the values at the moment before, and what is shown of the equation's clock.
#[derive(Drop)]
pub struct Frame<'a> {
    pub places: &'a [u32],
    pub cells: &'a [Cell],
    pub left: &'a Left,
    pub clock: ClockNow,
}

impl<'a> Lookup for Frame<'a> {
    ghost use Rattle.tree_step.specs.Frames.{frame_views, shown_elapsed};

    ghost views = { λ f. frame_views f.places.now f.cells.now f.left.now f.clock };

    ghost elapsed = { λ f. shown_elapsed f.clock.first f.clock.interval };

    fn now(&self, name: u32) -> Option<Value> {
        match cell_at(self.places, self.cells, name) {
            Some(cell) => cell.now,
            None => None,
        }
    }

    fn previous(&self, name: u32) -> Value {
        match cell_at(self.places, self.cells, name) {
            Some(cell) => cell.kept,
            None => unreachable!(),
        }
    }

    fn last(&self, name: u32) -> Value {
        match cell_at(self.places, self.cells, name) {
            Some(cell) => match cell.standing {
                Standing::Rests => cell.kept,
                Standing::Ticks => cell.now.unwrap(),
                Standing::Unknown => cell.now.unwrap(),
            },
            None => unreachable!(),
        }
    }

    fn left_now(&self, name: u32) -> Option<Value> {
        match self.left.now.as_slice().get(name as usize) {
            Some(value) => *value,
            None => None,
        }
    }

    fn left_last(&self, name: u32) -> Value {
        self.left.last.as_slice()[name as usize]
    }

    fn first(&self) -> bool {
        self.clock.first
    }

    fn interval(&self) -> Elapsed {
        self.clock.elapsed()
    }
}
