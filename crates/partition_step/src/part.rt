use first_failure::EquationFailing;
use flat_model::Clock;
use part_code::Coded;
use rational_time::Ratio;
use sync_values::List;
use tree_step::{Cell, ClockNow, Entry};

/// A class with its clock, and the instant of its last tick where it had one.
#[derive(Clone, Copy)]
pub struct ClassKept {
    pub class: u32,
    pub clock: Clock,
    pub ticked: Option<Ratio>,
}

/// What comes of a step.
#[derive(Clone, Copy, Debug, PartialEq, Eq)]
pub enum Outcome {
    Stepped,
    /// Of the equations that fail, the first one in flat order.
    Failed(EquationFailing),
}

/// The uses of a base partition in their order, the cell of each one's name, the classes of their equations, room for what is
/// shown of these at a moment, and the uses as prepared code where they have some.
#[derive(Drop)]
pub struct Part {
    pub(crate) entries: List<Entry>,
    pub(crate) cells: Vec<Cell>,
    pub(crate) classes: Vec<ClassKept>,
    pub(crate) clocks: Vec<ClockNow>,
    pub(crate) code: Option<Coded>,
}
