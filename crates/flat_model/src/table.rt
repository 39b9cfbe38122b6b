use rational_time::Ratio;
use sync_values::{List, Value};

/// A table of inputs. Its times rise, and the first is 0; its columns are the inputs by their numbers, each once;
/// its cells are, row by row, one value for each column.
#[derive(Drop)]
pub struct Table {
    pub times: List<Ratio>,
    pub columns: List<u32>,
    pub cells: List<Value>,
}

/// The values of unclocked names and the last values of held names at the moment before, one entry of each for each
/// flat name.
#[derive(Drop)]
pub struct Left {
    pub now: List<Option<Value>>,
    pub last: List<Value>,
}
