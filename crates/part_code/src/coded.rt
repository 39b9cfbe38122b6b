use cell_keys::CellKeys;
use part_stretches::ClassStretch;

/// Where the value of a use's name stands among the words, and whether it is a Boolean.
#[derive(Clone, Copy, Debug)]
pub struct Landing {
    pub cell: u32,
    pub boolean: bool,
}

/// The uses of a base partition as prepared code: what its cells are for, where the value of each use's name stands, the
/// stretches of code, each with the place of its clock as its class, and room for the words of the cells. The words hold
/// nothing from one moment to the next.
#[derive(Drop)]
pub struct Coded {
    pub keys: CellKeys,
    pub landings: Vec<Landing>,
    pub stretches: Vec<ClassStretch>,
    pub words: Vec<i64>,
}
