use flat_model::{ClockExpr, Conversion, Place};
use mo_connect::Pair;
use rational_time::Ratio;
use sync_values::List;

/// A clock that is given at a node. Constructors are numbered in flat order, then by place.
#[derive(Drop)]
pub struct Constructor {
    pub node: u32,
    pub equation: u32,
    pub clock: ClockExpr,
}

/// A conversion other than `noClock` of an equation: a node of the class of the result, and the name of the argument.
#[derive(Clone, Copy)]
pub struct Relation {
    pub result: u32,
    pub argument: u32,
    pub equation: u32,
    pub by: Conversion,
}

/// Why a part is cut: it is the first argument of `sample`, or the condition of an event constructor.
#[derive(Clone, Copy)]
pub enum Cause {
    Sampled,
    Condition,
}

/// An equation, or a part that is cut from one, with the clause of the equation. A part has a cause and no clause.
#[derive(Clone, Copy)]
pub struct NodeOf {
    pub equation: u32,
    pub cause: Option<Cause>,
    pub clause: Option<u32>,
}

/// What the equations of a model say of clocks. Nodes are numbered after names. `holds` are the nodes in which a `hold`
/// stands, `conversions` a node and an argument for each conversion, `noClock` included.
#[derive(Drop)]
pub struct Terms {
    pub nodes: List<NodeOf>,
    pub joins: List<Pair>,
    pub clocked: List<u32>,
    pub unclocked: List<u32>,
    pub constructors: List<Constructor>,
    pub relations: List<Relation>,
    pub holds: List<u32>,
    pub conversions: List<Pair>,
}

/// The classes of a model.
#[derive(Drop)]
pub struct Classes {
    pub class_of: List<u32>,
    pub clocked: List<bool>,
    pub partition: List<u32>,
    pub places: List<Place>,
}

/// A clock while it is solved: its start may be below 0, and on a site's axis its period and start may be no whole numbers.
#[derive(Clone, Copy)]
pub struct Grid {
    pub site: Option<u32>,
    pub period: Ratio,
    pub start: Ratio,
    pub negative: bool,
}

/// One for each clocked class.
pub type Grids = List<Grid>;
