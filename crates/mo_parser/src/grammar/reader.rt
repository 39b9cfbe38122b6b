//! What reads elements, equations and classes.
use std::alloc::Global;

/// Reads what stands outside of all brackets and if-expressions.
#[derive(Clone, Copy)]
pub struct Reader {
    pub alloc: Global,
    /// How many levels of brackets and if-expressions may be opened.
    pub depth: usize,
}
