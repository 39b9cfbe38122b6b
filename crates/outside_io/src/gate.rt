//! A gate that pieces of work pass.

/// Passed once by each piece of work that steps a partition, as it starts.
pub trait Gate {
    /// Lets the piece of work of this partition pass. It returns, and changes nothing that a contract sees.
    fn pass(&self, partition: u32);
}

/// A gate that is always open.
#[derive(Clone, Copy)]
pub struct OpenGate;

impl Gate for OpenGate {
    fn pass(&self, _partition: u32) {}
}
