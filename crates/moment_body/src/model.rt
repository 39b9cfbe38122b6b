use flat_model::{Clocking, FlatModel, Table};

/// A flat model with its clocking and the table of its inputs.
#[derive(Drop)]
pub struct ClockedModel {
    pub flat: FlatModel,
    pub clocking: Clocking,
    pub table: Table,
}
