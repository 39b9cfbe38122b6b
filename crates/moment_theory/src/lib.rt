//! The values of a moment, in whatever order its equations are taken, and how a run goes on from moment to moment.
//!
//! Each function is a law: it does nothing, and its contract is a statement on the definitions of `flat_model` and of
//! this crate, on which the crates that run a model rest.
#![tactic(auto)]

mod law;

pub use law::{
    alike_law, division_law, fault_law, group_law, group_tick_law, group_use_law, met_law,
    next_law, one_fault_law, one_run_law, only_law, order_law, ordered_law, partitions_law,
    piece_use_law, pieces_law, renamed_law, sound_law, stop_law, taken_law, turn_law, unheld_law,
    whole_law,
};
