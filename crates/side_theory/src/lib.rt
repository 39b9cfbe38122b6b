//! Equations between a clocked name and a side, `name = side` or `side = name`: what their sides give, one after the
//! other, is what their uses give.
//!
//! Each function is a law: it does nothing, and its contract is a statement on the definitions of `flat_model`, of
//! `moment_theory` and of `step_code`.
#![tactic(auto)]

mod law;

pub use law::{
    counted_law, keeps_law, onward_law, run_law, set_law, set_on_law, side_law, stretch_law,
    typed_law,
};
