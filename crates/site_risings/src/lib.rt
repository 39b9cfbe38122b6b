//! What the conditions of sites answer at a moment, which of them fails first, and which rise.
#![tactic(auto)]

mod answers;
mod law;
mod noting;
mod reads;

pub use answers::{SiteFailing, answer_sites};
pub use law::{answers_law, risings_law};
pub use noting::note_sites;
