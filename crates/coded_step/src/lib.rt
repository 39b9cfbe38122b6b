//! The uses of a base partition taken at a moment by their prepared code, up to the first equation that fails.
//!
//! The words of the cells are filled from what is kept, the stretches whose clocks tick run, and where no equation fails the
//! values go back into the cells of the names. No tree is walked.
#![tactic(auto)]

mod landing;
mod running;
mod taking;

pub use taking::take_coded;
