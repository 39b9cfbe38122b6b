//! Whole commands over files and outputs in memory. The expected answers are worked out by hand from the language, and none
//! is the program's own.
#![tactic(auto)]

#[cfg(test)]
mod call;
#[cfg(test)]
mod controller;
#[cfg(test)]
mod devices;
#[cfg(test)]
mod gate;
#[cfg(test)]
mod limits;
#[cfg(test)]
mod many;
#[cfg(test)]
mod no_fail;
#[cfg(test)]
mod refusals;
#[cfg(test)]
mod runs;
#[cfg(test)]
mod stress;
#[cfg(test)]
mod workers;
