//! Tests of flattening: the flat models of texts as they are printed, the first broken rule of others, and the limits.
#![tactic(auto)]

#[cfg(test)]
mod flattened;
#[cfg(test)]
mod limits;
#[cfg(test)]
mod models;
#[cfg(test)]
mod printed;
#[cfg(test)]
mod refusals;
