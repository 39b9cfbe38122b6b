//! Tests of input tables.
#![tactic(auto)]

#[cfg(test)]
mod edges;
#[cfg(test)]
mod tables;
#[cfg(test)]
mod wide;
