//! Tests of the careful run of a base partition.
#![tactic(auto)]

#[cfg(test)]
mod careful;
