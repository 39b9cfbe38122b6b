//! Tests of the order of classes.
#![tactic(auto)]

#[cfg(test)]
mod orders;
