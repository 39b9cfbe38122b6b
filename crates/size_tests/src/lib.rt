//! Tests of the limits of a model.
#![tactic(auto)]

#[cfg(test)]
mod limits;
