//! Tests of the instances that have something in them.
#![tactic(auto)]

#[cfg(test)]
mod instances;
