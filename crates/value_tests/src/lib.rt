//! Tests of the rules of values.
#![tactic(auto)]

#[cfg(test)]
mod values;
