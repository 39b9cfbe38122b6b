//! Tests of the rules of arguments.
#![tactic(auto)]

#[cfg(test)]
mod rows;
