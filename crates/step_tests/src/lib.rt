//! Tests of prepared code.
#![tactic(auto)]

#[cfg(test)]
mod code;
