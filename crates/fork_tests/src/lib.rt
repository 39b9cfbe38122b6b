//! Tests of pieces that are stepped side by side.
#![tactic(auto)]

#[cfg(test)]
mod counters;
