//! Tests of the values of inputs, and of rows.
#![tactic(auto)]

#[cfg(test)]
mod inputs;
#[cfg(test)]
mod models;
