//! Tests of the crates below.
#![tactic(auto)]

#[cfg(test)]
mod connections;
#[cfg(test)]
mod flat_models;
#[cfg(test)]
mod fractions;
#[cfg(test)]
mod outside;
#[cfg(test)]
mod tokens;
#[cfg(test)]
mod trees;
#[cfg(test)]
mod values;
