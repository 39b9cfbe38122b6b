//! Tests of the types of flat models.
#![tactic(auto)]

#[cfg(test)]
mod clauses;
#[cfg(test)]
mod counters;
#[cfg(test)]
mod models;
#[cfg(test)]
mod types;
