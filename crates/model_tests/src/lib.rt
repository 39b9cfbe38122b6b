//! Tests of the layers above flat models.
#![tactic(auto)]

#[cfg(test)]
mod expressions;
#[cfg(test)]
mod graphs;
#[cfg(test)]
mod orders;
#[cfg(test)]
mod orientation;
