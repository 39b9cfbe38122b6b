//! Tests of solving equations, of the order in which they give values to names, of its stages, of which equations have
//! prepared code, and of groups of base partitions.
#![tactic(auto)]

#[cfg(test)]
mod codes;
#[cfg(test)]
mod fine;
#[cfg(test)]
mod grouping;
#[cfg(test)]
mod models;
#[cfg(test)]
mod orders;
#[cfg(test)]
mod reads;
#[cfg(test)]
mod solving;
