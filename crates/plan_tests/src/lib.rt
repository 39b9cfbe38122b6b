//! Tests of the plans of a run.
#![tactic(auto)]

#[cfg(test)]
mod counts;
#[cfg(test)]
mod given;
#[cfg(test)]
mod moments;
#[cfg(test)]
mod planning;
#[cfg(test)]
mod units;
