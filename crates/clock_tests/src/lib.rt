//! Tests of the clocks of models, from a text to its clocking.
#![tactic(auto)]

#[cfg(test)]
mod clocking;
#[cfg(test)]
mod equations;
#[cfg(test)]
mod expressions;
#[cfg(test)]
mod names;
#[cfg(test)]
mod printed;
#[cfg(test)]
mod raw;
#[cfg(test)]
mod rows;
