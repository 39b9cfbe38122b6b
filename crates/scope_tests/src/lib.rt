//! Tests of classes, names, instances and the rules on them.
#![tactic(auto)]

#[cfg(test)]
mod instances;
#[cfg(test)]
mod names;
#[cfg(test)]
mod texts;
