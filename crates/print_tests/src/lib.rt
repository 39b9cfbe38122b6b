//! Tests of what is printed: lines of the trace, lines of refusals and faults, texts of models and of clocks.
#![tactic(auto)]

#[cfg(test)]
mod err_lines;
#[cfg(test)]
mod models;
#[cfg(test)]
mod texts;
#[cfg(test)]
mod trace_lines;
