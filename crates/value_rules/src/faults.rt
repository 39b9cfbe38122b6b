//! The first variable without a value that it needs.
ghost use Rattle.std.specs.Prelude.{IfOk, length, map};
ghost use Rattle.parameter_values.specs.Givens as givens;
ghost use Rattle.value_rules.specs.Needs as wanted;
ghost use Rattle.value_rules.specs.private.Missing as meaning;
ghost use Rattle.value_rules.specs.Faults as faults;

use crate::missing::{Needs, first_failing, waiting_graph};
use class_scopes::Table;
use mo_order::{OrderEnd, ordered};
use parameter_values::{Parameter, Values};
use std::alloc::{AllocError, Global};
use std::error::Error;
use std::fmt;
use sync_values::Value;

/// A broken rule of values.
#[derive(Clone, Copy, Debug)]
pub enum ValueFault {
    /// N6, and the number of the parameter or constant among those of the model.
    Waiting(usize),
    /// N7, and the number of the variable among those of the model.
    Failing(usize),
}

impl fmt::Display for ValueFault {
    fn fmt<W: fmt::Write>(&self, f: &mut fmt::Formatter<W>) -> fmt::Result {
        match self {
            ValueFault::Waiting(index) => write!(
                f,
                "the value of parameter {index}, counted from 0, needs itself"
            ),
            ValueFault::Failing(index) => write!(
                f,
                "the value of variable {index}, counted from 0, fails"
            ),
        }
    }
}

impl Error for ValueFault {}

/// The least number of a parameter that waits for itself.
fn first_waiting(
    values: &Values<'_>,
    parameters: &[Parameter<'_>],
) -> Result<Option<usize>, AllocError>
    ensures { IfOk result (λ first. meaning.IsFirstWaiting (map (meaning.waiting values.now.text.now values.now.numbers.now values.now.slots.now (length parameters.now)) (map givens.valued parameters.now)) first) }
{
    let graph = waiting_graph(values, parameters)?;
    match ordered(values.alloc, graph.as_slice()) {
        Ok(_) => Ok(None),
        Err(OrderEnd::Cycle(x)) => Ok(Some(x)),
        Err(OrderEnd::NoMemory) => Err(AllocError),
    }
}

/// The first broken rule of the values of a model: N6 before N7, each at its first variable in flat order. `None` where each
/// value that is needed is there. `found` are the values of the parameters. Memory that is refused is the only error.
pub fn value_fault(
    alloc: Global,
    text: &[u8],
    numbers: &Table,
    parameters: &[Parameter<'_>],
    found: &[Option<Value>],
    variables: &[Needs<'_>],
) -> Result<Option<ValueFault>, AllocError>
    ensures { IfOk result (λ fault. faults.IsFirstFault text.now numbers.now (map givens.valued parameters.now) found.now (map wanted.needed variables.now) fault) }
{
    let values = Values {
        alloc,
        text,
        numbers,
        slots: found,
    };
    let waiting = first_waiting(&values, parameters)?;
    match waiting {
        Some(x) => Ok(Some(ValueFault::Waiting(x))),
        None => {
            let failing = first_failing(&values, parameters.len(), variables)?;
            match failing {
                Some(x) => Ok(Some(ValueFault::Failing(x))),
                None => Ok(None),
            }
        }
    }
}
