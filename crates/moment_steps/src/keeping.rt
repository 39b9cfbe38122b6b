//! The values that are kept for the next moment.
ghost use Rattle.std.specs.Prelude.{◌≡◌, length};
ghost use Rattle.moment_steps.specs.Keeping as spec;
ghost use Rattle.partition_step.specs.Writing.{IsWritten};

use flat_model::Left;
use std::alloc::Global;
use std::mem::replace;
use sync_values::{List, Value};

/// Keeps the value of each name that has one.
fn keep_last(now: &[Option<Value>], last: &mut [Value])
    ensures { IsWritten (spec.last_by now.now) last.old last.new }
{
    for at in 0..last.len() {
        last[at] = match now.get(at) {
            Some(Some(value)) => *value,
            Some(None) => last[at],
            None => last[at],
        };
    }
}

fn keep_now(now: &[Option<Value>], left: &mut [Option<Value>])
    ensures { IsWritten (spec.now_by now.now) left.old left.new }
{
    for at in 0..left.len() {
        left[at] = match now.get(at) {
            Some(value) => *value,
            None => left[at],
        };
    }
}

/// Keeps the values of a moment, and the last ones up to it. It takes no memory.
pub fn keep_left(alloc: Global, now: &[Option<Value>], left: &mut Left)
    ensures now { IsWritten (spec.now_by now.now) left.old.now left.new.now }
    ensures last { IsWritten (spec.last_by now.now) left.old.last left.new.last }
{
    let mut last = replace(&mut left.last, List::new(alloc)).into_vec();
    keep_last(now, last.as_mut_slice());
    left.last = List::from_vec(last);
    let mut values = replace(&mut left.now, List::new(alloc)).into_vec();
    keep_now(now, values.as_mut_slice());
    left.now = List::from_vec(values);
}
