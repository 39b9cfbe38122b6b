//! The classes that conversions join.
ghost use Rattle.std.specs.Prelude.{◌≡◌, IfOk, OnOk, [], ◌∷◌, ◌++◌};
ghost use Rattle.base_partition.specs.private.Pairs.{class_pair, class_pairs};

use crate::member::{flag_in, number_in};
use mo_connect::Pair;
use std::alloc::{AllocError, Global};
use sync_values::List;

fn add(
    pairs: &mut List<Pair>,
    class_of: &[u32],
    members: &[bool],
    conversion: Pair,
) -> Result<(), AllocError>
    ensures { OnOk result (pairs.new ≡ pairs.old ++ class_pair members.now class_of.now conversion) }
{
    if !flag_in(members, conversion.b) {
        return Ok(());
    }
    pairs.push(Pair {
        a: number_in(class_of, conversion.a),
        b: number_in(class_of, conversion.b),
    })
}

/// The class of the equation and the class of the argument, of each conversion.
pub(crate) fn joined(
    alloc: Global,
    class_of: &[u32],
    members: &[bool],
    conversions: &[Pair],
) -> Result<List<Pair>, AllocError>
    ensures { IfOk result (λ pairs. pairs ≡ class_pairs members.now class_of.now conversions.now) }
{
    let mut pairs = List::new(alloc);
    for conversion in conversions {
        add(&mut pairs, class_of, members, *conversion)?;
    }
    Ok(pairs)
}
