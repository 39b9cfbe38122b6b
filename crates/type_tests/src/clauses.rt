//! The clocks of clauses, which are told with the first equation of their clause.
ghost use Rattle.std.specs.Prelude.{◌≡◌, ◌≤◌, [], ◌∷◌, ◌++◌, length, IfOk};
ghost use Rattle.flat_model.specs.RawModels.{AreClausesUsed};
ghost use Rattle.flat_model.specs.declared.raw.RawEq.{RawEq};

use crate::models::Arg::{Name, Number, Truth};
use crate::models::{Arg, B, C, U, V, X, argument, call, names};
use flat_model::{RawEq, RawExpr, RawModel};
use flat_types::{TypeCode, TypeEnd, typed};
use std::alloc::{AllocError, Global};
use std::test::Fail;
use sync_values::List;

/// The clock of a clause: a function, which has no name where its one argument stands alone, and its arguments; and the
/// rule that it breaks.
static CLOCKS: [(&[u8], &[Arg], Option<TypeCode>); 16] = [
    (b"", &[Name(C)], None),
    (b"Clock", &[], None),
    (b"Clock", &[Number(2)], None),
    (b"Clock", &[Number(1), Number(10)], None),
    (b"Clock", &[Name(B)], None),
    (b"subSample", &[Name(C), Number(2)], None),
    (b"", &[Name(B)], Some(TypeCode::Y5)),
    (b"", &[Truth], Some(TypeCode::Y5)),
    (b"previous", &[Name(B)], Some(TypeCode::Y5)),
    (b"firstTick", &[], Some(TypeCode::Y5)),
    // A Boolean is told before the rule that the argument of `hold` is no input.
    (b"hold", &[Name(V)], Some(TypeCode::Y5)),
    (b"", &[Name(X)], Some(TypeCode::Y1)),
    (b"", &[Number(1)], Some(TypeCode::Y1)),
    (b"previous", &[Number(3)], Some(TypeCode::Y2)),
    (b"hold", &[Name(U)], Some(TypeCode::Y2)),
    (b"Clock", &[Number(2), Number(0)], Some(TypeCode::Y4)),
];

/// What x is equal to in an equation before a clause and in two equations of it, whether the clock of the clause is a
/// Boolean, and the end.
const PLACES: [([Arg; 3], bool, Option<TypeEnd>); 6] = [
    ([Number(1), Number(2), Number(3)], false, None),
    (
        [Number(1), Number(2), Number(3)],
        true,
        Some(TypeEnd::Fault {
            code: TypeCode::Y5,
            equation: 1,
        }),
    ),
    // The clock is told before the sides of the first equation of the clause, and behind the equations before it.
    (
        [Number(1), Truth, Truth],
        true,
        Some(TypeEnd::Fault {
            code: TypeCode::Y5,
            equation: 1,
        }),
    ),
    (
        [Truth, Number(2), Number(3)],
        true,
        Some(TypeEnd::Fault {
            code: TypeCode::Y1,
            equation: 0,
        }),
    ),
    (
        [Number(1), Truth, Number(3)],
        false,
        Some(TypeEnd::Fault {
            code: TypeCode::Y1,
            equation: 1,
        }),
    ),
    (
        [Number(1), Number(2), Truth],
        false,
        Some(TypeEnd::Fault {
            code: TypeCode::Y1,
            equation: 2,
        }),
    ),
];

fn clock(alloc: Global, function: &[u8], args: &[Arg]) -> Result<RawExpr, AllocError> {
    match args {
        [arg] if function.is_empty() => argument(alloc, *arg),
        _ => call(alloc, function, args),
    }
}

/// One more equation, of x and an argument.
fn with_equation(
    alloc: Global,
    equations: List<RawEq>,
    right: Arg,
    clause: Option<u32>,
) -> Result<List<RawEq>, AllocError>
    ensures { IfOk result (λ more. (equation : RawEq) × (more ≡ equations ++ equation ∷ []) × (equation.clause ≡ clause)) }
{
    let right = argument(alloc, right)?;
    let mut equations = equations;
    equations.push(RawEq {
        left: RawExpr::Name(X),
        right,
        clause,
    })?;
    Ok(equations)
}

/// A model of an equation in no clause and two in one.
fn model(
    alloc: Global,
    function: &[u8],
    args: &[Arg],
    rights: [Arg; 3],
) -> Result<RawModel, AllocError>
    ensures few { IfOk result (λ raw. length raw.equations ≤ 3) }
    ensures used { IfOk result AreClausesUsed }
{
    let [before, first, second] = rights;
    let names = names(alloc)?;
    let mut clauses = List::new(alloc);
    clauses.push(clock(alloc, function, args)?)?;
    let equations = with_equation(alloc, List::new(alloc), before, None)?;
    let equations = with_equation(alloc, equations, first, Some(0))?;
    let equations = with_equation(alloc, equations, second, Some(0))?;
    Ok(RawModel {
        names,
        equations,
        clauses,
    })
}

/// How the typing of such a model ends; none where it has types.
fn end_of(
    alloc: Global,
    function: &[u8],
    args: &[Arg],
    rights: [Arg; 3],
) -> Result<Option<TypeEnd>, AllocError> {
    let raw = model(alloc, function, args, rights)?;
    Ok(typed(alloc, &raw).err())
}

fn wanted(code: Option<TypeCode>) -> Option<TypeEnd> {
    match code {
        Some(code) => Some(TypeEnd::Fault { code, equation: 1 }),
        None => None,
    }
}

#[test]
fn clauses_have_clocks(rt: HostRuntime) -> Result<(), Fail> {
    let alloc = rt.alloc();
    for row in &CLOCKS {
        let found = end_of(alloc, row.0, row.1, [Number(1), Number(2), Number(3)])?;
        assert_eq!(rt; found, wanted(row.2));
    }
    Ok(())
}

#[test]
fn a_clock_is_told_with_its_first_equation(rt: HostRuntime) -> Result<(), Fail> {
    let alloc = rt.alloc();
    for (rights, is_boolean, wanted) in &PLACES {
        let clock = if *is_boolean { B } else { C };
        let found = end_of(alloc, b"", &[Name(clock)], *rights)?;
        assert_eq!(rt; found, *wanted);
    }
    Ok(())
}
