//! Prepared code of equations in which a name stands inside a sum, behind `-` or behind `not`.
use crate::models::Side::{self, Inverted, Name, Negated, Number, Previous, Sum, TakenFromTen};
use crate::models::{Model, flat_model, flat_model_of};
use eq_orient::spine;
use flat_model::{FlatModel, NameKind};
use part_code::prepare_code;
use std::alloc::Global;
use std::process::Abort;
use sync_values::Value;
use tree_step::Entry;

const FIRST: Option<u32> = Some(0);

/// Equations that can be solved for the first name.
const SOLVABLE: [&[(Side, Side, Option<u32>)]; 8] = [
    &[(Name(0), Number(3), FIRST)],
    &[(Previous(0), Name(0), FIRST)],
    &[(TakenFromTen(0), Previous(0), FIRST)],
    &[(Number(7), TakenFromTen(0), FIRST)],
    &[(Sum(1, 0), TakenFromTen(1), FIRST)],
    &[(Negated(0), Number(3), FIRST)],
    &[(Previous(0), Negated(0), FIRST)],
    &[(Negated(0), Negated(1), FIRST)],
];

/// The same of Booleans.
const SOLVABLE_BOOLEANS: [&[(Side, Side, Option<u32>)]; 3] = [
    &[(Inverted(0), Name(1), FIRST)],
    &[(Previous(0), Inverted(0), FIRST)],
    &[(Inverted(1), Inverted(0), FIRST)],
];

/// Names of one clock with one equation.
fn model(equations: &'static [(Side, Side, Option<u32>)]) -> Model {
    Model {
        names: &[FIRST, FIRST],
        equations,
        clocks: &[],
        grid: 1,
    }
}

/// Whether the only equation has prepared code that gives the first name its value.
fn has_code(rt: &impl Abort, alloc: Global, flat: &FlatModel) -> bool {
    let equation = flat.equations.get(0).expect(rt, "the equation");
    let spine = spine(equation, 0).expect(rt, "a side with the name");
    let entry = Entry {
        equation: 0,
        name: 0,
        spine,
        clock: 0,
    };
    let code = prepare_code(alloc, flat, &[entry]).expect(rt, "memory");
    code.is_some()
}

#[test]
fn names_inside_sums_and_behind_minus_have_code(rt: HostRuntime) {
    for equations in &SOLVABLE {
        let flat = flat_model(&rt, rt.alloc(), &model(equations));
        assert!(rt; has_code(&rt, rt.alloc(), &flat));
    }
}

#[test]
fn names_behind_not_have_code(rt: HostRuntime) {
    for equations in &SOLVABLE_BOOLEANS {
        let flat = flat_model_of(
            &rt,
            rt.alloc(),
            NameKind::Boolean,
            Value::Bool(false),
            &model(equations),
        );
        assert!(rt; has_code(&rt, rt.alloc(), &flat));
    }
}
