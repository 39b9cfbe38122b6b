use crate::orders::Side::{
    Doubled, Held, Name, Number, Previous, Sampled, Sum, SumWithShifted, TakenFromTen,
};
use crate::orders::{Side, expr};
use eq_orient::{lags, solves_law, spine, spine_law, unread_law};
use flat_model::Equation;

/// The sides of an equation, the side on which name 0 stands that it can be solved for, and whether it is held or
/// converted.
const CASES: [(Side, Side, Option<bool>, bool); 10] = [
    (TakenFromTen(0), Previous(0), Some(true), false),
    (Previous(0), TakenFromTen(0), Some(false), false),
    (Sum(1, 0), Number(1), Some(true), false),
    (Doubled(0), Number(6), None, false),
    (Sum(0, 0), Number(6), None, false),
    (Name(0), Name(0), None, false),
    (Name(1), Number(6), None, false),
    (Name(0), Sampled(0), Some(true), false),
    (Name(0), Held(0), Some(true), true),
    (SumWithShifted(0, 0), Number(1), Some(true), true),
];

#[test]
fn finds_the_side_of_a_name(rt: HostRuntime) {
    for (left, right, wanted, is_late) in &CASES {
        let equation = Equation::Valued {
            left: expr(&rt, rt.alloc(), *left),
            right: expr(&rt, rt.alloc(), *right),
            clause: None,
        };
        let side = match spine(&equation, 0) {
            Some(spine) => Some(spine.left),
            None => None,
        };
        assert!(rt; side == *wanted);
        assert!(rt; lags(&equation, 0) == *is_late);
    }
}

#[test]
fn laws_of_orientation_hold() {
    spine_law();
    solves_law();
    unread_law();
}
