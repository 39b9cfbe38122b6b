//! Names that are gathered from an expression.
use eq_orient::{Manner, gather};
use flat_model::Expr;
use sqlite_items::Boxed;
use std::alloc::Global;
use std::process::Abort;
use sync_values::Rel;

/// `x1 < hold(x2)`
fn relation(rt: &impl Abort, alloc: Global) -> Expr {
    let bare = Boxed::new(alloc, Expr::Read(1)).expect(rt, "memory");
    let held = Boxed::new(alloc, Expr::Hold(2)).expect(rt, "memory");
    Expr::Relation(Rel::Less, bare, held)
}

/// The number of names that stand so, and the first of them.
fn gathered(rt: &impl Abort, alloc: Global, manner: Manner) -> (usize, Option<u32>) {
    let mut names = Vec::new(alloc);
    gather(&relation(rt, alloc), manner, &mut names).expect(rt, "memory");
    (names.len(), names.get(0).copied())
}

#[test]
fn names_are_gathered_by_how_they_stand(rt: HostRuntime) {
    assert!(rt; gathered(&rt, rt.alloc(), Manner::Bare) == (1, Some(1)));
    assert!(rt; gathered(&rt, rt.alloc(), Manner::Held) == (1, Some(2)));
    assert!(rt; gathered(&rt, rt.alloc(), Manner::Converted) == (0, None));
}
