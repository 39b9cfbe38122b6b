ghost use Rattle.mo_connect.specs.Chain.{AreBelow};

use mo_connect::{Pair, sets};
use std::alloc::Global;
use std::process::Abort;
use sync_values::List;

#[derive(Clone, Copy)]
struct Case {
    name: &'static str,
    count: u32,
    pairs: &'static [(u32, u32)],
    classes: &'static [&'static [u32]],
}

static SMALL: [Case; 9] = [
    Case {
        name: "no number",
        count: 0,
        pairs: &[],
        classes: &[],
    },
    Case {
        name: "one number and no pair",
        count: 1,
        pairs: &[],
        classes: &[],
    },
    Case {
        name: "a number with itself",
        count: 1,
        pairs: &[(0, 0)],
        classes: &[],
    },
    Case {
        name: "the last of three alone",
        count: 3,
        pairs: &[(0, 1)],
        classes: &[&[0, 1]],
    },
    Case {
        name: "a cycle",
        count: 3,
        pairs: &[(0, 1), (1, 2), (2, 0)],
        classes: &[&[0, 1, 2]],
    },
    Case {
        name: "a pair twice and back",
        count: 4,
        pairs: &[(3, 1), (3, 1), (1, 3)],
        classes: &[&[1, 3]],
    },
    Case {
        name: "a chain from its end",
        count: 5,
        pairs: &[(4, 3), (3, 2), (2, 1), (1, 0)],
        classes: &[&[0, 1, 2, 3, 4]],
    },
    Case {
        name: "two chains between each other's links",
        count: 6,
        pairs: &[(5, 1), (0, 4), (3, 5), (4, 2)],
        classes: &[&[0, 2, 4], &[1, 3, 5]],
    },
    Case {
        name: "two classes that the last pair makes one",
        count: 5,
        pairs: &[(2, 0), (4, 3), (4, 0)],
        classes: &[&[0, 2, 3, 4]],
    },
];

fn are_same(classes: &[List<u32>], wanted: &[&[u32]]) -> bool {
    if classes.len() != wanted.len() {
        return false;
    }
    for k in 0..wanted.len() {
        if classes[k].as_slice() != wanted[k] {
            return false;
        }
    }
    true
}

/// The list of pairs of numbers below the count.
fn listed(rt: &impl Abort, alloc: Global, count: u32, pairs: &[(u32, u32)]) -> List<Pair>
    ensures { AreBelow count result }
{
    let mut list = List::new(alloc);
    for &(a, b) in pairs {
        assert!(rt; a < count && b < count);
        list.push(Pair { a, b }).expect(rt, "memory");
    }
    list
}

fn classes_of(rt: &impl Abort, alloc: Global, count: u32, pairs: &[(u32, u32)]) -> List<List<u32>> {
    let pairs = listed(rt, alloc, count, pairs);
    sets(alloc, count, &pairs).expect(rt, "memory")
}

fn has_classes(rt: &impl Abort, alloc: Global, case: &Case) -> bool {
    let classes = classes_of(rt, alloc, case.count, case.pairs);
    are_same(classes.as_slice(), case.classes)
}

fn have_classes(rt: &impl Abort, alloc: Global, cases: &[Case]) {
    for case in cases {
        assert!(rt; has_classes(rt, alloc, case), "{}", case.name);
    }
}

#[test]
fn small_classes(rt: HostRuntime) {
    have_classes(&rt, rt.alloc(), &SMALL);
}

/// The pairs of each number below the count with the one before it, from the last.
fn chain_down(rt: &impl Abort, alloc: Global, count: u32) -> Vec<(u32, u32)> {
    let mut pairs = Vec::new(alloc);
    for k in 1..count {
        pairs.push((count - k, count - k - 1)).expect(rt, "memory");
    }
    pairs
}

#[test]
fn long_chain(rt: HostRuntime) {
    let pairs = chain_down(&rt, rt.alloc(), 65_536);
    let classes = classes_of(&rt, rt.alloc(), 65_536, &pairs);
    assert!(rt; classes.len() == 1);
}
