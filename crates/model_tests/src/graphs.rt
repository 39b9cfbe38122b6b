ghost use Rattle.std.specs.Prelude.{ℕ, ◌<◌, length};
ghost use Rattle.mo_order.specs.Graphs.{IsEdge, graph_of};

use mo_order::{Given, Giver, OrderEnd, leading, order_law, ordered, values_law, values_of};
use std::alloc::{AllocError, Global};
use std::process::Abort;
use sync_values::Value;

/// All the orders of a graph, or the least number on a cycle.
#[derive(Clone, Copy)]
enum Wanted {
    OneOf(&'static [&'static [usize]]),
    Cycle(usize),
}

#[derive(Clone, Copy)]
struct Case {
    name: &'static str,
    links: &'static [&'static [usize]],
    wanted: Wanted,
}

const CASES: [Case; 13] = [
    Case {
        name: "an empty graph",
        links: &[],
        wanted: Wanted::OneOf(&[&[]]),
    },
    Case {
        name: "one number alone",
        links: &[&[]],
        wanted: Wanted::OneOf(&[&[0]]),
    },
    Case {
        name: "a chain in order",
        links: &[&[], &[0], &[1]],
        wanted: Wanted::OneOf(&[&[0, 1, 2]]),
    },
    Case {
        name: "a chain given backwards",
        links: &[&[1], &[2], &[3], &[]],
        wanted: Wanted::OneOf(&[&[3, 2, 1, 0]]),
    },
    Case {
        name: "a link given twice",
        links: &[&[1, 1], &[]],
        wanted: Wanted::OneOf(&[&[1, 0]]),
    },
    Case {
        name: "two ways to one number",
        links: &[&[1, 2], &[3], &[3], &[]],
        wanted: Wanted::OneOf(&[&[3, 1, 2, 0], &[3, 2, 1, 0]]),
    },
    Case {
        name: "a long way and a short one",
        links: &[&[2, 1], &[2], &[]],
        wanted: Wanted::OneOf(&[&[2, 1, 0]]),
    },
    Case {
        name: "a number that points to itself",
        links: &[&[], &[1]],
        wanted: Wanted::Cycle(1),
    },
    Case {
        name: "a cycle of two",
        links: &[&[1], &[0]],
        wanted: Wanted::Cycle(0),
    },
    Case {
        name: "a cycle behind a chain",
        links: &[&[1], &[2], &[3], &[2]],
        wanted: Wanted::Cycle(2),
    },
    Case {
        name: "a cycle that leads to a chain",
        links: &[&[], &[0, 2], &[1]],
        wanted: Wanted::Cycle(1),
    },
    Case {
        name: "the least of several cycles",
        links: &[&[1], &[4], &[3], &[2], &[5], &[4], &[6]],
        wanted: Wanted::Cycle(2),
    },
    Case {
        name: "two cycles that share a number",
        links: &[&[3], &[2], &[1, 3], &[2]],
        wanted: Wanted::Cycle(1),
    },
];

/// Asserts that a number points to numbers of the graph alone.
fn points_within(rt: &impl Abort, graph: &[Vec<usize>], x: usize)
    requires { x < length graph.now }
    ensures { (y : ℕ) → IsEdge (graph_of graph.now) x y → y < length graph.now }
{
    for y in graph[x].as_slice() {
        assert!(rt; *y < graph.len());
    }
}

fn order_of(rt: &impl Abort, alloc: Global, graph: &[Vec<usize>]) -> Result<Vec<usize>, OrderEnd> {
    for x in 0..graph.len() {
        points_within(rt, graph, x);
    }
    ordered(alloc, graph)
}

fn list_of<T: Copy>(rt: &impl Abort, alloc: Global, items: &[T]) -> Vec<T> {
    let mut list = Vec::new(alloc);
    list.extend_from_slice(items).expect(rt, "memory");
    list
}

fn graph_from(rt: &impl Abort, alloc: Global, lists: &[&[usize]]) -> Vec<Vec<usize>> {
    let mut graph = Vec::new(alloc);
    for &links in lists {
        graph.push(list_of(rt, alloc, links)).expect(rt, "memory");
    }
    graph
}

fn is_one_of(order: &[usize], orders: &[&[usize]]) -> bool {
    for &other in orders {
        if order == other {
            return true;
        }
    }
    false
}

fn is_wanted(found: &Result<Vec<usize>, OrderEnd>, wanted: Wanted) -> bool {
    match found {
        Ok(order) => match wanted {
            Wanted::OneOf(orders) => is_one_of(order.as_slice(), orders),
            Wanted::Cycle(_) => false,
        },
        Err(OrderEnd::Cycle(x)) => match wanted {
            Wanted::OneOf(_) => false,
            Wanted::Cycle(least) => *x == least,
        },
        Err(OrderEnd::NoMemory) => false,
    }
}

#[test]
fn small_graphs(rt: HostRuntime) {
    for case in &CASES {
        let graph = graph_from(&rt, rt.alloc(), case.links);
        let found = order_of(&rt, rt.alloc(), graph.as_slice());
        assert!(rt; is_wanted(&found, case.wanted), "{}", case.name);
    }
}

/// Each number points to the next one, and the last to none.
fn chain_backwards(rt: &impl Abort, alloc: Global, count: usize) -> Vec<Vec<usize>> {
    let mut graph = Vec::new(alloc);
    for x in 0..count {
        let mut links = Vec::new(alloc);
        if x < count - 1 {
            links.push(x + 1).expect(rt, "memory");
        }
        graph.push(links).expect(rt, "memory");
    }
    graph
}

#[test]
fn long_chain(rt: HostRuntime) {
    let graph = chain_backwards(&rt, rt.alloc(), 20_000);
    match order_of(&rt, rt.alloc(), graph.as_slice()) {
        Ok(order) => {
            assert!(rt; order.len() == 20_000);
            assert!(rt; order[0] == 19_999 && order[1] == 19_998 && order[19_999] == 0);
        }
        Err(_) => assert!(rt; false, "no order"),
    }
}

#[test]
fn long_cycle(rt: HostRuntime) {
    let mut graph = chain_backwards(&rt, rt.alloc(), 20_000);
    assert!(rt; graph.len() == 20_000);
    graph[19_999].push(3).expect(&rt, "memory");
    let found = order_of(&rt, rt.alloc(), graph.as_slice());
    assert!(rt; is_wanted(&found, Wanted::Cycle(3)));
}

/// Marks, the steps that lead to one of them, and the numbers from which they do, on a chain of four numbers given
/// backwards, of which the first points to itself too.
const MARKS: [([bool; 4], usize, [bool; 4]); 4] = [
    ([false, false, false, true], 0, [false, false, false, true]),
    ([false, false, false, true], 1, [false, false, true, false]),
    ([false, false, false, true], 4, [true, false, false, false]),
    ([false, true, false, false], 2, [true, false, false, false]),
];

#[test]
fn marks(rt: HostRuntime) {
    let graph = graph_from(&rt, rt.alloc(), &[&[0, 1], &[2], &[3], &[]]);
    for (marks, steps, wanted) in &MARKS {
        let marks = list_of(&rt, rt.alloc(), marks);
        let found = leading(rt.alloc(), graph.as_slice(), marks, *steps).expect(&rt, "memory");
        assert!(rt; found.as_slice() == wanted.as_slice(), "{} steps", *steps);
    }
}

/// The first item has a value, and each other one that of the item before it.
#[derive(Clone, Copy)]
struct Copies {
    first: Value,
}

impl Giver for Copies {
    ghost use Rattle.std.specs.Prelude.{◌∷◌, Some, None, slice_index_or};

    ghost rules = { λ it slots x. slice_index_or (Some it.first ∷ slots) x None };

    fn give(&self, values: &[Option<Value>], x: usize) -> Result<Given, AllocError> {
        if x == 0 {
            return Ok(Given::Gives(self.first));
        }
        match values[x - 1] {
            Some(value) => Ok(Given::Gives(value)),
            None => Ok(Given::Waits(x - 1)),
        }
    }
}

/// The last item is looked at first, so that all but one wait.
#[test]
fn copied_values(rt: HostRuntime) {
    let first = Value::Int(7);
    for count in [0, 1, 4, 1_000] {
        let values = values_of(rt.alloc(), &Copies { first }, count).expect(&rt, "memory");
        assert!(rt; values.len() == count);
        for value in values.as_slice() {
            assert!(rt; *value == Some(first));
        }
    }
}

#[test]
fn laws(_rt: HostRuntime) {
    order_law();
    values_law();
}
