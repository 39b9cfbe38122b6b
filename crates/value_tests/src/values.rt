//! Tests of the rules of values, on models whose components are variables of the chosen class.
use class_scopes::{File, names, table_of};
use flat_model::NameKind;
use mo_lexer::lex;
use mo_parser::{Element, TreeExpr, Variability, parse};
use parameter_values::{Parameter, parameter_values};
use std::alloc::Global;
use std::process::Abort;
use sync_values::Text;
use value_rules::{Needs, ValueFault, value_fault};

const LIMIT: usize = 1 << 20;

/// A text, and the code of its first fault with its number.
type Row = (&'static [u8], Option<(u8, usize)>);

const ROWS: [Row; 18] = [
    (b"model M parameter Integer k; end M;", None),
    (
        b"model M parameter Integer a = b; parameter Integer b = a; end M;",
        Some((6, 0)),
    ),
    (
        b"model M parameter Integer a = div(1, 0); end M;",
        Some((7, 0)),
    ),
    // `or` looks at no more than it needs, so there is a value
    (b"model M parameter Boolean a = true or a; end M;", None),
    (
        b"model M parameter Boolean a = a or true; end M;",
        Some((6, 0)),
    ),
    // N6 comes before N7
    (
        b"model M parameter Integer a = div(1, 0); parameter Integer b = b; end M;",
        Some((6, 1)),
    ),
    // what waits for a cycle is not on it
    (
        b"model M parameter Integer a = b; parameter Integer b = b; end M;",
        Some((6, 1)),
    ),
    // N6 has the number among parameters, N7 that among variables
    (
        b"model M Integer x; parameter Integer a = a; end M;",
        Some((6, 0)),
    ),
    (
        b"model M Integer x; parameter Integer a = true; end M;",
        Some((7, 1)),
    ),
    // starts
    (
        b"model M Integer x(start = k); parameter Integer k = 2; end M;",
        None,
    ),
    (
        b"model M Integer x(start = y); Integer y; end M;",
        Some((7, 0)),
    ),
    (
        b"model M parameter Integer k(start = k); end M;",
        Some((6, 0)),
    ),
    (b"model M parameter Integer k(start = k) = 3; end M;", None),
    // what reads a parameter without a value does not fail itself
    (
        b"model M parameter Integer a = b; parameter Integer b = 9223372036854775807 + 1; end M;",
        Some((7, 1)),
    ),
    (
        b"model M parameter Integer a = div(1, 0) + b; parameter Integer b = mod(1, 0); end M;",
        Some((7, 1)),
    ),
    (
        b"model M parameter Integer a = div(1, 0) + b; parameter Integer b = b; end M;",
        Some((6, 1)),
    ),
    // a value that does not need one that fails
    (
        b"model M parameter Boolean a = b and c; constant Boolean b = false; parameter Boolean c = div(1, 0) > 0; end M;",
        Some((7, 2)),
    ),
    (b"model M parameter Boolean a = 1; end M;", Some((7, 0))),
];

/// The value of the first modification of a component, which is its start in these models.
fn start_of(element: &Element) -> Option<&TreeExpr> {
    match element.args.as_slice() {
        [arg, ..] => arg.binding.as_ref(),
        [] => None,
    }
}

/// The expression of a parameter's value; a variable has none.
fn own_of(element: &Element) -> Option<&TreeExpr> {
    if element.variability == Variability::Plain {
        return None;
    }
    match &element.binding {
        Some(binding) => Some(binding),
        None => start_of(element),
    }
}

fn parameter<'a>(
    rt: &impl Abort,
    alloc: Global,
    kind: Option<NameKind>,
    expr: Option<&'a TreeExpr>,
) -> Parameter<'a> {
    let scope = Text::from_bytes(alloc, b"".as_slice())
        .ok()
        .expect(rt, "memory");
    Parameter { kind, scope, expr }
}

fn kind_of(file: &File<'_>, element: &Element) -> Option<NameKind> {
    match file.type_of(&element.base) {
        Some(type_name) => file.kind_of(type_name),
        None => None,
    }
}

fn told(fault: Option<ValueFault>) -> Option<(u8, usize)> {
    match fault {
        Some(ValueFault::Waiting(x)) => Some((6, x)),
        Some(ValueFault::Failing(x)) => Some((7, x)),
        None => None,
    }
}

fn fault_in(
    rt: &impl Abort,
    alloc: Global,
    file: &File<'_>,
    text: &[u8],
    elements: &[Element],
) -> Option<(u8, usize)> {
    let mut spans = Vec::new(alloc);
    let mut parameters = Vec::new(alloc);
    let mut variables = Vec::new(alloc);
    for element in elements {
        let kind = kind_of(file, element);
        if element.variability != Variability::Plain {
            spans.push(element.name).ok().expect(rt, "memory");
            let kept = parameter(rt, alloc, kind, own_of(element));
            parameters.push(kept).ok().expect(rt, "memory");
        }
        let own = parameter(rt, alloc, kind, own_of(element));
        let start = parameter(rt, alloc, kind, start_of(element));
        let needs = Needs { own, start };
        variables.push(needs).ok().expect(rt, "memory");
    }
    let declared = table_of(alloc, text, spans.as_slice())
        .ok()
        .expect(rt, "memory");
    let found = parameter_values(alloc, text, &declared.table, parameters.as_slice())
        .ok()
        .expect(rt, "memory");
    let fault = value_fault(
        alloc,
        text,
        &declared.table,
        parameters.as_slice(),
        found.as_slice(),
        variables.as_slice(),
    );
    told(fault.ok().expect(rt, "memory"))
}

fn fault_of(rt: &impl Abort, alloc: Global, text: &[u8]) -> Option<(u8, usize)> {
    assert!(rt; text.len() <= LIMIT);
    let tokens = lex(alloc, text).ok().expect(rt, "tokens");
    let tree = parse(alloc, text, &tokens).ok().expect(rt, "a tree");
    let named = names(alloc, text, tree.classes.as_slice(), None)
        .ok()
        .expect(rt, "names");
    let elements = named.file.elements_of(named.chosen);
    fault_in(rt, alloc, &named.file, text, elements)
}

#[test]
fn first_faults_of_values(rt: HostRuntime) {
    for (number, (text, want)) in ROWS.iter().enumerate() {
        let fault = fault_of(&rt, rt.alloc(), text);
        assert!(rt; fault == *want, "row {}", number);
    }
}
