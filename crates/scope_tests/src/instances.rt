//! Tests of instances, of modifications and of values of parameters.
use crate::texts::tree_of;
use class_scopes::{File, names};
use flat_instances::{Given, Item, instances};
use mo_parser::TreeNode;
use sync_values::Value;

const MODEL: &[u8] =
    b"connector I = input Integer(start = 4); block K parameter Integer k = 1; I y; equation y = k; end K; block L K k(k = 2); end L; model T L a(k.k = 3, k(y(start = 5))); K b(k = 6); Integer c = 7; end T;";

/// The variables in flat order with the numbers that their bindings and starts are, and `=` before the scope of an instance
/// where its own equations stand.
const ITEMS: [(&str, Option<i64>, Option<i64>); 9] = [
    ("a.k.k", Some(3), None),
    ("a.k.y", None, Some(5)),
    ("=a.k.", None, None),
    ("=a.", None, None),
    ("b.k", Some(6), None),
    ("b.y", None, None),
    ("=b.", None, None),
    ("c", Some(7), None),
    ("=", None, None),
];

/// The number that is given.
fn number_of(given: Option<Given<'_>>) -> Option<i64> {
    match &given?.expr.node {
        TreeNode::Const(Value::Int(number)) => Some(*number),
        _ => None,
    }
}

fn is_item(item: &Item<'_>, want: &(&str, Option<i64>, Option<i64>)) -> bool {
    match item {
        Item::Declared(variable) => {
            variable.name.as_bytes() == want.0.as_bytes()
                && number_of(variable.binding) == want.1
                && number_of(variable.start) == want.2
        }
        Item::Own(scope, _) => {
            let [first, rest @ ..] = want.0.as_bytes() else {
                return false;
            };
            *first == b'=' && rest == scope.as_bytes()
        }
    }
}

#[test]
fn items_of_instances(rt: HostRuntime) {
    let alloc = rt.alloc();
    let tree = tree_of(&rt, alloc, MODEL);
    let named = names(alloc, MODEL, tree.classes.as_slice(), None)
        .ok()
        .expect(&rt, "names");
    let found = instances(alloc, &named.file, named.chosen)
        .ok()
        .expect(&rt, "memory");
    assert!(rt; found.len() == 9);
    for (number, item) in found.iter().enumerate() {
        assert!(rt; is_item(item, &ITEMS[number]), "at {}", number);
    }
}
