//! The first broken rule of texts, with its place.
use crate::flattened::flattened;

/// A text, the class that is chosen, and the refusal.
type Row = (&'static [u8], Option<&'static str>, &'static str);

const ROWS: [Row; 38] = [
    // the chosen class is not there, or a type name is unknown; the end of the text comes first
    (b"", None, "N1 at 1:1"),
    (b"model A end A;\n", Some("B"), "N1 at 2:1"),
    (b"model M B b; end M;", Some("N"), "N1 at 1:20"),
    (b"model M\n  A x;\nend M;", None, "N1 at 2:3"),
    (
        b"connector I = input A; model M I u; end M;",
        None,
        "N1 at 1:21",
    ),
    (b"model M a.b x; end M;", None, "N1 at 1:9"),
    // a second component or class of one name
    (
        b"model M Integer x; Integer x; equation  end M;\n",
        None,
        "N2 at 1:28",
    ),
    (b"model A end A; model A end A;", None, "N2 at 1:22"),
    (
        b"model A end A; model A end A; model M B b; end M;",
        None,
        "N1 at 1:39",
    ),
    // an unknown name, or one that is no variable
    (
        b"model M Integer x; equation x = z; end M;\n",
        None,
        "N3 at 1:33",
    ),
    (
        b"model M Integer x; equation x = x.y; end M;",
        None,
        "N3 at 1:33",
    ),
    (
        b"block B end B; model M B b; Integer x = b; end M;",
        None,
        "N3 at 1:41",
    ),
    (
        b"model M equation connect(a, b); end M;",
        None,
        "N3 at 1:26",
    ),
    (
        b"model M Integer x; Integer x; equation x = z; end M;",
        None,
        "N2 at 1:28",
    ),
    // a class inside itself
    (b"model A A x; end A;", None, "N4 at 1:7"),
    (
        b"model A B x; end A; model B A y; end B;",
        None,
        "N4 at 1:7",
    ),
    (
        b"model C B b; end C; model B B y; end B;",
        Some("C"),
        "N4 at 1:27",
    ),
    // modifications
    (
        b"model M Integer x(fixed = true); equation  end M;\n",
        None,
        "N5 at 1:19",
    ),
    (
        b"model M Integer x(start = 1, start = 2); end M;",
        None,
        "N5 at 1:30",
    ),
    (
        b"block B Integer v; end B; model M B b(v = 1, v.start = 2, v(start = 3)); end M;",
        None,
        "N5 at 1:61",
    ),
    (
        b"block B end B; model M B b = 1; end M;",
        None,
        "N5 at 1:26",
    ),
    (b"model M Clock c(start = 1); end M;", None, "N5 at 1:17"),
    // connects
    (
        b"model M Integer a; Integer b; equation connect(a, b); end M;\n",
        None,
        "N8 at 1:48",
    ),
    (
        b"connector P Integer v; end P; model M P a; Integer b; equation connect(a, b); end M;",
        None,
        "N8 at 1:75",
    ),
    (
        b"connector P Integer v; end P; connector Q Boolean v; end Q; model M P a; Q b; equation connect(a, b); end M;",
        None,
        "N8 at 1:96",
    ),
    // types that the profile has not
    (b"model M Real x; equation  end M;\n", None, "N9 at 1:9"),
    (
        b"connector S = String; model M S x; end M;",
        None,
        "N9 at 1:15",
    ),
    (
        b"block B end B; model M parameter B b; end M;",
        None,
        "N9 at 1:34",
    ),
    (b"model M constant Clock c; end M;", None, "N9 at 1:18"),
    // values of parameters and starts
    (
        b"model M parameter Integer a = b; parameter Integer b = a; equation  end M;\n",
        None,
        "N6 at a",
    ),
    (
        b"block B parameter Integer k = k; end B; model M B b; end M;",
        None,
        "N6 at b.k",
    ),
    (
        b"model M parameter Integer a = div(1, 0); equation  end M;\n",
        None,
        "N7 at a",
    ),
    (
        b"block B Boolean x(start = 1); end B; model M B b; end M;",
        None,
        "N7 at b.x",
    ),
    (
        b"model M Integer v; parameter Integer a = v; end M;",
        None,
        "N7 at a",
    ),
    // the order of the rules
    (
        b"model M Real x; equation x = z; end M;",
        None,
        "N3 at 1:30",
    ),
    (b"model M Real x(fixed = true); end M;", None, "N5 at 1:16"),
    (
        b"model M Integer a; Real b; equation connect(a, a); end M;",
        None,
        "N8 at 1:45",
    ),
    (
        b"model M parameter Integer a = div(1, 0); parameter Integer b = b; end M;",
        None,
        "N6 at b",
    ),
];

#[test]
fn first_broken_rules(rt: HostRuntime) {
    for (number, (text, class, want)) in ROWS.iter().enumerate() {
        let printed = flattened(&rt, rt.alloc(), text, *class);
        assert!(rt; printed.as_str() == *want, "row {}", number);
    }
}
