use crate::tokens::lexed;
use mo_lexer::{Sym, Token, TokenKind, Word};
use mo_parser::{
    ClassDef, ParseEnd, SyntaxCode, Tree, TreeEq, TreeExpr, TreeNode, fault_law, one_tree, parse,
};
use std::alloc::Global;
use std::process::Abort;
use sync_values::List;

fn tokens_of(rt: &impl Abort, alloc: Global, text: &[u8]) -> List<Token> {
    lexed(rt, alloc, text).expect(rt, "a text of tokens")
}

/// The tree of a text of tokens, or how it ends.
fn parsed(rt: &impl Abort, alloc: Global, text: &[u8]) -> Result<Tree, ParseEnd> {
    parse(alloc, text, &tokens_of(rt, alloc, text))
}

fn has_fault(rt: &impl Abort, alloc: Global, text: &[u8], code: SyntaxCode, at: u32) -> bool {
    parsed(rt, alloc, text).err() == Some(ParseEnd::Fault { code, at })
}

static FAULTS: [(&[u8], SyntaxCode, u32); 9] = [
    (b"model A end", SyntaxCode::S1, 11),
    (b"model A end B;", SyntaxCode::S1, 12),
    (b"model A Real x[3]; end A;", SyntaxCode::S3, 14),
    (b"model A while end A;", SyntaxCode::S3, 8),
    (b"model A annotation(]); end A;", SyntaxCode::S1, 19),
    (b"model A equation x = 1.5; end A;", SyntaxCode::S3, 21),
    (
        b"model A equation a < b < c = 1; end A;",
        SyntaxCode::S1,
        23,
    ),
    (
        b"model A equation x = if a then 1; end A;",
        SyntaxCode::S1,
        32,
    ),
    (b"connector C = Real; model", SyntaxCode::S1, 25),
];

#[test]
fn faults_of_texts(rt: HostRuntime) {
    for row in &FAULTS {
        let holds = has_fault(&rt, rt.alloc(), row.0, row.1, row.2);
        assert!(rt; holds, "at {:?}", row.0);
    }
    one_tree();
    fault_law();
}

const EQUATION: &[u8] = b"model A equation x = ";

const NOTE: &[u8] = b"model A annotation";

/// What stands in front, an opening, what stands inside, the number of pairs, and the fault where there is one.
type Depth = (
    &'static [u8],
    &'static [u8],
    &'static [u8],
    usize,
    Option<ParseEnd>,
);

// A closing bracket directly behind the opening one of level 65 stands outside this pair.
static DEPTHS: [Depth; 11] = [
    (EQUATION, b"(", b"1", 64, None),
    (
        EQUATION,
        b"(",
        b"1",
        65,
        Some(ParseEnd::Fault {
            code: SyntaxCode::S2,
            at: 86,
        }),
    ),
    (
        EQUATION,
        b"(",
        b"",
        65,
        Some(ParseEnd::Fault {
            code: SyntaxCode::S1,
            at: 86,
        }),
    ),
    (EQUATION, b"f(", b"", 65, None),
    (
        EQUATION,
        b"f(",
        b"a",
        65,
        Some(ParseEnd::Fault {
            code: SyntaxCode::S2,
            at: 151,
        }),
    ),
    (
        EQUATION,
        b"f(",
        b"]",
        65,
        Some(ParseEnd::Fault {
            code: SyntaxCode::S2,
            at: 151,
        }),
    ),
    (
        EQUATION,
        b"if ",
        b"a",
        65,
        Some(ParseEnd::Fault {
            code: SyntaxCode::S2,
            at: 216,
        }),
    ),
    (NOTE, b"(", b"x", 64, None),
    (
        NOTE,
        b"(",
        b"x",
        65,
        Some(ParseEnd::Fault {
            code: SyntaxCode::S2,
            at: 83,
        }),
    ),
    (NOTE, b"(", b"", 65, None),
    (
        NOTE,
        b"(",
        b"{",
        64,
        Some(ParseEnd::Fault {
            code: SyntaxCode::S2,
            at: 83,
        }),
    ),
];

fn put_times(rt: &impl Abort, text: &mut Vec<u8>, piece: &[u8], times: usize) {
    for _ in 0..times {
        text.extend_from_slice(piece).expect(rt, "memory");
    }
}

/// Behind what stands in front so many openings, what stands inside, and as many closing brackets.
fn nested(rt: &impl Abort, alloc: Global, row: &Depth) -> Vec<u8> {
    let mut text = Vec::from_slice(alloc, row.0).expect(rt, "memory");
    put_times(rt, &mut text, row.1, row.3);
    put_times(rt, &mut text, row.2, 1);
    put_times(rt, &mut text, b")", row.3);
    put_times(rt, &mut text, b"; end A;", 1);
    text
}

#[test]
fn depth_of_brackets(rt: HostRuntime) {
    for row in &DEPTHS {
        let text = nested(&rt, rt.alloc(), row);
        let end = parsed(&rt, rt.alloc(), &text).err();
        assert!(rt; end == row.4, "at {text:?}");
    }
}

const LOOP: &[u8] = b"within;
connector IntegerInput = input Integer;
connector IntegerOutput = output Integer;
block Filter \"mean of two\"
  IntegerInput u;
  IntegerOutput y;
equation
  y = div(u + previous(u), 2);
  annotation(Icon(extent = {{-100.5, -100}, {100.5, 100}}));
end Filter;
block Controller \"integral control\"
  parameter Integer ref = 100;
  parameter Integer limit = 40;
  IntegerInput u;
  IntegerOutput y;
protected
  Integer e \"error\";
  Integer sum(start = 0);
equation
  e = ref - u;
  sum = max(-limit, min(limit, previous(sum) + e));
  y = sum;
end Controller;
block Driver
  IntegerInput u;
  IntegerOutput y;
equation
  y = hold(u);
end Driver;
model Loop
  input Integer level;
  output Integer valve;
  Filter f;
  Controller c(limit = 105);
  Driver d;
equation
  f.u = sample(level, Clock(1, 1000)) \"1 kHz\";
  c.u = subSample(f.y, 10) \"100 Hz\";
  connect(c.y, d.u);
  valve = d.y;
  when Clock(1) then a = b; end when;
end Loop;
";

// The numbers of elements and of equations of each class.
const COUNTS: [(usize, usize); 6] = [(0, 0), (0, 0), (2, 1), (6, 3), (2, 1), (5, 5)];

fn has_counts(class: &ClassDef, counts: (usize, usize)) -> bool {
    class.elements.len() == counts.0 && class.equations.len() == counts.1
}

#[test]
fn classes_of_a_text(rt: HostRuntime) {
    let tree = parsed(&rt, rt.alloc(), LOOP).expect(&rt, "a tree");
    assert!(rt; tree.classes.len() == 6);
    for k in 0..6 {
        let class = tree.classes.get(k).expect(&rt, "a class");
        assert!(rt; has_counts(class, COUNTS[k]), "class {k}");
    }
}

/// Whether an expression has this first byte, this byte behind it, and as a chain so many parts; 0 where it is none.
fn is_chain(expr: &TreeExpr, at: u32, end: u32, count: usize) -> bool {
    let parts = match &expr.node {
        TreeNode::Chain(parts, _) => parts.len(),
        _ => 0,
    };
    expr.span.at == at && expr.span.end == end && parts == count
}

fn has_spans(equations: &[TreeEq]) -> bool {
    match equations {
        [TreeEq::Equal(left, right)] => is_chain(left, 17, 18, 0) && is_chain(right, 21, 37, 2),
        _ => false,
    }
}

const SIGNED_SUM: &[u8] = b"model A equation x = -(a) + b * 2 ^ c; end A;";

#[test]
fn spans_of_expressions(rt: HostRuntime) {
    let tree = parsed(&rt, rt.alloc(), SIGNED_SUM).expect(&rt, "a tree");
    let class = tree.classes.get(0).expect(&rt, "a class");
    assert!(rt; has_spans(class.equations.as_slice()));
}

/// A text cut behind a token has a tree, or its fault is at its end.
fn is_answered(rt: &impl Abort, alloc: Global, text: &[u8], end: u32) -> bool {
    let cut = end as usize;
    assert!(rt; cut <= text.len());
    match parsed(rt, alloc, &text[..cut]).err() {
        Some(fault) => {
            fault
                == ParseEnd::Fault {
                    code: SyntaxCode::S1,
                    at: end,
                }
        }
        None => true,
    }
}

#[test]
fn cut_texts(rt: HostRuntime) {
    for token in tokens_of(&rt, rt.alloc(), LOOP).as_slice() {
        let end = token.end;
        assert!(rt; is_answered(&rt, rt.alloc(), LOOP, end), "cut at {end}");
    }
}

/// The text with other bytes where a token stands.
fn replaced(rt: &impl Abort, alloc: Global, text: &[u8], token: Token, by: &[u8]) -> Vec<u8> {
    let at = token.at as usize;
    let end = token.end as usize;
    assert!(rt; at <= text.len() && end <= text.len());
    let mut other = Vec::from_slice(alloc, &text[..at]).expect(rt, "memory");
    other.extend_from_slice(by).expect(rt, "memory");
    other.extend_from_slice(&text[end..]).expect(rt, "memory");
    other
}

static REPLACEMENTS: [(&[u8], SyntaxCode); 3] = [
    (b" ] ", SyntaxCode::S1),
    (b" while ", SyntaxCode::S3),
    (b" 1.5 ", SyntaxCode::S3),
];

/// The fault of a text with a token replaced is at the token put in, which has a space before it.
fn has_replaced_fault(rt: &impl Abort, alloc: Global, text: &[u8], token: Token) {
    assert!(rt; token.at < u32::MAX);
    for &(by, code) in &REPLACEMENTS {
        let other = replaced(rt, alloc, text, token, by);
        assert!(rt;
            has_fault(rt, alloc, &other, code, token.at + 1),
            "at {other:?}"
        );
    }
}

// Inside an annotation any token may stand.
#[test]
fn replaced_tokens(rt: HostRuntime) {
    let mut annotated = false;
    for token in tokens_of(&rt, rt.alloc(), LOOP).as_slice() {
        match token.kind {
            TokenKind::Keyword(Word::KwAnnotation) => annotated = true,
            TokenKind::Symbol(Sym::Semicolon) if annotated => annotated = false,
            TokenKind::End => {}
            _ if annotated => {}
            _ => has_replaced_fault(&rt, rt.alloc(), LOOP, *token),
        }
    }
}
