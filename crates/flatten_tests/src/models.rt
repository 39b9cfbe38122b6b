//! Flat models of texts, as they are printed.
use crate::flattened::flattened;

/// A text, the class that is chosen, and its flat model.
type Row = (&'static [u8], Option<&'static str>, &'static str);

const CYCLE: &[u8] =
    b"connector P Integer v; end P; model W P a; P b; P c; equation connect(a,b); connect(b,c); connect(c,a); when Clock(1) then a.v = 4; end when; end W;";

const BLOCKS: &[u8] =
    b"connector O = output Integer; block K parameter Integer k = 1; O y; equation y = k; end K; model T K a(k = 2); K b(k = 3); equation connect(a.y, b.y); end T;";

/// Bindings of three levels, each of which reads the parameter of its own scope.
const LEVELS: &[u8] =
    b"block A Integer x = 1; Integer y(start = 1); end A; block B parameter Integer k = 5; A a(x = k + 2, y(start = k)); end B; block C parameter Integer k = 7; B b(a(x = k + 3), k = 9); end C; model T parameter Integer k = 11; C c(b.a.x = k + 4); C d; end T;";

const CONTROLLER: &[u8] = b"within;
connector IntegerInput = input Integer;
connector IntegerOutput = output Integer;
block Filter \"mean of two\"
  IntegerInput u;
  IntegerOutput y;
equation
  y = div(u + previous(u), 2);
  annotation(Icon(extent = {{-100.5, -100}, {100.5, 100}}));
end Filter;
block Controller \"integral control\"
  parameter Integer ref = 100;
  parameter Integer limit = 40;
  IntegerInput u;
  IntegerOutput y;
protected
  Integer e \"error\";
  Integer sum(start = 0);
equation
  e = ref - u;
  sum = max(-limit, min(limit, previous(sum) + e));
  y = sum;
end Controller;
block Driver
  IntegerInput u;
  IntegerOutput y;
equation
  y = hold(u);
end Driver;
model Loop
  input Integer level;
  output Integer valve;
  Filter f;
  Controller c(limit = 105);
  Driver d;
equation
  f.u = sample(level, Clock(1, 1000)) \"1 kHz\";
  c.u = subSample(f.y, 10) \"100 Hz\";
  connect(c.y, d.u);
  valve = d.y;
end Loop;
";

const ROWS: [Row; 24] = [
    // a cycle of connects gives two equations, which come last
    (
        CYCLE,
        None,
        "a.v Integer 0 / b.v Integer 0 / c.v Integer 0 / 1 in 1: a.v = 4 / 2: a.v = b.v / 3: a.v = c.v / when 1: Clock(1)",
    ),
    (
        BLOCKS,
        None,
        "a.y Integer 0 / b.y Integer 0 / 1: a.y = 2 / 2: b.y = 3 / 3: a.y = b.y",
    ),
    (BLOCKS, Some("K"), "y Integer 0 / 1: y = 1"),
    // the outermost modification wins, and is read where it is written
    (
        LEVELS,
        None,
        "c.b.a.x Integer 0 / c.b.a.y Integer 9 / d.b.a.x Integer 0 / d.b.a.y Integer 9 / 1: c.b.a.x = (11 + 4) / 2: d.b.a.x = (7 + 3)",
    ),
    (
        LEVELS,
        Some("B"),
        "a.x Integer 0 / a.y Integer 5 / 1: a.x = (5 + 2)",
    ),
    (
        b"block A Integer x; end A; model T Integer y; A a(x = y); equation y = 1; end T;",
        None,
        "y Integer 0 / a.x Integer 0 / 1: a.x = y / 2: y = 1",
    ),
    // the controller of the sample levels
    (
        CONTROLLER,
        None,
        "level Integer 0 input / valve Integer 0 / f.u Integer 0 / f.y Integer 0 / c.u Integer 0 / c.y Integer 0 / c.e Integer 0 / c.sum Integer 0 / d.u Integer 0 / d.y Integer 0 / 1: f.y = div((f.u + previous(f.u)), 2) / 2: c.e = (100 - c.u) / 3: c.sum = max((-105), min(105, (previous(c.sum) + c.e))) / 4: c.y = c.sum / 5: d.y = hold(d.u) / 6: f.u = sample(level, Clock(1, 1000)) / 7: c.u = subSample(f.y, 10) / 8: valve = d.y / 9: c.y = d.u",
    ),
    (
        CONTROLLER,
        Some("Driver"),
        "u Integer 0 input / y Integer 0 / 1: y = hold(u)",
    ),
    // the class that is chosen: that of the name, or the last
    (
        b"model A Integer x; end A; model B Integer y; end B;",
        None,
        "y Integer 0",
    ),
    (
        b"model A Integer x; end A; model B Integer y; end B;",
        Some("A"),
        "x Integer 0",
    ),
    (b"connector I = input Integer;", None, ""),
    // short connectors
    (
        b"connector I = input Integer(start = 4); connector O = output Boolean; model M I u; I v(start = 5); O y; end M;",
        None,
        "u Integer 4 input / v Integer 5 input / y Boolean false",
    ),
    (
        b"connector I = input Integer; model M I u; Integer y = u + 1; end M;",
        None,
        "u Integer 0 input / y Integer 0 / 1: y = (u + 1)",
    ),
    (
        b"connector I = input Integer; model M I a; I b; equation connect(b, a); end M;",
        None,
        "a Integer 0 input / b Integer 0 input / 1: a = b",
    ),
    // inputs of the chosen class and of its connectors, and none of other components or of clocks
    (
        b"connector C input Integer u; output Integer y; end C; block B input Integer v; C c; end B; model M C c; B b; input Boolean w; input Clock k; output Integer z; end M;",
        None,
        "c.u Integer 0 input / c.y Integer 0 / b.v Integer 0 / b.c.u Integer 0 / b.c.y Integer 0 / w Boolean false input / k Clock / z Integer 0",
    ),
    // clauses of several equations, in several instances, and without equations
    (
        b"model M Integer a; Integer b; equation when Clock(2) then end when; when Clock(3) then a = 1; b = 2; end when; a = b; end M;",
        None,
        "a Integer 0 / b Integer 0 / 1 in 1: a = 1 / 2 in 1: b = 2 / 3: a = b / when 1: Clock(3)",
    ),
    (
        b"block B Integer x; equation when Clock(1) then x = 1; end when; end B; model M B a; Clock c = Clock(4); B b; Integer y; equation when c then y = a.x; end when; end M;",
        None,
        "a.x Integer 0 / c Clock / b.x Integer 0 / y Integer 0 / 1 in 1: a.x = 1 / 2: c = Clock(4) / 3 in 2: b.x = 1 / 4 in 3: y = a.x / when 1: Clock(1) / when 2: Clock(1) / when 3: c",
    ),
    // connection sets: in the order of their first members, the others in flat order
    (
        b"connector P Integer v; end P; model M P a; P b; P c; P d; P e; equation connect(e, c); connect(d, b); connect(c, a); end M;",
        None,
        "a.v Integer 0 / b.v Integer 0 / c.v Integer 0 / d.v Integer 0 / e.v Integer 0 / 1: a.v = c.v / 2: a.v = e.v / 3: b.v = d.v",
    ),
    (
        b"connector P Integer v; Boolean w; end P; block B P p; P q; equation connect(p, q); end B; model M P a; B b; equation connect(a, b.p); end M;",
        None,
        "a.v Integer 0 / a.w Boolean false / b.p.v Integer 0 / b.p.w Boolean false / b.q.v Integer 0 / b.q.w Boolean false / 1: a.v = b.p.v / 2: a.v = b.q.v / 3: a.w = b.p.w / 4: a.w = b.q.w",
    ),
    (
        b"connector P parameter Integer n = 3; Integer v = n; end P; model M P a; P b(n = 4); equation connect(a, b); end M;",
        None,
        "a.v Integer 0 / b.v Integer 0 / 1: a.v = 3 / 2: b.v = 4 / 3: a.v = b.v",
    ),
    (
        b"connector P Integer v; end P; model M P a; P b; equation connect(a, a); end M;",
        None,
        "a.v Integer 0 / b.v Integer 0",
    ),
    // expressions
    (
        b"model M input Integer u; input Boolean b; Integer y = if b and not u < 3 then 2 ^ u elseif b or u <> 1 then time else -u / 4; end M;",
        None,
        "u Integer 0 input / b Boolean false input / y Integer 0 / 1: y = (if (b and (not (u < 3))) elseif (b or (u <> 1)) then (2 ^ u) then time else (-(u / 4)))",
    ),
    (
        b"model M parameter Integer a = 3; parameter Integer b = 2; Integer y = -a*b; equation  end M;\n",
        None,
        "y Integer 0 / 1: y = (-(3 * 2))",
    ),
    // values of parameters and starts: in any order, lazy, from starts
    (
        b"model M parameter Integer a = b + 1; parameter Integer b(start = 4); parameter Boolean c = true or c; Integer x(start = a * 2) = a; Boolean y = c; end M;",
        None,
        "x Integer 10 / y Boolean false / 1: x = 5 / 2: y = true",
    ),
];

#[test]
fn flat_models(rt: HostRuntime) {
    for (number, (text, class, want)) in ROWS.iter().enumerate() {
        let printed = flattened(&rt, rt.alloc(), text, *class);
        assert!(rt; printed.as_str() == *want, "row {}", number);
    }
}
