//! Texts of models with their clocks, or the first rule of clocks that they break.
use crate::clocking::clocking_of;
use crate::printed::{clocks_text, parts_text};
use clock_check::ready_law;
use clock_ready::{check_once_law, own_law};
use std::alloc::Global;
use std::process::Abort;
use sub_clock_solve::{conflict_law, one_answer_law, one_clocking_law};

/// The declarations and the equations of a model, and the clock of each name or the refusal.
type Row = (&'static str, &'static str, &'static str);

/// Periodic clocks.
static PERIODIC: [Row; 16] = [
    (
        "input Integer u; Integer y;",
        "y = sample(u, Clock(1));",
        "u unclocked / y every 1 from 0",
    ),
    (
        "Integer u; Integer y;",
        "when Clock(1) then u = backSample(y,1,2) + 1; end when; y = shiftSample(u,1,2);",
        "u every 1 from 0 / y every 1 from 1/2",
    ),
    (
        "Integer a; Integer b;",
        "when Clock(1,3) then a = previous(a) + 1; end when; when Clock(1,2) then b = noClock(a) + 10; end when;",
        "a every 1/3 from 0 / b every 1/2 from 0",
    ),
    (
        "Integer u; Integer y;",
        "when Clock(1,10) then u = previous(u) + 1; end when; when Clock(3,10) then y = subSample(u); end when;",
        "u every 1/10 from 0 / y every 3/10 from 0",
    ),
    (
        "Integer u; Integer y;",
        "when Clock(3,10) then u = previous(u) + 1; end when; when Clock(1,10) then y = superSample(u); end when;",
        "u every 3/10 from 0 / y every 1/10 from 0",
    ),
    (
        "Integer a; Integer b; Integer y;",
        "when Clock(1) then a = 1; end when; b = shiftSample(a,1,2); y = hold(b);",
        "a every 1 from 0 / b every 1 from 1/2 / y unclocked",
    ),
    (
        "Integer u; Integer y;",
        "when Clock(1) then u = previous(u) + 1; end when; y = superSample(u,2);",
        "u every 1 from 0 / y every 1/2 from 0",
    ),
    (
        "Integer n; Boolean f;",
        "when Clock(3,2) then n = integer(interval(n)*1000); f = firstTick(); end when;",
        "n every 3/2 from 0 / f every 3/2 from 0",
    ),
    // Clocks without counters are inferred.
    (
        "Integer x; Integer y;",
        "when Clock(1) then x = previous(x) + 1; end when; when Clock(0) then y = subSample(x, 2); end when;",
        "x every 1 from 0 / y every 2 from 0",
    ),
    (
        "Integer x; Integer y;",
        "when Clock(1) then x = previous(x) + 1; end when; when Clock(0, 3) then y = subSample(x, 2); end when;",
        "x every 1 from 0 / y every 2 from 0",
    ),
    // A relation gives the clock of its argument as well.
    (
        "Integer x; Integer y;",
        "x = previous(x) + 1; when Clock(1) then y = superSample(x, 3); end when;",
        "x every 3 from 0 / y every 1 from 0",
    ),
    // Two constructors of one value in one class.
    (
        "Clock c; Integer x;",
        "c = Clock(1, 2); c = Clock(2, 4); when c then x = previous(x) + 1; end when;",
        "c every 1/2 from 0 / x every 1/2 from 0",
    ),
    // Conversions of Clocks, in an equation, a clause and a sample.
    (
        "input Integer u; Clock c; Clock d; Integer x; Integer y;",
        "c = Clock(1, 2); d = subSample(c, 3); when shiftSample(d, 1) then x = previous(x) + 1; end when; y = sample(u, subSample(d, 2));",
        "u unclocked / c every 1/2 from 0 / d every 3/2 from 0 / x every 3/2 from 3/2 / y every 3 from 0",
    ),
    // A hold in what is sampled marks no more than that part.
    (
        "Integer x; Integer y;",
        "when Clock(2) then x = 1; end when; y = sample(hold(x), Clock(1));",
        "x every 2 from 0 / y every 1 from 0",
    ),
    // A shift there and back again.
    (
        "Integer x; Integer h; Integer y;",
        "when Clock(1) then x = previous(x) + 1; end when; h = shiftSample(x, 1); y = backSample(h, 1);",
        "x every 1 from 0 / h every 1 from 1 / y every 1 from 0",
    ),
    // Two constructors in one equation of a clause.
    (
        "Integer x;",
        "when Clock(1) then x = previous(x) + 1; Clock(1) = Clock(); end when;",
        "x every 1 from 0",
    ),
];

/// Clocks of events. Each constructor is a site of its own.
static EVENTS: [Row; 7] = [
    (
        "input Integer u; Integer n; Integer h;",
        "when Clock(u > 3) then n = previous(n) + 1; end when; h = subSample(n,2);",
        "u unclocked / n event 1 factor 1 shift 0 / h event 1 factor 2 shift 0",
    ),
    (
        "input Integer u; Integer n; Integer s;",
        "when Clock(u > 3) then n = previous(n) + 1; end when; s = shiftSample(n, 1);",
        "u unclocked / n event 1 factor 1 shift 0 / s event 1 factor 1 shift 1",
    ),
    (
        "input Integer u; Integer n; Integer s; Integer h;",
        "when Clock(u > 3) then n = previous(n) + 1; end when; s = superSample(h, 2); h = subSample(n, 2);",
        "u unclocked / n event 1 factor 1 shift 0 / s event 1 factor 1 shift 0 / h event 1 factor 2 shift 0",
    ),
    (
        "input Integer u; Integer n; Integer m;",
        "when Clock(u > 3) then n = previous(n) + 1; end when; when Clock(u > 3) then m = previous(m) + 1; end when;",
        "u unclocked / n event 1 factor 1 shift 0 / m event 2 factor 1 shift 0",
    ),
    // A shift by 3 behind a factor of 2 is one by 6 rising moments; by 3/2 it is one by 3.
    (
        "input Boolean b; Integer n; Integer h; Integer s; Integer t;",
        "when Clock(b) then n = previous(n) + 1; end when; h = subSample(n, 2); s = shiftSample(h, 3); t = shiftSample(h, 3, 2);",
        "b unclocked / n event 1 factor 1 shift 0 / h event 1 factor 2 shift 0 / s event 1 factor 2 shift 6 / t event 1 factor 2 shift 3",
    ),
    // A factor of 2^40-1.
    (
        "input Boolean b; Integer n; Integer h; Integer y;",
        "when Clock(b) then n = previous(n) + 1; end when; h = subSample(n, 1048575); y = subSample(h, 1048577);",
        "b unclocked / n event 1 factor 1 shift 0 / h event 1 factor 1048575 shift 0 / y event 1 factor 1099511627775 shift 0",
    ),
    // A hold of what no event depends on stands beside an event.
    (
        "input Boolean b; Integer n; Integer h;",
        "when Clock(b) then n = previous(n) + 1; end when; h = hold(n);",
        "b unclocked / n event 1 factor 1 shift 0 / h unclocked",
    ),
];

/// Numbers at the limit of 2^40: 1048575 * 1048577 is 2^40 - 1, and 1048576 * 1048576 is 2^40.
static LIMITS: [Row; 13] = [
    (
        "Integer x; Integer y;",
        "when Clock(1048575) then x = previous(x) + 1; end when; y = subSample(x, 1048577);",
        "x every 1048575 from 0 / y every 1099511627775 from 0",
    ),
    (
        "Integer x; Integer y;",
        "when Clock(1048576) then x = previous(x) + 1; end when; y = subSample(x, 1048576);",
        "refused C3 at y",
    ),
    (
        "Integer x; Integer y;",
        "when Clock(1, 1048575) then x = previous(x) + 1; end when; y = superSample(x, 1048577);",
        "x every 1/1048575 from 0 / y every 1/1099511627775 from 0",
    ),
    (
        "Integer x; Integer y;",
        "when Clock(1, 1048576) then x = previous(x) + 1; end when; y = superSample(x, 1048576);",
        "refused C3 at y",
    ),
    (
        "Integer x; Integer y;",
        "when Clock(1048575) then x = previous(x) + 1; end when; y = shiftSample(x, 1048577);",
        "x every 1048575 from 0 / y every 1048575 from 1099511627775",
    ),
    (
        "Integer x; Integer y;",
        "when Clock(1048576) then x = previous(x) + 1; end when; y = shiftSample(x, 1048576);",
        "refused C3 at y",
    ),
    // A start below 0 counts without its sign.
    (
        "Integer x; Integer y;",
        "when Clock(1048575) then x = previous(x) + 1; end when; y = backSample(x, 1048577);",
        "refused C6 at y",
    ),
    (
        "Integer x; Integer y;",
        "when Clock(1048576) then x = previous(x) + 1; end when; y = backSample(x, 1048576);",
        "refused C3 at y",
    ),
    (
        "input Boolean b; Integer n; Integer h; Integer y;",
        "when Clock(b) then n = previous(n) + 1; end when; h = subSample(n, 1048576); y = subSample(h, 1048576);",
        "refused C3 at y",
    ),
    // The least common denominator is 2^40-1, or 2^40+2^20.
    (
        "Integer a; Integer b;",
        "when Clock(1, 1048575) then a = 1; end when; when Clock(1, 1048577) then b = 1; end when;",
        "a every 1/1048575 from 0 / b every 1/1048577 from 0",
    ),
    (
        "Integer a; Integer b;",
        "when Clock(1, 1048576) then a = 1; end when; when Clock(1, 1048577) then b = 1; end when;",
        "refused C3 at b",
    ),
    (
        "Integer a; Integer b;",
        "when Clock(1, 2147483647) then a = 1; end when; when Clock(1, 2147483646) then b = 1; end when;",
        "refused C3 at b",
    ),
    // A clock of the first round is told before one of the second: z is one relation from x, and y is two.
    (
        "Integer y; Integer z; Integer x; Integer h;",
        "y = subSample(h, 1048576); when Clock(1048576) then x = previous(x) + 1; end when; z = subSample(x, 1048576); h = subSample(x, 1);",
        "refused C3 at z",
    ),
];

/// The rules that models break.
static REFUSALS: [Row; 29] = [
    (
        "input Integer u; Integer x;",
        "when Clock(1) then x = u; end when;",
        "refused C1 at x",
    ),
    ("Integer u;", "u = previous(u) + 1;", "refused C2 at u"),
    (
        "Integer u; Integer y;",
        "when Clock(1) then u = previous(u) + 1; end when; when Clock(1) then y = subSample(u, 2); end when;",
        "refused C4 at equation 2",
    ),
    (
        "Integer u; Integer y;",
        "when Clock(1,10) then u = previous(u) + 1; end when; when Clock(3,20) then y = subSample(u); end when;",
        "refused C5 at equation 2",
    ),
    (
        "Integer u; Integer y;",
        "when Clock(1) then u = previous(u) + 1; end when; y = backSample(u,1);",
        "refused C6 at y",
    ),
    (
        "input Boolean b; Integer x; Integer y;",
        "when Clock(1) then x = previous(x) + 1; end when; when Clock(b) then y = noClock(x); end when;",
        "refused C7 at equation 2",
    ),
    (
        "input Boolean b; Integer x; Integer y;",
        "when Clock(b) then x = previous(x) + 1; end when; y = superSample(x, 2);",
        "refused C9 at y",
    ),
    (
        "input Boolean b; Integer x; Integer y;",
        "when Clock(b) then y = subSample(x, 2); end when; x = previous(x) + 1;",
        "refused C9 at x",
    ),
    (
        "input Boolean b; Integer x; Integer n;",
        "when Clock(1) then x = previous(x) + 1; end when; when Clock(hold(x) > 2) then n = previous(n) + 1; end when;",
        "refused C10 at equation 2",
    ),
    (
        "input Integer u; Integer n; Integer s;",
        "when Clock(u > 3) then n = previous(n) + 1; end when; s = shiftSample(n, 1, 2);",
        "refused C8 at s",
    ),
    (
        "input Integer u; Integer n; Integer s;",
        "when Clock(u > 3) then n = previous(n) + 1; end when; s = backSample(n, 1);",
        "refused C8 at s",
    ),
    // Clocks without counters give none.
    (
        "Integer x;",
        "when Clock(0) then x = previous(x) + 1; end when;",
        "refused C2 at x",
    ),
    (
        "Integer x;",
        "when Clock(0, 3) then x = previous(x) + 1; end when;",
        "refused C2 at x",
    ),
    // Nor does an inferred factor, or `noClock`.
    (
        "Integer x; Integer y;",
        "when Clock(1) then x = previous(x) + 1; end when; y = subSample(x);",
        "refused C2 at y",
    ),
    (
        "Integer a; Integer b;",
        "when Clock(1) then a = 1; end when; b = noClock(a);",
        "refused C2 at b",
    ),
    // A class without names is placed at its first equation.
    (
        "Integer x;",
        "x = 1; firstTick() = true;",
        "refused C2 at equation 2",
    ),
    // A constructor that disagrees, in a second equation, in the same one, and by its axis.
    (
        "Clock c; Integer x;",
        "c = Clock(1, 2); c = Clock(1, 3); when c then x = previous(x) + 1; end when;",
        "refused C4 at equation 2",
    ),
    (
        "input Integer u; Integer y;",
        "y = sample(u, Clock(1)) + sample(u, Clock(2));",
        "refused C4 at equation 1",
    ),
    (
        "input Boolean b; Clock c; Integer x;",
        "c = Clock(1); c = Clock(b); when c then x = previous(x) + 1; end when;",
        "refused C7 at equation 2",
    ),
    (
        "input Boolean b; Clock c; Integer x;",
        "c = Clock(b); c = Clock(b); when c then x = previous(x) + 1; end when;",
        "refused C7 at equation 2",
    ),
    // A Clock equation of constructors alone, which no clause marks as clocked.
    (
        "Integer x;",
        "Clock(1) = Clock(); x = 1;",
        "refused C4 at equation 1",
    ),
    // A start below 0 in the midst: that of y is 0.
    (
        "Integer x; Integer h; Integer y;",
        "when Clock(1) then x = previous(x) + 1; end when; h = backSample(x, 1); y = shiftSample(h, 1);",
        "refused C6 at h",
    ),
    (
        "Integer x; Integer h; Integer y;",
        "when Clock(1) then y = shiftSample(h, 1); end when; h = backSample(x, 1);  x = previous(x) + 1;",
        "refused C6 at h",
    ),
    // An inferred factor of clocks whose starts differ.
    (
        "Integer x; Integer v; Integer y;",
        "when Clock(1) then x = previous(x) + 1; end when; v = shiftSample(x, 1, 2); when Clock(2) then y = subSample(v); end when;",
        "refused C5 at equation 3",
    ),
    // The order of the rules: C1, C7, C2, C3, C4, C5, C6, C8, C9.
    (
        "input Integer u; input Boolean b; Integer v; Integer x; Integer y;",
        "x = u + previous(x); when Clock(1) then v = previous(v); end when; when Clock(b) then y = noClock(v); end when;",
        "refused C1 at x",
    ),
    (
        "input Boolean b; Integer u; Integer x; Integer y;",
        "u = previous(u) + 1; when Clock(1) then x = previous(x) + 1; end when; when Clock(b) then y = noClock(x); end when;",
        "refused C7 at equation 3",
    ),
    (
        "Clock c; Integer u;",
        "c = Clock(1); c = Clock(2); u = previous(u) + 1;",
        "refused C2 at u",
    ),
    (
        "Integer h; Integer u; Integer y;",
        "h = backSample(u,1); when Clock(1) then u = previous(u) + 1; end when; when Clock(1) then y = subSample(u, 2); end when;",
        "refused C4 at equation 3",
    ),
    (
        "input Boolean b; Integer n; Integer h; Integer s;",
        "when Clock(b) then n = previous(n) + 1; end when; h = superSample(n, 2); s = backSample(n, 1);",
        "refused C8 at s",
    ),
];

/// Clockings in all their parts.
static PARTS: [Row; 4] = [
    (
        "Integer p; Integer a; Integer q; Integer b;",
        "when Clock(1,2) then p = previous(p) + 1; a = div(6, 2 - p); end when; when Clock(1,4) then q = previous(q) + 1; b = div(6, 3 - q); end when;",
        "names 0 0 1 1, equations 0 0 1 1, partitions 0 1, sites 0",
    ),
    (
        "input Integer u; Integer n; Integer h;",
        "when Clock(u > 3) then n = previous(n) + 1; end when; h = subSample(n,2);",
        "names - 0 1, equations 0 1, partitions 0 0, sites 1",
    ),
    // Base partitions are numbered by their first class, and `noClock` joins two.
    (
        "Integer y; Integer a; Integer b; Integer c;",
        "when Clock(1) then a = 1; end when; when Clock(2) then b = 1; end when; y = hold(a); when Clock(3) then c = noClock(a); end when;",
        "names - 0 1 2, equations 0 1 - 2, partitions 0 1 0, sites 0",
    ),
    // An equation of a clause that names nothing is in the class of the clause; one outside of clauses has its own.
    (
        "Integer x;",
        "when Clock(1) then x = 1; firstTick() = true; end when; sample(1, Clock(2)) = 1;",
        "names 0, equations 0 0 1, partitions 0 1, sites 0",
    ),
];

/// The clocks of a model, or the refusal.
fn clocks(rt: &impl Abort, alloc: Global, row: &Row) -> String {
    let (declared, equations, _) = row;
    let text = format!(in alloc; "model M {declared} equation {equations} end M;");
    let (flat, ended) = clocking_of(rt, alloc, text.expect(rt, "memory").as_str());
    match ended {
        Ok(clocking) => clocks_text(alloc, flat.names.as_slice(), &clocking).expect(rt, "memory"),
        Err(refusal) => refusal,
    }
}

/// The parts of the clocking of a model, or the refusal.
fn parts(rt: &impl Abort, alloc: Global, row: &Row) -> String {
    let (declared, equations, _) = row;
    let text = format!(in alloc; "model M {declared} equation {equations} end M;");
    let (_, ended) = clocking_of(rt, alloc, text.expect(rt, "memory").as_str());
    match ended {
        Ok(clocking) => parts_text(alloc, &clocking).expect(rt, "memory"),
        Err(refusal) => refusal,
    }
}

fn assert_rows(rt: &impl Abort, alloc: Global, rows: &[Row]) {
    for row in rows {
        let found = clocks(rt, alloc, row);
        let (declared, equations, wanted) = row;
        assert_eq!(rt; found.as_str(), *wanted, "of {declared} {equations}");
    }
}

#[test]
fn periodic_clocks(rt: HostRuntime) {
    assert_rows(&rt, rt.alloc(), &PERIODIC);
}

#[test]
fn event_clocks(rt: HostRuntime) {
    assert_rows(&rt, rt.alloc(), &EVENTS);
}

#[test]
fn limits(rt: HostRuntime) {
    assert_rows(&rt, rt.alloc(), &LIMITS);
}

#[test]
fn refusals(rt: HostRuntime) {
    assert_rows(&rt, rt.alloc(), &REFUSALS);
}

#[test]
fn all_parts(rt: HostRuntime) {
    for row in &PARTS {
        let found = parts(&rt, rt.alloc(), row);
        let (declared, equations, wanted) = row;
        assert_eq!(rt; found.as_str(), *wanted, "of {declared} {equations}");
    }
}

#[test]
fn laws_hold() {
    one_clocking_law();
    conflict_law();
    one_answer_law();
    ready_law();
    check_once_law();
    own_law();
}
