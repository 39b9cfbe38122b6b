//! Commands that are refused, stage by stage.
use crate::call::{Call, check_all};
use clocked_run::Status;

/// Words that are no command.
const WORDS: [Call; 5] = [
    (
        &[],
        "model M Integer x; equation when Clock(1,2) then x = previous(x) + 1; end when; end M;\n",
        "",
        Status::Usage,
        "",
        "usage: words\n",
    ),
    (
        &["m", "--stop", "1048576"],
        "model M Integer x; equation when Clock(1,2) then x = previous(x) + 1; end when; end M;\n",
        "",
        Status::Usage,
        "",
        "usage: --stop\n",
    ),
    (
        &["m", "--stop", "1", "--workers", "0"],
        "model M Integer x; equation when Clock(1,2) then x = previous(x) + 1; end when; end M;\n",
        "",
        Status::Usage,
        "",
        "usage: --workers\n",
    ),
    (
        &["m", "--stop", "1", "--mode", "fast"],
        "model M Integer x; equation when Clock(1,2) then x = previous(x) + 1; end when; end M;\n",
        "",
        Status::Usage,
        "",
        "usage: --mode\n",
    ),
    (
        &["m", "--stop", "0.0000000001"],
        "model M Integer x; equation when Clock(1,2) then x = previous(x) + 1; end when; end M;\n",
        "",
        Status::Usage,
        "",
        "usage: --stop\n",
    ),
];

/// Texts that have no tokens.
const TEXTS: [Call; 4] = [
    (
        &["m", "--stop", "1"],
        "model M\n/* x\nend M;\n",
        "",
        Status::Refused,
        "",
        "refused L2 at 2:1\n",
    ),
    (
        &["m", "--stop", "1"],
        "model M\n/* x\nend M;",
        "",
        Status::Refused,
        "",
        "refused L2 at 2:1\n",
    ),
    (
        &["m", "--stop", "1"],
        "model M Integer x = 9223372036854775808; equation  end M;\n",
        "",
        Status::Refused,
        "",
        "refused L3 at 1:21\n",
    ),
    (
        &["m", "--stop", "1"],
        "model M @ end M;\n",
        "",
        Status::Refused,
        "",
        "refused L1 at 1:9\n",
    ),
];

/// Tokens that have no tree.
const TREES: [Call; 4] = [
    (
        &["m", "--stop", "1"],
        "model X\n  parameter Integer a = 3;\n  parameter Integer b = 2;\n  Integer y = a * -b;\nend X;\n",
        "",
        Status::Refused,
        "",
        "refused S1 at 4:19\n",
    ),
    (
        &["m", "--stop", "1"],
        "model M\n  Integer x;\nend",
        "",
        Status::Refused,
        "",
        "refused S1 at 3:4\n",
    ),
    (
        &["m", "--stop", "1"],
        "model M Integer x = 1.5; equation  end M;\n",
        "",
        Status::Refused,
        "",
        "refused S3 at 1:21\n",
    ),
    (
        &["m", "--stop", "1"],
        "model M Integer x = (((((((((((((((((((((((((((((((((((((((((((((((((((((((((((((((((1))))))))))))))))))))))))))))))))))))))))))))))))))))))))))))))))); equation  end M;\n",
        "",
        Status::Refused,
        "",
        "refused S2 at 1:86\n",
    ),
];

/// Models that have no flat model.
const NAMES: [Call; 9] = [
    (
        &["m", "--stop", "1"],
        "",
        "",
        Status::Refused,
        "",
        "refused N1 at 1:1\n",
    ),
    (
        &["m", "--stop", "1"],
        "model M Integer x; Integer x; equation  end M;\n",
        "",
        Status::Refused,
        "",
        "refused N2 at 1:28\n",
    ),
    (
        &["m", "--stop", "1"],
        "model M Integer x; equation x = z; end M;\n",
        "",
        Status::Refused,
        "",
        "refused N3 at 1:33\n",
    ),
    (
        &["m", "--stop", "1"],
        "model M Integer x(fixed = true); equation  end M;\n",
        "",
        Status::Refused,
        "",
        "refused N5 at 1:19\n",
    ),
    (
        &["m", "--stop", "1"],
        "model M parameter Integer a = b; parameter Integer b = a; equation  end M;\n",
        "",
        Status::Refused,
        "",
        "refused N6 at a\n",
    ),
    (
        &["m", "--stop", "1"],
        "model M parameter Integer a = div(1, 0); equation  end M;\n",
        "",
        Status::Refused,
        "",
        "refused N7 at a\n",
    ),
    (
        &["m", "--stop", "1"],
        "model M Integer a; Integer b; equation connect(a, b); end M;\n",
        "",
        Status::Refused,
        "",
        "refused N8 at 1:48\n",
    ),
    (
        &["m", "--stop", "1"],
        "model M Real x; equation  end M;\n",
        "",
        Status::Refused,
        "",
        "refused N9 at 1:9\n",
    ),
    (
        &["m", "--stop", "1"],
        "model A A x; end A;\n",
        "",
        Status::Refused,
        "",
        "refused N4 at 1:7\n",
    ),
];

/// Equations without a type.
const TYPES: [Call; 6] = [
    (
        &["m", "--stop", "1"],
        "model M Boolean b = 1; equation  end M;\n",
        "",
        Status::Refused,
        "",
        "refused Y1 at equation 1\n",
    ),
    (
        &["m", "--stop", "1"],
        "model M Integer x; equation when Clock(1) then x = previous(x + 1); end when; end M;\n",
        "",
        Status::Refused,
        "",
        "refused Y2 at equation 1\n",
    ),
    (
        &["m", "--stop", "1"],
        "model M input Integer u; Integer y; equation y = hold(u); end M;\n",
        "",
        Status::Refused,
        "",
        "refused Y2 at equation 1\n",
    ),
    (
        &["m", "--stop", "1"],
        "model M Integer x; equation x = foo(1); end M;\n",
        "",
        Status::Refused,
        "",
        "refused Y3 at equation 1\n",
    ),
    (
        &["m", "--stop", "1"],
        "model M Integer u; Integer y; equation when Clock(1) then u = 1; end when; y = subSample(u, -1); end M;\n",
        "",
        Status::Refused,
        "",
        "refused Y4 at equation 2\n",
    ),
    (
        &["m", "--stop", "1"],
        "model M Integer x; equation x = 6 / 2; end M;\n",
        "",
        Status::Refused,
        "",
        "refused Y5 at equation 1\n",
    ),
];

/// Models whose clocks break a rule.
const CLOCKS: [Call; 12] = [
    (
        &["m", "--stop", "0.6"],
        "model M Integer u; Integer y; equation when Clock(1,10) then u = previous(u) + 1; end when; when Clock(3,20) then y = subSample(u); end when; end M;\n",
        "",
        Status::Refused,
        "",
        "refused C5 at equation 2\n",
    ),
    (
        &["m", "--stop", "1"],
        "model M Integer u; Integer y; equation when Clock(1) then u = previous(u) + 1; end when; y = backSample(u,1); end M;\n",
        "",
        Status::Refused,
        "",
        "refused C6 at y\n",
    ),
    (
        &["m", "--stop", "1"],
        "model M input Integer u; Integer x; equation when Clock(1) then x = u; end when; end M;\n",
        "",
        Status::Refused,
        "",
        "refused C1 at x\n",
    ),
    (
        &["m", "--stop", "1"],
        "model M Integer u; equation u = previous(u) + 1; end M;\n",
        "",
        Status::Refused,
        "",
        "refused C2 at u\n",
    ),
    (
        &["m", "--stop", "1"],
        "model M Integer a; Integer b; equation when Clock(1, 2147483647) then a = 1; end when; when Clock(1, 2147483646) then b = 1; end when; end M;\n",
        "",
        Status::Refused,
        "",
        "refused C3 at b\n",
    ),
    (
        &["m", "--stop", "1"],
        "model M Integer u; Integer y; equation when Clock(1) then u = previous(u) + 1; end when; when Clock(1) then y = subSample(u, 2); end when; end M;\n",
        "",
        Status::Refused,
        "",
        "refused C4 at equation 2\n",
    ),
    (
        &["m", "--stop", "1"],
        "model M input Boolean b; Integer x; Integer y; equation when Clock(1) then x = previous(x) + 1; end when; when Clock(b) then y = noClock(x); end when; end M;\n",
        "",
        Status::Refused,
        "",
        "refused C7 at equation 2\n",
    ),
    (
        &["m", "--stop", "1"],
        "model M input Boolean b; Integer x; Integer y; equation when Clock(b) then y = subSample(x, 2); end when; x = previous(x) + 1; end M;\n",
        "",
        Status::Refused,
        "",
        "refused C9 at x\n",
    ),
    (
        &["m", "--stop", "1"],
        "model M input Boolean b; Integer x; Integer n; equation when Clock(1) then x = previous(x) + 1; end when; when Clock(hold(x) > 2) then n = previous(n) + 1; end when; end M;\n",
        "",
        Status::Refused,
        "",
        "refused C10 at equation 2\n",
    ),
    (
        &["m", "--stop", "1"],
        "model M input Boolean b; Integer x; Integer y; equation when Clock(b) then x = previous(x) + 1; end when; y = superSample(x, 2); end M;\n",
        "",
        Status::Refused,
        "",
        "refused C9 at y\n",
    ),
    (
        &["m", "--stop", "5", "--table", "t"],
        "model M input Integer u; Integer n; Integer s; equation when Clock(u > 3) then n = previous(n) + 1; end when; s = shiftSample(n, 1, 2); end M;\n",
        "time,u\n0,1\n1,5\n2,0\n3,9\n4,0\n5,7\n",
        Status::Refused,
        "",
        "refused C8 at s\n",
    ),
    (
        &["m", "--stop", "5", "--table", "t"],
        "model M input Integer u; Integer n; Integer s; equation when Clock(u > 3) then n = previous(n) + 1; end when; s = backSample(n, 1); end M;\n",
        "time,u\n0,1\n1,5\n2,0\n3,9\n4,0\n5,7\n",
        Status::Refused,
        "",
        "refused C8 at s\n",
    ),
];

/// Equations that have no order.
const ORDERS: [Call; 4] = [
    (
        &["m", "--stop", "3/2"],
        "model M Integer u; Integer y; equation when Clock(1) then u = backSample(y,0,2) + 1; end when; y = shiftSample(u,0,2); end M;\n",
        "",
        Status::Refused,
        "",
        "refused Q4 at equation 1\n",
    ),
    (
        &["m", "--stop", "1"],
        "connector O = output Integer; block K parameter Integer k = 1; O y; equation y = k; end K; model T K a(k = 2); K b(k = 3); equation connect(a.y, b.y); end T;\n",
        "",
        Status::Refused,
        "",
        "refused Q1 at equation 3\n",
    ),
    (
        &["m", "--stop", "1"],
        "model M Integer x; equation 2 * x = 6; end M;\n",
        "",
        Status::Refused,
        "",
        "refused Q3 at equation 1\n",
    ),
    (
        &["m", "--stop", "1"],
        "model M Integer x; equation  end M;\n",
        "",
        Status::Refused,
        "",
        "refused Q2 at x\n",
    ),
];

/// Tables that break a rule.
const TABLES: [Call; 12] = [
    (
        &["m", "--stop", "2", "--table", "t"],
        "model M input Integer u; Integer y; equation y = sample(u, Clock(1)); end M;\n",
        "",
        Status::Refused,
        "",
        "refused I1 at row 0 column 1\n",
    ),
    (
        &["m", "--stop", "2", "--table", "t"],
        "model M input Integer u; Integer y; equation y = sample(u, Clock(1)); end M;\n",
        "time,u\n0,5\n1,6\n1,7\n",
        Status::Refused,
        "",
        "refused I6 at row 3 column 1\n",
    ),
    (
        &["m", "--stop", "2"],
        "model M input Integer u; Integer y; equation y = sample(u, Clock(1)); end M;\n",
        "",
        Status::Refused,
        "",
        "refused I2 at u\n",
    ),
    (
        &["m", "--stop", "2", "--table", "t"],
        "model M input Integer u; Integer y; equation y = sample(u, Clock(1)); end M;\n",
        "time\n0\n",
        Status::Refused,
        "",
        "refused I2 at u\n",
    ),
    (
        &["m", "--stop", "2", "--table", "t"],
        "model M input Integer u; Integer y; equation y = sample(u, Clock(1)); end M;\n",
        "time,u,w\n0,1,2\n",
        Status::Refused,
        "",
        "refused I3 at row 0 column 3\n",
    ),
    (
        &["m", "--stop", "2", "--table", "t"],
        "model M input Integer u; Integer y; equation y = sample(u, Clock(1)); end M;\n",
        "time,u\n0,x\n",
        Status::Refused,
        "",
        "refused I4 at row 1 column 2\n",
    ),
    (
        &["m", "--stop", "2", "--table", "t"],
        "model M input Integer u; Integer y; equation y = sample(u, Clock(1)); end M;\n",
        "time,u\n1,5\n",
        Status::Refused,
        "",
        "refused I5 at row 1 column 1\n",
    ),
    (
        &["m", "--stop", "2", "--table", "t"],
        "model M input Integer u; Integer y; equation y = sample(u, Clock(1)); end M;\n",
        "time,u\n",
        Status::Refused,
        "",
        "refused I5 at row 1 column 1\n",
    ),
    (
        &["m", "--stop", "2", "--table", "t"],
        "model M input Integer u; Integer y; equation y = sample(u, Clock(1)); end M;\n",
        "time,u\n0\n",
        Status::Refused,
        "",
        "refused I7 at row 1 column 2\n",
    ),
    (
        &["m", "--stop", "2", "--table", "t"],
        "model M input Integer u; Integer y; equation y = sample(u, Clock(1)); end M;\n",
        "time2,u\n0,\n",
        Status::Refused,
        "",
        "refused I4 at row 1 column 2\n",
    ),
    (
        &["m", "--stop", "2", "--table", "t"],
        "model M input Integer u; Integer y; equation y = sample(u, Clock(1)); end M;\n",
        "time2,u\n0,5\n+0,6\n",
        Status::Refused,
        "",
        "refused I6 at row 2 column 1\n",
    ),
    (
        &["m", "--stop", "2", "--table", "t"],
        "model M input Integer u; Integer y; equation y = sample(u, Clock(1)); end M;\n",
        "time2,u\n0,5\n+1048576,6\n",
        Status::Refused,
        "",
        "refused I4 at row 2 column 1\n",
    ),
];

/// Runs that are too long.
const PLANS: [Call; 2] = [
    (
        &["m", "--stop", "1"],
        "model M Integer a; equation when Clock(1, 2147483647) then a = 1; end when; end M;\n",
        "",
        Status::Refused,
        "",
        "refused P1 at plan\n",
    ),
    (
        &["m", "--stop", "1"],
        "model M Integer a; equation when Clock(1, 67108863) then a = 1; end when; end M;\n",
        "",
        Status::Refused,
        "",
        "refused P1 at plan\n",
    ),
];

#[test]
fn words_hold(rt: HostRuntime) {
    check_all(&rt, rt.alloc(), &WORDS);
}

#[test]
fn texts_hold(rt: HostRuntime) {
    check_all(&rt, rt.alloc(), &TEXTS);
}

#[test]
fn trees_hold(rt: HostRuntime) {
    check_all(&rt, rt.alloc(), &TREES);
}

#[test]
fn names_hold(rt: HostRuntime) {
    check_all(&rt, rt.alloc(), &NAMES);
}

#[test]
fn types_hold(rt: HostRuntime) {
    check_all(&rt, rt.alloc(), &TYPES);
}

#[test]
fn clocks_hold(rt: HostRuntime) {
    check_all(&rt, rt.alloc(), &CLOCKS);
}

#[test]
fn orders_hold(rt: HostRuntime) {
    check_all(&rt, rt.alloc(), &ORDERS);
}

#[test]
fn tables_hold(rt: HostRuntime) {
    check_all(&rt, rt.alloc(), &TABLES);
}

#[test]
fn plans_hold(rt: HostRuntime) {
    check_all(&rt, rt.alloc(), &PLANS);
}
