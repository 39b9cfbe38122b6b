//! Models that run to their stop or to a fault, and models that are printed.
use crate::call::{Call, check_all};
use clocked_run::Status;

/// Runs that reach their stop.
const RUNS: [Call; 29] = [
    (
        &["m", "--stop", "1"],
        "model M Integer x; equation when Clock(1,2) then x = previous(x) + 1; end when; end M;\n",
        "",
        Status::Done,
        "time,x\n0,1\n1/2,2\n1,3\n",
        "",
    ),
    (
        &["m", "--stop", "2", "--table", "t"],
        "model M input Integer u; Integer y; equation y = sample(u, Clock(1)); end M;\n",
        "time,u\n0,5\n1,7\n",
        Status::Done,
        "time,u,y\n0,5,5\n1,7,5\n2,7,7\n",
        "",
    ),
    (
        &["m", "--stop", "0"],
        "model M Integer x; equation when Clock(1,2) then x = previous(x) + 1; end when; end M;\n",
        "",
        Status::Done,
        "time,x\n0,1\n",
        "",
    ),
    (
        &["m", "--stop", "3/2"],
        "model M Integer u; Integer y; equation when Clock(1) then u = backSample(y,1,2) + 1; end when; y = shiftSample(u,1,2); end M;\n",
        "",
        Status::Done,
        "time,u,y\n0,1,\n1/2,,1\n1,2,\n3/2,,2\n",
        "",
    ),
    (
        &["m", "--stop", "1"],
        "model M Integer a; Integer b; equation when Clock(1,3) then a = previous(a) + 1; end when; when Clock(1,2) then b = noClock(a) + 10; end when; end M;\n",
        "",
        Status::Done,
        "time,a,b\n0,1,11\n1/3,2,\n1/2,,12\n2/3,3,\n1,4,14\n",
        "",
    ),
    (
        &["m", "--stop", "0.6"],
        "model M Integer u; Integer y; equation when Clock(1,10) then u = previous(u) + 1; end when; when Clock(3,10) then y = subSample(u); end when; end M;\n",
        "",
        Status::Done,
        "time,u,y\n0,1,1\n1/10,2,\n1/5,3,\n3/10,4,4\n2/5,5,\n1/2,6,\n3/5,7,7\n",
        "",
    ),
    (
        &["m", "--stop", "4", "--table", "t"],
        "model M input Integer u; Integer n; Integer h; equation when Clock(u > 3) then n = previous(n) + 1; end when; h = subSample(n,2); end M;\n",
        "time,u\n0,1\n1,5\n2,6\n3,0\n4,9\n",
        Status::Done,
        "time,u,n,h\n0,1,,\n1,5,1,1\n2,6,,\n3,0,,\n4,9,2,\n",
        "",
    ),
    (
        &["m", "--stop", "3", "--table", "t"],
        "model M input Integer u; Integer n; Integer h; equation when Clock(u > 3) then n = previous(n) + 1; end when; h = subSample(n,2); end M;\n",
        "time,u\n0,5\n1,5\n2,0\n3,4\n",
        Status::Done,
        "time,u,n,h\n0,5,,\n1,5,,\n2,0,,\n3,4,1,1\n",
        "",
    ),
    (
        &["m", "--stop", "1"],
        "connector P Integer v; end P; model W P a; P b; P c; equation connect(a,b); connect(b,c); connect(c,a); when Clock(1) then a.v = 4; end when; end W;\n",
        "",
        Status::Done,
        "time,a.v,b.v,c.v\n0,4,4,4\n1,4,4,4\n",
        "",
    ),
    (
        &["m", "--stop", "0"],
        "model M parameter Integer a = 3; parameter Integer b = 2; Integer y = -a*b; equation  end M;\n",
        "",
        Status::Done,
        "time,y\n0,-6\n",
        "",
    ),
    (
        &["m", "--stop", "4", "--table", "t"],
        "model M input Integer u; input Integer v; Integer n; Integer a; Integer b; Integer c; Integer d; equation when Clock(2,1) then n = previous(n) + 1; end when; a = 2*u; b = mod(v,2); c = b + 10; d = hold(n) + a; end M;\n",
        "time,u,v\n0,1,4\n1,1,6\n2,3,6\n3,3,7\n4,3,9\n",
        Status::Done,
        "time,u,v,n,a,b,c,d\n0,1,4,1,2,0,10,3\n1,1,6,,2,0,10,3\n2,3,6,2,6,0,10,8\n3,3,7,,6,1,11,8\n4,3,9,3,6,1,11,9\n",
        "",
    ),
    (
        &["m", "--stop", "1/2"],
        "model M Integer a; Integer b(start = 7); Integer y; equation when Clock(1) then a = 1; end when; b = shiftSample(a,1,2); y = hold(b); end M;\n",
        "",
        Status::Done,
        "time,a,b,y\n0,1,,7\n1/2,,1,1\n",
        "",
    ),
    (
        &["m", "--stop", "1"],
        "model M Integer u; Integer y; equation when Clock(1) then u = previous(u) + 1; end when; y = superSample(u,2); end M;\n",
        "",
        Status::Done,
        "time,u,y\n0,1,1\n1/2,,1\n1,2,2\n",
        "",
    ),
    (
        &["m", "--stop", "3/2"],
        "model M Integer n; Boolean f; equation when Clock(3,2) then n = integer(interval(n)*1000); f = firstTick(); end when; end M;\n",
        "",
        Status::Done,
        "time,n,f\n0,1500,true\n3/2,1500,false\n",
        "",
    ),
    (
        &["m", "--stop", "2"],
        "model M Integer x; equation when Clock(1) then 10 - (x + 3) = previous(x); end when; end M;\n",
        "",
        Status::Done,
        "time,x\n0,7\n1,0\n2,7\n",
        "",
    ),
    (
        &["m", "--stop", "2"],
        "model M Integer a; Integer b; Integer c; Boolean p; equation when Clock(1) then 2 + (a - 1) - 3 = previous(a); -b = a - 10; a - c + b - 1 = 0; not p = a > 3; end when; end M;\n",
        "",
        Status::Done,
        "time,a,b,c,p\n0,2,8,9,true\n1,4,6,9,false\n2,6,4,9,false\n",
        "",
    ),
    (
        &["m", "--stop", "1", "--table", "t"],
        "model M input Integer z; Integer y = if z <> 0 then div(6, z) else 0; equation  end M;\n",
        "time,z\n0,0\n1,4\n",
        Status::Done,
        "time,z,y\n0,0,0\n1,4,1\n",
        "",
    ),
    (
        &["m", "--stop", "0", "--table", "t"],
        "model M input Integer u; equation  end M;\n",
        "time , u\r\n0, 5\r\n",
        Status::Done,
        "time,u\n0,5\n",
        "",
    ),
    (
        &["m", "--stop", "1/8", "--workers", "2"],
        "model M Integer p; Integer a; Integer q; Integer b; equation when Clock(1,2) then p = previous(p) + 1; a = div(6, 2 - p); end when; when Clock(1,4) then q = previous(q) + 1; b = div(6, 3 - q); end when; end M;\n",
        "",
        Status::Done,
        "time,p,a,q,b\n0,1,6,1,3\n",
        "",
    ),
    (
        &["m", "--stop", "0", "--table", "t"],
        "connector I = input Integer; model M I u; Integer y = u + 1; end M;\n",
        "time,u\n0,5\n",
        Status::Done,
        "time,u,y\n0,5,6\n",
        "",
    ),
    (
        &["m", "--stop", "1"],
        "model M Integer a; Boolean b; equation when Clock(1) then a = previous(a) + 3; b = a > 4 and mod(10, a) == 4; end when; end M;\n",
        "",
        Status::Done,
        "time,a,b\n0,3,false\n1,6,true\n",
        "",
    ),
    (
        &["m", "--stop", "1"],
        "model A parameter Integer k = 1; Integer x; equation when Clock(1) then x = previous(x) + k; end when; end A; model B A a(k = 5, x.start = 2); end B;\n",
        "",
        Status::Done,
        "time,a.x\n0,7\n1,12\n",
        "",
    ),
    (
        &["m", "--stop", "1"],
        "model M Clock c = Clock(1, 2); Integer x; equation when c then x = previous(x) + 1; end when; end M;\n",
        "",
        Status::Done,
        "time,x\n0,1\n1/2,2\n1,3\n",
        "",
    ),
    (
        &["m", "--stop", "1"],
        "model M Integer z; Integer u(start = 7); Integer y; equation when Clock(1) then z = previous(z) + 1; end when; u = shiftSample(z,1); y = backSample(u,1,2); end M;\n",
        "",
        Status::Done,
        "time,z,u,y\n0,1,,\n1/2,,,7\n1,2,2,\n",
        "",
    ),
    (
        &["m", "--stop", "3/4", "--workers", "2"],
        "model M Integer p; Integer q; equation when Clock(1,2) then p = previous(p) + 1; end when; when Clock(1,4) then q = previous(q) + 1; end when; end M;\n",
        "",
        Status::Done,
        "time,p,q\n0,1,1\n1/4,,2\n1/2,2,3\n3/4,,4\n",
        "",
    ),
    (
        &["m", "--stop", "5", "--table", "t"],
        "model M input Integer u; Integer n; Integer s; equation when Clock(u > 3) then n = previous(n) + 1; end when; s = shiftSample(n, 1); end M;\n",
        "time,u\n0,1\n1,5\n2,0\n3,9\n4,0\n5,7\n",
        Status::Done,
        "time,u,n,s\n0,1,,\n1,5,1,\n2,0,,\n3,9,2,2\n4,0,,\n5,7,3,3\n",
        "",
    ),
    (
        &["m", "--stop", "5", "--table", "t"],
        "model M input Integer u; Integer n; Integer s; Integer h; equation when Clock(u > 3) then n = previous(n) + 1; end when; s = superSample(h, 2); h = subSample(n, 2); end M;\n",
        "time,u\n0,1\n1,5\n2,0\n3,9\n4,0\n5,7\n",
        Status::Done,
        "time,u,n,s,h\n0,1,,,\n1,5,1,1,1\n2,0,,,\n3,9,2,1,\n4,0,,,\n5,7,3,3,3\n",
        "",
    ),
    (
        &["m", "--stop", "2", "--table", "t"],
        "model M input Integer u; Integer y; equation y = sample(u, Clock(1)); end M;\n",
        "time2,u\n+0,5\n+1,7\n+1,\n",
        Status::Done,
        "time,u,y\n0,5,5\n1,7,5\n2,7,7\n",
        "",
    ),
    (
        &["m", "--stop", "0.02", "--workers", "4", "--table", "t"],
        "within;\nconnector IntegerInput = input Integer;\nconnector IntegerOutput = output Integer;\nblock Filter \"mean of two\"\n  IntegerInput u;\n  IntegerOutput y;\nequation\n  y = div(u + previous(u), 2);\n  annotation(Icon(extent = {{-100.5, -100}, {100.5, 100}}));\nend Filter;\nblock Controller \"integral control\"\n  parameter Integer ref = 100;\n  parameter Integer limit = 40;\n  IntegerInput u;\n  IntegerOutput y;\nprotected\n  Integer e \"error\";\n  Integer sum(start = 0);\nequation\n  e = ref - u;\n  sum = max(-limit, min(limit, previous(sum) + e));\n  y = sum;\nend Controller;\nblock Driver\n  IntegerInput u;\n  IntegerOutput y;\nequation\n  y = hold(u);\nend Driver;\nmodel Loop\n  input Integer level;\n  output Integer valve;\n  Filter f;\n  Controller c(limit = 105);\n  Driver d;\nequation\n  f.u = sample(level, Clock(1, 1000)) \"1 kHz\";\n  c.u = subSample(f.y, 10) \"100 Hz\";\n  connect(c.y, d.u);\n  valve = d.y;\nend Loop;\n",
        "time,level\n0,60\n0.005,70\n0.0105,90\n",
        Status::Done,
        "time,level,valve,f.u,f.y,c.u,c.y,c.e,c.sum,d.u,d.y\n0,60,70,60,30,30,70,70,70,70,70\n1/1000,60,70,60,60,,,,,,70\n1/500,60,70,60,60,,,,,,70\n3/1000,60,70,60,60,,,,,,70\n1/250,60,70,60,60,,,,,,70\n1/200,70,70,60,60,,,,,,70\n3/500,70,70,70,65,,,,,,70\n7/1000,70,70,70,70,,,,,,70\n1/125,70,70,70,70,,,,,,70\n9/1000,70,70,70,70,,,,,,70\n1/100,70,100,70,70,70,100,30,100,100,100\n21/2000,90,100,,,,,,,,100\n11/1000,90,100,90,80,,,,,,100\n3/250,90,100,90,90,,,,,,100\n13/1000,90,100,90,90,,,,,,100\n7/500,90,100,90,90,,,,,,100\n3/200,90,100,90,90,,,,,,100\n2/125,90,100,90,90,,,,,,100\n17/1000,90,100,90,90,,,,,,100\n9/500,90,100,90,90,,,,,,100\n19/1000,90,100,90,90,,,,,,100\n1/50,90,105,90,90,90,105,10,105,105,105\n",
        "",
    ),
];

/// Runs that an arithmetic fault ends.
const FAULTS: [Call; 6] = [
    (
        &["m", "--stop", "1"],
        "model M Integer x(start = 9223372036854775806); equation when Clock(1,2) then x = previous(x) + 1; end when; end M;\n",
        "",
        Status::Faulted,
        "time,x\n0,9223372036854775807\n",
        "fault too-large at 1/2 in equation 1\n",
    ),
    (
        &["m", "--stop", "1", "--workers", "1"],
        "model M Integer p; Integer a; Integer q; Integer b; equation when Clock(1,2) then p = previous(p) + 1; a = div(6, 2 - p); end when; when Clock(1,4) then q = previous(q) + 1; b = div(6, 3 - q); end when; end M;\n",
        "",
        Status::Faulted,
        "time,p,a,q,b\n0,1,6,1,3\n1/4,,,2,6\n",
        "fault divide at 1/2 in equation 2\n",
    ),
    (
        &["m", "--stop", "1", "--workers", "64"],
        "model M Integer p; Integer a; Integer q; Integer b; equation when Clock(1,2) then p = previous(p) + 1; a = div(6, 2 - p); end when; when Clock(1,4) then q = previous(q) + 1; b = div(6, 3 - q); end when; end M;\n",
        "",
        Status::Faulted,
        "time,p,a,q,b\n0,1,6,1,3\n1/4,,,2,6\n",
        "fault divide at 1/2 in equation 2\n",
    ),
    (
        &["m", "--stop", "0", "--table", "t"],
        "model M input Integer u; Integer y = div(1, u); equation  end M;\n",
        "time,u\n0,0\n",
        Status::Faulted,
        "time,u,y\n",
        "fault divide at initial in equation 1\n",
    ),
    (
        &["m", "--stop", "2"],
        "model M Integer n; Integer x; equation when Clock(1) then n = previous(n) + 1; div(1, 2 - n) + x = 9223372036854775807 + (n - 1); end when; end M;\n",
        "",
        Status::Faulted,
        "time,n,x\n0,1,9223372036854775806\n",
        "fault divide at 1 in equation 2\n",
    ),
    (
        &["m", "--stop", "2", "--table", "t"],
        "model M input Integer u; Integer n; equation when Clock(div(6, u) > 2) then n = previous(n) + 1; end when; end M;\n",
        "time,u\n0,6\n1,2\n2,0\n",
        Status::Faulted,
        "time,u,n\n0,6,\n1,2,1\n",
        "fault divide at 2 in clock 1\n",
    ),
];

/// Models that are printed flat, or with their clocks.
const MODES: [Call; 3] = [
    (
        &["m", "--stop", "1", "--mode", "flat"],
        "connector P Integer v; end P; model W P a; P b; P c; equation connect(a,b); connect(b,c); connect(c,a); when Clock(1) then a.v = 4; end when; end W;\n",
        "",
        Status::Done,
        "var a.v Integer 0\nvar b.v Integer 0\nvar c.v Integer 0\neq 1 when Clock(1, 1): a.v = 4\neq 2: a.v = b.v\neq 3: a.v = c.v\n",
        "",
    ),
    (
        &["m", "--stop", "1", "--mode", "clocks"],
        "model M Integer u; Integer y; equation when Clock(1) then u = backSample(y,1,2) + 1; end when; y = shiftSample(u,1,2); end M;\n",
        "",
        Status::Done,
        "u every 1 from 0\ny every 1 from 1/2\n",
        "",
    ),
    (
        &["m", "--stop", "1", "--mode", "flat"],
        "model M Integer u; Integer y; equation when Clock(1) then u = backSample(y,1,2) + 1; end when; y = shiftSample(u,1,2); end M;\n",
        "",
        Status::Done,
        "var u Integer 0\nvar y Integer 0\neq 1 when Clock(1, 1): u = (backSample(y, 1, 2) + 1)\neq 2: y = shiftSample(u, 1, 2)\n",
        "",
    ),
];

#[test]
fn runs_hold(rt: HostRuntime) {
    check_all(&rt, rt.alloc(), &RUNS);
}

#[test]
fn faults_hold(rt: HostRuntime) {
    check_all(&rt, rt.alloc(), &FAULTS);
}

#[test]
fn modes_hold(rt: HostRuntime) {
    check_all(&rt, rt.alloc(), &MODES);
}
