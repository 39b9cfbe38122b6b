ghost use Rattle.std.specs.Prelude.{◌≡◌, ◌<◌, ◌*◌, ◌^◌, [], ◌∷◌};
ghost use Rattle.rational_time.specs.Fraction.{ArePartsBelow};
ghost use Rattle.rational_time.specs.Multiple.{HasMultipleBelow};

use rational_time::{
    Ratio, RatioFault, compare, floor_between, floor_times, gcd, lcm, make, moved, on_grid, plus,
    read, scaled, share_instant, ticks_until,
};
use std::alloc::Global;
use std::cmp::Ordering;
use std::process::Abort;

type Parts = (u64, u64);

fn ratio(rt: &impl Abort, parts: Parts) -> Ratio {
    assert!(rt; parts.1 > 0);
    make(parts.0, parts.1)
}

/// A fraction whose parts are below 2^40.
fn short(rt: &impl Abort, parts: Parts) -> Ratio
    ensures { ArePartsBelow (2 ^ 40) result }
{
    let a = ratio(rt, parts);
    assert!(rt; a.num() < 1 << 40);
    assert!(rt; a.den() < 1 << 40);
    a
}

/// A fraction whose numerator is not 0 and whose parts are below 2^40.
fn period(rt: &impl Abort, parts: Parts) -> Ratio
    ensures parts { ArePartsBelow (2 ^ 40) result }
    ensures rising { 0 < result.num }
{
    let a = short(rt, parts);
    assert!(rt; a.num() > 0);
    a
}

/// A fraction below 2^20 with a denominator below 2^40.
fn instant(rt: &impl Abort, parts: Parts) -> Ratio
    ensures value { result.num < 2 ^ 20 * result.den }
    ensures grain { result.den < 2 ^ 40 }
{
    let a = ratio(rt, parts);
    assert!(rt; u128::from(a.num()) < (1 << 20) * u128::from(a.den()));
    assert!(rt; a.den() < 1 << 40);
    a
}

fn has_parts(a: Ratio, parts: Parts) -> bool {
    a.num() == parts.0 && a.den() == parts.1
}

fn is_fraction(found: Option<Ratio>, wanted: Option<Parts>) -> bool {
    match (found, wanted) {
        (Some(a), Some(parts)) => has_parts(a, parts),
        (None, None) => true,
        _ => false,
    }
}

const SUMS: [(Parts, Parts, Option<Parts>); 3] = [
    ((1, 3), (1, 6), Some((1, 2))),
    (
        (1, 4_294_967_291),
        (1, 4_294_967_279),
        Some((8_589_934_570, 18_446_743_979_220_271_189)),
    ),
    ((1, 4_294_967_311), (1, 4_294_967_357), None),
];

const SCALED: [(Parts, u32, u32, Option<Parts>); 4] = [
    ((2, 3), 3, 4, Some((1, 2))),
    ((u64::MAX, 1), 2, 2, Some((u64::MAX, 1))),
    ((u64::MAX, 1), 2, 1, None),
    ((5, 3), 0, 7, Some((0, 1))),
];

fn is_sum(rt: &impl Abort, a: Parts, b: Parts, wanted: Option<Parts>) -> bool {
    let a = ratio(rt, a);
    let b = ratio(rt, b);
    assert!(rt; a.num() < 1 << 62 && b.num() < 1 << 62);
    assert!(rt; a.den() < 1 << 62 && b.den() < 1 << 62);
    is_fraction(plus(a, b), wanted)
}

fn is_scaled(rt: &impl Abort, a: Parts, times: u32, over: u32, wanted: Option<Parts>) -> bool {
    assert!(rt; over > 0);
    is_fraction(scaled(ratio(rt, a), times, over), wanted)
}

#[test]
fn fractions_are_exact(rt: HostRuntime) {
    for row in &SUMS {
        assert!(rt; is_sum(&rt, row.0, row.1, row.2));
    }
    for row in &SCALED {
        assert!(rt; is_scaled(&rt, row.0, row.1, row.2, row.3));
    }
}

const COMPARED: [(Parts, Parts, Ordering); 4] = [
    ((1, 3), (2, 5), Ordering::Less),
    ((2, 6), (1, 3), Ordering::Equal),
    (
        (u64::MAX, u64::MAX - 1),
        (u64::MAX - 1, u64::MAX - 2),
        Ordering::Less,
    ),
    ((2, 1), (3, 2), Ordering::Greater),
];

const DIVISORS: [(u64, u64, u64); 4] = [(0, 0, 0), (0, 7, 7), (12, 18, 6), (u64::MAX, 1, 1)];

const MULTIPLES: [(u64, u64, Option<u64>); 3] = [
    (4, 6, Some(12)),
    (u64::MAX, u64::MAX, Some(u64::MAX)),
    (1 << 63, 3, None),
];

fn is_multiple(rt: &impl Abort, a: u64, b: u64, multiple: Option<u64>) -> bool {
    assert!(rt; a > 0 && b > 0);
    lcm(a, b) == multiple
}

#[test]
fn fractions_are_compared(rt: HostRuntime) {
    for row in &COMPARED {
        assert!(rt; compare(ratio(&rt, row.0), ratio(&rt, row.1)) == row.2);
    }
}

#[test]
fn divisors_and_multiples(rt: HostRuntime) {
    for row in &DIVISORS {
        assert!(rt; gcd(row.0, row.1) == row.2);
    }
    for row in &MULTIPLES {
        assert!(rt; is_multiple(&rt, row.0, row.1, row.2));
    }
}

fn is_read(text: &str, wanted: Result<Parts, RatioFault>) -> bool {
    match (read(text.as_bytes()), wanted) {
        (Ok(a), Ok(parts)) => has_parts(a, parts),
        (Err(found), Err(fault)) => found == fault,
        _ => false,
    }
}

const MALFORMED: Result<Parts, RatioFault> = Err(RatioFault::Malformed);

const TOO_FINE: Result<Parts, RatioFault> = Err(RatioFault::TooFine);

static TIMES: [(&str, Result<Parts, RatioFault>); 24] = [
    ("0", Ok((0, 1))),
    ("01", Ok((1, 1))),
    ("3/2", Ok((3, 2))),
    ("6/4", Ok((3, 2))),
    ("0.6", Ok((3, 5))),
    ("0.000000001", Ok((1, 1_000_000_000))),
    ("1048576", Ok((1_048_576, 1))),
    ("999999999999999999", Ok((999_999_999_999_999_999, 1))),
    ("2/8589934590", Ok((1, 4_294_967_295))),
    ("230584300921369394.8", Ok((1_152_921_504_606_846_974, 5))),
    ("1/4294967296", TOO_FINE),
    ("230584300921369395.2", TOO_FINE),
    ("", MALFORMED),
    ("1/0", MALFORMED),
    ("0.0000000001", MALFORMED),
    ("1000000000000000000", MALFORMED),
    ("1.", MALFORMED),
    (".5", MALFORMED),
    ("/2", MALFORMED),
    ("-1", MALFORMED),
    (" 1", MALFORMED),
    ("1/2/3", MALFORMED),
    ("1.5/2", MALFORMED),
    ("1e3", MALFORMED),
];

static WRITTEN: [(Parts, &str); 3] = [((6, 4), "3/2"), ((7, 1), "7"), ((0, 9), "0")];

fn is_written(rt: &impl Abort, alloc: Global, a: Parts, text: &str) -> bool {
    let written = ratio(rt, a).to_string(alloc).expect(rt, "memory");
    written.as_str() == text
}

#[test]
fn times_are_read_and_written(rt: HostRuntime) {
    for row in &TIMES {
        assert!(rt; is_read(row.0, row.1), "at {}", row.0);
    }
    for row in &WRITTEN {
        assert!(rt; is_written(&rt, rt.alloc(), row.0, row.1));
    }
}

const FLOORS: [(Parts, u32, u128); 3] = [((7, 2), 3, 10), ((1, 3), 2, 0), ((1, 3), 3, 1)];

const FLOORS_BETWEEN: [(Parts, Parts, u32, u128); 4] = [
    ((1, 3), (5, 2), 6, 13),
    ((1, 3), (1, 2), 5, 0),
    ((1, 2), (1, 2), 9, 0),
    ((0, 1), (1_048_575, 1), u32::MAX, 4_503_595_331_354_625),
];

const GRIDS: [(Parts, u64, Option<u64>); 4] = [
    ((3, 2), 4, Some(6)),
    ((1, 3), 4, None),
    ((u64::MAX, 1), 2, None),
    ((0, 1), 5, Some(0)),
];

fn is_floor_between(rt: &impl Abort, from: Parts, to: Parts, k: u32, wanted: u128) -> bool {
    let from = instant(rt, from);
    let to = instant(rt, to);
    let left = u128::from(from.num()) * u128::from(to.den());
    assert!(rt; left <= u128::from(to.num()) * u128::from(from.den()));
    floor_between(from, to, k) == wanted
}

fn is_on_grid(rt: &impl Abort, value: Parts, den: u64, wanted: Option<u64>) -> bool {
    assert!(rt; den > 0);
    on_grid(ratio(rt, value), den) == wanted
}

#[test]
fn floors_and_grids(rt: HostRuntime) {
    for row in &FLOORS {
        assert!(rt; floor_times(ratio(&rt, row.0), row.1) == row.2);
    }
    for row in &FLOORS_BETWEEN {
        assert!(rt; is_floor_between(&rt, row.0, row.1, row.2, row.3));
    }
    for row in &GRIDS {
        assert!(rt; is_on_grid(&rt, row.0, row.1, row.2));
    }
}

/// A start with its sign, a step, the three numbers of a move, and the start that it gives with its sign.
type Move = (Parts, bool, Parts, u32, u32, bool, Option<(Parts, bool)>);

const MOVES: [Move; 6] = [
    ((1, 2), false, (1, 3), 1, 1, false, Some(((5, 6), false))),
    ((1, 2), false, (1, 3), 2, 1, true, Some(((1, 6), true))),
    ((1, 2), true, (1, 2), 1, 1, false, Some(((0, 1), false))),
    ((1, 2), true, (1, 3), 3, 2, true, Some(((1, 1), true))),
    ((0, 1), true, (1, 3), 0, 2, true, Some(((0, 1), false))),
    ((1, WIDE), false, (1, WIDE - 2), 1, 1, false, None),
];

fn is_moved(rt: &impl Abort, row: &Move) -> bool {
    let (start, negative, step, k, r, back, wanted) = *row;
    assert!(rt; r > 0);
    let found = moved(short(rt, start), negative, short(rt, step), k, r, back);
    match (found, wanted) {
        (Some(m), Some((start, below))) => has_parts(m.start, start) && m.negative == below,
        (None, None) => true,
        _ => false,
    }
}

#[test]
fn starts_are_moved(rt: HostRuntime) {
    for row in &MOVES {
        assert!(rt; is_moved(&rt, row));
    }
}

const TICKS: [(Parts, Parts, Parts, u128); 6] = [
    ((1, 10), (0, 1), (1, 1), 11),
    ((1, 10), (1, 20), (1, 1), 10),
    ((1, 10), (2, 1), (1, 1), 0),
    ((3, 1), (0, 1), (0, 1), 1),
    ((2, 3), (1, 2), (5, 2), 4),
    ((1, WIDE), (0, 1), (1_048_575, 1), 1_152_920_405_094_170_626),
];

#[test]
fn ticks_are_counted(rt: HostRuntime) {
    for row in &TICKS {
        let count = ticks_until(period(&rt, row.0), short(&rt, row.1), instant(&rt, row.2));
        assert!(rt; count == row.3);
    }
}

/// Asserts that the denominators have a multiple below 2^40.
fn assert_grain(rt: &impl Abort, p: Ratio, s: Ratio, q: Ratio, r: Ratio)
    ensures { HasMultipleBelow (2 ^ 40) (p.den ∷ s.den ∷ q.den ∷ r.den ∷ []) }
{
    let first = lcm(p.den(), s.den()).expect(rt, "a multiple of 64 bits");
    let second = lcm(q.den(), r.den()).expect(rt, "a multiple of 64 bits");
    assert!(rt; first > 0);
    assert!(rt; second > 0);
    let grain = lcm(first, second).expect(rt, "a multiple of 64 bits");
    assert!(rt; grain > 0);
    assert!(rt; grain < 1 << 40);
}

fn share(rt: &impl Abort, p: Parts, s: Parts, q: Parts, r: Parts) -> bool {
    let p = period(rt, p);
    let s = short(rt, s);
    let q = period(rt, q);
    let r = short(rt, r);
    assert_grain(rt, p, s, q, r);
    share_instant(p, s, q, r)
}

const WIDE: u64 = (1 << 40) - 1;

const SHARED: [(Parts, Parts, Parts, Parts, bool); 11] = [
    // first at 1252/2003, tick 1252 of the one and 1257 of the other
    ((1, 2003), (0, 1), (1, 2011), (1, 4_028_033), true),
    ((2, 1001), (0, 1), (2, 1003), (1, 1001), false),
    ((1, 2), (1, 3), (1, 2), (1, 3), true),
    ((1, 1), (0, 1), (1, 1), (5, 1), true),
    ((1, 10), (0, 1), (3, 10), (1, 10), true),
    ((1, 10), (0, 1), (3, 10), (1, 20), false),
    ((2, 1), (0, 1), (3, 1), (1, 2), false),
    ((1, 3), (7, 1), (1, 2), (0, 1), true),
    ((WIDE, 1), (0, 1), (WIDE - 1, 1), (1, 1), true),
    ((1, WIDE), (0, 1), (2, WIDE), (1, WIDE), true),
    ((2, WIDE), (0, 1), (2, WIDE), (1, WIDE), false),
];

#[test]
fn clocks_share_instants(rt: HostRuntime) {
    for row in &SHARED {
        let shared = share(&rt, row.0, row.1, row.2, row.3);
        assert!(rt; shared == row.4, "at {row:?}");
    }
}

/// Whether one of the first 20 ticks of `s/3 + i*p/2` is one of the first 20 of `r/2 + j*q/3`.
fn meet_early(p: u64, s: u64, q: u64, r: u64) -> bool
    requires p { p < 8 }
    requires s { s < 8 }
    requires q { q < 8 }
    requires r { r < 8 }
{
    for i in 0..20 {
        for j in 0..20 {
            if 2 * s + 3 * p * i == 3 * r + 2 * q * j {
                return true;
            }
        }
    }
    false
}

fn is_shared_as_defined(rt: &impl Abort, p: u64, s: u64, q: u64, r: u64) -> bool
    requires p { p < 8 }
    requires s { s < 8 }
    requires q { q < 8 }
    requires r { r < 8 }
{
    share(rt, (p, 2), (s, 3), (q, 3), (r, 2)) == meet_early(p, s, q, r)
}

#[test]
fn shared_instants_are_those_of_the_definition(rt: HostRuntime) {
    for p in 1..4 {
        for s in 0..4 {
            for q in 1..4 {
                for r in 0..4 {
                    let holds = is_shared_as_defined(&rt, p, s, q, r);
                    assert!(rt; holds, "at {p} {s} {q} {r}");
                }
            }
        }
    }
}
