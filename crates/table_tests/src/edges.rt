ghost use Rattle.flat_model.specs.Models.{IsModel};

use crate::tables::{assert_read, model, name, one_input};
use flat_model::FlatModel;
use std::alloc::Global;
use std::process::Abort;

/// The bytes of a table of the input `u`, and what is told of the answer.
type Case = (&'static [u8], &'static [i64]);

/// A table of one row of value 5, and one of two rows of values 5 and 7.
const ONE: &'static [i64] = &[0, 0, 1, 5];

const TWO: &'static [i64] = &[0, 0, 1, 5, 1, 1, 7];

static RECORDS: [Case; 23] = [
    // Quotes.
    (b"\"time\",\"u\"\n\"0\",\"5\"\n\"1\",\"7\"\n", TWO),
    (b"time,u\n0,\"5\"6\n", &[0, 0, 1, 56]),
    (b"time,u\n0,\"5", ONE),
    (b"time,u\n0,\"1\n2\"\n", &[4, 1, 2]),
    (b"time,u\n0,\"5,6\"\n", &[4, 1, 2]),
    (b"time,u\n0,\"\"\n", &[4, 1, 2]),
    (b"time,u\n0,\"\"\"5\"\"\"\n", &[4, 1, 2]),
    (b"time2,u\n0,5\n\"+1\",\"\"\n", &[0, 0, 1, 5, 1, 1, 5]),
    // Blank lines are no records, and lines of blanks are.
    (b"\n\n\r\ntime,u\n\n\n0,5\n\n\n1,7\n\n", TWO),
    (b"time,u\n\n", &[5, 1, 1]),
    (b"time,u\n0,5\n\t\n", &[7, 2, 2]),
    (b"time,u\n0,5\n\n1,x\n", &[4, 2, 2]),
    // CR ends a record with LF and without.
    (b"time,u\r0,5\r1,7\r", TWO),
    (b"time,u\r\n0,5\r\n1,7", TWO),
    (b"time , u\r\n0, 5\r\n", ONE),
    // One byte order mark is dropped, where it stands first.
    (b"\xef\xbb\xbf", &[1, 0, 1]),
    (b"\xef\xbb\xbf\"time\",u\n0,5\n", ONE),
    (b"\xef\xbb\xbf\xef\xbb\xbftime,u\n0,5\n", &[1, 0, 1]),
    (b"time,u\n\xef\xbb\xbf0,5\n", &[4, 1, 1]),
    // Bytes that are no UTF-8.
    (b"\xfftime,u\n0,5\n", &[1, 0, 1]),
    (b"time,u\n\xff,5\n", &[4, 1, 1]),
    (b"time,u\n0,5\xc3\n", &[4, 1, 2]),
    (b"time,u,\xff\n0,5,6\n", &[3, 0, 3]),
];

static NUMBERS: [Case; 19] = [
    // A numerator and a denominator have 18 digits at most, and a fraction 9.
    (b"time,u\n000000000000000000,5\n", ONE),
    (b"time,u\n0/000000000000000001,5\n", ONE),
    (b"time,u\n0/0000000000000000001,5\n", &[4, 1, 1]),
    (
        b"time,u\n0,5\n0.000000001,6\n",
        &[0, 0, 1, 5, 1, 1_000_000_000, 6],
    ),
    (b"time,u\n0,5\n0.0000000001,6\n", &[4, 2, 1]),
    // An Integer of 19 digits.
    (
        b"time,u\n0,1000000000000000000\n",
        &[0, 0, 1, 1_000_000_000_000_000_000],
    ),
    (b"time,u\n0,-9223372036854775809\n", &[4, 1, 2]),
    (b"time,u\n0,-0\n", &[0, 0, 1, 0]),
    // Times below 2^20.
    (
        b"time,u\n0,5\n1048575.999999999,6\n",
        &[0, 0, 1, 5, 1_048_575_999_999_999, 1_000_000_000, 6],
    ),
    (
        b"time,u\n0,5\n4294967295/4096,6\n",
        &[0, 0, 1, 5, 4_294_967_295, 4096, 6],
    ),
    (b"time,u\n0,5\n4294967296/4096,6\n", &[4, 2, 1]),
    // Denominators below 2^32 in lowest terms.
    (
        b"time,u\n0,5\n2/8589934590,6\n",
        &[0, 0, 1, 5, 1, 4_294_967_295, 6],
    ),
    (b"time,u\n0,5\n2/8589934592,6\n", &[4, 2, 1]),
    (
        b"time,u\n0,5\n4294967296/8589934592,6\n",
        &[0, 0, 1, 5, 1, 2, 6],
    ),
    // The same of sums.
    (
        b"time2,u\n0,5\n1048575,6\n+1/2,7\n",
        &[0, 0, 1, 5, 1_048_575, 1, 6, 2_097_151, 2, 7],
    ),
    (b"time2,u\n0,5\n2097151/2,6\n+1/2,7\n", &[4, 3, 1]),
    (
        b"time2,u\n0,5\n1/65535,6\n+1/65537,7\n",
        &[0, 0, 1, 5, 1, 65_535, 6, 131_072, 4_294_967_295, 7],
    ),
    (b"time2,u\n0,5\n1/65536,6\n+1/4294967295,7\n", &[4, 3, 1]),
    (b"time2,u\n0,5\n+4294967296/4096,6\n", &[4, 2, 1]),
];

/// How a file is divided into records, and its numbers at their bounds.
#[test]
fn records_and_bounds(rt: HostRuntime) {
    let flat = one_input(&rt, rt.alloc());
    for case in &RECORDS {
        assert_read(&rt, rt.alloc(), &flat, case.0, case.1);
    }
    for case in &NUMBERS {
        assert_read(&rt, rt.alloc(), &flat, case.0, case.1);
    }
}

/// An input `time` and a variable `y`, both Integer.
fn one_called_time(rt: &impl Abort, alloc: Global) -> FlatModel
    ensures { IsModel result }
{
    let input = name(rt, alloc, b"time", false, true);
    let variable = name(rt, alloc, b"y", false, false);
    model(rt, alloc, input, variable)
}

const MISSING: [i64; 5] = [2, b't' as i64, b'i' as i64, b'm' as i64, b'e' as i64];

/// An input may have the name of the first column.
#[test]
fn an_input_may_be_called_time(rt: HostRuntime) {
    let flat = one_called_time(&rt, rt.alloc());
    assert_read(&rt, rt.alloc(), &flat, b"time,time\n0,5\n", ONE);
    assert_read(&rt, rt.alloc(), &flat, b"time\n0\n", &MISSING);
}
