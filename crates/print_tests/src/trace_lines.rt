use crate::models::four;
use rational_time::make;
use sync_values::Value;
use trace_print::reserve;

/// The parts of an instant, the values of a row, and its line.
static ROWS: [(u64, u64, [Option<Value>; 3], &'static [u8]); 5] = [
    (
        0,
        1,
        [Some(Value::Int(0)), Some(Value::Bool(false)), None],
        b"0,0,false,\n",
    ),
    (
        3,
        2000,
        [
            Some(Value::Int(-7)),
            Some(Value::Bool(true)),
            Some(Value::Int(60)),
        ],
        b"3/2000,-7,true,60\n",
    ),
    (4, 2, [None, None, None], b"2,,,\n"),
    (
        u64::MAX,
        u64::MAX - 1,
        [Some(Value::Int(i64::MIN)), None, Some(Value::Int(i64::MIN))],
        b"18446744073709551615/18446744073709551614,-9223372036854775808,,-9223372036854775808\n",
    ),
    (
        1,
        3,
        [
            Some(Value::Int(i64::MAX)),
            Some(Value::Bool(false)),
            Some(Value::Int(1)),
        ],
        b"1/3,9223372036854775807,false,1\n",
    ),
];

/// The header, and a row for each kind of value: absent, negative, the least and the greatest, truth values, whole
/// instants and fractions of the greatest parts.
#[test]
fn columns_are_all_but_clocks(rt: HostRuntime) {
    let flat = four(&rt, rt.alloc());
    let mut line = reserve(rt.alloc(), &flat).expect(&rt, "memory");
    assert_eq!(rt; line.header(&flat), b"time,n,b,f.u\n".as_slice());
    for row in &ROWS {
        assert!(rt; row.1 > 0);
        assert_eq!(rt; line.row(make(row.0, row.1), &row.2), row.3);
    }
    assert_eq!(rt; line.header(&flat), b"time,n,b,f.u\n".as_slice());
}
