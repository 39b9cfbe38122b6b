//! The stress model: what its runs add up to, its words, and its refusals. The sums were worked out apart from the program.
use crate::call::{Call, answer_of, check_all};
use clocked_run::Status;

const CALLS: [Call; 9] = [
    (
        &["1", "--stop", "0.002", "--mode", "stress"],
        "",
        "",
        Status::Done,
        "stress 1\nrows 3\nvalues 6\nsum 2052\n",
        "",
    ),
    (
        &["2", "--stop", "0.002", "--mode", "stress", "--workers", "8"],
        "",
        "",
        Status::Done,
        "stress 2\nrows 3\nvalues 11\nsum 2250\n",
        "",
    ),
    // The number is printed without zeros in front.
    (
        &["0007", "--stop", "0.05", "--mode", "stress"],
        "",
        "",
        Status::Done,
        "stress 7\nrows 51\nvalues 522\nsum 237107\n",
        "",
    ),
    // A table adds its rows.
    (
        &["1", "--stop", "0.002", "--mode", "stress", "--table", "t"],
        "",
        "time\n0\n1/3000\n",
        Status::Done,
        "stress 1\nrows 4\nvalues 7\nsum 2053\n",
        "",
    ),
    // The model is in no file, and the table is.
    (
        &["1", "--stop", "1", "--mode", "stress", "--table", "x"],
        "",
        "",
        Status::ReadFault,
        "",
        "read fault: x\n",
    ),
    (
        &["1", "--stop", "1", "--mode", "stress", "--table", "t"],
        "",
        "time,u\n0,1\n",
        Status::Refused,
        "",
        "refused I3 at row 0 column 2\n",
    ),
    (
        &["1", "--stop", "1", "--mode", "stress", "--class", "Other"],
        "",
        "",
        Status::Refused,
        "",
        "refused N1 at 10:1\n",
    ),
    (
        &["1000", "--stop", "1048575", "--mode", "stress"],
        "",
        "",
        Status::Refused,
        "",
        "refused P1 at plan\n",
    ),
    (
        &["1001", "--stop", "1", "--mode", "stress"],
        "",
        "",
        Status::Usage,
        "",
        "usage: MODEL\n",
    ),
];

#[test]
fn runs_of_the_stress_model(rt: HostRuntime) {
    check_all(&rt, rt.alloc(), &CALLS);
}

#[test]
fn the_sums_are_the_same_for_all_workers(rt: HostRuntime) {
    for workers in ["2", "64"] {
        let words = [
            "7",
            "--stop",
            "0.05",
            "--mode",
            "stress",
            "--workers",
            workers,
        ];
        let ended = answer_of(&rt, rt.alloc(), &words, b"", b"");
        let out = b"stress 7\nrows 51\nvalues 522\nsum 237107\n";
        assert!(&rt; ended.is(Status::Done, out, ""), "{workers} workers");
    }
}
