//! Texts at a limit, and one byte past it.
ghost use Rattle.std.specs.Prelude.{◌≤◌, ◌<◌, ◌^◌, length};

use crate::call::answer_of;
use clocked_run::Status;
use std::alloc::Global;
use std::process::Abort;

const COUNTER: &str =
    "model M Integer x; equation when Clock(1,2) then x = previous(x) + 1; end when; end M;\n";

const INPUT: &str =
    "model M input Integer u; Integer y; equation y = sample(u, Clock(1)); end M;\n";

/// Some spaces, and a text behind them.
fn padded(rt: &impl Abort, alloc: Global, spaces: usize, text: &[u8]) -> Vec<u8>
    requires few { spaces < 2 ^ 25 }
{
    let mut all = vec![in alloc; b' '; spaces].expect(rt, "memory");
    all.extend_from_slice(text).expect(rt, "memory");
    all
}

#[test]
fn a_model_may_have_a_mebibyte(rt: HostRuntime) {
    let words = ["m", "--stop", "0"];
    let text = padded(
        &rt,
        rt.alloc(),
        1_048_576 - COUNTER.len(),
        COUNTER.as_bytes(),
    );
    let ended = answer_of(&rt, rt.alloc(), &words, text.as_slice(), b"");
    assert!(&rt; ended.is(Status::Done, b"time,x\n0,1\n", ""));
    let longer = padded(
        &rt,
        rt.alloc(),
        1_048_577 - COUNTER.len(),
        COUNTER.as_bytes(),
    );
    let refused = answer_of(&rt, rt.alloc(), &words, longer.as_slice(), b"");
    assert!(&rt; refused.is(Status::Refused, b"", "refused L0 at model\n"));
}

/// The blanks of a table stand behind its one value.
fn table_of(rt: &impl Abort, alloc: Global, bytes: usize) -> Vec<u8> {
    assert!(rt; bytes > 11 && bytes < 20_000_000);
    let mut all = Vec::from_slice(alloc, b"time,u\n0,5").expect(rt, "memory");
    let blanks = vec![in alloc; b' '; bytes - 11].expect(rt, "memory");
    all.extend_from_slice(blanks.as_slice())
        .expect(rt, "memory");
    all.push(b'\n').expect(rt, "memory");
    all
}

#[test]
fn a_table_may_have_sixteen_mebibytes(rt: HostRuntime) {
    let words = ["m", "--stop", "0", "--table", "t"];
    let text = table_of(&rt, rt.alloc(), 16_777_216);
    let ended = answer_of(&rt, rt.alloc(), &words, INPUT.as_bytes(), text.as_slice());
    assert!(&rt; ended.is(Status::Done, b"time,u,y\n0,5,5\n", ""));
    let longer = table_of(&rt, rt.alloc(), 16_777_217);
    let refused = answer_of(&rt, rt.alloc(), &words, INPUT.as_bytes(), longer.as_slice());
    assert!(&rt; refused.is(Status::Refused, b"", "refused L0 at table\n"));
}
