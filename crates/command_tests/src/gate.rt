//! That partitions of one moment are stepped side by side.
use crate::call::{SOUND, owned, run};
use clocked_run::Status;
use outside_io::Gate;
use std::sync::atomic::{AtomicBool, Ordering};

/// Two partitions, which both tick at the instant 0.
const TWO_RATES: &str =
    "model M Integer p; Integer a; Integer q; Integer b; equation when Clock(1,2) then p = previous(p) + 1; a = div(6, 2 - p); end when; when Clock(1,4) then q = previous(q) + 1; b = div(6, 3 - q); end when; end M;\n";

/// The pieces of partitions 0 and 1 each set a flag, and wait for that of the other for so many turns at most.
#[derive(Drop)]
struct MeetingGate {
    zeroth: AtomicBool,
    first: AtomicBool,
    zeroth_met: AtomicBool,
    first_met: AtomicBool,
}

impl Gate for MeetingGate {
    fn pass(&self, partition: u32) {
        let (mine, other, met) = if partition == 0 {
            (&self.zeroth, &self.first, &self.zeroth_met)
        } else {
            (&self.first, &self.zeroth, &self.first_met)
        };
        mine.store(true, Ordering::SeqCst);
        for _ in 0..(1u32 << 27) {
            if other.load(Ordering::SeqCst) {
                met.store(true, Ordering::SeqCst);
                return;
            }
        }
    }
}

#[test]
fn two_partitions_meet_at_a_gate(rt: HostRuntime) {
    let gate = MeetingGate {
        zeroth: AtomicBool::new(false),
        first: AtomicBool::new(false),
        zeroth_met: AtomicBool::new(false),
        first_met: AtomicBool::new(false),
    };
    let words = owned(&rt, rt.alloc(), &["m", "--stop", "1/8", "--workers", "2"]);
    let texts = (TWO_RATES.as_bytes(), TWO_RATES.as_bytes());
    let ended = run(&rt, rt.alloc(), &words, texts, &SOUND, &gate);
    assert!(&rt; ended.is(Status::Done, b"time,p,a,q,b\n0,1,6,1,3\n", ""));
    assert!(&rt; gate.zeroth_met.load(Ordering::SeqCst), "partition 0 met 1");
    assert!(&rt; gate.first_met.load(Ordering::SeqCst), "partition 1 met 0");
}
