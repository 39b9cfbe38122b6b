ghost use Rattle.std.specs.Prelude.{◌≤◌};

use fork_steps::{Slot, Step, step_slots};
use outside_io::Gate;
use std::alloc::Global;
use std::process::Abort;
use std::sync::atomic::{AtomicBool, AtomicU32, AtomicU64, Ordering};
use std::thread::Threads;

/// What all counters read at a moment.
#[derive(Drop)]
struct Scene<'a> {
    added: &'a u32,
}

/// A number below 1000 before a step, which adds what the scene has, a number below 1000 too.
#[derive(Drop)]
struct Counter {
    value: u64,
}

impl<'a> Step<Scene<'a>> for Counter {
    ghost use Rattle.std.specs.Prelude.{◌≡◌, ◌<◌, ◌+◌};

    ghost can_step = { λ counter scene. (counter.value < 1000) × (scene.added.now < 1000) };

    ghost steps = { λ old scene new. new.value ≡ old.value + scene.added.now };

    fn step(&mut self, scene: &Scene<'a>) {
        self.value += u64::from(*scene.added);
    }
}

/// How often each of 16 pieces passed, in four bits each.
#[derive(Drop)]
struct CountingGate {
    passes: AtomicU64,
}

impl Gate for CountingGate {
    fn pass(&self, partition: u32) {
        let place = (partition % 16) * 4;
        self.passes.fetch_add(1u64 << place, Ordering::SeqCst);
    }
}

/// Pieces 3 and 4 each set a flag, and wait for that of the other for so many turns at most.
#[derive(Drop)]
struct MeetingGate {
    third: AtomicBool,
    fourth: AtomicBool,
    met: AtomicU32,
}

impl Gate for MeetingGate {
    fn pass(&self, partition: u32) {
        let (mine, other) = if partition == 3 {
            (&self.third, &self.fourth)
        } else {
            (&self.fourth, &self.third)
        };
        mine.store(true, Ordering::SeqCst);
        for _ in 0..(1u32 << 27) {
            if other.load(Ordering::SeqCst) {
                self.met.fetch_add(1, Ordering::SeqCst);
                return;
            }
        }
    }
}

/// Slots with the values 0, 10, 20 and so on. Those count whose bit is set.
fn slots(rt: &impl Abort, alloc: Global, count: u32, marks: u32) -> Vec<Slot<Counter>>
    requires { count ≤ 16 }
{
    let mut slots = Vec::new(alloc);
    for number in 0..count {
        slots
            .push(Slot {
                piece: Counter {
                    value: u64::from(number) * 10,
                },
                number,
                counts: (marks >> number) % 2 == 1,
            })
            .expect(rt, "memory");
    }
    slots
}

/// Steps the slots that count, if all values are below 1000.
fn step_all<R: Threads + Abort + Sync, G: Gate + Sync>(
    rt: &R,
    gate: &G,
    workers: u32,
    slots: &mut [Slot<Counter>],
) {
    let ready = slots.iter().all(|slot| slot.piece.value < 1000);
    assert!(rt; ready, "all values are below 1000");
    step_slots(rt, gate, workers, &Scene { added: &7 }, slots);
}

/// The value of each slot after the moment: those that count have 7 more.
fn check<R: Threads + Abort + Sync>(rt: &R, alloc: Global, workers: u32, marks: u32) {
    let mut slots = slots(rt, alloc, 16, marks);
    let gate = CountingGate {
        passes: AtomicU64::new(0),
    };
    step_all(rt, &gate, workers, slots.as_mut_slice());
    let mut passes = 0u64;
    for number in 0..16u32 {
        let counts = (marks >> number) % 2 == 1;
        let before = u64::from(number) * 10;
        let wanted = if counts { before + 7 } else { before };
        let value = match slots.get(number as usize) {
            Some(slot) => slot.piece.value,
            None => 1000,
        };
        assert_eq!(rt; value, wanted, "slot {number} of {marks} with {workers}");
        if counts {
            passes |= 1u64 << (number * 4);
        }
    }
    assert_eq!(rt;
        gate.passes.load(Ordering::SeqCst),
        passes,
        "passes of {marks} with {workers}"
    );
}

/// Whatever counts is stepped once and passes the gate once, by any number of workers.
#[test]
fn each_that_counts_is_stepped_once(rt: HostRuntime) {
    for marks in [0, 1, 0x8000, 0x8001, 0x0018, 0x00f0, 0x5555, 0xfff0, 0xffff] {
        for workers in [0, 1, 2, 3, 4, 5, 7, 16, 64] {
            check(&rt, rt.alloc(), workers, marks);
        }
    }
}

/// No slot at all is stepped.
#[test]
fn no_slots_are_stepped(rt: HostRuntime) {
    let mut slots = slots(&rt, rt.alloc(), 0, 0);
    let gate = CountingGate {
        passes: AtomicU64::new(0),
    };
    step_all(&rt, &gate, 4, slots.as_mut_slice());
    assert_eq!(&rt; gate.passes.load(Ordering::SeqCst), 0);
}

/// Two that count are stepped side by side, though they stand together among others that do not count.
#[test]
fn two_that_count_run_side_by_side(rt: HostRuntime) {
    let mut slots = slots(&rt, rt.alloc(), 16, 0x0018);
    let gate = MeetingGate {
        third: AtomicBool::new(false),
        fourth: AtomicBool::new(false),
        met: AtomicU32::new(0),
    };
    step_all(&rt, &gate, 2, slots.as_mut_slice());
    assert_eq!(&rt; gate.met.load(Ordering::SeqCst), 2);
}
