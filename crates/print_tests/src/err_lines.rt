ghost use Rattle.trace_print.specs.Refusals.{IsShort};

use flat_model::{Fault, FaultPlace, Moment, Place};
use rational_time::{Ratio, make};
use std::alloc::Global;
use std::process::Abort;
use sync_values::{Fail, Text};
use trace_print::{Code, fault, refusal};

/// The place of a broken rule, as a test writes it.
#[derive(Clone, Copy)]
enum Spot {
    At(u32, u32),
    Equation(u32),
    Name(&'static [u8]),
    Cell(u32, u32),
    Model,
    Table,
    Plan,
}

fn place(rt: &impl Abort, alloc: Global, spot: Spot) -> Place
    ensures { IsShort result }
{
    match spot {
        Spot::At(line, column) => Place::At { line, column },
        Spot::Equation(equation) => Place::Equation(equation),
        Spot::Name(text) => {
            assert!(rt; text.len() <= 4500);
            Place::Name(Text::from_bytes(alloc, text).expect(rt, "memory"))
        }
        Spot::Cell(row, column) => Place::Cell { row, column },
        Spot::Model => Place::Model,
        Spot::Table => Place::Table,
        Spot::Plan => Place::Plan,
    }
}

/// A code and a place, and the line of their refusal.
static PLACES: [(Code, Spot, &'static [u8]); 10] = [
    (Code::L0, Spot::Model, b"refused L0 at model\n"),
    (Code::L0, Spot::Table, b"refused L0 at table\n"),
    (Code::S1, Spot::At(3, 14), b"refused S1 at 3:14\n"),
    (Code::N6, Spot::Name(b"a.b"), b"refused N6 at a.b\n"),
    (Code::Y4, Spot::Equation(0), b"refused Y4 at equation 1\n"),
    (
        Code::I3,
        Spot::Cell(0, 2),
        b"refused I3 at row 0 column 2\n",
    ),
    (
        Code::I4,
        Spot::Cell(10, 1),
        b"refused I4 at row 10 column 1\n",
    ),
    (Code::P1, Spot::Plan, b"refused P1 at plan\n"),
    (
        Code::C10,
        Spot::Equation(u32::MAX),
        b"refused C10 at equation 4294967296\n",
    ),
    (
        Code::I7,
        Spot::Cell(u32::MAX, u32::MAX),
        b"refused I7 at row 4294967295 column 4294967295\n",
    ),
];

/// The line of a refusal at each kind of place, also where its numbers are the greatest.
#[test]
fn refusals_name_their_places(rt: HostRuntime) {
    for row in &PLACES {
        let place = place(&rt, rt.alloc(), row.1);
        assert_eq!(rt; refusal(row.0, &place).bytes(), row.2);
    }
}

/// Each code, and the line of its refusal.
static CODES: [(Code, &'static [u8]); 46] = [
    (Code::L0, b"refused L0 at model\n"),
    (Code::L1, b"refused L1 at model\n"),
    (Code::L2, b"refused L2 at model\n"),
    (Code::L3, b"refused L3 at model\n"),
    (Code::L4, b"refused L4 at model\n"),
    (Code::S1, b"refused S1 at model\n"),
    (Code::S2, b"refused S2 at model\n"),
    (Code::S3, b"refused S3 at model\n"),
    (Code::N1, b"refused N1 at model\n"),
    (Code::N2, b"refused N2 at model\n"),
    (Code::N3, b"refused N3 at model\n"),
    (Code::N4, b"refused N4 at model\n"),
    (Code::N5, b"refused N5 at model\n"),
    (Code::N6, b"refused N6 at model\n"),
    (Code::N7, b"refused N7 at model\n"),
    (Code::N8, b"refused N8 at model\n"),
    (Code::N9, b"refused N9 at model\n"),
    (Code::N10, b"refused N10 at model\n"),
    (Code::N11, b"refused N11 at model\n"),
    (Code::Y1, b"refused Y1 at model\n"),
    (Code::Y2, b"refused Y2 at model\n"),
    (Code::Y3, b"refused Y3 at model\n"),
    (Code::Y4, b"refused Y4 at model\n"),
    (Code::Y5, b"refused Y5 at model\n"),
    (Code::C1, b"refused C1 at model\n"),
    (Code::C2, b"refused C2 at model\n"),
    (Code::C3, b"refused C3 at model\n"),
    (Code::C4, b"refused C4 at model\n"),
    (Code::C5, b"refused C5 at model\n"),
    (Code::C6, b"refused C6 at model\n"),
    (Code::C7, b"refused C7 at model\n"),
    (Code::C8, b"refused C8 at model\n"),
    (Code::C9, b"refused C9 at model\n"),
    (Code::C10, b"refused C10 at model\n"),
    (Code::Q1, b"refused Q1 at model\n"),
    (Code::Q2, b"refused Q2 at model\n"),
    (Code::Q3, b"refused Q3 at model\n"),
    (Code::Q4, b"refused Q4 at model\n"),
    (Code::I1, b"refused I1 at model\n"),
    (Code::I2, b"refused I2 at model\n"),
    (Code::I3, b"refused I3 at model\n"),
    (Code::I4, b"refused I4 at model\n"),
    (Code::I5, b"refused I5 at model\n"),
    (Code::I6, b"refused I6 at model\n"),
    (Code::I7, b"refused I7 at model\n"),
    (Code::P1, b"refused P1 at model\n"),
];

/// The text of each code.
#[test]
fn codes_are_their_texts(rt: HostRuntime) {
    for row in &CODES {
        assert_eq!(rt; refusal(row.0, &Place::Model).bytes(), row.1);
    }
}

/// A name of 4,500 bytes has its place in the line.
#[test]
fn long_names_are_printed_whole(rt: HostRuntime) {
    let name = vec![in rt.alloc(); b'a'; 4500].expect(&rt, "memory");
    assert!(rt; name.len() <= 4500);
    let place = Place::Name(Text::from_bytes(rt.alloc(), &name).expect(&rt, "memory"));
    let line = refusal(Code::I2, &place);
    let bytes = line.bytes();
    assert_eq!(rt; bytes.len(), 4515);
    assert!(rt; bytes.starts_with(b"refused I2 at aaa"));
    assert!(rt; bytes.ends_with(b"aaa\n"));
}

fn instant(rt: &impl Abort, num: u64, den: u64) -> Ratio {
    assert!(rt; den > 0);
    make(num, den)
}

/// A kind, the parts of an instant, a place, and the line of their fault.
static FAULTS: [(Fail, Option<(u64, u64)>, FaultPlace, &'static [u8]); 4] = [
    (
        Fail::Divide,
        None,
        FaultPlace::Equation(0),
        b"fault divide at initial in equation 1\n",
    ),
    (
        Fail::TooLarge,
        Some((1, 1000)),
        FaultPlace::Site(0),
        b"fault too-large at 1/1000 in clock 1\n",
    ),
    (
        Fail::Divide,
        Some((6, 2)),
        FaultPlace::Site(41),
        b"fault divide at 3 in clock 42\n",
    ),
    (
        Fail::TooLarge,
        Some((u64::MAX, u64::MAX - 1)),
        FaultPlace::Equation(u32::MAX),
        b"fault too-large at 18446744073709551615/18446744073709551614 in equation 4294967296\n",
    ),
];

/// The lines of faults: both kinds, both places, before all instants and at instants.
#[test]
fn faults_tell_kind_moment_and_place(rt: HostRuntime) {
    for row in &FAULTS {
        let moment = match row.1 {
            None => Moment::Initial,
            Some((num, den)) => Moment::At(instant(&rt, num, den)),
        };
        assert_eq!(rt;
            fault(&Fault {
                moment,
                place: row.2,
                kind: row.0
            })
            .bytes(),
            row.3
        );
    }
}
