ghost use Rattle.std.specs.Prelude.{◌≡◌, ◌+◌, ◌≤◌, ◌<◌, ◌^◌, ◌++◌, [], ◌∷◌, List, ℕ, length, take, decimal};
ghost use Rattle.rational_time.specs.Fraction.{instant_text};
ghost use Rattle.flat_model.specs.Runs.{fault_line, kind_text, moment_text};
ghost use Rattle.flat_model.specs.Runs as runs;
ghost use Rattle.trace_print.specs.Refusals.{place_text, refusal_line, IsShort, line_limit};

use crate::code::Code;
use flat_model::{Fault, FaultPlace, Moment, Place};
use itoa::Buffer;
use rational_time::Ratio;
use std::marker::Model;
use sync_values::Fail;

/// The most bytes of a line.
const LINE_LEN: usize = 4_608;

/// A line of at most 4,608 bytes, without memory of its own.
#[derive(Drop)]
pub struct ErrLine {
    text: [u8; LINE_LEN],
    len: usize,
}

impl Model for ErrLine {
    ghost Value = { List ℕ };

    ghost view = { λ s. take s.len s.text };

    ghost invariant = { λ s. s.len ≤ line_limit };
}

/// The line of a broken rule, `refused CODE at PLACE`. Places are printed from 1. The condition is that a name in the
/// place has at most 4,500 bytes.
pub fn refusal(code: Code, place: &Place) -> ErrLine
    requires { IsShort place.now }
    ensures { result ≡ refusal_line code place.now }
{
    let mut line = ErrLine::new();
    line.add(b"refused ");
    line.add(code.text());
    line.add(b" at ");
    line.add_place(place);
    line.add(b"\n");
    line
}

/// The line of the first fault of a run, `fault KIND at MOMENT in equation N` or `.. in clock N`, with N from 1.
pub fn fault(fault: &Fault) -> ErrLine
    ensures { result ≡ fault_line fault.now.moment fault.now.place fault.now.kind }
{
    let mut line = ErrLine::new();
    line.add(b"fault ");
    line.add(kind_text(fault.kind));
    line.add(b" at ");
    line.add_moment(fault.moment);
    line.add(b" in ");
    line.add_fault_place(fault.place);
    line.add(b"\n");
    line
}

fn kind_text(kind: Fail) -> &'static [u8]
    ensures text { result.now ≡ kind_text kind }
    ensures short { length result.now ≤ 9 }
{
    match kind {
        Fail::Divide => b"divide",
        Fail::TooLarge => b"too-large",
    }
}

impl ErrLine {
    fn new() -> ErrLine
        ensures { result ≡ [] }
    {
        ErrLine {
            text: [0; LINE_LEN],
            len: 0,
        }
    }

    /// The bytes of the line, with its line feed.
    pub fn bytes(&self) -> &[u8]
        ensures { result.now ≡ self.now }
    {
        &self.text[..self.len]
    }

    fn add_place(&mut self, place: &Place)
        requires short { IsShort place.now }
        requires room { length self.old ≤ 32 }
        ensures text { self.new ≡ self.old ++ place_text place.now }
        ensures len { length self.new ≤ 4600 }
    {
        match place {
            Place::At { line, column } => {
                self.add_number(*line);
                self.add(b":");
                self.add_number(*column);
            }
            Place::Equation(equation) => {
                self.add(b"equation ");
                self.add_next(*equation);
            }
            Place::Name(text) => self.add(text.as_bytes()),
            Place::Cell { row, column } => {
                self.add(b"row ");
                self.add_number(*row);
                self.add(b" column ");
                self.add_number(*column);
            }
            Place::Model => self.add(b"model"),
            Place::Table => self.add(b"table"),
            Place::Plan => self.add(b"plan"),
        }
    }

    fn add_moment(&mut self, moment: Moment)
        requires { length self.old ≤ 32 }
        ensures text { self.new ≡ self.old ++ moment_text moment }
        ensures len { length self.new ≤ length self.old + 41 }
    {
        match moment {
            Moment::Initial => self.add(b"initial"),
            Moment::At(at) => self.add_instant(at),
        }
    }

    fn add_fault_place(&mut self, place: FaultPlace)
        requires { length self.old ≤ 1000 }
        ensures text { self.new ≡ self.old ++ runs.place_text place }
        ensures len { length self.new ≤ length self.old + 29 }
    {
        match place {
            FaultPlace::Equation(equation) => {
                self.add(b"equation ");
                self.add_next(equation);
            }
            FaultPlace::Site(site) => {
                self.add(b"clock ");
                self.add_next(site);
            }
        }
    }

    fn add_number(&mut self, number: u32)
        requires { length self.old + 10 ≤ line_limit }
        ensures text { self.new ≡ self.old ++ decimal number }
        ensures len { length self.new ≤ length self.old + 10 }
    {
        let mut buffer = Buffer::new();
        self.add(buffer.format(number).as_bytes());
    }

    /// Adds a number that counts from 0, as it is printed from 1.
    fn add_next(&mut self, number: u32)
        requires { length self.old + 20 ≤ line_limit }
        ensures text { self.new ≡ self.old ++ decimal (number + 1) }
        ensures len { length self.new ≤ length self.old + 20 }
    {
        let mut buffer = Buffer::new();
        self.add(buffer.format(u64::from(number) + 1).as_bytes());
    }

    fn add_instant(&mut self, at: Ratio)
        requires { length self.old + 41 ≤ line_limit }
        ensures text { self.new ≡ self.old ++ instant_text at }
        ensures len { length self.new ≤ length self.old + 41 }
    {
        let mut num = Buffer::new();
        self.add(num.format(at.num()).as_bytes());
        if at.den() != 1 {
            self.add(b"/");
            let mut den = Buffer::new();
            self.add(den.format(at.den()).as_bytes());
        }
    }

    fn add(&mut self, piece: &[u8])
        requires { length self.old + length piece.now ≤ line_limit }
        ensures { self.new ≡ self.old ++ piece.now }
    {
        for byte in piece {
            self.push(*byte);
        }
    }

    fn push(&mut self, byte: u8)
        requires { length self.old + 1 ≤ line_limit }
        ensures { self.new ≡ self.old ++ byte ∷ [] }
    {
        self.text[self.len] = byte;
        self.len += 1;
    }
}
