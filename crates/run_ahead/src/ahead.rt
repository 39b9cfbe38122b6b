ghost use Rattle.std.specs.Prelude.{◌≡◌, Some};
ghost use Rattle.flat_model.specs.declared.clock.Moment.TheVariants.{At};
ghost use Rattle.run_ahead.specs.Ahead.{Running, Stands, IsStanding, moment_given, row_given};
ghost use Rattle.run_ahead.specs.Advances.{Fills, Passes, GivesNext, StaysStopped, StaysEnded, IsOverWhereGiven, AnswersAgain, HasRow, ShowsRow, given_by};
ghost use Rattle.run_ahead.specs.Given.{AdvancesAs};

use crate::answer::Advance;
use crate::windows::Windows;
use flat_model::Moment;
use outside_io::Gate;
use rational_time::Ratio;
use std::thread::Threads;
use sync_values::Value;

/// A run that gives the rows of its windows one by one.
#[derive(Drop)]
pub struct Ahead<W> {
    pub window: W,
    /// How many moments of the window were given.
    pub given: usize,
}

impl<W: Windows> Ahead<W> {
    /// Runs a window where nothing is left to give and nothing failed.
    fn fill<R: Threads + Sync, G: Gate + Sync>(&mut self, rt: &R, gate: &G)
        requires { IsStanding (W.keeps self.old.window) (record { window = W.shown self.old.window; given = self.old.given }) }
        ensures standing { IsStanding (W.keeps self.new.window) (record { window = W.shown self.new.window; given = self.new.given }) }
        ensures still { StaysStopped (record { window = W.shown self.old.window; given = self.old.given }) (record { window = W.shown self.new.window; given = self.new.given }) }
        ensures ended { StaysEnded (W.over self.old.window) (W.over self.new.window) (record { window = W.shown self.old.window; given = self.old.given }) (record { window = W.shown self.new.window; given = self.new.given }) }
        ensures filled { IsOverWhereGiven (W.over self.new.window) (record { window = W.shown self.new.window; given = self.new.given }) }
        ensures fills { Fills (W.keeps self.old.window) (W.keeps self.new.window) (record { window = W.shown self.old.window; given = self.old.given }) (record { window = W.shown self.new.window; given = self.new.given }) }
    {
        if self.given >= self.window.count() && self.window.fault().is_none() {
            self.window.run(rt, gate);
            self.given = 0;
        }
    }

    /// Passes over the next moment where it is Initial, which has no row.
    fn pass(&mut self)
        ensures standing { IsStanding (W.keeps self.old.window) (record { window = W.shown self.old.window; given = self.old.given }) → IsStanding (W.keeps self.new.window) (record { window = W.shown self.new.window; given = self.new.given }) }
        ensures still { StaysStopped (record { window = W.shown self.old.window; given = self.old.given }) (record { window = W.shown self.new.window; given = self.new.given }) }
        ensures ended { StaysEnded (W.over self.old.window) (W.over self.new.window) (record { window = W.shown self.old.window; given = self.old.given }) (record { window = W.shown self.new.window; given = self.new.given }) }
        ensures passes { Passes (W.keeps self.old.window) (W.keeps self.new.window) (record { window = W.shown self.old.window; given = self.old.given }) (record { window = W.shown self.new.window; given = self.new.given }) }
    {
        if self.given < self.window.count() {
            if let Moment::Initial = self.window.moment(self.given) {
                self.given += 1;
            }
        }
    }

    /// Gives the next row that was run, or tells how the run ended.
    fn give(&mut self) -> Advance
        ensures standing { IsStanding (W.keeps self.old.window) (record { window = W.shown self.old.window; given = self.old.given }) → IsStanding (W.keeps self.new.window) (record { window = W.shown self.new.window; given = self.new.given }) }
        ensures again { IsOverWhereGiven (W.over self.old.window) (record { window = W.shown self.old.window; given = self.old.given }) → AnswersAgain (W.over self.old.window) (W.over self.new.window) (record { window = W.shown self.old.window; given = self.old.given }) (record { window = W.shown self.new.window; given = self.new.given }) result }
        ensures gives { GivesNext (W.keeps self.old.window) (W.keeps self.new.window) (record { window = W.shown self.old.window; given = self.old.given }) (record { window = W.shown self.new.window; given = self.new.given }) result }
    {
        if self.given < self.window.count() {
            self.given += 1;
            return Advance::Row;
        }
        match self.window.fault() {
            Some(fault) => Advance::Fault(fault),
            None => Advance::End,
        }
    }

    /// Gives the row of the next instant, the first fault, or the end. After a fault or the end each further call answers
    /// the same. It takes no memory.
    ///
    /// Source: this project's own.
    pub fn advance<R: Threads + Sync, G: Gate + Sync>(&mut self, rt: &R, gate: &G) -> Advance
        requires { IsStanding (W.keeps self.old.window) (record { window = W.shown self.old.window; given = self.old.given }) }
        ensures standing { IsStanding (W.keeps self.new.window) (record { window = W.shown self.new.window; given = self.new.given }) }
        ensures advances { AdvancesAs (Stands (W.keeps self.old.window) (record { window = W.shown self.old.window; given = self.old.given })) (Stands (W.keeps self.new.window) (record { window = W.shown self.new.window; given = self.new.given })) (given_by result (record { window = W.shown self.new.window; given = self.new.given })) }
        ensures again { AnswersAgain (W.over self.old.window) (W.over self.new.window) (record { window = W.shown self.old.window; given = self.old.given }) (record { window = W.shown self.new.window; given = self.new.given }) result }
        ensures shows { ShowsRow (W.keeps self.old.window) (record { window = W.shown self.old.window; given = self.old.given }) (record { window = W.shown self.new.window; given = self.new.given }) result }
    {
        self.fill(rt, gate);
        self.pass();
        self.fill(rt, gate);
        self.give()
    }

    /// The instant of the row given last.
    pub fn instant(&self) -> Ratio
        requires { HasRow (record { window = W.shown self.now.window; given = self.now.given }) }
        ensures { moment_given (record { window = W.shown self.now.window; given = self.now.given }) ≡ Some (At result) }
    {
        match self.window.moment(self.given - 1) {
            Moment::At(at) => at,
            Moment::Initial => unreachable!(),
        }
    }

    /// The values of the row given last, one for each column.
    pub fn values(&self) -> &[Option<Value>]
        requires { HasRow (record { window = W.shown self.now.window; given = self.now.given }) }
        ensures { row_given (record { window = W.shown self.now.window; given = self.now.given }) ≡ Some result.now }
    {
        self.window.row(self.given - 1)
    }
}
