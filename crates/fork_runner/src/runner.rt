ghost use Rattle.std.specs.Prelude.{◌≡◌, ◌<◌, None, Some, length, slice_get};
ghost use Rattle.flat_model.specs.declared.clock.Moment.TheVariants.{At};
ghost use Rattle.run_ahead.specs.Ahead.{IsKept, RunsOn, moment_given, row_given};
ghost use Rattle.run_ahead.specs.Advances.{EndsWhere, Fills, Passes, GivesNext, StaysStopped, StaysEnded, IsOverWhereGiven, AnswersAgain, HasRow, ShowsRow, given_by};
ghost use Rattle.run_ahead.specs.Given.{AdvancesAs};
ghost use Rattle.fork_runner.specs.Runners.{keeps_of, window_of, seen_of, flat_of, is_over, StandsFor, StandsForSome};

use crate::moment::run_moment;
use flat_model::{Fault, FlatModel, Moment};
use moment_body::Moments;
use moment_steps::StagedSteps;
use outside_io::Gate;
use rational_time::Ratio;
use run_ahead::Advance;
use std::thread::Threads;
use sync_values::Value;
use tick_plan::TickSource;

/// A run of a model, one moment after the other, its base partitions side by side.
#[derive(Drop)]
pub struct Runner<P> {
    pub(crate) plan: P,
    pub(crate) body: Moments<StagedSteps>,
    /// The moment that was run last, where it has a row.
    pub(crate) ran: Option<Moment>,
    pub(crate) fault: Option<Fault>,
    /// How many moments were given of those that were run.
    pub(crate) given: usize,
}

impl<P: TickSource> Runner<P> {
    /// Runs the next moment of the plan.
    fn run<R: Threads + Sync, G: Gate + Sync>(&mut self, rt: &R, gate: &G)
        requires kept { IsKept (keeps_of P.planned self.old) }
        requires quiet { self.old.fault ≡ None }
        ensures runs { RunsOn (keeps_of P.planned self.old) (keeps_of P.planned self.new) (window_of self.new) }
        ensures ends { EndsWhere (is_over P.planned self.old) (is_over P.planned self.new) (window_of self.new) }
        ensures model { self.new.body.model ≡ self.old.body.model }
    {
        self.ran = None;
        if let Some(at) = self.plan.next() {
            self.fault = run_moment(&mut self.body, rt, gate, &mut self.plan, at);
            if self.fault.is_none() {
                self.ran = Some(at);
            }
        }
    }

    /// How many moments the last run has.
    fn count(&self) -> usize
        ensures { result ≡ length (window_of self.now).moments }
    {
        match self.ran {
            None => 0,
            Some(_) => 1,
        }
    }

    /// The moment that was run last.
    fn moment(&self, at: usize) -> Moment
        requires { at < length (window_of self.now).moments }
        ensures { slice_get (window_of self.now).moments at ≡ Some result }
    {
        self.ran.unwrap()
    }

    /// Runs the next moment where nothing is left to give and nothing failed.
    fn fill<R: Threads + Sync, G: Gate + Sync>(&mut self, rt: &R, gate: &G)
        requires { StandsForSome P.planned self.old }
        ensures standing { StandsForSome P.planned self.new }
        ensures still { StaysStopped (seen_of self.old) (seen_of self.new) }
        ensures ended { StaysEnded (is_over P.planned self.old) (is_over P.planned self.new) (seen_of self.old) (seen_of self.new) }
        ensures filled { IsOverWhereGiven (is_over P.planned self.new) (seen_of self.new) }
        ensures fills { Fills (keeps_of P.planned self.old) (keeps_of P.planned self.new) (seen_of self.old) (seen_of self.new) }
        ensures model { self.new.body.model ≡ self.old.body.model }
    {
        if self.given >= self.count() && self.fault.is_none() {
            self.run(rt, gate);
            self.given = 0;
        }
    }

    /// Passes over the next moment where it is Initial, which has no row.
    fn pass(&mut self)
        ensures standing { StandsForSome P.planned self.old → StandsForSome P.planned self.new }
        ensures still { StaysStopped (seen_of self.old) (seen_of self.new) }
        ensures ended { StaysEnded (is_over P.planned self.old) (is_over P.planned self.new) (seen_of self.old) (seen_of self.new) }
        ensures passes { Passes (keeps_of P.planned self.old) (keeps_of P.planned self.new) (seen_of self.old) (seen_of self.new) }
        ensures model { self.new.body.model ≡ self.old.body.model }
    {
        if self.given < self.count() {
            if let Moment::Initial = self.moment(self.given) {
                self.given += 1;
            }
        }
    }

    /// Gives the next row that was run, or tells how the run ended.
    fn give(&mut self) -> Advance
        ensures standing { StandsForSome P.planned self.old → StandsForSome P.planned self.new }
        ensures again { IsOverWhereGiven (is_over P.planned self.old) (seen_of self.old) → AnswersAgain (is_over P.planned self.old) (is_over P.planned self.new) (seen_of self.old) (seen_of self.new) result }
        ensures gives { GivesNext (keeps_of P.planned self.old) (keeps_of P.planned self.new) (seen_of self.old) (seen_of self.new) result }
        ensures model { self.new.body.model ≡ self.old.body.model }
    {
        if self.given < self.count() {
            self.given += 1;
            return Advance::Row;
        }
        match self.fault {
            Some(fault) => Advance::Fault(fault),
            None => Advance::End,
        }
    }

    /// Gives the row of the next instant, the first fault, or the end. After a fault or the end each further call answers
    /// the same. It takes no memory but that of threads.
    ///
    /// Source: this project's own.
    pub fn advance<R: Threads + Sync, G: Gate + Sync>(&mut self, rt: &R, gate: &G) -> Advance
        requires { StandsForSome P.planned self.old }
        ensures standing { StandsForSome P.planned self.new }
        ensures advances { AdvancesAs (StandsFor P.planned self.old) (StandsFor P.planned self.new) (given_by result (seen_of self.new)) }
        ensures again { AnswersAgain (is_over P.planned self.old) (is_over P.planned self.new) (seen_of self.old) (seen_of self.new) result }
        ensures shows { ShowsRow (keeps_of P.planned self.old) (seen_of self.old) (seen_of self.new) result }
        ensures model { self.new.body.model ≡ self.old.body.model }
    {
        self.fill(rt, gate);
        self.pass();
        self.fill(rt, gate);
        self.give()
    }

    /// The instant of the row given last.
    pub fn instant(&self) -> Ratio
        requires { HasRow (seen_of self.now) }
        ensures { moment_given (seen_of self.now) ≡ Some (At result) }
    {
        match self.moment(self.given - 1) {
            Moment::At(at) => at,
            Moment::Initial => unreachable!(),
        }
    }

    /// The values of the row given last, one for each column.
    pub fn values(&self) -> &[Option<Value>]
        requires { HasRow (seen_of self.now) }
        ensures { row_given (seen_of self.now) ≡ Some result.now }
    {
        self.body.sheet.row.as_slice()
    }

    /// The model that is run.
    pub fn flat(&self) -> &FlatModel
        ensures { result.now ≡ flat_of self.now }
    {
        &self.body.model.flat
    }
}
