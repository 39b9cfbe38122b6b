use crate::body::Body;
use flat_model::{Fault, Moment};
use outside_io::Gate;
use run_ahead::Windows;
use std::thread::Threads;
use sync_values::Value;
use tick_plan::TickSource;

/// Windows of one moment each.
#[derive(Drop)]
pub struct Single<P, B> {
    pub plan: P,
    pub body: B,
    /// The moment that was run last, where it has a row.
    pub ran: Option<Moment>,
    pub fault: Option<Fault>,
}

impl<P: TickSource, B: Body<P>> Windows for Single<P, B> {
    ghost use Rattle.std.specs.Prelude.{◌≡◌, []};
    ghost use Rattle.run_moments.specs.Moving.{IsPlanBefore, one_window};

    ghost keeps = { λ w s A n. B.keeps w.body s A n × IsPlanBefore s A n (P.planned w.plan) };

    ghost shown = { λ w. one_window w.ran (B.columns w.body) w.fault };

    ghost over = { λ w. (P.planned w.plan).ahead ≡ [] };

    fn run<R: Threads + Sync, G: Gate + Sync>(&mut self, rt: &R, gate: &G) {
        self.ran = None;
        if let Some(at) = self.plan.next() {
            self.fault = self.body.moment(rt, gate, &mut self.plan, at);
            if self.fault.is_none() {
                self.ran = Some(at);
            }
        }
    }

    fn count(&self) -> usize {
        match self.ran {
            None => 0,
            Some(_) => 1,
        }
    }

    fn moment(&self, _at: usize) -> Moment {
        self.ran.unwrap()
    }

    fn row(&self, _at: usize) -> &[Option<Value>] {
        self.body.row()
    }

    fn fault(&self) -> Option<Fault> {
        self.fault
    }
}
