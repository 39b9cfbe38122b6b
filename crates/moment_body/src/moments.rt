use crate::fault::{earlier, fault_of};
use crate::model::ClockedModel;
use crate::sheet::Sheet;
use crate::steps::Steps;
use flat_model::{Fault, Moment};
use moment_inputs::fill_row;
use outside_io::Gate;
use run_moments::Body;
use site_risings::{answer_sites, note_sites};
use std::thread::Threads;
use sync_values::Value;
use tick_plan::TickSource;

/// The moments of a run, each from its inputs to its row or its fault.
#[derive(Drop)]
pub struct Moments<T> {
    pub model: ClockedModel,
    pub sheet: Sheet,
    pub steps: T,
}

impl<P: TickSource + Sync, T: Steps> Body<P> for Moments<T> {
    ghost use Rattle.moment_body.specs.Kept.{IsKeptBy};

    ghost keeps = { λ w. IsKeptBy (T.stages w.steps) (T.stands w.steps) w.model w.sheet };

    ghost columns = { λ w. w.sheet.row.items };

    fn moment<R: Threads + Sync, G: Gate + Sync>(
        &mut self,
        rt: &R,
        gate: &G,
        plan: &mut P,
        at: Moment,
    ) -> Option<Fault> {
        let now = self.sheet.now.as_mut_slice();
        let answers = self.sheet.answers.as_mut_slice();
        let low = self.sheet.low.as_mut_slice();
        self.steps.fill_inputs(&self.model, at, now);
        let first = self.steps.take_pure(&self.model, now);
        let site = answer_sites(self.model.clocking.sites.as_slice(), now, answers);
        note_sites(plan, answers, low);
        let behind = self
            .steps
            .take_rest(rt, gate, &self.model, at, plan, answers, now);
        if let Some(fault) = fault_of(at, site, earlier(first, behind)) {
            return Some(fault);
        }
        self.steps.keep(now);
        fill_row(
            self.sheet.columns.as_slice(),
            now,
            self.sheet.row.as_mut_slice(),
        );
        None
    }

    fn row(&self) -> &[Option<Value>] {
        self.sheet.row.as_slice()
    }
}
