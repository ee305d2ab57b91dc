//! Jobs that become ready: one alone, and all parked jobs that fit.
ghost use Rattle.admission.specs.Disciplines.{parts};
ghost use Rattle.admission.specs.Rosters.{Leads};
ghost use Rattle.admission.specs.Steps.{Enqueues, SweepsOne, Sweeps, KeepsEndings, KeepsOthers};

use crate::discipline::Discipline;
use crate::retaining::try_retain;
use crate::roster::Roster;
use crate::trial::try_whole;
use jobs::job::{Job, Mark};
use jobs::refusal::Refusal;
use rankings::policies::Policy;
use rankings::ranking::Ranking;
use stores::ready::ReadyStore;

impl<S: ReadyStore> Roster<S> {
    /// Puts `job` into the ready list by the dispatch order; a full store refuses it.
    pub fn enqueue<O: Ranking<Item = Mark>, P: Policy>(
        &mut self,
        discipline: &Discipline<O, P>,
        job: Job,
    ) -> Result<(), Refusal>
        ensures step { Leads S.ReadyStore (Enqueues (parts O.Ranking P.Policy discipline.now) job result) self.old self.new }
        ensures apart { Leads S.ReadyStore KeepsOthers self.old self.new }
    {
        let place = try_whole(&discipline.order, &self.ready, self.clock, &job)?.place;
        self.ready.insert(place, job)?;
        Ok(())
    }

    /// Takes the parked jobs once in their ranking; each that fits becomes ready.
    pub fn sweep<O: Ranking<Item = Mark>, P: Policy>(
        &mut self,
        discipline: &Discipline<O, P>,
    ) -> Result<(), Refusal>
        ensures step { Leads S.ReadyStore (Sweeps (parts O.Ranking P.Policy discipline.now) result) self.old self.new }
        ensures apart { Leads S.ReadyStore KeepsEndings self.old self.new }
    {
        let tick = self.clock;
        try_retain(
            &mut self.parked,
            &mut self.ready,
            |ready: &mut S, job: Job| -> Result<bool, Refusal>
                ensures { SweepsOne (parts O.Ranking P.Policy discipline.entry.now) tick job (S.ReadyStore.jobs ready.old) (S.ReadyStore.jobs ready.new) result }
            {
                let trial = try_whole(&discipline.order, ready, tick, &job)?;
                if !trial.fits() {
                    return Ok(true);
                }
                ready.insert(trial.place, job)?;
                Ok(false)
            },
        )
    }
}
