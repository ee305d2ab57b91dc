//! One tick of work.
ghost use Rattle.std.specs.Prelude.{OnErr};
ghost use Rattle.admission.specs.Disciplines.{parts};
ghost use Rattle.admission.specs.Rosters.{Leads};
ghost use Rattle.admission.specs.Steps.{WorksFirst, TakesSteps, Ticks, KeepsClock, KeepsRange};

use crate::closing::end;
use crate::discipline::Discipline;
use crate::roster::Roster;
use jobs::ending::EndKind;
use jobs::job::Mark;
use jobs::ranges::LAST_TICK;
use jobs::refusal::Refusal;
use rankings::policies::Policy;
use rankings::ranking::Ranking;
use stores::ready::ReadyStore;

impl<S: ReadyStore> Roster<S> {
    /// Works the first ready job, if any, for the tick that ends now; answers whether it ended.
    fn work_first(&mut self) -> Result<bool, Refusal>
        ensures step { Leads S.ReadyStore (WorksFirst result) self.old self.new }
        ensures apart { Leads S.ReadyStore KeepsClock self.old self.new }
    {
        let Some(first) = self.ready.iter().next() else {
            return Ok(false);
        };
        if first.remaining > 1 {
            self.ready.set_remaining(0, first.remaining - 1)?;
            return Ok(false);
        }
        end(
            &mut self.ready,
            0,
            &mut self.ended,
            EndKind::InTime,
            self.clock,
        )?;
        Ok(true)
    }

    /// The steps of the tick that ends now: the first job is worked, late ones end, and if a job ended the sweep runs.
    fn take_steps<O: Ranking<Item = Mark>, P: Policy>(
        &mut self,
        discipline: &Discipline<O, P>,
    ) -> Result<(), Refusal>
        ensures step { Leads S.ReadyStore (TakesSteps (parts O.Ranking P.Policy discipline.now) result) self.old self.new }
        ensures apart { Leads S.ReadyStore KeepsClock self.old self.new }
    {
        let done = self.work_first()?;
        self.expire()?;
        if done {
            self.sweep(discipline)?;
        }
        Ok(())
    }

    /// Lets one tick pass, and answers the clock; past its last tick it is refused. A refusal leaves the clock as it was.
    pub fn pass_tick<O: Ranking<Item = Mark>, P: Policy>(
        &mut self,
        discipline: &Discipline<O, P>,
    ) -> Result<u32, Refusal>
        ensures step { Leads S.ReadyStore (Ticks (parts O.Ranking P.Policy discipline.now) result) self.old self.new }
        ensures range { Leads S.ReadyStore KeepsRange self.old self.new }
        ensures clock { OnErr result (Leads S.ReadyStore KeepsClock self.old self.new) }
    {
        if self.clock >= LAST_TICK {
            return Err(Refusal::Horizon);
        }
        self.clock += 1;
        if let Err(refusal) = self.take_steps(discipline) {
            self.clock -= 1;
            return Err(refusal);
        }
        Ok(self.clock)
    }
}
