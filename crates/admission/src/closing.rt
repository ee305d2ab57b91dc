//! How jobs end: each leaves its list, and its line goes into the ended list.
ghost use Rattle.std.specs.Prelude.{◌≡◌};
ghost use Rattle.rules.specs.Calls.{ends, late};
ghost use Rattle.stores.specs.Tables.{listed};
ghost use Rattle.admission.specs.Disciplines.{parts};
ghost use Rattle.admission.specs.Rosters.{Leads};
ghost use Rattle.admission.specs.Steps.{Finds, Ends, EndsReady, EndsParked, ExpiresOne, Expires, KeepsClock, KeepsReady};

use crate::discipline::Discipline;
use crate::retaining::try_retain;
use crate::roster::Roster;
use jobs::ending::{EndKind, Ending};
use jobs::job::{Job, Mark};
use jobs::refusal::Refusal;
use rankings::lists::EarlierTick;
use rankings::policies::Policy;
use rankings::ranking::Ranking;
use stores::ready::ReadyStore;
use stores::table::EndingTable;

/// The place of the first job of this number in the list.
pub fn find<S: ReadyStore>(list: &S, number: u16) -> Option<usize>
    ensures { Finds number (S.ReadyStore.jobs list.now) result }
{
    let place = list.iter().position(|job| job.mark.number == number)?;
    Some(place)
}

/// The line of a job that ends at `tick`.
fn line(job: &Job, kind: EndKind, tick: u32) -> Ending
    ensures { result ≡ ends tick kind job.now }
{
    Ending {
        number: job.mark.number,
        kind,
        tick,
        by: job.by,
    }
}

/// Ends the job at `place` of a list, and answers it.
pub fn end<S: ReadyStore>(
    list: &mut S,
    place: usize,
    ended: &mut EndingTable,
    kind: EndKind,
    tick: u32,
) -> Result<Job, Refusal>
    ensures { Ends place kind tick (S.ReadyStore.jobs list.old) (listed ended.old) (S.ReadyStore.jobs list.new) (listed ended.new) result }
{
    let job = list.take(place)?;
    ended.insert_by(&EarlierTick, line(&job, kind, tick))?;
    Ok(job)
}

/// Whether a job that is worked from `tick` on passes its limit.
fn is_late(job: &Job, tick: u32) -> bool
    ensures { result ≡ late tick job.now }
{
    u64::from(tick) + u64::from(job.remaining) > job.mark.limit()
}

impl<S: ReadyStore> Roster<S> {
    /// Ends the ready job at `place` and sweeps; answers the job.
    pub fn end_ready<O: Ranking<Item = Mark>, P: Policy>(
        &mut self,
        discipline: &Discipline<O, P>,
        place: usize,
        kind: EndKind,
    ) -> Result<Job, Refusal>
        ensures step { Leads S.ReadyStore (EndsReady (parts O.Ranking P.Policy discipline.now) place kind result) self.old self.new }
        ensures apart { Leads S.ReadyStore KeepsClock self.old self.new }
    {
        let job = end(&mut self.ready, place, &mut self.ended, kind, self.clock)?;
        self.sweep(discipline)?;
        Ok(job)
    }

    /// Ends the parked job at `place`, and answers it.
    pub fn end_parked(&mut self, place: usize, kind: EndKind) -> Result<Job, Refusal>
        ensures step { Leads S.ReadyStore (EndsParked place kind result) self.old self.new }
        ensures apart { Leads S.ReadyStore KeepsReady self.old self.new }
        ensures store { self.new.ready ≡ self.old.ready }
    {
        end(&mut self.parked, place, &mut self.ended, kind, self.clock)
    }

    /// Ends as missed each parked job that can no longer make its limit.
    pub fn expire(&mut self) -> Result<(), Refusal>
        ensures step { Leads S.ReadyStore (Expires result) self.old self.new }
        ensures apart { Leads S.ReadyStore KeepsReady self.old self.new }
        ensures store { self.new.ready ≡ self.old.ready }
    {
        let tick = self.clock;
        try_retain(
            &mut self.parked,
            &mut self.ended,
            |ended: &mut EndingTable, job: Job| -> Result<bool, Refusal>
                ensures { ExpiresOne tick job (listed ended.old) (listed ended.new) result }
            {
                if !is_late(&job, tick) {
                    return Ok(true);
                }
                ended.insert_by(&EarlierTick, line(&job, EndKind::Missed, tick))?;
                Ok(false)
            },
        )
    }
}
