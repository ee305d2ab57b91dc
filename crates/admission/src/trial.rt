//! Whether a job fits, found in one walk through the ready list.
ghost use Rattle.std.specs.Prelude.{◌≡◌, ◌==◌};
ghost use Rattle.rules.specs.Giving.{without};
ghost use Rattle.timing.specs.Overruns.{exceeding_of};
ghost use Rattle.admission.specs.Disciplines.{by_dispatch};
ghost use Rattle.admission.specs.Trials.{turn, Puts, Passes, Finishes, Tries};

use jobs::job::{Job, Mark};
use jobs::refusal::Refusal;
use rankings::orders::ByMark;
use rankings::ranking::Ranking;
use stores::lookup::has_number;
use stores::ready::ReadyStore;
use timing::overrun::Overrun;
use timing::timeline::Timeline;

/// What came of adding a job to a list.
#[derive(Clone, Copy, PartialEq, Eq, Debug)]
pub struct Trial {
    /// The place that the job has in the list.
    pub place: usize,
    /// How far the list with it passes its limits, if a job does.
    pub overrun: Option<Overrun>,
}

impl Trial {
    /// Whether every job still finishes by its limit.
    pub fn fits(&self) -> bool
        ensures { result ≡ (exceeding_of self.now.overrun == 0) }
    {
        self.overrun.is_none()
    }
}

/// A walk through a list into which a job is put when its turn comes.
#[derive(Drop)]
struct Walk {
    timeline: Timeline,
    /// The place of the job, once it has been put in.
    place: Option<usize>,
}

impl Walk {
    /// Puts `job` here, and answers its place; after 64 jobs it is refused.
    fn put(&mut self, job: &Job) -> Result<usize, Refusal>
        ensures { Puts job.now (turn self.old) (turn self.new) result }
    {
        let place = self.timeline.len();
        self.timeline.add(job)?;
        self.place = Some(place);
        Ok(place)
    }

    /// Goes on to `other`, and before that to `job` if its turn has come.
    fn pass<O: Ranking<Item = Mark>>(
        &mut self,
        order: &ByMark<O>,
        job: &Job,
        other: &Job,
    ) -> Result<(), Refusal>
        ensures { Passes (by_dispatch O.Ranking order.now) job.now (turn self.old) other.now (turn self.new) result }
    {
        if self.place.is_none() && order.precedes(job, other) {
            self.put(job)?;
        }
        self.timeline.add(other)?;
        Ok(())
    }

    /// What came of it for `job`, which is put last if its turn did not come.
    fn finish(mut self, job: &Job) -> Result<Trial, Refusal>
        ensures { Finishes job.now (turn self) result }
    {
        let place = match self.place {
            Some(place) => place,
            None => self.put(job)?,
        };
        Ok(Trial {
            place,
            overrun: self.timeline.overrun(),
        })
    }
}

/// Adds `job` to the ready list without the jobs `absent`, for a trial: nothing is changed.
/// It is refused where the list with it would have more than 64 jobs.
#[inline]
pub fn try_out<S: ReadyStore, O: Ranking<Item = Mark>>(
    order: &ByMark<O>,
    ready: &S,
    tick: u32,
    job: &Job,
    absent: &[Job],
) -> Result<Trial, Refusal>
    ensures { Tries (by_dispatch O.Ranking order.now) tick job.now (without absent.now (S.ReadyStore.jobs ready.now)) result }
{
    let mut walk = Walk {
        timeline: Timeline::new(tick),
        place: None,
    };
    for other in ready.iter() {
        if has_number(absent, other.mark.number) {
            continue;
        }
        walk.pass(order, job, &other)?;
    }
    walk.finish(job)
}

/// Adds `job` to the whole ready list, for a trial.
#[inline]
pub fn try_whole<S: ReadyStore, O: Ranking<Item = Mark>>(
    order: &ByMark<O>,
    ready: &S,
    tick: u32,
    job: &Job,
) -> Result<Trial, Refusal>
    ensures { Tries (by_dispatch O.Ranking order.now) tick job.now (S.ReadyStore.jobs ready.now) result }
{
    try_out(order, ready, tick, job, &[])
}
