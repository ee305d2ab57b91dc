//! The decision on an arrival.
ghost use Rattle.std.specs.Prelude.{Some};
ghost use Rattle.admission.specs.Disciplines.{parts};
ghost use Rattle.admission.specs.Rosters.{Leads};
ghost use Rattle.admission.specs.Steps.{Admits, KeepsEndings};
ghost use Rattle.admission.specs.Written.{admission_text};

use crate::discipline::Discipline;
use crate::roster::Roster;
use crate::trial::try_whole;
use jobs::job::{Job, Mark};
use jobs::refusal::Refusal;
use rankings::lists::LargerValue;
use rankings::policies::Policy;
use rankings::ranking::Ranking;
use std::fmt;
use stores::ready::ReadyStore;
use timing::overrun::Overrun;

/// Where an accepted arrival stands.
#[derive(Clone, Copy, PartialEq, Eq, Debug)]
pub enum Verdict {
    /// It is guaranteed, and displaced so many jobs.
    Ready { displaced: usize },
    /// It waits until time is saved.
    Parked,
}

/// What an accepted arrival is told.
#[derive(Clone, Copy, PartialEq, Eq, Debug)]
pub struct Admission {
    pub verdict: Verdict,
    /// How far the ready jobs with it would pass their limits if nobody gave way, if one would.
    pub overrun: Option<Overrun>,
}

/// An admission is written as `VERDICT E CAUSE COUNT`: 0 where nothing is exceeded, and where nobody is displaced.
impl fmt::Display for Admission {
    ghost output = { λ a. Some (admission_text a) };

    fn fmt<W: fmt::Write>(&self, f: &mut fmt::Formatter<W>) -> fmt::Result {
        let (verdict, count) = match self.verdict {
            Verdict::Ready { displaced: count } => ("ready", count),
            Verdict::Parked => ("parked", 0),
        };
        let exceeding = self.overrun.map_or(0, |overrun| overrun.by);
        let cause = self.overrun.map_or(0, |overrun| overrun.cause);
        write!(f, "{verdict} {exceeding} {cause} {count}")
    }
}

impl<S: ReadyStore> Roster<S> {
    /// Decides on an arrival: it becomes ready if it fits or others can give way, and is parked otherwise.
    pub fn admit<O: Ranking<Item = Mark>, P: Policy>(
        &mut self,
        discipline: &Discipline<O, P>,
        job: Job,
    ) -> Result<Admission, Refusal>
        ensures step { Leads S.ReadyStore (Admits (parts O.Ranking P.Policy discipline.now) job result) self.old self.new }
        ensures apart { Leads S.ReadyStore KeepsEndings self.old self.new }
    {
        let trial = try_whole(&discipline.order, &self.ready, self.clock, &job)?;
        let overrun = trial.overrun;
        let verdict = if trial.fits() {
            self.ready.insert(trial.place, job)?;
            Verdict::Ready { displaced: 0 }
        } else if let Some(displaced) = self.make_room(discipline, job)? {
            Verdict::Ready { displaced }
        } else {
            self.parked.insert_by(&LargerValue, job)?;
            Verdict::Parked
        };
        Ok(Admission { verdict, overrun })
    }
}
