//! A walk through a list of jobs that are worked one after the other.
ghost use Rattle.std.specs.Prelude.{◌≡◌, ◌+◌, ◌==◌, IfOk};
ghost use Rattle.timing.specs.Profiles.{Profile};
ghost use Rattle.timing.specs.Tallies.{fresh, Bounded, Step, Walk};
ghost use Rattle.timing.specs.Timing.{load};

use crate::entry::{Entry, Load};
use crate::overrun::Overrun;
use jobs::job::Job;
use jobs::ranges::CAPACITY;
use jobs::refusal::Refusal;
use std::marker::Model;

/// A walk through a list of at most 64 jobs, the first of them begun at a start tick.
#[derive(Drop)]
pub struct Timeline {
    start: u32,
    /// How many jobs there were so far.
    jobs: usize,
    /// The ticks that they take.
    sum: u64,
    /// How far they pass their limits, if one does.
    overrun: Option<Overrun>,
}

impl Model for Timeline {
    ghost use Rattle.std.specs.Prelude.{◌*◌, ◌≤◌};
    ghost use Rattle.timing.specs.Tallies.{Tally};
    ghost use Rattle.jobs.specs.declared.ranges.TheConstants.{CAPACITY};
    ghost use Rattle.timing.specs.Overruns.{exceeding_of, cause_of};

    ghost Value = { Tally };

    ghost view = { λ w. record { start = w.start; jobs = w.jobs; sum = w.sum; exceeding = exceeding_of w.overrun; cause = cause_of w.overrun } };

    ghost invariant = { λ w. (w.jobs ≤ CAPACITY) × (w.sum ≤ w.jobs * 4294967296) };
}

/// The load of `job`, up to which the list takes `sum` ticks from `start`.
fn load_of(start: u32, sum: u64, job: &Job) -> Option<Load>
    ensures { result ≡ load start sum job.now }
{
    let deadline = job.mark.deadline;
    if deadline <= start {
        return None;
    }
    let span = u64::from(deadline - start);
    Some(Load { sum, span })
}

impl Timeline {
    ghost use Rattle.timing.specs.Overruns.{exceeding_of, cause_of};

    /// A walk whose first job begins at `start`.
    pub fn new(start: u32) -> Timeline
        ensures value { result ≡ fresh start }
        ensures bounded { Bounded result }
    {
        Timeline {
            start,
            jobs: 0,
            sum: 0,
            overrun: None,
        }
    }

    /// The walk through all of `jobs`; more than 64 are refused.
    pub fn of(start: u32, jobs: &[Job]) -> Result<Timeline, Refusal>
        ensures value { Walk start jobs.now result }
        ensures bounded { IfOk result Bounded }
    {
        let mut timeline = Timeline::new(start);
        for job in jobs {
            timeline.add(job)?;
        }
        Ok(timeline)
    }

    /// Goes on to `job`, and answers its entry; after 64 jobs it is refused.
    pub fn add(&mut self, job: &Job) -> Result<Entry, Refusal>
        ensures step { Step self.old job.now self.new result }
        ensures bounded { Bounded self.new }
    {
        if self.jobs >= CAPACITY {
            return Err(Refusal::Full);
        }
        self.sum += u64::from(job.remaining);
        self.jobs += 1;
        let finish = self.finish();
        let excess = job.excess(finish);
        let cause = job.mark.number;
        if self.exceeding() < excess {
            self.overrun = Some(Overrun { by: excess, cause });
        }
        Ok(Entry {
            number: job.mark.number,
            finish,
            residual: i64::from(job.mark.deadline) - finish as i64,
            load: load_of(self.start, self.sum, job),
        })
    }

    /// How many jobs there were so far.
    pub fn len(&self) -> usize
        ensures value { result ≡ self.now.jobs }
        ensures bounded { Bounded self.now }
    {
        self.jobs
    }

    pub fn is_empty(&self) -> bool
        ensures value { result ≡ (self.now.jobs == 0) }
        ensures bounded { Bounded self.now }
    {
        self.jobs == 0
    }

    /// The tick at which the last job so far finishes.
    pub fn finish(&self) -> u64
        ensures value { result ≡ self.now.start + self.now.sum }
        ensures bounded { Bounded self.now }
    {
        u64::from(self.start) + self.sum
    }

    /// How far the jobs so far pass their limits, if one does.
    pub fn overrun(&self) -> Option<Overrun>
        ensures exceeding { exceeding_of result ≡ self.now.exceeding }
        ensures cause { cause_of result ≡ self.now.cause }
        ensures bounded { Bounded self.now }
    {
        self.overrun
    }

    /// The greatest time by which a job passes its limit.
    pub fn exceeding(&self) -> u64
        ensures value { result ≡ self.now.exceeding }
        ensures bounded { Bounded self.now }
    {
        self.overrun.map_or(0, |overrun| overrun.by)
    }

    /// The number of the first job that passes its limit by so much, 0 if none does.
    pub fn cause(&self) -> u16
        ensures value { result ≡ self.now.cause }
        ensures bounded { Bounded self.now }
    {
        self.overrun.map_or(0, |overrun| overrun.cause)
    }

    /// Whether every job finishes by its limit.
    pub fn holds(&self) -> bool
        ensures value { result ≡ (self.now.exceeding == 0) }
        ensures bounded { Bounded self.now }
    {
        self.overrun.is_none()
    }
}

/// Writes an entry for each of `jobs` into the front of `table`, and answers their count.
/// More than 64 jobs, or a table shorter than the list, are refused.
pub fn profile(start: u32, jobs: &[Job], table: &mut [Entry]) -> Result<usize, Refusal>
    ensures { Profile start jobs.now table.old table.new result }
{
    if jobs.len() > CAPACITY {
        return Err(Refusal::Full);
    }
    if table.len() < jobs.len() {
        return Err(Refusal::Short);
    }
    let mut timeline = Timeline::new(start);
    // By place: of a table that is written through a zip, a proof would know no entry.
    for (place, job) in jobs.iter().enumerate() {
        table[place] = timeline.add(job)?;
    }
    Ok(jobs.len())
}
