//! The scheduler: its calls, and the looks at it, which change nothing.
ghost use Rattle.std.specs.Prelude.{◌≡◌, ◌≤◌};
ghost use Rattle.jobs.specs.declared.ranges.TheConstants.{LAST_TICK};
ghost use Rattle.scheduler.specs.Calling.{NumberedSo};

use crate::calls::{Answer, Arrival, Call};
use admission::admitting::Admission;
use admission::closing::find;
use admission::discipline::Discipline;
use admission::roster::Roster;
use jobs::ending::{EndKind, Ending};
use jobs::job::{Job, Mark};
use jobs::ranges::{CAPACITY, LAST_TICK, NUMBERS, TICKS};
use jobs::refusal::Refusal;
use rankings::orders::ByMark;
use rankings::policies::Policy;
use rankings::ranking::Ranking;
use stores::ready::ReadyStore;
use timing::entry::Entry;
use timing::timeline::Timeline;

/// One processor's jobs, and by what it is decided about them.
#[derive(Drop)]
pub struct Scheduler<S, O, P> {
    discipline: Discipline<O, P>,
    roster: Roster<S>,
    ghost within: { roster.clock ≤ LAST_TICK },
}

impl<S: ReadyStore, O: Ranking<Item = Mark>, P: Policy> Scheduler<S, O, P> {
    ghost use Rattle.rules.specs.States.{start, known, population, arrive, work, finish, withdraw, collect, now_at, saved, gone, line};
    ghost use Rattle.timing.specs.Profiles.{Profile};
    ghost use Rattle.admission.specs.Steps.{told};
    ghost use Rattle.scheduler.specs.Calling.{asked, asked_call, answered, or_refused};
    ghost use Rattle.scheduler.specs.Serving.{checked};
    ghost use Rattle.scheduler.specs.Keeping.{view, Keeps};

    /// A new scheduler: its store is emptied, its clock stands at 0.
    pub fn new(store: S, order: O, policy: P) -> Scheduler<S, O, P>
        ensures state { view S.ReadyStore.jobs result ≡ start }
        ensures order { result.discipline.order.0 ≡ order }
        ensures policy { result.discipline.policy ≡ policy }
    {
        Scheduler {
            discipline: Discipline {
                order: ByMark(order),
                policy,
            },
            roster: Roster::new(store),
        }
    }

    pub fn clock(&self) -> u32
        ensures { result ≡ (view S.ReadyStore.jobs self.now).clock }
    {
        self.roster.clock
    }

    /// The store of the ready jobs, to be read by its places.
    pub fn ready(&self) -> &S
        ensures { S.ReadyStore.jobs result.now ≡ (view S.ReadyStore.jobs self.now).ready }
    {
        &self.roster.ready
    }

    /// The parked jobs in their ranking.
    pub fn parked(&self) -> &[Job]
        ensures { result.now ≡ (view S.ReadyStore.jobs self.now).parked }
    {
        self.roster.parked.as_slice()
    }

    /// The endings that are not collected, in their ranking.
    pub fn ended(&self) -> &[Ending]
        ensures { result.now ≡ (view S.ReadyStore.jobs self.now).ended }
    {
        self.roster.ended.as_slice()
    }

    /// Writes an entry for each ready job into the front of `table`, and answers their count.
    /// A table shorter than the ready list is refused.
    pub fn profile(&self, table: &mut [Entry]) -> Result<usize, Refusal>
        ensures { Profile (view S.ReadyStore.jobs self.now).clock (view S.ReadyStore.jobs self.now).ready table.old table.new result }
    {
        let count = self.roster.ready.len();
        if table.len() < count {
            return Err(Refusal::Short);
        }
        let mut timeline = Timeline::new(self.roster.clock);
        // The store is read by place: of a table that is written through a zip, a proof would know no entry.
        for (place, entry) in table[..count].iter_mut().enumerate() {
            *entry = timeline.add(&self.roster.ready.read(place)?)?;
        }
        Ok(count)
    }

    /// Whether a job of this number is ready, parked, or ended and not collected.
    fn knows(&self, number: u16) -> bool
        ensures { result ≡ known (view S.ReadyStore.jobs self.now) number }
    {
        find(&self.roster.ready, number).is_some()
            || self.roster.parked.knows(number)
            || self.roster.ended.knows(number)
    }

    /// How many jobs are known.
    fn population(&self) -> usize
        ensures { result ≡ population (view S.ReadyStore.jobs self.now) }
    {
        self.roster.ready.len() + (self.roster.parked.len() + self.roster.ended.len())
    }

    /// The job that an arrival brings, or the first rule that it breaks.
    fn check(&self, arrival: &Arrival) -> Result<Job, Refusal>
        ensures { result ≡ checked (view S.ReadyStore.jobs self.now) (asked arrival.now) }
    {
        if !arrival.in_range() {
            return Err(Refusal::Range);
        }
        let class = arrival.class()?;
        let number = arrival.number as u16;
        if self.knows(number) {
            return Err(Refusal::Known);
        }
        if self.population() >= CAPACITY {
            return Err(Refusal::Full);
        }
        if arrival.computation > arrival.deadline_in + arrival.tolerance {
            return Err(Refusal::Hopeless);
        }
        let mark = Mark {
            number,
            class,
            arrival: self.roster.clock,
            deadline: self.roster.clock + arrival.deadline_in,
            tolerance: arrival.tolerance,
            value: arrival.value as u16,
        };
        Ok(Job::new(mark, arrival.computation))
    }

    /// A job arrives: it becomes ready, at the cost of others if the policy allows, or is parked.
    pub fn arrive(&mut self, arrival: &Arrival) -> Result<Admission, Refusal>
        ensures { Keeps S.ReadyStore O.Ranking P.Policy self.old (arrive (asked arrival.now)) (or_refused told result) self.new }
    {
        let job = self.check(arrival)?;
        self.roster.admit(&self.discipline, job)
    }

    /// Works for 1 to 10,000 ticks, and answers the clock.
    pub fn work(&mut self, ticks: u32) -> Result<u32, Refusal>
        ensures { Keeps S.ReadyStore O.Ranking P.Policy self.old (work ticks) (or_refused now_at result) self.new }
    {
        let ticks = TICKS.accept(ticks)?;
        if self.roster.clock + ticks > LAST_TICK {
            return Err(Refusal::Horizon);
        }
        for _passed in 0..ticks {
            self.roster.pass_tick(&self.discipline)?;
        }
        Ok(self.roster.clock)
    }

    /// The first ready job is done early; answers the ticks that it did not need.
    pub fn finish(&mut self, number: u32) -> Result<u32, Refusal>
        ensures { Keeps S.ReadyStore O.Ranking P.Policy self.old (finish number) (or_refused saved result) self.new }
    {
        let name = job_number(number)?;
        let Some(place) = find(&self.roster.ready, name) else {
            if self.roster.parked.knows(name) {
                return Err(Refusal::Waiting);
            }
            return Err(Refusal::Unknown);
        };
        if place > 0 {
            return Err(Refusal::Waiting);
        }
        let job = self
            .roster
            .end_ready(&self.discipline, place, EndKind::InTime)?;
        Ok(job.remaining)
    }

    /// A ready or parked job is not wanted any more.
    pub fn withdraw(&mut self, number: u32) -> Result<(), Refusal>
        ensures { Keeps S.ReadyStore O.Ranking P.Policy self.old (withdraw number) (or_refused (λ _. gone) result) self.new }
    {
        let name = job_number(number)?;
        if let Some(place) = find(&self.roster.ready, name) {
            self.roster
                .end_ready(&self.discipline, place, EndKind::Withdrawn)?;
            return Ok(());
        }
        let Some(place) = find(&self.roster.parked, name) else {
            return Err(Refusal::Unknown);
        };
        self.roster.end_parked(place, EndKind::Withdrawn)?;
        Ok(())
    }

    /// Answers the first ending, which is forgotten then.
    pub fn collect(&mut self) -> Result<Ending, Refusal>
        ensures { Keeps S.ReadyStore O.Ranking P.Policy self.old collect (or_refused line result) self.new }
    {
        self.roster.ended.take_first()
    }

    /// Serves any call.
    pub fn call(&mut self, call: &Call) -> Result<Answer, Refusal>
        ensures { Keeps S.ReadyStore O.Ranking P.Policy self.old (asked_call call.now) (answered result) self.new }
    {
        Ok(match call {
            Call::Arrive(arrival) => Answer::Admitted(self.arrive(arrival)?),
            Call::Work(ticks) => Answer::Now(self.work(*ticks)?),
            Call::Finish(number) => Answer::Saved(self.finish(*number)?),
            Call::Withdraw(number) => {
                self.withdraw(*number)?;
                Answer::Gone
            }
            Call::Collect => Answer::Ended(self.collect()?),
        })
    }
}

/// The number as that of a job: 1 to 65,535.
fn job_number(number: u32) -> Result<u16, Refusal>
    ensures { NumberedSo number result }
{
    Ok(NUMBERS.accept(number)? as u16)
}
