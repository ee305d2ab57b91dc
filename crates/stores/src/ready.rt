//! The ready store: where a scheduler keeps its ready jobs.
ghost use Rattle.std.specs.Prelude.{◌≡◌, ◌≤◌, ◌==◌, List, [], length, OnErr};
ghost use Rattle.jobs.specs.declared.job.Job.{Job};
ghost use Rattle.jobs.specs.declared.ranges.TheConstants.{CAPACITY};
ghost use Rattle.stores.specs.Places.{read_at, insert_at, take_at, set_at, jobs_left, Changes};
ghost use Rattle.std.specs.Iterator.{YieldsFirst, item_count};

use jobs::job::Job;
use jobs::refusal::Refusal;

/// A list of at most 64 jobs with places from 0. A refusal changes nothing at all.
pub trait ReadyStore {
    /// The list that the store means.
    ghost jobs: { Self → List Job };

    ghost short: { (s : Self) → length (jobs s) ≤ CAPACITY };

    fn len(&self) -> usize
        ensures { result ≡ length (jobs self.now) };

    final fn is_empty(&self) -> bool
    where
        Self: Sized,
        ensures { result ≡ (length (jobs self.now) == 0) }
    {
        self.len() == 0
    }

    /// The job at `place`.
    fn read(&self, place: usize) -> Result<Job, Refusal>
        ensures { result ≡ read_at place (jobs self.now) };

    /// Puts `job` at `place`, which may be just after the last; those from there on move one back.
    fn insert(&mut self, place: usize, job: Job) -> Result<(), Refusal>
        ensures list { Changes (insert_at place job (jobs self.old)) (jobs self.old) (jobs self.new) result }
        ensures same { OnErr result (self.new ≡ self.old) };

    /// Takes out the job at `place` and answers it; those behind it move one forward.
    fn take(&mut self, place: usize) -> Result<Job, Refusal>
        ensures job { result ≡ read_at place (jobs self.old) }
        ensures list { Changes (take_at place (jobs self.old)) (jobs self.old) (jobs self.new) result }
        ensures same { OnErr result (self.new ≡ self.old) };

    /// Writes the remaining time of the job at `place`: 1 to its computation time.
    fn set_remaining(&mut self, place: usize, remaining: u32) -> Result<(), Refusal>
        ensures list { Changes (set_at place remaining (jobs self.old)) (jobs self.old) (jobs self.new) result }
        ensures same { OnErr result (self.new ≡ self.old) };

    /// Leaves no job.
    fn clear(&mut self)
        ensures { jobs self.new ≡ [] };

    /// The jobs in their order.
    final fn iter(&self) -> Jobs<'_, Self>
    where
        Self: Sized,
        ensures { jobs_left jobs result ≡ jobs self.now }
    {
        Jobs {
            store: self,
            place: 0,
        }
    }
}

/// The jobs of a ready store, one after the other.
#[derive(Drop)]
pub struct Jobs<'a, S> {
    store: &'a S,
    /// The place of the next one.
    place: usize,
}

impl<'a, S: ReadyStore> Iterator for Jobs<'a, S> {
    type Item = Job;

    ghost next_gives = { YieldsFirst (jobs_left S.ReadyStore.jobs) };

    ghost remaining = { item_count (jobs_left S.ReadyStore.jobs) };

    fn next(&mut self) -> Option<Job> {
        let job = self.store.read(self.place).ok()?;
        self.place += 1;
        Some(job)
    }
}
