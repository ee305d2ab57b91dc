//! A table of records, kept by a ranking or by places.
ghost use Rattle.std.specs.Prelude.{◌≡◌, ◌≤◌, ◌==◌, [], length, OnErr};
ghost use Rattle.std.specs.Borrow.{sem};
ghost use Rattle.jobs.specs.declared.ranges.TheConstants.{CAPACITY};
ghost use Rattle.rankings.specs.Standing.{by_ranking};
ghost use Rattle.stores.specs.Places.{read_at, insert_at, take_at, set_at, Changes};

use crate::lookup::has_number;
use crate::ready::ReadyStore;
use arrayvec::ArrayVec;
use jobs::ending::Ending;
use jobs::job::Job;
use jobs::numbered::Numbered;
use jobs::ranges::CAPACITY;
use jobs::refusal::Refusal;
use rankings::insertion;
use rankings::ranking::Ranking;

/// A list of at most 64 records, in memory of its own.
#[derive(Drop)]
pub struct RecordTable<T> {
    records: ArrayVec<T, CAPACITY>,
    ghost short: { length records.items ≤ CAPACITY },
}

/// A table of jobs, which is a ready store too.
pub type JobTable = RecordTable<Job>;

/// The lines of jobs that have ended, until they are collected.
pub type EndingTable = RecordTable<Ending>;

impl<T: Numbered + Default> RecordTable<T> {
    ghost use Rattle.stores.specs.Tables.{listed, known, Kept, First};
    ghost use Rattle.stores.specs.Lending.{LendsRecords};

    /// A table with no record.
    pub fn new() -> RecordTable<T>
        ensures { listed result ≡ [] }
    {
        RecordTable {
            records: ArrayVec::new(),
        }
    }

    pub fn len(&self) -> usize
        ensures { result ≡ length (listed self.now) }
    {
        self.records.len()
    }

    pub fn is_empty(&self) -> bool
        ensures { result ≡ (length (listed self.now) == 0) }
    {
        self.records.is_empty()
    }

    /// The records in their order.
    pub fn as_slice(&self) -> &[T]
        ensures list { result.now ≡ listed self.now }
        ensures few { length result.now ≤ CAPACITY }
    {
        self.records.as_slice()
    }

    /// The records, to be changed in place.
    pub fn as_mut_slice(&mut self) -> &mut [T]
        ensures* writes_back { sem 𝓛 (LendsRecords T.row self.entry result) }
        ensures list { result.now ≡ listed self.old }
    {
        self.records.as_mut_slice()
    }

    /// Whether a record of this number stands in the table.
    pub fn knows(&self, number: u16) -> bool
        ensures { result ≡ known T.Numbered.number number (listed self.now) }
    {
        has_number(self.as_slice(), number)
    }

    /// Puts a record into the list by a ranking; a full table refuses it.
    pub fn insert_by<R: Ranking<Item = T>>(&mut self, ranking: &R, item: T) -> Result<(), Refusal>
        ensures { Kept (by_ranking R.Ranking T.Numbered ranking.now) item (listed self.old) (listed self.new) result }
    {
        insertion::insert_into(ranking, &mut self.records, item)?;
        Ok(())
    }

    /// Takes out the first record and answers it; an empty table is refused.
    pub fn take_first(&mut self) -> Result<T, Refusal>
        ensures { First (listed self.old) (listed self.new) result }
    {
        self.records.pop_at(0).ok_or(Refusal::Nothing)
    }
}

impl<T: Numbered + Default> Default for RecordTable<T> {
    ghost use Rattle.stores.specs.Tables.{listed};

    ghost is_default = { λ table. listed table ≡ [] };

    fn default() -> RecordTable<T> {
        RecordTable::new()
    }
}

impl ReadyStore for RecordTable<Job> {
    ghost use Rattle.stores.specs.Tables.{listed};

    ghost jobs = { listed };

    ghost short = { λ t. t.short };

    fn len(&self) -> usize {
        self.records.len()
    }

    fn read(&self, place: usize) -> Result<Job, Refusal> {
        self.as_slice().get(place).copied().ok_or(Refusal::Range)
    }

    fn insert(&mut self, place: usize, job: Job) -> Result<(), Refusal> {
        if place > self.records.len() {
            return Err(Refusal::Range);
        }
        self.records
            .try_insert(place, job)
            .map_err(|_| Refusal::Full)
    }

    fn take(&mut self, place: usize) -> Result<Job, Refusal> {
        self.records.pop_at(place).ok_or(Refusal::Range)
    }

    fn set_remaining(&mut self, place: usize, remaining: u32) -> Result<(), Refusal> {
        let job = self.records.get_mut(place).ok_or(Refusal::Range)?;
        if !(1..=job.computation).contains(&remaining) {
            return Err(Refusal::Range);
        }
        job.remaining = remaining;
        Ok(())
    }

    fn clear(&mut self) {
        self.records.clear()
    }
}
