//! A table of jobs that are to be worked from a start tick.
ghost use Rattle.std.specs.Prelude.{◌≡◌};
ghost use Rattle.tables.specs.Table.{sheet, blank, Entered};

use jobs::job::Job;
use jobs::refusal::Refusal;
use rankings::orders::{ByDeadline, ByMark};
use stores::table::JobTable;

/// The jobs in the order of their deadlines, and the tick at which the first of them begins.
#[derive(Drop)]
pub struct Table {
    pub(crate) start: u32,
    pub(crate) jobs: JobTable,
}

impl Table {
    /// A table with no job, which starts at tick 0.
    pub fn new() -> Table
        ensures { sheet result ≡ blank }
    {
        Table {
            start: 0,
            jobs: JobTable::new(),
        }
    }

    /// Enters a job; one whose number is there already, or a 65th, is refused.
    pub fn enter(&mut self, job: Job) -> Result<(), Refusal>
        ensures { Entered (sheet self.old) job (sheet self.new) result }
    {
        if self.jobs.knows(job.mark.number) {
            return Err(Refusal::Known);
        }
        self.jobs.insert_by(&ByMark(ByDeadline), job)
    }
}

impl Default for Table {
    ghost is_default = { λ t. sheet t ≡ blank };

    fn default() -> Table {
        Table::new()
    }
}
