//! What a scheduler keeps: its clock and its jobs.
ghost use Rattle.std.specs.Prelude.{◌≡◌};
ghost use Rattle.rules.specs.States.{start};

use stores::ready::ReadyStore;
use stores::table::{EndingTable, JobTable};

/// The clock of a scheduler, and its jobs in three lists.
#[derive(Drop)]
pub struct Roster<S> {
    pub clock: u32,
    pub ready: S,
    pub parked: JobTable,
    pub ended: EndingTable,
}

impl<S: ReadyStore> Roster<S> {
    ghost use Rattle.admission.specs.Rosters.{roster_state};

    /// No jobs, at tick 0; the store is emptied.
    pub fn new(mut store: S) -> Roster<S>
        ensures { roster_state S.ReadyStore.jobs result ≡ start }
    {
        store.clear();
        Roster {
            clock: 0,
            ready: store,
            parked: JobTable::new(),
            ended: EndingTable::new(),
        }
    }
}
