//! The rankings of the parked and of the ended list.
ghost use Rattle.rankings.specs.Rankings.{larger_value, earlier_tick};
ghost use Rattle.std.proofs.Common.{rules};

use crate::ranking::Ranking;
use jobs::ending::Ending;
use jobs::job::Job;

/// Parked jobs: the larger value first.
#[derive(Clone, Copy)]
pub struct LargerValue;

impl Ranking for LargerValue {
    type Item = Job;

    ghost may = { λ _. larger_value };

    ghost total = { Prim.search rules };

    ghost transitive = { Prim.search rules };

    fn may_precede(&self, x: &Job, y: &Job) -> bool {
        y.mark.value <= x.mark.value
    }
}

/// Endings: the earlier tick first.
#[derive(Clone, Copy)]
pub struct EarlierTick;

impl Ranking for EarlierTick {
    type Item = Ending;

    ghost may = { λ _. earlier_tick };

    ghost total = { Prim.search rules };

    ghost transitive = { Prim.search rules };

    fn may_precede(&self, x: &Ending, y: &Ending) -> bool {
        x.tick <= y.tick
    }
}
