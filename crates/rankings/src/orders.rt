//! Dispatch orders: the rankings of marks by which ready jobs are worked.
ghost use Rattle.rankings.specs.Rankings.{by_mark, earlier_deadline, earlier_limit};
ghost use Rattle.std.proofs.Common.{rules};

use crate::ranking::Ranking;
use jobs::job::{Job, Mark};

/// The earlier deadline first.
#[derive(Clone, Copy)]
pub struct ByDeadline;

impl Ranking for ByDeadline {
    type Item = Mark;

    ghost may = { λ _. earlier_deadline };

    ghost total = { Prim.search rules };

    ghost transitive = { Prim.search rules };

    fn may_precede(&self, x: &Mark, y: &Mark) -> bool {
        x.deadline <= y.deadline
    }
}

/// The earlier limit first.
#[derive(Clone, Copy)]
pub struct ByLimit;

impl Ranking for ByLimit {
    type Item = Mark;

    ghost may = { λ _. earlier_limit };

    ghost total = { Prim.search rules };

    ghost transitive = { Prim.search rules };

    fn may_precede(&self, x: &Mark, y: &Mark) -> bool {
        x.limit() <= y.limit()
    }
}

/// Jobs in the order of their marks.
#[derive(Clone, Copy)]
pub struct ByMark<O>(pub O);

impl<O: Ranking<Item = Mark>> Ranking for ByMark<O> {
    type Item = Job;

    ghost may = { λ r. by_mark (O.Ranking.may r.0) };

    ghost total = { Prim.search rules };

    ghost transitive = { Prim.search rules };

    fn may_precede(&self, x: &Job, y: &Job) -> bool {
        self.0.may_precede(&x.mark, &y.mark)
    }
}
