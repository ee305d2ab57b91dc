//! By what a scheduler decides.
use rankings::orders::ByMark;

/// The order in which ready jobs are worked, and the policy by which jobs give way.
#[derive(Drop)]
pub struct Discipline<O, P> {
    pub order: ByMark<O>,
    pub policy: P,
}
