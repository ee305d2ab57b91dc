//! Rejection policies: which jobs are to go first when a list has no room, and which are spared.
ghost use Rattle.std.specs.Prelude.{◌≡◌, ◌<◌, ◌≤◌, Bool, true, false, ◌||◌, MatchResult, nat_le};
ghost use Rattle.jobs.specs.declared.job.Job.{Job};
ghost use Rattle.rankings.specs.Rankings.{smaller_value};
ghost use Rattle.std.proofs.Common.{rules};

use crate::ranking::Ranking;
use jobs::job::Job;
use jobs::ranges::THRESHOLDS;
use jobs::refusal::Refusal;

/// A ranking of jobs, those to go first standing first, that also says which jobs it spares.
pub trait Policy: Ranking<Item = Job> {
    ghost spared: { Self → Job → Bool };

    fn spares(&self, job: &Job) -> bool
        ensures { result ≡ spared self.now job.now };
}

/// The smaller value goes first; no job is spared.
#[derive(Clone, Copy)]
pub struct ByValue;

impl Ranking for ByValue {
    type Item = Job;

    ghost may = { λ _. smaller_value };

    ghost total = { Prim.search rules };

    ghost transitive = { Prim.search rules };

    fn may_precede(&self, x: &Job, y: &Job) -> bool {
        x.mark.value <= y.mark.value
    }
}

impl Policy for ByValue {
    ghost spared = { λ _ _. false };

    fn spares(&self, _job: &Job) -> bool {
        false
    }
}

/// The smaller value would go first, but every job is spared.
#[derive(Clone, Copy)]
pub struct SpareAll;

impl Ranking for SpareAll {
    type Item = Job;

    ghost may = { λ _. smaller_value };

    ghost total = { Prim.search rules };

    ghost transitive = { Prim.search rules };

    fn may_precede(&self, x: &Job, y: &Job) -> bool {
        ByValue.may_precede(x, y)
    }
}

impl Policy for SpareAll {
    ghost spared = { λ _ _. true };

    fn spares(&self, _job: &Job) -> bool {
        true
    }
}

/// Any policy that also spares every job that has no more than `threshold` ticks to go.
#[derive(Drop)]
pub struct Shelter<P> {
    policy: P,
    threshold: u32,
    ghost within: { threshold ≤ 1000000 },
}

impl<P: Policy + Drop> Shelter<P> {
    /// The shelter over `policy`; a threshold out of its range is refused.
    pub fn over(policy: P, threshold: u32) -> Result<Shelter<P>, Refusal>
        ensures { MatchResult result (λ s. (s.policy ≡ policy) × (s.threshold ≡ threshold)) (λ e. (e ≡ Refusal.Range) × (1000000 < threshold)) }
    {
        let threshold = THRESHOLDS.accept(threshold)?;
        Ok(Shelter { policy, threshold })
    }
}

impl<P: Policy> Ranking for Shelter<P> {
    type Item = Job;

    ghost may = { λ s. P.Ranking.may s.policy };

    ghost total = { Prim.search rules };

    ghost transitive = { Prim.search rules };

    fn may_precede(&self, x: &Job, y: &Job) -> bool {
        self.policy.may_precede(x, y)
    }
}

impl<P: Policy> Policy for Shelter<P> {
    ghost spared = { λ s j. P.Policy.spared s.policy j || nat_le j.remaining s.threshold };

    fn spares(&self, job: &Job) -> bool {
        self.policy.spares(job) || job.remaining <= self.threshold
    }
}
