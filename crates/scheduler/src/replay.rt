//! A whole run of calls on a new scheduler.
ghost use Rattle.scheduler.specs.Replays.{Replayed};

use crate::calls::{Answer, Call};
use crate::scheduler::Scheduler;
use jobs::job::Mark;
use jobs::refusal::Refusal;
use rankings::policies::Policy;
use rankings::ranking::Ranking;
use stores::ready::ReadyStore;

/// Makes a new scheduler of the parts, serves every call and writes its answer into the front of `answers`.
/// The scheduler that it hands back has kept the promise. A table shorter than the list of calls is refused.
pub fn replay<S: ReadyStore + Drop, O: Ranking<Item = Mark> + Drop, P: Policy + Drop>(
    store: S,
    order: O,
    policy: P,
    calls: &[Call],
    answers: &mut [Result<Answer, Refusal>],
) -> Result<Scheduler<S, O, P>, Refusal>
    ensures { Replayed S.ReadyStore O.Ranking P.Policy order policy calls.now answers.old answers.new result }
{
    if answers.len() < calls.len() {
        return Err(Refusal::Short);
    }
    let mut scheduler = Scheduler::new(store, order, policy);
    for (place, call) in calls.iter().enumerate() {
        answers[place] = scheduler.call(call);
    }
    Ok(scheduler)
}
