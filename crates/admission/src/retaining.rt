//! A list of jobs from which some are taken out.
ghost use Rattle.std.specs.Fn.{CalledWithState};
ghost use Rattle.admission.specs.Retaining.{Retains};

use jobs::job::Job;
use jobs::refusal::Refusal;
use stores::ready::ReadyStore;

/// Takes out the jobs of `list` that are not to stay: `keep` is asked of each in turn, and may change `state`.
/// The first refusal ends it.
pub(crate) fn try_retain<S: ReadyStore, X, F: FnMut(&mut X, Job) -> Result<bool, Refusal>>(
    list: &mut S,
    state: &mut X,
    mut keep: F,
) -> Result<(), Refusal>
    requires { F.IsAlwaysCallable keep }
    ensures { Retains (CalledWithState F.FnMut) keep state.old (S.ReadyStore.jobs list.old) (S.ReadyStore.jobs list.new) state.new result }
{
    let mut place = 0;
    while place < list.len() {
        let job = list.read(place)?;
        let stays = keep(state, job)?;
        if stays {
            place += 1;
        } else {
            list.take(place)?;
        }
    }
    Ok(())
}
