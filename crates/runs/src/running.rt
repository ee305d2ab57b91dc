//! What the tests share: calls in short, and a run held to the answers that are due.
use admission::admitting::{Admission, Verdict};
use jobs::ending::{EndKind, Ending};
use jobs::job::{Job, Mark};
use jobs::refusal::Refusal;
use rankings::orders::ByDeadline;
use rankings::policies::{ByValue, Policy};
use rankings::ranking::Ranking;
use scheduler::calls::{Answer, Arrival, Call};
use scheduler::scheduler::Scheduler;
use std::process::Abort;
use stores::row::Row;
use timing::overrun::Overrun;

/// What a call is to be answered.
pub type Due = Result<Answer, Refusal>;

/// Ready jobs in a row, worked by their deadlines, the smaller value giving way first.
pub type Plain = Scheduler<Row, ByDeadline, ByValue>;

pub fn plain() -> Plain {
    Scheduler::new(Row::new(), ByDeadline, ByValue)
}

pub fn arrival(class: u32, number: u32, computation: u32, deadline_in: u32, value: u32) -> Arrival {
    Arrival {
        number,
        class,
        computation,
        deadline_in,
        tolerance: 0,
        value,
    }
}

pub fn hard(number: u32, computation: u32, deadline_in: u32, value: u32) -> Call {
    Call::Arrive(arrival(0, number, computation, deadline_in, value))
}

pub fn critical(number: u32, computation: u32, deadline_in: u32, value: u32) -> Call {
    Call::Arrive(arrival(1, number, computation, deadline_in, value))
}

/// A HARD job that may be late by `tolerance`.
pub fn tolerant(
    number: u32,
    computation: u32,
    deadline_in: u32,
    value: u32,
    tolerance: u32,
) -> Call {
    Call::Arrive(Arrival {
        tolerance,
        ..arrival(0, number, computation, deadline_in, value)
    })
}

/// An overrun of `by` at `cause`, or none where `by` is 0.
fn overrun(by: u64, cause: u16) -> Option<Overrun> {
    if by == 0 {
        return None;
    }
    Some(Overrun { by, cause })
}

pub fn ready(exceeding: u64, cause: u16, displaced: usize) -> Due {
    Ok(Answer::Admitted(Admission {
        verdict: Verdict::Ready { displaced },
        overrun: overrun(exceeding, cause),
    }))
}

pub fn parked(exceeding: u64, cause: u16) -> Due {
    Ok(Answer::Admitted(Admission {
        verdict: Verdict::Parked,
        overrun: overrun(exceeding, cause),
    }))
}

pub fn missed(number: u16, tick: u32, by: u16) -> Due {
    Ok(Answer::Ended(Ending {
        number,
        kind: EndKind::Missed,
        tick,
        by,
    }))
}

/// Serves each call and holds its answer to the one that is due.
pub fn expect<O: Ranking<Item = Mark>, P: Policy>(
    rt: &impl Abort,
    scheduler: &mut Scheduler<Row, O, P>,
    run: &[(Call, Due)],
) {
    for (call, due) in run {
        assert_eq!(rt; scheduler.call(call), *due);
    }
}

/// The jobs have these numbers, in this order.
fn have_numbers(rt: &impl Abort, jobs: &[Job], numbers: &[u16]) {
    assert_eq!(rt; jobs.len(), numbers.len());
    for (job, number) in jobs.iter().zip(numbers) {
        assert_eq!(rt; job.mark.number, *number);
    }
}

pub fn stand_ready<O: Ranking<Item = Mark>, P: Policy>(
    rt: &impl Abort,
    scheduler: &Scheduler<Row, O, P>,
    numbers: &[u16],
) {
    have_numbers(rt, scheduler.ready().as_slice(), numbers);
}

pub fn stand_parked<O: Ranking<Item = Mark>, P: Policy>(
    rt: &impl Abort,
    scheduler: &Scheduler<Row, O, P>,
    numbers: &[u16],
) {
    have_numbers(rt, scheduler.parked(), numbers);
}
