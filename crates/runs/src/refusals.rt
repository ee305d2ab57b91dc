//! Each refusal once: its number, and that nothing has changed.
use crate::running::*;
use jobs::refusal::Refusal;
use rankings::orders::ByDeadline;
use rankings::policies::ByValue;
use scheduler::calls::{Answer, Call};
use scheduler::scheduler::Scheduler;
use std::process::Abort;
use std::test::Fail;
use stores::ready::ReadyStore;
use stores::row::Row;
use timing::entry::Entry;

/// A scheduler with ready, parked and ended jobs, always the same.
fn busy(rt: &impl Abort) -> Plain {
    let mut s = plain();
    expect(
        rt,
        &mut s,
        &[
            (hard(21, 4, 6, 9), ready(0, 0, 0)),
            (hard(22, 6, 11, 1), ready(0, 0, 0)),
            (hard(23, 3, 5, 10), ready(2, 22, 1)),
            (Call::Work(1), Ok(Answer::Now(1))),
            (hard(24, 1, 2, 1), ready(0, 0, 0)),
            (Call::Withdraw(24), Ok(Answer::Gone)),
        ],
    );
    s
}

fn alike(rt: &impl Abort, a: &Plain, b: &Plain) {
    assert_eq!(rt; a.clock(), b.clock());
    assert_eq!(rt; a.ready().as_slice(), b.ready().as_slice());
    assert_eq!(rt; a.parked(), b.parked());
    assert_eq!(rt; a.ended(), b.ended());
}

/// The call is refused so, and the scheduler stands as one that never had it.
fn refused(rt: &impl Abort, call: Call, refusal: Refusal, number: u8) {
    let mut s = busy(rt);
    expect(rt, &mut s, &[(call, Err(refusal))]);
    assert_eq!(rt; refusal.number(), number);
    alike(rt, &s, &busy(rt));
}

/// The number of the refusal, if there is one.
fn refusal_number<T: Drop>(answer: Result<T, Refusal>) -> Option<u8> {
    answer.err().map(|refusal| refusal.number())
}

#[test]
fn ranges(rt: HostRuntime) {
    refused(&rt, hard(0, 1, 1, 0), Refusal::Range, 1);
    refused(&rt, hard(65_536, 1, 1, 0), Refusal::Range, 1);
    refused(&rt, hard(1, 0, 1, 0), Refusal::Range, 1);
    refused(&rt, hard(1, 1_000_001, 1, 0), Refusal::Range, 1);
    refused(&rt, hard(1, 1, 0, 0), Refusal::Range, 1);
    refused(&rt, hard(1, 1, 100_000_001, 0), Refusal::Range, 1);
    refused(&rt, hard(1, 1, 1, 65_536), Refusal::Range, 1);
    refused(&rt, tolerant(1, 1, 1, 0, 100_000_001), Refusal::Range, 1);
    refused(&rt, Call::Work(0), Refusal::Range, 1);
    refused(&rt, Call::Work(10_001), Refusal::Range, 1);
    refused(&rt, Call::Finish(65_536), Refusal::Range, 1);
    refused(&rt, Call::Withdraw(0), Refusal::Range, 1);
}

#[test]
fn rules(rt: HostRuntime) {
    refused(&rt, Call::Arrive(arrival(2, 1, 1, 1, 0)), Refusal::Class, 2);
    // Ready, parked, ended: known.
    refused(&rt, hard(23, 1, 1, 0), Refusal::Known, 4);
    refused(&rt, hard(21, 1, 1, 0), Refusal::Known, 4);
    refused(&rt, hard(24, 1, 1, 0), Refusal::Known, 4);
    refused(&rt, tolerant(1, 6, 4, 0, 1), Refusal::Hopeless, 6);
    refused(&rt, Call::Finish(9), Refusal::Unknown, 7);
    refused(&rt, Call::Withdraw(24), Refusal::Unknown, 7);
    // Behind the first, and parked: not to be finished.
    refused(&rt, Call::Finish(22), Refusal::Waiting, 8);
    refused(&rt, Call::Finish(21), Refusal::Waiting, 8);
}

#[test]
fn exactly_enough_time_is_enough(rt: HostRuntime) {
    let mut s = plain();
    expect(&rt, &mut s, &[(tolerant(1, 5, 4, 0, 1), ready(0, 0, 0))]);
}

#[test]
fn nothing_to_collect(rt: HostRuntime) {
    let mut s = plain();
    assert_eq!(rt; refusal_number(s.collect()), Some(9));
    alike(&rt, &s, &plain());
}

#[test]
fn a_table_too_short(rt: HostRuntime) {
    let s = busy(&rt);
    let blank = Entry {
        number: 7,
        finish: 7,
        residual: 7,
        load: None,
    };
    let mut table = [blank; 1];
    assert_eq!(rt; refusal_number(s.profile(&mut table)), Some(10));
    assert_eq!(rt; table[0].number, 7);
}

#[test]
fn the_65th_job(rt: HostRuntime) {
    let mut s = plain();
    for number in 1..65 {
        expect(&rt, &mut s, &[(hard(number, 1, 1_000, 0), ready(0, 0, 0))]);
    }
    let last = (hard(65, 1, 1_000, 0), Err(Refusal::Full));
    expect(&rt, &mut s, &[last]);
    assert_eq!(rt; Refusal::Full.number(), 5);
    assert_eq!(rt; s.ready().len(), 64);
}

#[test]
fn the_end_of_the_clock(rt: HostRuntime) -> Result<(), Fail> {
    let mut s = plain();
    for _ in 0..99_999 {
        s.work(10_000)?;
    }
    assert_eq!(rt; s.work(9_999)?, 999_999_999);
    assert_eq!(rt; refusal_number(s.work(2)), Some(3));
    assert_eq!(rt; s.clock(), 999_999_999);
    assert_eq!(rt; s.work(1)?, 1_000_000_000);
    assert_eq!(rt; refusal_number(s.work(1)), Some(3));
    Ok(())
}
