//! The ten worked runs.
use crate::running::*;
use jobs::refusal::Refusal;
use rankings::orders::{ByDeadline, ByLimit};
use rankings::policies::{ByValue, Shelter};
use scheduler::calls::{Answer, Call};
use scheduler::scheduler::Scheduler;
use std::process::Abort;
use std::test::Fail;
use stores::row::Row;
use timing::entry::Entry;

/// Run 1: with 10 the list would exceed by 2, first at 11.
fn after_run_1(rt: &impl Abort) -> Plain {
    let mut s = plain();
    expect(
        rt,
        &mut s,
        &[
            (hard(11, 14, 16, 5), ready(0, 0, 0)),
            (Call::Work(3), Ok(Answer::Now(3))),
            (hard(12, 4, 18, 5), ready(0, 0, 0)),
            (Call::Work(2), Ok(Answer::Now(5))),
            (hard(13, 5, 23, 5), ready(0, 0, 0)),
            (Call::Work(2), Ok(Answer::Now(7))),
            (hard(10, 4, 5, 5), parked(2, 11)),
        ],
    );
    s
}

#[test]
fn run_1_parks_it(rt: HostRuntime) {
    let s = after_run_1(&rt);
    stand_ready(&rt, &s, &[11, 12, 13]);
    stand_parked(&rt, &s, &[10]);
}

#[test]
fn run_2_tolerates_it(rt: HostRuntime) {
    let mut s = plain();
    expect(
        &rt,
        &mut s,
        &[
            (tolerant(11, 14, 16, 5, 2), ready(0, 0, 0)),
            (Call::Work(3), Ok(Answer::Now(3))),
            (tolerant(12, 4, 18, 5, 1), ready(0, 0, 0)),
            (Call::Work(2), Ok(Answer::Now(5))),
            (hard(13, 5, 23, 5), ready(0, 0, 0)),
            (Call::Work(2), Ok(Answer::Now(7))),
            (hard(10, 4, 5, 5), ready(0, 0, 0)),
        ],
    );
}

#[test]
fn run_3_saves_time_for_it(rt: HostRuntime) {
    let mut s = after_run_1(&rt);
    expect(&rt, &mut s, &[(Call::Finish(11), Ok(Answer::Saved(7)))]);
    stand_ready(&rt, &s, &[10, 12, 13]);
}

#[test]
fn run_4_misses_it(rt: HostRuntime) {
    let mut s = after_run_1(&rt);
    expect(&rt, &mut s, &[(Call::Work(1), Ok(Answer::Now(8)))]);
    stand_parked(&rt, &s, &[10]);
    expect(
        &rt,
        &mut s,
        &[
            (Call::Work(1), Ok(Answer::Now(9))),
            (Call::Collect, missed(10, 9, 0)),
        ],
    );
}

#[test]
fn run_5_displaces_one(rt: HostRuntime) {
    let mut s = plain();
    expect(
        &rt,
        &mut s,
        &[
            (tolerant(3, 4, 10, 7, 1), ready(0, 0, 0)),
            (Call::Work(1), Ok(Answer::Now(1))),
            (tolerant(1, 5, 7, 5, 2), ready(0, 0, 0)),
            (Call::Work(1), Ok(Answer::Now(2))),
            (tolerant(2, 1, 7, 3, 1), ready(0, 0, 0)),
            (Call::Work(1), Ok(Answer::Now(3))),
            (tolerant(4, 3, 12, 2, 2), ready(0, 0, 0)),
            (Call::Work(1), Ok(Answer::Now(4))),
            (tolerant(5, 3, 3, 10, 2), ready(2, 3, 1)),
            (Call::Finish(9), Err(Refusal::Unknown)),
        ],
    );
    stand_ready(&rt, &s, &[5, 2, 3, 4]);
    stand_parked(&rt, &s, &[1]);
}

#[test]
fn run_6_displaces_who_helps(rt: HostRuntime) {
    let mut s = plain();
    expect(
        &rt,
        &mut s,
        &[
            (hard(21, 4, 6, 9), ready(0, 0, 0)),
            (hard(22, 6, 11, 1), ready(0, 0, 0)),
            (hard(23, 3, 5, 10), ready(2, 22, 1)),
        ],
    );
    stand_ready(&rt, &s, &[23, 22]);
    stand_parked(&rt, &s, &[21]);
    // Three ticks on it is missed, and its line names its displacer.
    expect(
        &rt,
        &mut s,
        &[
            (Call::Work(3), Ok(Answer::Now(3))),
            (Call::Collect, missed(21, 3, 23)),
        ],
    );
}

#[test]
fn run_7_by_deadline_and_by_limit(rt: HostRuntime) {
    let mut by_deadline = plain();
    expect(
        &rt,
        &mut by_deadline,
        &[
            (tolerant(31, 5, 5, 5, 10), ready(0, 0, 0)),
            (hard(32, 3, 6, 5), parked(2, 32)),
        ],
    );
    let mut by_limit = Scheduler::new(Row::new(), ByLimit, ByValue);
    expect(
        &rt,
        &mut by_limit,
        &[
            (tolerant(31, 5, 5, 5, 10), ready(0, 0, 0)),
            (hard(32, 3, 6, 5), ready(0, 0, 0)),
        ],
    );
}

#[test]
fn run_8_sets_aside_and_sweeps_back(rt: HostRuntime) {
    let mut s = plain();
    expect(
        &rt,
        &mut s,
        &[
            (hard(41, 3, 7, 2), ready(0, 0, 0)),
            (hard(42, 1, 20, 1), ready(0, 0, 0)),
            (critical(43, 5, 5, 0), ready(1, 41, 1)),
        ],
    );
    stand_ready(&rt, &s, &[43, 42]);
    stand_parked(&rt, &s, &[41]);
}

#[test]
fn run_9_shelters(rt: HostRuntime) -> Result<(), Fail> {
    let mut s = Scheduler::new(Row::new(), ByDeadline, Shelter::over(ByValue, 3)?);
    expect(
        &rt,
        &mut s,
        &[
            (hard(41, 3, 7, 2), ready(0, 0, 0)),
            (hard(42, 1, 20, 1), ready(0, 0, 0)),
            (critical(43, 5, 5, 0), parked(1, 41)),
        ],
    );
    Ok(())
}

#[test]
fn run_10_has_no_load_past_its_deadline(rt: HostRuntime) -> Result<(), Fail> {
    let mut s = plain();
    expect(
        &rt,
        &mut s,
        &[
            (tolerant(51, 3, 2, 0, 2), ready(0, 0, 0)),
            (Call::Work(2), Ok(Answer::Now(2))),
        ],
    );
    let blank = Entry::default();
    let mut table = [blank; 2];
    assert_eq!(rt; s.profile(&mut table)?, 1);
    let due = Entry {
        number: 51,
        finish: 3,
        residual: -1,
        load: None,
    };
    assert_eq!(rt; table[0], due);
    assert_eq!(rt; table[1], blank);
    Ok(())
}
