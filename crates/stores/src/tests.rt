//! A table that is kept by a ranking, and a row by its places.
use crate::ready::ReadyStore;
use crate::row::Row;
use crate::table::JobTable;
use jobs::job::{Job, Mark};
use rankings::orders::{ByDeadline, ByMark};
use std::test::Fail;

fn job(number: u16, deadline: u32) -> Job {
    let mark = Mark {
        number,
        deadline,
        ..Mark::default()
    };
    Job::new(mark, 5)
}

#[test]
fn equal_deadlines_go_by_number(rt: HostRuntime) -> Result<(), Fail> {
    let mut table = JobTable::new();
    table.insert_by(&ByMark(ByDeadline), job(9, 20))?;
    table.insert_by(&ByMark(ByDeadline), job(3, 20))?;
    table.insert_by(&ByMark(ByDeadline), job(5, 10))?;
    let jobs = table.as_slice();
    assert!(rt; jobs.len() == 3);
    assert_eq!(rt; jobs[0].mark.number, 5);
    assert_eq!(rt; jobs[1].mark.number, 3);
    assert_eq!(rt; jobs[2].mark.number, 9);
    Ok(())
}

#[test]
fn a_row_by_its_places(rt: HostRuntime) -> Result<(), Fail> {
    let mut row = Row::new();
    assert!(rt; row.insert(1, job(1, 10)).is_err());
    row.insert(0, job(1, 10))?;
    row.insert(1, job(2, 20))?;
    row.insert(1, job(3, 15))?;
    row.set_remaining(1, 4)?;
    assert!(rt; row.set_remaining(1, 6).is_err());
    assert_eq!(rt; row.read(1)?.remaining, 4);
    assert_eq!(rt; row.take(0)?.mark.number, 1);
    assert_eq!(rt; row.read(0)?.mark.number, 3);
    assert_eq!(rt; row.len(), 2);
    assert!(rt; row.take(2).is_err());
    Ok(())
}
