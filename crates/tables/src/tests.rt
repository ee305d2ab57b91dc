//! Tables and their answers.
use crate::report::reply;
use std::alloc::AllocError;
use std::process::Abort;
use std::test::Fail;

fn answers(rt: &(impl Abort + AllocGlobal), input: &[u8], answer: &str) -> Result<(), Fail> {
    assert!(rt; reply(rt.alloc(), input)?.as_str() == answer);
    Ok(())
}

#[test]
fn a_table_that_exceeds(rt: HostRuntime) -> Result<(), Fail> {
    let table = b"at 7\n13 5 28\n12 4 21\n11 7 16\n10 4 12\n";
    let late =
        "job 10 11 1 4 5\njob 11 18 -2 11 9\njob 12 22 -1 15 14\njob 13 27 1 20 21\nexceeds 2 11\n";
    answers(&rt, table, late)
}

#[test]
fn a_table_that_holds(rt: HostRuntime) -> Result<(), Fail> {
    let table = b"at 7\n10 4 12\n11 7 16 2\n12 4 21 1\n13 5 28\n";
    let held = "job 10 11 1 4 5\njob 11 18 -2 11 9\njob 12 22 -1 15 14\njob 13 27 1 20 21\nholds\n";
    answers(&rt, table, held)
}

#[test]
fn edges_of_a_table(rt: HostRuntime) -> Result<(), Fail> {
    answers(&rt, b"", "idle\n")?;
    answers(&rt, b"\n at 5 \n", "idle\n")?;
    // The deadline is at the start, and equal deadlines go by the lower number.
    answers(
        &rt,
        b"at 5\n2 1 5 9\n1 1 5 9",
        "job 1 6 -1 - -\njob 2 7 -2 - -\nholds\n",
    )
}

#[test]
fn faults_of_a_table(rt: HostRuntime) -> Result<(), Fail> {
    answers(&rt, b"\n1 2 ", "refused 22 missing 2 5\n")?;
    answers(&rt, b"1 2 3\nat 4", "refused 23 digits 2 1\n")?;
    answers(&rt, b"1 2 3 4 5", "refused 24 extra 1 9\n")?;
    answers(&rt, b"1 0 3 100000001", "refused 1 range 1 3\n")?;
    answers(&rt, b"1 2 3\n 1 2 3", "refused 4 known 2 1\n")
}

/// A table of jobs numbered 1 to `count`.
fn many(rt: &HostRuntime, count: u16) -> Result<String, AllocError> {
    let mut table = String::new(rt.alloc());
    for number in 1..=count {
        writeln!(table, "{number} 1 99")?;
    }
    Ok(table)
}

#[test]
fn sixty_four_jobs_and_no_more(rt: HostRuntime) -> Result<(), Fail> {
    let full = reply(rt.alloc(), many(&rt, 64)?.as_bytes())?;
    assert!(rt; full.as_str().ends_with("\njob 64 64 35 64 99\nholds\n"));
    let more = many(&rt, 65)?;
    answers(&rt, more.as_bytes(), "refused 5 full 65 1\n")
}
