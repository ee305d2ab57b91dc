//! Examples of the published method, and the edges of a list.
use crate::entry::Load;
use crate::timeline::Timeline;
use jobs::job::{Job, Mark};
use std::test::Fail;

fn job(number: u16, remaining: u32, deadline: u32, tolerance: u32) -> Job {
    let mark = Mark {
        number,
        deadline,
        tolerance,
        ..Mark::default()
    };
    Job::new(mark, remaining)
}

fn drill(first_tolerance: u32, second_tolerance: u32) -> [Job; 4] {
    [
        job(10, 4, 12, 0),
        job(11, 7, 16, first_tolerance),
        job(12, 4, 21, second_tolerance),
        job(13, 5, 28, 0),
    ]
}

#[test]
fn a_list_that_is_late(rt: HostRuntime) -> Result<(), Fail> {
    let mut walk = Timeline::new(7);
    let due = [(11, 1), (18, -2), (22, -1), (27, 1)];
    for (job, (finish, residual)) in drill(0, 0).iter().zip(due.iter()) {
        let entry = walk.add(job)?;
        assert_eq!(rt; entry.finish, *finish);
        assert_eq!(rt; entry.residual, *residual);
    }
    assert_eq!(rt; walk.exceeding(), 2);
    assert_eq!(rt; walk.cause(), 11);
    Ok(())
}

#[test]
fn tolerance_lets_it_hold(rt: HostRuntime) -> Result<(), Fail> {
    let walk = Timeline::of(7, &drill(2, 1))?;
    assert!(rt; walk.holds());
    assert_eq!(rt; walk.cause(), 0);
    Ok(())
}

#[test]
fn sixty_four_jobs_and_no_more(rt: HostRuntime) -> Result<(), Fail> {
    let many = [job(1, 1, 100, 0); 65];
    assert_eq!(rt; Timeline::of(0, &many[0..64])?.finish(), 64);
    assert!(rt; Timeline::of(0, &many).is_err());
    Ok(())
}

#[test]
fn no_load_once_the_deadline_has_come(rt: HostRuntime) -> Result<(), Fail> {
    let mut walk = Timeline::new(5);
    assert_eq!(rt; walk.add(&job(1, 2, 5, 0))?.load, None);
    assert_eq!(rt;
        walk.add(&job(2, 2, 6, 0))?.load,
        Some(Load { sum: 4, span: 1 })
    );
    Ok(())
}
