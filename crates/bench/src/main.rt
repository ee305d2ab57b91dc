//! Calls whose cost is measured. Standard input has two bytes: the case, and `1` if its last call is to be made.
//! The difference in instructions between `1` and `0` is the cost of that call; see tools/bench.
#![tactic(auto)]

use jobs::refusal::Refusal;
use rankings::orders::ByDeadline;
use rankings::policies::ByValue;
use scheduler::calls::Arrival;
use scheduler::scheduler::Scheduler;
use std::io::Read;
use stores::ready::ReadyStore;
use stores::row::Row;

type Plain = Scheduler<Row, ByDeadline, ByValue>;

fn arrival(class: u32, number: u32, computation: u32, deadline_in: u32, value: u32) -> Arrival {
    Arrival {
        number,
        class,
        computation,
        deadline_in,
        tolerance: 0,
        value,
    }
}

/// Jobs of ten ticks that are all to be done by tick 640.
fn fill(s: &mut Plain, count: u32) -> Result<(), Refusal> {
    for number in 1..=count {
        s.arrive(&arrival(0, number, 10, 640, 1))?;
    }
    Ok(())
}

/// One job that takes all the time there is, and jobs that wait for it in vain.
fn crowd(s: &mut Plain, parked: u32) -> Result<(), Refusal> {
    s.arrive(&arrival(0, 100, 1_000_000, 1_000_000, 1))?;
    for number in 1..=parked {
        s.arrive(&arrival(0, number, 1_000, 50_000, 1))?;
    }
    Ok(())
}

/// The call that is measured, and the jobs that it finds.
#[derive(Clone, Copy)]
enum Case {
    /// An arrival that fits behind 63 ready jobs.
    Fits,
    /// A HARD arrival for which one of 63 ready jobs gives way.
    Displaces,
    /// A CRITICAL arrival for which many of 63 ready jobs give way.
    Overrides,
    /// The longest work with so many jobs parked.
    Works { parked: u32 },
}

/// The case of a letter; any other letter is the costliest work.
impl From<u8> for Case {
    fn from(letter: u8) -> Case {
        match letter {
            b'a' => Case::Fits,
            b'b' => Case::Displaces,
            b'c' => Case::Overrides,
            b'w' => Case::Works { parked: 0 },
            b'x' => Case::Works { parked: 31 },
            _ => Case::Works { parked: 63 },
        }
    }
}

impl Case {
    /// Brings the jobs that the call is to find.
    fn set_up(self, s: &mut Plain) -> Result<(), Refusal> {
        match self {
            Case::Fits | Case::Displaces | Case::Overrides => fill(s, 63),
            Case::Works { parked } => crowd(s, parked),
        }
    }

    /// Makes the call that is measured.
    fn make_call(self, s: &mut Plain) -> Result<(), Refusal> {
        match self {
            Case::Fits => s.arrive(&arrival(0, 101, 10, 640, 9)).map(drop),
            Case::Displaces => s.arrive(&arrival(0, 101, 20, 640, 9)).map(drop),
            Case::Overrides => s.arrive(&arrival(1, 101, 400, 640, 9)).map(drop),
            Case::Works { .. } => s.work(10_000).map(drop),
        }
    }
}

/// Sets the case up and, if `last`, makes its call.
fn measure(s: &mut Plain, case: Case, last: bool) -> Result<(), Refusal> {
    case.set_up(s)?;
    if last {
        case.make_call(s)?;
    }
    Ok(())
}

fn main(rt: HostRuntime) -> anyhow::Result<()> {
    let mut input = Vec::new(rt.alloc());
    rt.stdin().take(2).read_to_end(&mut input)?;
    let case = input
        .first()
        .map_or(Case::Fits, |&letter| Case::from(letter));
    let last = input.get(1) == Some(&b'1');
    let mut s = Scheduler::new(Row::new(), ByDeadline, ByValue);
    let done = measure(&mut s, case, last).is_ok();
    let clock = s.clock();
    let ready = s.ready().len();
    let parked = s.parked().len();
    let size = std::mem::size_of::<Plain>();
    println!(rt; "done {done} clock {clock} ready {ready} parked {parked} size {size}")?;
    Ok(())
}
