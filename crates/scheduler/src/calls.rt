//! What a scheduler is asked, and what it answers.
ghost use Rattle.std.specs.Prelude.{◌≡◌, not, Some};
ghost use Rattle.rules.specs.Calls.{out_of_range};
ghost use Rattle.jobs.specs.Records.{Classed};
ghost use Rattle.scheduler.specs.Calling.{asked};
ghost use Rattle.scheduler.specs.Written.{answer_text};

use admission::admitting::Admission;
use jobs::ending::Ending;
use jobs::job::Class;
use jobs::ranges::{COMPUTATIONS, DEADLINES_IN, NUMBERS, TOLERANCES, VALUES};
use jobs::refusal::Refusal;
use std::fmt;

/// A job that arrives. The fields are wider than their ranges, so that every value can be passed, and refused.
#[derive(Clone, Copy, PartialEq, Eq, Debug)]
pub struct Arrival {
    /// 1 to 65,535, and no job of this number may be known.
    pub number: u32,
    /// 0 is HARD, 1 is CRITICAL.
    pub class: u32,
    /// The ticks that it takes: 1 to 1,000,000.
    pub computation: u32,
    /// The ticks from its arrival to its deadline: 1 to 100,000,000.
    pub deadline_in: u32,
    /// How long past its deadline it may still be done: 0 to 100,000,000.
    pub tolerance: u32,
    /// What it is worth: 0 to 65,535.
    pub value: u32,
}

impl Arrival {
    /// Whether each number lies in its range.
    pub fn in_range(&self) -> bool
        ensures { result ≡ not (out_of_range (asked self.now)) }
    {
        NUMBERS.contains(self.number)
            && COMPUTATIONS.contains(self.computation)
            && DEADLINES_IN.contains(self.deadline_in)
            && TOLERANCES.contains(self.tolerance)
            && VALUES.contains(self.value)
    }

    /// The class that the number names.
    pub fn class(&self) -> Result<Class, Refusal>
        ensures { Classed self.now.class result }
    {
        Class::try_from(self.class)
    }
}

/// One call of a scheduler.
#[derive(Clone, Copy, PartialEq, Eq, Debug)]
pub enum Call {
    Arrive(Arrival),
    /// Work for so many ticks.
    Work(u32),
    /// The job of this number is done early.
    Finish(u32),
    /// The job of this number is not wanted any more.
    Withdraw(u32),
    Collect,
}

/// What a call that is not refused is answered.
#[derive(Clone, Copy, PartialEq, Eq, Debug)]
pub enum Answer {
    Admitted(Admission),
    /// The clock.
    Now(u32),
    /// The ticks that were saved.
    Saved(u32),
    Gone,
    Ended(Ending),
}

/// An answer is written in one line: an admission, `now CLOCK`, `done SAVED`, `gone`, or an ending.
impl fmt::Display for Answer {
    ghost output = { λ a. Some (answer_text a) };

    fn fmt<W: fmt::Write>(&self, f: &mut fmt::Formatter<W>) -> fmt::Result {
        match self {
            Answer::Admitted(admission) => write!(f, "{admission}"),
            Answer::Now(clock) => write!(f, "now {clock}"),
            Answer::Saved(ticks) => write!(f, "done {ticks}"),
            Answer::Gone => write!(f, "gone"),
            Answer::Ended(ending) => write!(f, "{ending}"),
        }
    }
}
