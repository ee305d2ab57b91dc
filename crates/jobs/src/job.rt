//! A job and its mark.
ghost use Rattle.std.specs.Prelude.{◌≡◌, pos, ◌+ℤ◌, neg_ℤ};
ghost use Rattle.std.specs.Int.{int_max};
ghost use Rattle.jobs.specs.Records.{class_number, Classed, arrived, mark_limit, excess, residual};

use crate::numbered::Numbered;
use crate::refusal::Refusal;

/// How a job stands to others: a HARD job may be displaced, a CRITICAL one never.
#[derive(Clone, Copy, Default, PartialEq, Eq, Debug)]
pub enum Class {
    #[default]
    Hard = 0,
    Critical = 1,
}

impl Class {
    pub fn number(self) -> u8
        ensures { result ≡ class_number self }
    {
        self as u8
    }
}

/// The class of this number; any other number is refused.
impl TryFrom<u32> for Class {
    type Error = Refusal;

    ghost try_from_gives = { Classed };

    fn try_from(number: u32) -> Result<Class, Refusal> {
        match number {
            0 => Ok(Class::Hard),
            1 => Ok(Class::Critical),
            _ => Err(Refusal::Class),
        }
    }
}

/// What never changes of a job.
#[derive(Clone, Copy, Default, PartialEq, Eq, Debug)]
pub struct Mark {
    pub number: u16,
    pub class: Class,
    /// The tick at which it arrived.
    pub arrival: u32,
    /// The tick by which it should be done.
    pub deadline: u32,
    /// How long past its deadline it may still be done.
    pub tolerance: u32,
    /// What it is worth to have it done.
    pub value: u16,
}

impl Mark {
    /// The last tick by which it must be done: the deadline plus the tolerance.
    pub fn limit(&self) -> u64
        ensures { result ≡ mark_limit self.now }
    {
        u64::from(self.deadline) + u64::from(self.tolerance)
    }
}

/// A job that has been accepted.
#[derive(Clone, Copy, Default, PartialEq, Eq, Debug)]
pub struct Job {
    pub mark: Mark,
    /// The ticks that it takes in all.
    pub computation: u32,
    /// The ticks that it still takes.
    pub remaining: u32,
    /// The number of the arrival that last displaced it, 0 if none did.
    pub by: u16,
}

impl Job {
    /// A job that arrives: nothing of it is done, and nobody has displaced it.
    pub fn new(mark: Mark, computation: u32) -> Job
        ensures { result ≡ arrived mark computation }
    {
        Job {
            mark,
            computation,
            remaining: computation,
            by: 0,
        }
    }

    /// The time by which the job passes its limit if it finishes at `finish`, 0 if it does not.
    pub fn excess(&self, finish: u64) -> u64
        ensures value { result ≡ excess finish self.now }
        ensures rule { pos result ≡ int_max (pos 0) (neg_ℤ (residual finish self.now +ℤ pos self.now.mark.tolerance)) }
    {
        finish.saturating_sub(self.mark.limit())
    }
}

impl Numbered for Mark {
    ghost number = { λ m. m.number };

    fn number(&self) -> u16 {
        self.number
    }
}

impl Numbered for Job {
    ghost number = { λ j. j.mark.number };

    fn number(&self) -> u16 {
        self.mark.number
    }
}
