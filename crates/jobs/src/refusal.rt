//! Why a call is refused.
ghost use Rattle.std.specs.Prelude.{◌≡◌, Some};
ghost use Rattle.jobs.specs.Refusals.{refusal_number, refusal_name};

use std::error::Error;
use std::fmt;

/// The rule that a call broke. A refused call changes nothing.
#[derive(Clone, Copy, PartialEq, Eq, Debug)]
pub enum Refusal {
    /// A number, a time, a place or a threshold lies outside its range.
    Range = 1,
    /// The class is neither HARD nor CRITICAL.
    Class = 2,
    /// Work would pass the end of the clock.
    Horizon = 3,
    /// The arriving number is in use.
    Known = 4,
    /// The list or the table has no room.
    Full = 5,
    /// The job cannot meet its limit even if it is worked at once.
    Hopeless = 6,
    /// No job of this number is ready or parked.
    Unknown = 7,
    /// The job is not the first of the ready ones.
    Waiting = 8,
    /// No ending is there to collect.
    Nothing = 9,
    /// The caller's table is too short.
    Short = 10,
}

impl Refusal {
    pub fn number(self) -> u8
        ensures { result ≡ refusal_number self }
    {
        self as u8
    }

    pub fn name(self) -> &'static str
        ensures { result.now ≡ refusal_name self }
    {
        match self {
            Refusal::Range => "range",
            Refusal::Class => "class",
            Refusal::Horizon => "horizon",
            Refusal::Known => "known",
            Refusal::Full => "full",
            Refusal::Hopeless => "hopeless",
            Refusal::Unknown => "unknown",
            Refusal::Waiting => "waiting",
            Refusal::Nothing => "nothing",
            Refusal::Short => "short",
        }
    }
}

/// A refusal is written by its name.
impl fmt::Display for Refusal {
    ghost output = { λ e. Some (refusal_name e) };

    fn fmt<W: fmt::Write>(&self, f: &mut fmt::Formatter<W>) -> fmt::Result {
        f.write_str(self.name())
    }
}

impl Error for Refusal {}
