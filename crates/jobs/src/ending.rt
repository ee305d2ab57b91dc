//! How a job ended.
ghost use Rattle.std.specs.Prelude.{◌≡◌, Some};
ghost use Rattle.jobs.specs.Records.{kind_number, kind_name, ended_text};

use crate::numbered::Numbered;
use std::fmt;

/// The way in which a job ended.
#[derive(Clone, Copy, Default, PartialEq, Eq, Debug)]
pub enum EndKind {
    #[default]
    InTime = 1,
    Missed = 2,
    Withdrawn = 3,
}

impl EndKind {
    pub fn number(self) -> u8
        ensures { result ≡ kind_number self }
    {
        self as u8
    }
}

impl fmt::Display for EndKind {
    ghost output = { λ k. Some (kind_name k) };

    fn fmt<W: fmt::Write>(&self, f: &mut fmt::Formatter<W>) -> fmt::Result {
        f.write_str(match self {
            EndKind::InTime => "intime",
            EndKind::Missed => "missed",
            EndKind::Withdrawn => "withdrawn",
        })
    }
}

/// The line that is kept of a job until it is collected.
#[derive(Clone, Copy, Default, PartialEq, Eq, Debug)]
pub struct Ending {
    pub number: u16,
    pub kind: EndKind,
    /// The clock when it ended.
    pub tick: u32,
    /// The number of the arrival that last displaced it, 0 if none did.
    pub by: u16,
}

/// An ending is written as `ended NUMBER KIND TICK BY`.
impl fmt::Display for Ending {
    ghost output = { λ e. Some (ended_text e) };

    fn fmt<W: fmt::Write>(&self, f: &mut fmt::Formatter<W>) -> fmt::Result {
        let Ending {
            number,
            kind,
            tick,
            by,
        } = self;
        write!(f, "ended {number} {kind} {tick} {by}")
    }
}

impl Numbered for Ending {
    ghost number = { λ e. e.number };

    fn number(&self) -> u16 {
        self.number
    }
}
