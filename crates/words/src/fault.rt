//! Why a line is refused, and where.
ghost use Rattle.std.specs.Prelude.{◌≡◌, Some};
ghost use Rattle.words.specs.declared.fault.Cause.TheVariants.{Rule};
ghost use Rattle.words.specs.Faults.{cause_number, cause_name, fault_in, broken_at, in_line, fault_text};

use jobs::refusal::Refusal;
use std::error::Error;
use std::fmt;

/// What is wrong with a word, or with the call that the line asks for.
#[derive(Clone, Copy, PartialEq, Eq, Debug)]
pub enum Cause {
    /// The first word names no call.
    Letter,
    /// A word is missing.
    Missing,
    /// A word is no number.
    Digits,
    /// A word is left over.
    Extra,
    /// The input is too long.
    Length,
    /// The call broke a rule.
    Rule(Refusal),
}

impl Cause {
    ghost use Rattle.words.specs.Readers.{fault_at};

    /// The cause as a fault of the word at this place.
    pub fn at(self, place: usize) -> WordFault
        ensures { result ≡ fault_at place self }
    {
        WordFault { cause: self, place }
    }

    pub fn number(self) -> u8
        ensures { result ≡ cause_number self }
    {
        match self {
            Cause::Letter => 21,
            Cause::Missing => 22,
            Cause::Digits => 23,
            Cause::Extra => 24,
            Cause::Length => 25,
            Cause::Rule(refusal) => refusal.number(),
        }
    }

    pub fn name(self) -> &'static str
        ensures { result.now ≡ cause_name self }
    {
        match self {
            Cause::Letter => "letter",
            Cause::Missing => "missing",
            Cause::Digits => "digits",
            Cause::Extra => "extra",
            Cause::Length => "length",
            Cause::Rule(refusal) => refusal.name(),
        }
    }
}

impl From<Refusal> for Cause {
    ghost from_gives = { λ refusal c. c ≡ Rule refusal };

    fn from(refusal: Refusal) -> Cause {
        Cause::Rule(refusal)
    }
}

/// A cause is written by its name.
impl fmt::Display for Cause {
    ghost output = { λ c. Some (cause_name c) };

    fn fmt<W: fmt::Write>(&self, f: &mut fmt::Formatter<W>) -> fmt::Result {
        f.write_str(self.name())
    }
}

impl Error for Cause {}

/// A fault of a word, which knows its place but not its line.
#[derive(Clone, Copy, PartialEq, Eq, Debug)]
pub struct WordFault {
    pub cause: Cause,
    pub place: usize,
}

/// A fault with its line and place, both counted from 1.
#[derive(Clone, Copy, PartialEq, Eq, Debug)]
pub struct Fault {
    pub cause: Cause,
    pub line: usize,
    pub place: usize,
}

impl WordFault {
    /// The fault, now that its line is known.
    pub fn in_line(self, line: usize) -> Fault
        ensures { result ≡ fault_in line self }
    {
        Fault {
            cause: self.cause,
            line,
            place: self.place,
        }
    }
}

/// A refused call as a fault of its line, at the place of the word that it is about.
pub fn placed<T>(answer: Result<T, Refusal>, place: usize) -> Result<T, WordFault>
    ensures { result ≡ broken_at place answer }
{
    answer.map_err(|refusal| Cause::from(refusal).at(place))
}

/// What a line answers, its faults with the number of the line.
pub fn numbered<T>(answer: Result<T, WordFault>, line: usize) -> Result<T, Fault>
    ensures { result ≡ in_line line answer }
{
    answer.map_err(|fault| fault.in_line(line))
}

/// A fault is written as `refused NUMBER NAME LINE PLACE`.
impl fmt::Display for Fault {
    ghost output = { λ f. Some (fault_text f) };

    fn fmt<W: fmt::Write>(&self, f: &mut fmt::Formatter<W>) -> fmt::Result {
        let Fault { cause, line, place } = *self;
        let number = cause.number();
        write!(f, "refused {number} {cause} {line} {place}")
    }
}

impl Error for Fault {}
