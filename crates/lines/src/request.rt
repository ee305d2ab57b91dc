//! What a line asks for, with the words that it was read from.
ghost use Rattle.std.specs.Prelude.{◌≡◌};
ghost use Rattle.scheduler.specs.Calling.{asked, asked_call};
ghost use Rattle.words.specs.Readers.{fault_at};
ghost use Rattle.words.specs.declared.fault.Cause.TheVariants.{Rule};
ghost use Rattle.lines.specs.Requests.{tolerance_of, outside, tolerance_outside, worth_outside, first_outside, arrival_of, call_of, call_outside, fault_place};
ghost use Rattle.lines.specs.Tokens.{pointed};
ghost use Rattle.lines.specs.Forms.{arriving, asking};

use crate::token::{Token, class_number};
use jobs::ranges::{Bounds, COMPUTATIONS, DEADLINES_IN, NUMBERS, TICKS, TOLERANCES, VALUES};
use jobs::refusal::Refusal;
use scheduler::calls::{Arrival, Call};
use words::{Cause, Number, Word, WordFault};

/// What an arrival is worth, and how late it may be, which may be left out.
#[derive(Clone, Copy, PartialEq, Eq, Debug)]
pub struct Worth {
    pub value: Number,
    pub tolerance: Option<Number>,
}

/// The words of an arrival in the order of the line.
#[derive(Clone, Copy, Debug)]
pub struct ArrivalWords<'a> {
    pub number: Number,
    pub class: Word<'a>,
    pub computation: Number,
    pub deadline_in: Number,
    pub worth: Worth,
}

/// The words of a call.
#[derive(Clone, Copy, Debug)]
pub enum CallWords<'a> {
    Arrive(ArrivalWords<'a>),
    Work(Number),
    Finish(Number),
    Withdraw(Number),
    Collect,
}

/// What a line asks for.
#[derive(Clone, Copy, Debug)]
pub enum Request<'a> {
    Call(CallWords<'a>),
    Profile,
}

/// The number, if it lies outside its range.
fn outside(number: Number, bounds: Bounds) -> Option<Number>
    ensures { result ≡ outside bounds.least bounds.most number }
{
    (!bounds.contains(number.value)).then_some(number)
}

impl Worth {
    /// The tolerance, 0 if it is left out.
    fn tolerance(&self) -> u32
        ensures { result ≡ tolerance_of self.now.tolerance }
    {
        self.tolerance.map_or(0, |tolerance| tolerance.value)
    }

    /// The tolerance, if it is there and outside its range.
    fn tolerance_outside(&self) -> Option<Number>
        ensures { result ≡ tolerance_outside self.now.tolerance }
    {
        outside(self.tolerance?, TOLERANCES)
    }

    /// The leftmost number outside its range.
    fn first_outside(&self) -> Option<Number>
        ensures { result ≡ worth_outside self.now }
    {
        outside(self.value, VALUES).or(self.tolerance_outside())
    }
}

impl<'a> ArrivalWords<'a> {
    /// The arrival that the words describe.
    pub fn arrival(&self) -> Arrival
        ensures { asked result ≡ arrival_of (arriving self.now) }
    {
        Arrival {
            number: self.number.value,
            class: class_number(&self.class),
            computation: self.computation.value,
            deadline_in: self.deadline_in.value,
            tolerance: self.worth.tolerance(),
            value: self.worth.value.value,
        }
    }

    /// The leftmost number outside its range.
    fn first_outside(&self) -> Option<Number>
        ensures { result ≡ first_outside (arriving self.now) }
    {
        let number = outside(self.number, NUMBERS);
        let computation = outside(self.computation, COMPUTATIONS);
        let deadline = outside(self.deadline_in, DEADLINES_IN);
        let worth = self.worth.first_outside();
        number.or(computation).or(deadline).or(worth)
    }
}

impl<'a> CallWords<'a> {
    /// The call that the words make.
    pub fn call(&self) -> Call
        ensures { asked_call result ≡ call_of (asking self.now) }
    {
        match self {
            CallWords::Arrive(words) => Call::Arrive(words.arrival()),
            CallWords::Work(ticks) => Call::Work(ticks.value),
            CallWords::Finish(number) => Call::Finish(number.value),
            CallWords::Withdraw(number) => Call::Withdraw(number.value),
            CallWords::Collect => Call::Collect,
        }
    }

    /// The leftmost number outside its range.
    fn first_outside(&self) -> Option<Number>
        ensures { result ≡ call_outside (asking self.now) }
    {
        match self {
            CallWords::Arrive(words) => words.first_outside(),
            CallWords::Work(ticks) => outside(*ticks, TICKS),
            CallWords::Finish(number) | CallWords::Withdraw(number) => outside(*number, NUMBERS),
            CallWords::Collect => None,
        }
    }

    /// The word that a refusal is about, if it is about one: the leftmost number outside its range, or the class.
    fn at_fault(&self, refusal: Refusal) -> Option<Token<'a>>
        ensures { pointed result ≡ fault_place (asking self.now) refusal }
    {
        match (refusal, self) {
            (Refusal::Range, _) => Some(Token::Number(self.first_outside()?)),
            (Refusal::Class, CallWords::Arrive(words)) => Some(Token::Class(words.class)),
            _ => None,
        }
    }

    /// A refusal of the call as a fault of its line. One that is about no single word has the place 1.
    pub fn fault(&self, refusal: Refusal) -> WordFault
        ensures { result ≡ fault_at (fault_place (asking self.now) refusal) (Rule refusal) }
    {
        let cause = Cause::from(refusal);
        match self.at_fault(refusal) {
            Some(token) => token.fault(cause),
            None => cause.at(1),
        }
    }
}
