//! The words of a line by what they stand for.
ghost use Rattle.std.specs.Prelude.{◌≡◌};
ghost use Rattle.words.specs.Readers.{piece, fault_at};
ghost use Rattle.lines.specs.Tokens.{letter_in, letter_at, class_in, token_place};

use words::{Cause, Number, Word, WordFault};

/// What a line asks for, by its first word.
#[derive(Clone, Copy, PartialEq, Eq, Debug)]
pub enum Letter {
    Arrive,
    Work,
    Finish,
    Withdraw,
    Collect,
    Profile,
}

/// The letter that a word is; a word that is none of the six is refused at its place.
impl TryFrom<Word<'_>> for Letter {
    type Error = WordFault;

    ghost try_from_gives = { λ w r. r ≡ letter_at w.place (letter_in (piece w).text) };

    fn try_from(word: Word<'_>) -> Result<Letter, WordFault> {
        match word.text {
            b"a" => Ok(Letter::Arrive),
            b"w" => Ok(Letter::Work),
            b"f" => Ok(Letter::Finish),
            b"x" => Ok(Letter::Withdraw),
            b"g" => Ok(Letter::Collect),
            b"p" => Ok(Letter::Profile),
            _ => Err(Token::Letter(word).fault(Cause::Letter)),
        }
    }
}

/// The class that a word names: `h` is HARD, `c` is CRITICAL, and any other word is passed on as 2, which no class has.
/// It stays a number, since the scheduler takes each value and refuses it in its turn, after the ranges.
pub fn class_number(word: &Word<'_>) -> u32
    ensures { result ≡ class_in (piece word.now).text }
{
    match word.text {
        b"h" => 0,
        b"c" => 1,
        _ => 2,
    }
}

/// A word that a fault can be about. Its bytes are a part of the input, and it keeps its place there.
#[derive(Clone, Copy, Debug)]
pub enum Token<'a> {
    /// The first word of a line.
    Letter(Word<'a>),
    /// A word that was read as a number.
    Number(Number),
    /// The class of an arrival.
    Class(Word<'a>),
}

impl<'a> Token<'a> {
    /// The place of its first byte, counted from 1 in its line.
    fn place(&self) -> usize
        ensures { result ≡ token_place self.now }
    {
        match self {
            Token::Letter(word) | Token::Class(word) => word.place,
            Token::Number(number) => number.place,
        }
    }

    /// The fault of this word.
    pub fn fault(&self, cause: Cause) -> WordFault
        ensures { result ≡ fault_at (token_place self.now) cause }
    {
        cause.at(self.place())
    }
}
