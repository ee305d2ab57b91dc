//! The lines of an input, one after another.
ghost use Rattle.std.specs.Prelude.{◌≡◌, [], ◌∷◌, length, MatchOption};
ghost use Rattle.words.specs.Bytes.{lines};
ghost use Rattle.words.specs.Readers.{lines_in, lines_left, Accepted};
ghost use Rattle.std.specs.Iterator.{at_most};

use crate::bytes::before;
use crate::fault::{Cause, Fault};

/// The first line, and what comes after the newline that ends it.
#[tactic(auto, using(crate::proofs::Lining::line_read))]
fn split_line(input: &[u8]) -> (&[u8], Option<&[u8]>)
    ensures { lines input.now ≡ result.0.now ∷ lines_in result.1 }
{
    let line = before(input, b'\n');
    (line, input.get(line.len() + 1..))
}

/// The longest input that is read, in bytes.
pub const MAX_INPUT: usize = 65_536;

/// The input, unless it is too long to be read. That is a fault at no line and no place.
pub fn accepted(input: &[u8]) -> Result<&[u8], Fault>
    ensures { Accepted input.now result }
{
    if input.len() > MAX_INPUT {
        return Err(Cause::Length.at(0).in_line(0));
    }
    Ok(input)
}

/// Reads an input line by line. An input that is empty, or ends with a newline, has a last line that is empty.
#[derive(Clone, Copy, Debug)]
pub struct Lines<'a> {
    /// What is still to be read, or nothing after the last line.
    rest: Option<&'a [u8]>,
}

impl<'a> Lines<'a> {
    pub fn new(input: &'a [u8]) -> Lines<'a>
        ensures { lines_left result ≡ lines input.now }
    {
        Lines { rest: Some(input) }
    }
}

impl<'a> Iterator for Lines<'a> {
    type Item = &'a [u8];

    ghost next_gives = { λ s r t. MatchOption r ((lines_left s ≡ []) × (lines_left t ≡ [])) (λ l. lines_left s ≡ l.now ∷ lines_left t) };

    ghost remaining = { λ s. at_most (length (lines_left s)) };

    /// The next line, without the newline that ends it.
    fn next(&mut self) -> Option<&'a [u8]> {
        let (line, after) = split_line(self.rest?);
        self.rest = after;
        Some(line)
    }
}
