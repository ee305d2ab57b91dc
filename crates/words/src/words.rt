//! The words of a line with their places, and the readers of numbers above them.
ghost use Rattle.std.specs.Prelude.{◌≡◌, ◌+◌, ◌<◌, ◌≤◌, [], ◌∷◌, length, drop, IfOk, IfSome, OnOk, MatchOption, ◌≢◌, slice_index};
ghost use Rattle.std.specs.Result.{result_map_both};
ghost use Rattle.words.specs.Bytes.{words};
ghost use Rattle.std.specs.Str.{bytes_eq};
ghost use Rattle.words.specs.Readers.{piece, rest, whole, skip, within, number_of, first_word, first_number, optional_number, none_left, number_alone};
ghost use Rattle.std.specs.Iterator.{at_most};

use crate::bytes::{before, number};
use crate::fault::{Cause, WordFault, placed};
use jobs::ranges::Bounds;

/// The bytes between two spaces, and the place of the first, counted from 1 in the line.
#[derive(Clone, Copy, Debug)]
pub struct Word<'a> {
    pub text: &'a [u8],
    pub place: usize,
}

/// The number that a word is, and the place of the word.
#[derive(Clone, Copy, PartialEq, Eq, Debug)]
pub struct Number {
    pub value: u32,
    pub place: usize,
}

impl Number {
    /// The value, if the bounds contain it.
    pub fn within(self, bounds: Bounds) -> Result<u32, WordFault>
        ensures value { result ≡ within bounds.least bounds.most self }
        ensures bounds { IfOk result (λ n. (bounds.least ≤ n) × (n ≤ bounds.most)) }
    {
        placed(bounds.accept(self.value), self.place)
    }
}

impl<'a> Word<'a> {
    /// The word as a number: one to nine decimal digits. Any other word is refused at its place.
    pub fn number(&self) -> Result<Number, WordFault>
        ensures { result ≡ number_of (piece self.now) }
    {
        let place = self.place;
        let value = number(self.text).ok_or(Cause::Digits.at(place))?;
        Ok(Number { value, place })
    }

    /// Whether the word is this text.
    pub fn is(&self, text: &[u8]) -> bool
        ensures { result ≡ bytes_eq (piece self.now).text text.now }
    {
        self.text == text
    }
}

/// The index of the first byte from `start` on that is no space.
fn past_spaces(line: &[u8], start: usize) -> Option<usize>
    ensures left { MatchOption result (words (start + 1) (drop start line.now) ≡ []) (λ i. words (start + 1) (drop start line.now) ≡ words (i + 1) (drop i line.now)) }
    ensures within { IfSome result (λ i. i < length line.now) }
    ensures stops { IfSome result (λ i. slice_index line.now i ≢ 32) }
{
    let spaces = line.get(start..)?.iter().position(|b| *b != b' ')?;
    Some(start + spaces)
}

/// Reads a line word by word. Words are parted by spaces alone: a tab is part of a word.
#[derive(Clone, Copy, Debug)]
pub struct Words<'a> {
    line: &'a [u8],
    /// How many bytes were read.
    position: usize,
}

impl<'a> Words<'a> {
    pub fn new(line: &'a [u8]) -> Words<'a>
        ensures { rest result ≡ whole line.now }
    {
        Words { line, position: 0 }
    }

    /// The next word. If there is none, it is missing one past the end of the line.
    pub fn word(&mut self) -> Result<Word<'a>, WordFault>
        ensures value { result_map_both piece (λ f. f) result ≡ first_word (rest self.old) }
        ensures left { rest self.new ≡ skip 1 (rest self.old) }
    {
        self.next().ok_or(Cause::Missing.at(self.line.len() + 1))
    }

    /// The next word as a number. If there is none, it is missing one past the end of the line.
    pub fn number(&mut self) -> Result<Number, WordFault>
        ensures value { result ≡ first_number (rest self.old) }
        ensures left { rest self.new ≡ skip 1 (rest self.old) }
    {
        self.word()?.number()
    }

    /// The next word as a number, if there is one.
    pub fn optional_number(&mut self) -> Result<Option<Number>, WordFault>
        ensures value { result ≡ optional_number (rest self.old) }
        ensures left { rest self.new ≡ skip 1 (rest self.old) }
    {
        self.next().map(|word| word.number()).transpose()
    }

    /// The next word as a number, and no word more.
    pub fn only_number(&mut self) -> Result<Number, WordFault>
        ensures value { result ≡ number_alone (rest self.old) }
        ensures read { OnOk result ((rest self.new).words ≡ []) }
        ensures end { (rest self.new).end ≡ (rest self.old).end }
    {
        let number = self.number()?;
        self.end()?;
        Ok(number)
    }

    /// Refuses a word that is left over.
    pub fn end(&mut self) -> Result<(), WordFault>
        ensures value { result ≡ none_left (rest self.old) }
        ensures left { rest self.new ≡ skip 1 (rest self.old) }
    {
        match self.next() {
            Some(word) => Err(Cause::Extra.at(word.place)),
            None => Ok(()),
        }
    }
}

impl<'a> Iterator for Words<'a> {
    type Item = Word<'a>;

    ghost next_gives = { λ s r t. MatchOption r (((rest s).words ≡ []) × ((rest t).words ≡ [])) (λ w. (rest s).words ≡ piece w ∷ (rest t).words) × ((rest t).end ≡ (rest s).end) };

    ghost remaining = { λ s. at_most (length (rest s).words) };

    #[tactic(auto, using(crate::proofs::Spacing::word_read))]
    fn next(&mut self) -> Option<Word<'a>> {
        let line = self.line;
        let start = past_spaces(line, self.position)?;
        let text = before(&line[start..], b' ');
        self.position = start + text.len();
        Some(Word {
            text,
            place: start + 1,
        })
    }
}
