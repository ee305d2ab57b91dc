//! Lines served one by one, and their answers written.
ghost use Rattle.std.specs.Prelude.{◌≡◌, ℕ, OnErr, OnOk};
ghost use Rattle.std.specs.Result.{result_map_both};
ghost use Rattle.rules.specs.Calls.{serve};
ghost use Rattle.rules.specs.Runs.{after};
ghost use Rattle.rules.specs.States.{State, start};
ghost use Rattle.rules.specs.Worked.{plain};
ghost use Rattle.scheduler.specs.Written.{answer_text};
ghost use Rattle.timing.specs.Written.{entry_lines};
ghost use Rattle.words.specs.Bytes.{lines};
ghost use Rattle.words.specs.Texts.{Appends};
ghost use Rattle.lines.specs.Answers.{answer_in, profile_text, line_text};
ghost use Rattle.lines.specs.Forms.{asking, response_text, seen, IsReached};
ghost use Rattle.lines.specs.Load.{lines_calls, printed_from};
ghost use Rattle.lines.specs.Requests.{call_of, line_calls};

use crate::reading::read_line;
use crate::request::{CallWords, Request};
use jobs::ranges::CAPACITY;
use rankings::orders::ByDeadline;
use rankings::policies::ByValue;
use scheduler::calls::Answer;
use scheduler::scheduler::Scheduler;
use std::alloc::AllocError;
use std::marker::Model;
use stores::row::Row;
use timing::entry::Entry;
use words::{Lines, WordFault, numbered};

/// The scheduler of the program, which stands where calls on a new one have led.
#[derive(Drop)]
pub struct Session {
    /// Ready jobs in a row, worked by their deadlines, the smaller value giving way first.
    scheduler: Scheduler<Row, ByDeadline, ByValue>,
}

impl Model for Session {
    ghost Value = { State };

    ghost view = { λ s. seen s.scheduler };

    ghost invariant = { λ s. IsReached (seen s.scheduler) };
}

/// What a line that is not refused is answered.
#[derive(Clone, Copy, PartialEq, Eq, Debug)]
enum Response {
    Answer(Answer),
    Profile,
}

impl Session {
    /// A session with a new scheduler.
    pub fn new() -> Session
        ensures { result ≡ start }
    {
        Session {
            scheduler: Scheduler::new(Row::new(), ByDeadline, ByValue),
        }
    }

    /// Serves a call. A refusal changes nothing, and becomes a fault at the word that it is about.
    fn serve_call(&mut self, words: &CallWords<'_>) -> Result<Answer, WordFault>
        ensures value { result_map_both answer_text (λ f. f) result ≡ answer_in (asking words.now) (serve plain self.old (call_of (asking words.now))).answer }
        ensures state { self.new ≡ (serve plain self.old (call_of (asking words.now))).state }
        ensures same { OnErr result (self.new ≡ self.old) }
    {
        match self.scheduler.call(&words.call()) {
            Ok(answer) => Ok(answer),
            Err(refusal) => Err(words.fault(refusal)),
        }
    }

    /// Serves a line. A line without words is answered nothing, and a refused one changes nothing.
    fn serve_line(&mut self, line: &[u8]) -> Result<Option<Response>, WordFault>
        ensures text { (n : ℕ) → response_text n self.new result ≡ line_text n self.old line.now }
        ensures state { self.new ≡ after plain self.old (line_calls line.now) }
        ensures same { OnErr result (self.new ≡ self.old) }
    {
        let Some(request) = read_line(line)? else {
            return Ok(None);
        };
        Ok(Some(match request {
            Request::Call(words) => Response::Answer(self.serve_call(&words)?),
            Request::Profile => Response::Profile,
        }))
    }

    /// Writes a line for each ready job, or that there is none.
    fn write_profile(&self, text: &mut String) -> Result<(), AllocError>
        ensures { Appends (profile_text self.now) text.old text.new result }
    {
        let mut table = [Entry::default(); CAPACITY];
        let count = self.scheduler.profile(&mut table).unwrap();
        if count == 0 {
            return writeln!(text, "idle");
        }
        write_entries(text, &table[..count])
    }

    /// Serves the line of this number and writes its answer.
    pub fn answer_line(
        &mut self,
        text: &mut String,
        line: &[u8],
        number: usize,
    ) -> Result<(), AllocError>
        ensures text { Appends (line_text number self.old line.now) text.old text.new result }
        ensures state { self.new ≡ after plain self.old (line_calls line.now) }
    {
        match numbered(self.serve_line(line), number) {
            Ok(Some(Response::Answer(answer))) => writeln!(text, "{answer}"),
            Ok(Some(Response::Profile)) => self.write_profile(text),
            Ok(None) => Ok(()),
            Err(fault) => writeln!(text, "{fault}"),
        }
    }

    /// Serves the lines of an input in turn, and writes their answers.
    pub fn answer_lines(&mut self, text: &mut String, input: &[u8]) -> Result<(), AllocError>
        ensures text { Appends (printed_from 1 self.old (lines input.now)) text.old text.new result }
        ensures state { OnOk result (self.new ≡ after plain self.old (lines_calls (lines input.now))) }
    {
        let mut number = 0;
        for line in Lines::new(input) {
            number += 1;
            self.answer_line(text, line, number)?;
        }
        Ok(())
    }
}

impl Default for Session {
    ghost is_default = { λ s. s ≡ start };

    fn default() -> Session {
        Session::new()
    }
}

/// Writes a line for each entry.
fn write_entries(text: &mut String, entries: &[Entry]) -> Result<(), AllocError>
    ensures { Appends (entry_lines entries.now) text.old text.new result }
{
    for entry in entries {
        writeln!(text, "{entry}")?;
    }
    Ok(())
}
