//! Reading a table: a line `at TICK`, which may be left out, and a line for each job.
ghost use Rattle.std.specs.Prelude.{◌≡◌};
ghost use Rattle.words.specs.Readers.{rest};
ghost use Rattle.tables.specs.Format.{drafted, start_in, tolerance_in, job_in, Taken, Read};

use crate::table::Table;
use jobs::job::{Class, Job, Mark};
use jobs::ranges::{COMPUTATIONS, NUMBERS, TOLERANCES};
pub use words::MAX_INPUT;
use words::{Fault, Lines, Number, WordFault, Words, accepted, numbered, placed};

/// A table as it is read.
#[derive(Drop)]
struct Draft {
    /// Whether a line with words has come: only the first may name the start.
    begun: bool,
    table: Table,
}

/// The tick of a line `at TICK`, whose first word has been read.
fn read_start(words: &mut Words<'_>) -> Result<u32, WordFault>
    ensures { result ≡ start_in (rest words.old) }
{
    Ok(words.only_number()?.value)
}

/// The tolerance of a job, 0 if it is left out.
fn tolerance_of(word: Option<Number>) -> Result<u32, WordFault>
    ensures { result ≡ tolerance_in word }
{
    word.map_or(Ok(0), |number| number.within(TOLERANCES))
}

/// The job of a line. The words are read first, then held to their ranges.
fn read_job(start: u32, words: &mut Words<'_>) -> Result<Job, WordFault>
    ensures { result ≡ job_in start (rest words.old) }
{
    let number = words.number()?;
    let remaining = words.number()?;
    let deadline = words.number()?;
    let tolerance = words.optional_number()?;
    words.end()?;
    let number = number.within(NUMBERS)?;
    let remaining = remaining.within(COMPUTATIONS)?;
    let tolerance = tolerance_of(tolerance)?;
    let mark = Mark {
        number: number as u16,
        class: Class::Hard,
        arrival: start,
        deadline: deadline.value,
        tolerance,
        value: 0,
    };
    Ok(Job::new(mark, remaining))
}

impl Draft {
    /// Takes one line of the input; a refused line changes nothing.
    fn take_line(&mut self, line: &[u8]) -> Result<(), WordFault>
        ensures { Taken line.now (drafted self.old) (drafted self.new) result }
    {
        let mut words = Words::new(line);
        let mut ahead = words;
        let Some(first) = ahead.next() else {
            return Ok(());
        };
        if !self.begun && first.is(b"at") {
            self.table.start = read_start(&mut ahead)?;
        } else {
            let job = read_job(self.table.start, &mut words)?;
            placed(self.table.enter(job), 1)?;
        }
        self.begun = true;
        Ok(())
    }
}

/// Reads a table from the bytes of an input, or says what is wrong first, and where.
#[tactic(auto, using(words::proofs::Lining::lines_few))]
pub fn read(input: &[u8]) -> Result<Table, Fault>
    ensures { Read input.now result }
{
    let input = accepted(input)?;
    let mut draft = Draft {
        begun: false,
        table: Table::new(),
    };
    for (line, number) in Lines::new(input).zip(1..) {
        numbered(draft.take_line(line), number)?;
    }
    Ok(draft.table)
}
