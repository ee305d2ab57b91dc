//! The answer to a table, as text.
ghost use Rattle.std.specs.Prelude.{◌≡◌, ◌≤◌, length, IfOk, string_bytes};
ghost use Rattle.timing.specs.Tallies.{Walked};
ghost use Rattle.timing.specs.Timing.{entries};
ghost use Rattle.timing.specs.Written.{entry_lines};
ghost use Rattle.words.specs.Texts.{Appends};
ghost use Rattle.tables.specs.Answers.{answer, sheet_answer, verdict_of};
ghost use Rattle.tables.specs.Table.{sheet};

use crate::reading::read;
use crate::table::Table;
use jobs::job::Job;
use jobs::ranges::CAPACITY;
use std::alloc::{AllocError, Global};
use std::fmt;
use timing::overrun::Overrun;
use timing::timeline::Timeline;

/// Writes a line for each job, and answers the walk through all of them.
fn write_entries(text: &mut String, start: u32, jobs: &[Job]) -> Result<Timeline, AllocError>
    requires { length jobs.now ≤ CAPACITY }
    ensures written { Appends (entry_lines (entries start 0 jobs.now)) text.old text.new result }
    ensures walked { IfOk result (λ w. Walked start jobs.now w) }
{
    let mut walk = Timeline::new(start);
    for job in jobs {
        let entry = walk.add(job).unwrap();
        writeln!(text, "{entry}")?;
    }
    Ok(walk)
}

/// Writes whether the jobs of a walk hold.
fn write_verdict(text: &mut String, walk: &Timeline) -> Result<(), AllocError>
    ensures { Appends (verdict_of walk.now) text.old text.new result }
{
    match walk.overrun() {
        None => writeln!(text, "holds"),
        Some(Overrun { by, cause }) => writeln!(text, "exceeds {by} {cause}"),
    }
}

/// When each job finishes and what it leaves, and whether the table holds.
fn report(heap: Global, table: &Table) -> Result<String, AllocError>
    ensures { IfOk result (λ t. string_bytes t ≡ sheet_answer (sheet table.now).start (sheet table.now).jobs) }
{
    let mut text = String::new(heap);
    let jobs = table.jobs.as_slice();
    if jobs.is_empty() {
        writeln!(text, "idle")?;
    } else {
        let walk = write_entries(&mut text, table.start, jobs)?;
        write_verdict(&mut text, &walk)?;
    }
    Ok(text)
}

/// The whole answer to an input: what its table comes to, or the first fault in it.
pub fn reply(heap: Global, input: &[u8]) -> Result<String, fmt::Error>
    ensures { IfOk result (λ t. string_bytes t ≡ answer input.now) }
{
    let text = match read(input) {
        Ok(table) => report(heap, &table)?,
        Err(fault) => format!(in heap; "{fault}\n")?,
    };
    Ok(text)
}
