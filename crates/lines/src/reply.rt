//! The answer to a whole input.
ghost use Rattle.std.specs.Prelude.{◌≡◌, IfOk, string_bytes};
ghost use Rattle.rules.specs.Promise.{Sound};
ghost use Rattle.rules.specs.Runs.{after, trace};
ghost use Rattle.rules.specs.States.{start};
ghost use Rattle.rules.specs.Worked.{plain};
ghost use Rattle.words.specs.Bytes.{lines};
ghost use Rattle.lines.specs.Load.{printed, calls_of, InTurn};

use crate::session::Session;
use std::alloc::Global;
use std::fmt;
pub use words::MAX_INPUT;
use words::accepted;

/// All that is printed for an input: the answer of each line, or that the input is too long.
pub fn reply(heap: Global, input: &[u8]) -> Result<String, fmt::Error>
    ensures text { IfOk result (λ t. string_bytes t ≡ printed input.now) }
    ensures turn { InTurn (lines input.now) }
    ensures sound { Sound plain (after plain start (calls_of input.now)) (trace plain start (calls_of input.now)) }
{
    let mut text = String::new(heap);
    match accepted(input) {
        Ok(input) => Session::new().answer_lines(&mut text, input),
        Err(fault) => writeln!(text, "{fault}"),
    }?;
    Ok(text)
}
