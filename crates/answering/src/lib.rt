//! A program that answers its input.
#![tactic(auto)]

ghost use Rattle.std.specs.Prelude.{OnOk};
ghost use Rattle.answering.specs.Answering.{Answers};

use std::alloc::Global;
use std::error::Error;
use std::io::{Read, Write};

/// Reads at most `most` bytes, and writes what `reply` answers to them. Where `most` is one byte more than the reply takes,
/// the reply sees that an input is too long.
/// Nothing is known of the bytes of the system's own input and output, but the function is the same for a reader and a
/// writer whose bytes are.
pub fn answer_input<
    R: Read + Drop,
    W: Write,
    E: Error,
    F: FnOnce(Global, &[u8]) -> Result<String, E>,
>(heap: Global, reader: R, writer: &mut W, most: usize, reply: F) -> anyhow::Result<()>
    requires { F.IsAlwaysCallable reply }
    ensures { OnOk result (Answers (F.post reply heap) most (R.remaining reader) (W.contents writer.old) (W.contents writer.new)) }
{
    let mut input = Vec::new(heap);
    reader.take(most as u64).read_to_end(&mut input)?;
    let text = reply(heap, input.as_slice())?;
    writer.write_all(text.as_bytes())?;
    Ok(())
}
