//! Does this table of jobs hold? Reads the table from standard input and prints the answer.
#![tactic(auto)]

use answering::answer_input;
use tables::reading::MAX_INPUT;
use tables::report::reply;

fn main(rt: HostRuntime) -> anyhow::Result<()> {
    answer_input(
        rt.alloc(),
        rt.stdin(),
        &mut rt.stdout(),
        MAX_INPUT + 1,
        reply,
    )
}
