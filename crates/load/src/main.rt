//! Serves the calls of standard input line by line, and prints each answer.
#![tactic(auto)]

use answering::answer_input;
use lines::reply::{MAX_INPUT, reply};

fn main(rt: HostRuntime) -> anyhow::Result<()> {
    answer_input(
        rt.alloc(),
        rt.stdin(),
        &mut rt.stdout(),
        MAX_INPUT + 1,
        reply,
    )
}
