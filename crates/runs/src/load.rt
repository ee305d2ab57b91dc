//! Inputs and their answers.
use lines::reply::{MAX_INPUT, reply};
use std::process::Abort;
use std::test::Fail;

fn answers(rt: &(impl Abort + AllocGlobal), input: &[u8], text: &str) -> Result<(), Fail> {
    assert!(rt; reply(rt.alloc(), input)?.as_str() == text);
    Ok(())
}

#[test]
fn each_call_has_its_answer(rt: HostRuntime) -> Result<(), Fail> {
    answers(&rt, b"", "")?;
    answers(
        &rt,
        b"p\n\na 1 h 3 2 0 1\np",
        "idle\nready 0 0 0\njob 1 3 -1 3 2\n",
    )?;
    // At its deadline a job has no load any more.
    answers(
        &rt,
        b"a 1 h 3 2 0 1\nw 2\np\nf 1\ng",
        "ready 0 0 0\nnow 2\njob 1 3 -1 - -\ndone 1\nended 1 intime 2 0\n",
    )?;
    answers(
        &rt,
        b"a 1 h 2 2 1\na 2 h 2 2 1\na 3 c 2 2 0\nx 3\nw 1\ng\ng",
        "ready 0 0 0\nparked 2 2 0\nready 2 3 1\ngone\nnow 1\nended 3 withdrawn 0 0\nended 2 missed 1 0\n",
    )
}

#[test]
fn words_at_fault(rt: HostRuntime) -> Result<(), Fail> {
    answers(&rt, b"  b 1", "refused 21 letter 1 3\n")?;
    answers(&rt, b"\n  a 1 h 2 ", "refused 22 missing 2 11\n")?;
    answers(&rt, b"a 1", "refused 22 missing 1 4\n")?;
    answers(&rt, b"w\t1", "refused 21 letter 1 1\n")?;
    answers(&rt, b"f 1234567890", "refused 23 digits 1 3\n")?;
    answers(
        &rt,
        b"g\ng 1",
        "refused 9 nothing 1 1\nrefused 24 extra 2 3\n",
    )
}

#[test]
fn the_leftmost_word_is_named(rt: HostRuntime) -> Result<(), Fail> {
    answers(&rt, b"a 0 z 0 0 65536 100000001", "refused 1 range 1 3\n")?;
    answers(&rt, b"a 1 z 1 0 65536", "refused 1 range 1 9\n")?;
    answers(&rt, b"a 1 z 1 1 1 100000001", "refused 1 range 1 13\n")?;
    answers(&rt, b"a 1 z 1 1 1", "refused 2 class 1 5\n")?;
    answers(
        &rt,
        b" w 10001\nx 0",
        "refused 1 range 1 4\nrefused 1 range 2 3\n",
    )
}

#[test]
fn an_input_can_be_too_long(rt: HostRuntime) -> Result<(), Fail> {
    let mut input = vec![in rt.alloc(); b' '; MAX_INPUT]?;
    answers(&rt, input.as_slice(), "")?;
    input.push(b'p')?;
    answers(&rt, input.as_slice(), "refused 25 length 0 0\n")
}
