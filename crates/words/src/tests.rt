//! What the readers make of a few lines.
use crate::*;
use jobs::ranges::{Bounds, NUMBERS};
use jobs::refusal::Refusal;
use std::process::Abort;
use std::test::Fail;

fn refused<T: Drop>(
    rt: &impl Abort,
    r: Result<T, WordFault>,
    number: u8,
    place: usize,
) -> Result<(), Fail> {
    match r {
        Ok(_) => Err(Fail::new("not refused")),
        Err(fault) => {
            assert_eq!(rt; fault.cause.number(), number);
            assert_eq!(rt; fault.place, place);
            Ok(())
        }
    }
}

#[test]
fn words_keep_their_places(rt: HostRuntime) -> Result<(), Fail> {
    let mut words = Words::new(b"  ab\tc x7  ");
    let first = words.next().ok_or("no word")?;
    assert!(rt; first.is(b"ab\tc"));
    assert_eq!(rt; first.place, 3);
    refused(&rt, words.number(), 23, 8)?;
    refused(&rt, words.number(), 22, 12)?;
    assert!(rt; words.next().is_none());
    Ok(())
}

#[test]
fn a_number_has_nine_digits_at_most(rt: HostRuntime) -> Result<(), Fail> {
    let mut words = Words::new(b"999999999 000000000 0000000001");
    let most = words.number().ok().ok_or("no number")?;
    assert_eq!(rt; most.value, 999_999_999);
    let all = Bounds {
        least: 0,
        most: 999_999_999,
    };
    assert!(rt; most.within(all).is_ok());
    refused(&rt, most.within(NUMBERS), 1, 1)?;
    let none = words.number().ok().ok_or("no number")?;
    refused(&rt, none.within(NUMBERS), 1, 11)?;
    refused(&rt, words.optional_number(), 23, 21)
}

#[test]
fn an_empty_line_has_no_words(rt: HostRuntime) -> Result<(), Fail> {
    let mut words = Words::new(b"");
    assert!(rt; matches!(words.optional_number(), Ok(None)));
    assert!(rt; words.end().is_ok());
    refused(&rt, words.number(), 22, 1)?;
    refused(&rt, Words::new(b" 1").end(), 24, 2)
}

#[test]
fn a_last_newline_opens_a_last_line(rt: HostRuntime) -> Result<(), Fail> {
    let mut lines = Lines::new(b"a\n\nb\n");
    assert_eq!(rt; lines.next().ok_or("no line")?, b"a".as_slice());
    assert_eq!(rt; lines.count(), 3);
    assert_eq!(rt; Lines::new(b"").count(), 1);
    Ok(())
}

#[test]
fn a_fault_is_one_line_of_text(rt: HostRuntime) -> Result<(), Fail> {
    let cause = Cause::Rule(Refusal::Unknown);
    let fault = WordFault { cause, place: 12 }.in_line(3);
    assert!(rt; format!(in rt.alloc(); "{fault}")?.as_str() == "refused 7 unknown 3 12");
    Ok(())
}
