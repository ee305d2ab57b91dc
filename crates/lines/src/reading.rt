//! Reading a line: its letter, then the words that the letter asks for, from left to right.
ghost use Rattle.std.specs.Prelude.{◌≡◌};
ghost use Rattle.std.specs.Option.{option_map as mapped_some};
ghost use Rattle.std.specs.Result.{result_map_both};
ghost use Rattle.words.specs.Readers.{rest, skip};
ghost use Rattle.lines.specs.Forms.{arriving, requested};
ghost use Rattle.lines.specs.Requests.{first_letter, worth_in, arrival_in, request_in, line_in};

use crate::request::{ArrivalWords, CallWords, Request, Worth};
use crate::token::Letter;
use words::{WordFault, Words};

/// The letter of a line, if the line has words.
fn read_letter(words: &mut Words<'_>) -> Result<Option<Letter>, WordFault>
    ensures value { result ≡ first_letter (rest words.old) }
    ensures left { rest words.new ≡ skip 1 (rest words.old) }
{
    words.next().map(Letter::try_from).transpose()
}

/// What an arrival is worth, how late it may be, if that is said, and no word more.
fn read_worth(words: &mut Words<'_>) -> Result<Worth, WordFault>
    ensures { result ≡ worth_in (rest words.old) }
{
    let value = words.number()?;
    let tolerance = words.optional_number()?;
    words.end()?;
    Ok(Worth { value, tolerance })
}

/// The words of an arrival, and no word more.
fn read_arrival<'a>(words: &mut Words<'a>) -> Result<ArrivalWords<'a>, WordFault>
    ensures { result_map_both arriving (λ f. f) result ≡ arrival_in (rest words.old) }
{
    let number = words.number()?;
    let class = words.word()?;
    let computation = words.number()?;
    let deadline_in = words.number()?;
    let worth = read_worth(words)?;
    Ok(ArrivalWords {
        number,
        class,
        computation,
        deadline_in,
        worth,
    })
}

/// The words that a letter asks for, and no word more.
fn read_request<'a>(letter: Letter, words: &mut Words<'a>) -> Result<Request<'a>, WordFault>
    ensures { result_map_both requested (λ f. f) result ≡ request_in letter (rest words.old) }
{
    let call = match letter {
        Letter::Arrive => CallWords::Arrive(read_arrival(words)?),
        Letter::Work => CallWords::Work(words.only_number()?),
        Letter::Finish => CallWords::Finish(words.only_number()?),
        Letter::Withdraw => CallWords::Withdraw(words.only_number()?),
        Letter::Collect => {
            words.end()?;
            CallWords::Collect
        }
        Letter::Profile => {
            words.end()?;
            return Ok(Request::Profile);
        }
    };
    Ok(Request::Call(call))
}

/// What a line asks for: nothing, if it has no words.
pub fn read_line(line: &[u8]) -> Result<Option<Request<'_>>, WordFault>
    ensures { result_map_both (mapped_some requested) (λ f. f) result ≡ line_in line.now }
{
    let mut words = Words::new(line);
    let Some(letter) = read_letter(&mut words)? else {
        return Ok(None);
    };
    Ok(Some(read_request(letter, &mut words)?))
}
