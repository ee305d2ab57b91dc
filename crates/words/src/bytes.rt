//! What is read from plain bytes: how far a piece goes, and which number it is.
ghost use Rattle.std.specs.Prelude.{◌≡◌, ◌<◌, ◌≤◌, length, IfSome};
ghost use Rattle.words.specs.Bytes.{before, number_in};

/// The bytes before the first `stop`: all of them, if there is none.
#[tactic(auto, using(crate::proofs::Cutting::cut_before))]
pub fn before(bytes: &[u8], stop: u8) -> &[u8]
    ensures value { result.now ≡ before stop bytes.now }
    ensures within { length result.now ≤ length bytes.now }
{
    let end = bytes.iter().position(|b| *b == stop).unwrap_or(bytes.len());
    &bytes[..end]
}

/// The number that the bytes write in decimal, if they are one to nine digits.
#[tactic(auto, using(crate::proofs::Figures::power_few))]
pub fn number(bytes: &[u8]) -> Option<u32>
    ensures value { result ≡ number_in bytes.now }
    ensures small { IfSome result (λ n. n < 1000000000) }
{
    if !(1..=9).contains(&bytes.len()) {
        return None;
    }
    let mut value = 0;
    for b in bytes {
        value = value * 10 + char::from(*b).to_digit(10)?;
    }
    Some(value)
}
