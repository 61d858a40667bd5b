//! Words that are decimal numbers.
ghost use Rattle.std.specs.Prelude.{◌≡◌, ◌<◌, ◌^◌, IsTrue, length};
ghost use Rattle.std.specs.Option.{SomeIff};
ghost use Rattle.words.specs.Numbers.{ReadsDecimal, is_digits, number_in, value_of};

use std::str;

/// Why a word is no number up to its limit.
#[derive(Clone, Copy, PartialEq, Eq)]
pub enum NoNumber {
    /// It is empty, or has something else than digits.
    NotDigits,
    /// It is above the limit.
    TooLarge,
}

fn is_digits(word: &[u8]) -> bool
    ensures { result ≡ is_digits word.now }
{
    word.iter().all(u8::is_ascii_digit)
}

// What a word of digits stands for, if 32 bits hold it.
fn value(digits: &[u8]) -> Option<u32>
    requires some { 0 < length digits.now }
    requires digits { IsTrue (is_digits digits.now) }
    ensures { SomeIff result (value_of digits.now < 2 ^ 32) (value_of digits.now) }
{
    str::from_utf8(digits).unwrap().parse().ok()
}

/// A word of digits as a number of at most `most`. Zeros in front are allowed, a sign is not.
#[tactic(auto, using(crate::proofs::Decimals::reads_decimal))]
pub fn number(word: &[u8], most: u32) -> Result<u32, NoNumber>
    ensures written { ReadsDecimal word.now most result }
    ensures computed { result ≡ number_in word.now most }
{
    read_number(word, most)
}

// The same, by the digits.
fn read_number(word: &[u8], most: u32) -> Result<u32, NoNumber>
    ensures { result ≡ number_in word.now most }
{
    if word.is_empty() || !is_digits(word) {
        return Err(NoNumber::NotDigits);
    }
    value(word).filter(|n| *n <= most).ok_or(NoNumber::TooLarge)
}
