//! Lines of text: which of them ask for a plan, and what they ask.
ghost use Rattle.std.specs.Prelude.{◌≡◌, Some};
ghost use Rattle.plans.specs.Lines.{ReadsWritten, ask_of, number_of, reading_of};
ghost use Rattle.plans.specs.Words.{number_text, unread_text};

use std::fmt;
use words::{NoNumber, first_word, number};

/// A rate in hertz, a number of slots and a number of data bits.
#[derive(Clone, Copy, PartialEq, Eq)]
pub struct Ask {
    pub rate: u32,
    pub slots: u8,
    pub bits: u8,
}

/// Which of the three numbers.
#[derive(Clone, Copy, PartialEq, Eq)]
pub enum Number {
    Rate,
    Slots,
    Bits,
}

impl fmt::Display for Number {
    ghost output = { λ what. Some (number_text what) };

    fn fmt<W: fmt::Write>(&self, f: &mut fmt::Formatter<W>) -> fmt::Result {
        f.write_str(match self {
            Number::Rate => "rate",
            Number::Slots => "number of slots",
            Number::Bits => "number of bits",
        })
    }
}

/// Why a line is not read.
#[derive(Clone, Copy, PartialEq, Eq)]
pub enum Unread {
    /// There are fewer than three words.
    Short,
    /// There are more than three words.
    Long,
    /// A word has something else than digits.
    NotANumber(Number),
    /// A number is above what it may be.
    TooLarge(Number, u32),
}

impl fmt::Display for Unread {
    ghost output = { λ why. Some (unread_text why) };

    fn fmt<W: fmt::Write>(&self, f: &mut fmt::Formatter<W>) -> fmt::Result {
        match self {
            Unread::Short => f.write_str("it has fewer than three words"),
            Unread::Long => f.write_str("it has more than three words"),
            Unread::NotANumber(what) => write!(f, "the {what} is not a whole number"),
            Unread::TooLarge(what, most) => write!(f, "the {what} is above {most}"),
        }
    }
}

// A word as a number of at most `most`; `what` is what it stands for.
fn read_number(word: &[u8], what: Number, most: u32) -> Result<u32, Unread>
    ensures { result ≡ number_of word.now what most }
{
    number(word, most).map_err(|no_number| match no_number {
        NoNumber::NotDigits => Unread::NotANumber(what),
        NoNumber::TooLarge => Unread::TooLarge(what, most),
    })
}

/// What a line asks, by its words; nothing where it is blank, or a remark after a `#`.
#[tactic(auto, using(crate::proofs::Written::reads_written))]
pub fn read_line(line: &[u8]) -> Result<Option<Ask>, Unread>
    ensures written { ReadsWritten line.now result }
    ensures computed { result ≡ reading_of line.now }
{
    read_words(line)
}

// The same, word by word.
fn read_words(line: &[u8]) -> Result<Option<Ask>, Unread>
    ensures { result ≡ reading_of line.now }
{
    let (rate, rest) = first_word(line);
    if matches!(rate.first(), None | Some(b'#')) {
        return Ok(None);
    }
    let (slots, rest) = first_word(rest);
    let (bits, rest) = first_word(rest);
    if bits.is_empty() {
        return Err(Unread::Short);
    }
    let (more, _) = first_word(rest);
    if !more.is_empty() {
        return Err(Unread::Long);
    }
    Ok(Some(read_ask(rate, slots, bits)?))
}

// The three numbers, or the first that is none.
fn read_ask(rate: &[u8], slots: &[u8], bits: &[u8]) -> Result<Ask, Unread>
    ensures { result ≡ ask_of rate.now slots.now bits.now }
{
    let rate = read_number(rate, Number::Rate, u32::MAX)?;
    let slots = read_number(slots, Number::Slots, u8::MAX as u32)?;
    let bits = read_number(bits, Number::Bits, u8::MAX as u32)?;
    // They fit, as `read_number` was told; `try_from` would need a refusal that never comes.
    Ok(Ask {
        rate,
        slots: slots as u8,
        bits: bits as u8,
    })
}
