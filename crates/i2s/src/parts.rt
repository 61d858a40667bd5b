//! The words of a script's line, one after the other.
use crate::bad::Bad;
use std::str;
use words::{NoNumber, first_word, number};

// A word that is no text, as no script has one.
const NO_TEXT: &str = "\u{fffd}";

fn next_word<'a>(rest: &mut &'a [u8]) -> &'a [u8] {
    let (word, left) = first_word(rest);
    *rest = left;
    word
}

/// The next word, empty at the end of the line.
pub(crate) fn next_text<'a>(rest: &mut &'a [u8]) -> &'a str {
    str::from_utf8(next_word(rest)).unwrap_or(NO_TEXT)
}

/// The next word as a name.
pub(crate) fn next_name<'a>(rest: &mut &'a [u8]) -> Result<&'a [u8], Bad<'a>> {
    let name = next_word(rest);
    if name.is_empty() {
        return Err(Bad::Said("the name of a set-up is expected"));
    }
    Ok(name)
}

/// The next word as a number up to `most`.
pub(crate) fn next_number<'a>(
    rest: &mut &'a [u8],
    what: &'static str,
    most: u32,
) -> Result<u32, Bad<'a>> {
    let word = next_word(rest);
    number(word, most).map_err(|no| match no {
        NoNumber::NotDigits | NoNumber::TooLarge => Bad::Number { what, word, most },
    })
}

/// The next word as yes or no.
pub(crate) fn next_yes<'a>(rest: &mut &'a [u8]) -> Result<bool, Bad<'a>> {
    match next_text(rest) {
        "yes" => Ok(true),
        "no" => Ok(false),
        _ => Err(Bad::Said("hung is yes or no")),
    }
}

/// Nothing follows.
pub(crate) fn end_of_line<'a>(rest: &'a [u8]) -> Result<(), Bad<'a>> {
    let (more, _) = first_word(rest);
    if !more.is_empty() {
        return Err(Bad::More(more));
    }
    Ok(())
}
