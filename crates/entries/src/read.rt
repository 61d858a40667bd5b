//! A line of a sheet: what it says, if anything.
ghost use Rattle.std.specs.Prelude.{◌≡◌};
ghost use Rattle.entries.specs.Entries.{entry_of, value_at};
ghost use Rattle.entries.specs.Written.{ReadsWritten};

use crate::entry::Entry;
use crate::key::Key;
use crate::row::read_row;
use crate::values::{
    read_chip, read_endianness, read_fill, read_format, read_order, read_polarity, read_shift,
    read_width,
};
use words::{first_word, number};

/// Why a line is not read.
#[derive(Clone, Copy, PartialEq, Eq)]
pub enum Unread {
    /// Its first word names no key.
    NoKey,
    /// The key stands alone.
    NoValue(Key),
    /// More than one word follows the key.
    ManyValues(Key),
    /// The word is not a value of the key.
    NotAValue(Key),
}

/// What a line says, by its words; nothing where it is blank, or a remark after a `#`.
pub fn read_entry(line: &[u8]) -> Result<Option<Entry>, Unread>
    ensures written { ReadsWritten line.now result }
    ensures computed { result ≡ entry_of line.now }
{
    read_words(line)
}

// The same, word by word.
fn read_words(line: &[u8]) -> Result<Option<Entry>, Unread>
    ensures { result ≡ entry_of line.now }
{
    let (name, rest) = first_word(line);
    if matches!(name.first(), None | Some(b'#')) {
        return Ok(None);
    }
    let key = Key::named(name).ok_or(Unread::NoKey)?;
    let (value, rest) = first_word(rest);
    if value.is_empty() {
        return Err(Unread::NoValue(key));
    }
    let (more, _) = first_word(rest);
    if !more.is_empty() {
        return Err(Unread::ManyValues(key));
    }
    let entry = read_value(key, value).ok_or(Unread::NotAValue(key))?;
    Ok(Some(entry))
}

// A word as the value of a key.
fn read_value(key: Key, word: &[u8]) -> Option<Entry>
    ensures { result ≡ value_at key word.now }
{
    Some(match key {
        Key::Chip => Entry::Chip(read_chip(word)?),
        Key::Rate => Entry::Rate(number(word, u32::MAX).ok()?),
        Key::Slots => {
            let slots = number(word, u8::MAX as u32).ok()?;
            Entry::Slots(slots as u8)
        }
        Key::Active => Entry::Active(read_row(word)?),
        Key::Fill => Entry::Fill(read_fill(word)?),
        Key::Format => Entry::Format(read_format(word)?),
        Key::Width => Entry::Width(read_width(word)?),
        Key::Polarity => Entry::Polarity(read_polarity(word)?),
        Key::Shift => Entry::Shift(read_shift(word)?),
        Key::Endianness => Entry::Endianness(read_endianness(word)?),
        Key::Order => Entry::Order(read_order(word)?),
    })
}
