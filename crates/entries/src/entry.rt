//! What a line of a sheet says.
ghost use Rattle.std.specs.Prelude.{◌≡◌};
ghost use Rattle.entries.specs.Entries.{key_of};

use crate::key::Key;
use crate::row::Row;
use setups::esp32c3::{DataFormat, WsWidth};
use setups::{BitOrder, Endianness, Polarity};

/// The chips.
#[derive(Clone, Copy, PartialEq, Eq)]
pub enum Chip {
    Esp32,
    Esp32C3,
}

/// What inactive slots send.
#[derive(Clone, Copy, PartialEq, Eq)]
pub enum Fill {
    /// The data of the last active slot.
    Repeat,
    Number(u32),
}

/// A key with its value. Formats and widths are those of the new chip, which has all.
#[derive(Clone, Copy, PartialEq, Eq)]
pub enum Entry {
    Chip(Chip),
    /// In hertz.
    Rate(u32),
    Slots(u8),
    Active(Row),
    Fill(Fill),
    Format(DataFormat),
    Width(WsWidth),
    Polarity(Polarity),
    /// Whether data lags by one bit.
    Shift(bool),
    Endianness(Endianness),
    Order(BitOrder),
}

impl Entry {
    /// The key.
    pub fn key(&self) -> Key
        ensures { result ≡ key_of self.now }
    {
        match self {
            Entry::Chip(_) => Key::Chip,
            Entry::Rate(_) => Key::Rate,
            Entry::Slots(_) => Key::Slots,
            Entry::Active(_) => Key::Active,
            Entry::Fill(_) => Key::Fill,
            Entry::Format(_) => Key::Format,
            Entry::Width(_) => Key::Width,
            Entry::Polarity(_) => Key::Polarity,
            Entry::Shift(_) => Key::Shift,
            Entry::Endianness(_) => Key::Endianness,
            Entry::Order(_) => Key::Order,
        }
    }
}
