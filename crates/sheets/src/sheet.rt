//! What the lines of a sheet have said so far.
ghost use Rattle.std.specs.Prelude.{◌≡◌};
ghost use Rattle.entries.specs.Entries.{key_of};
ghost use Rattle.sheets.specs.Sheets.{nothing_said, says, sheet_after, sheet_with, taken};

use entries::{Chip, Entry, Fill, Key, Row};
use setups::esp32c3::{DataFormat, WsWidth};
use setups::{BitOrder, Endianness, Polarity};

/// What a sheet has said of each key, if anything.
#[derive(Clone, Copy)]
pub struct Sheet {
    pub chip: Option<Chip>,
    pub rate: Option<u32>,
    pub slots: Option<u8>,
    pub active: Option<Row>,
    pub fill: Option<Fill>,
    pub format: Option<DataFormat>,
    pub width: Option<WsWidth>,
    pub polarity: Option<Polarity>,
    pub shift: Option<bool>,
    pub endianness: Option<Endianness>,
    pub order: Option<BitOrder>,
}

/// The sheet has said something of this key already.
#[derive(Clone, Copy, PartialEq, Eq)]
pub struct Twice;

impl Sheet {
    /// Nothing said yet.
    pub const fn new() -> Sheet
        ensures { result ≡ nothing_said }
    {
        Sheet {
            chip: None,
            rate: None,
            slots: None,
            active: None,
            fill: None,
            format: None,
            width: None,
            polarity: None,
            shift: None,
            endianness: None,
            order: None,
        }
    }

    /// Whether the sheet has said something of a key.
    pub fn says(&self, key: Key) -> bool
        ensures { result ≡ says self.now key }
    {
        match key {
            Key::Chip => self.chip.is_some(),
            Key::Rate => self.rate.is_some(),
            Key::Slots => self.slots.is_some(),
            Key::Active => self.active.is_some(),
            Key::Fill => self.fill.is_some(),
            Key::Format => self.format.is_some(),
            Key::Width => self.width.is_some(),
            Key::Polarity => self.polarity.is_some(),
            Key::Shift => self.shift.is_some(),
            Key::Endianness => self.endianness.is_some(),
            Key::Order => self.order.is_some(),
        }
    }

    /// Takes what one line says. Of a key of which the sheet has said something already nothing is taken.
    pub fn take(&mut self, entry: Entry) -> Result<(), Twice>
        ensures sheet { self.new ≡ sheet_after self.old entry }
        ensures answer { result ≡ taken self.old entry }
    {
        if self.says(entry.key()) {
            return Err(Twice);
        }
        self.put(entry);
        Ok(())
    }

    fn put(&mut self, entry: Entry)
        ensures { self.new ≡ sheet_with self.old entry }
    {
        match entry {
            Entry::Chip(chip) => self.chip = Some(chip),
            Entry::Rate(rate) => self.rate = Some(rate),
            Entry::Slots(slots) => self.slots = Some(slots),
            Entry::Active(row) => self.active = Some(row),
            Entry::Fill(fill) => self.fill = Some(fill),
            Entry::Format(format) => self.format = Some(format),
            Entry::Width(width) => self.width = Some(width),
            Entry::Polarity(polarity) => self.polarity = Some(polarity),
            Entry::Shift(shift) => self.shift = Some(shift),
            Entry::Endianness(endianness) => self.endianness = Some(endianness),
            Entry::Order(order) => self.order = Some(order),
        }
    }
}
