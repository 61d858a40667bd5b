//! What a sheet lacks to be a whole set-up of its chip.
ghost use Rattle.std.specs.Prelude.{◌≡◌};
ghost use Rattle.sheets.specs.Lacks.{esp32_channels, esp32_format, esp32_width, lack_of, needs, new_lack, old_lack, row_fits};

use crate::sheet::Sheet;
use entries::{Chip, Fill, Key, Row};
use old_setups as esp32;
use setups::esp32c3;

/// What is wrong with a key of a sheet.
#[derive(Clone, Copy, PartialEq, Eq)]
pub enum Lack {
    /// The chip needs the key, and no line has it.
    Missing,
    /// The chip has nothing that the key could set.
    Foreign,
    /// The chip has no set-up with this value.
    NoSetUp,
    /// The row has not as many digits as the frame has slots.
    Digits,
}

// How many slots each frame of the old chip has.
pub(crate) const ESP32_SLOTS: u8 = 2;

// The most slots of a row, and so of a frame.
const MOST_SLOTS: u8 = 16;

// Two slots by their masks.
const BOTH: u16 = 0b11;

const FIRST: u16 = 0b01;

const SECOND: u16 = 0b10;

// Whether a row has a digit for each slot. Where no row could have, the check refuses the slots.
pub(crate) fn row_fits(slots: u8, row: Row) -> bool
    ensures { result ≡ row_fits slots row }
{
    slots == 0 || slots > MOST_SLOTS || row.digits == slots
}

// The channels of the old chip with these slots active.
pub(crate) fn esp32_channels(row: Row, fill: Fill) -> Option<esp32::Channels>
    ensures { result ≡ esp32_channels row fill }
{
    if row.digits != ESP32_SLOTS {
        return None;
    }
    match (row.mask, fill) {
        (BOTH, Fill::Repeat) => Some(esp32::Channels::Stereo),
        (FIRST, Fill::Repeat) => Some(esp32::Channels::Mono),
        (FIRST, Fill::Number(0)) => Some(esp32::Channels::Left),
        (SECOND, Fill::Number(0)) => Some(esp32::Channels::Right),
        _ => None,
    }
}

pub(crate) fn esp32_format(format: esp32c3::DataFormat) -> Option<esp32::DataFormat>
    ensures { result ≡ esp32_format format }
{
    match format {
        esp32c3::DataFormat::Data32Channel32 => Some(esp32::DataFormat::Data32Channel32),
        esp32c3::DataFormat::Data16Channel16 => Some(esp32::DataFormat::Data16Channel16),
        _ => None,
    }
}

pub(crate) fn esp32_width(width: esp32c3::WsWidth) -> Option<esp32::WsWidth>
    ensures { result ≡ esp32_width width }
{
    match width {
        esp32c3::WsWidth::HalfFrame => Some(esp32::WsWidth::HalfFrame),
        esp32c3::WsWidth::Bit => Some(esp32::WsWidth::Bit),
        _ => None,
    }
}

// Whether a chip needs a key; of an unknown chip, whether both do.
fn needs(chip: Option<Chip>, key: Key) -> bool
    ensures { result ≡ needs chip key }
{
    chip == Some(Chip::Esp32C3) || !matches!(key, Key::Endianness | Key::Order)
}

impl Sheet {
    /// What is wrong with a key, if anything.
    pub fn lack(&self, key: Key) -> Option<Lack>
        ensures { result ≡ lack_of self.now key }
    {
        if !self.says(key) {
            return needs(self.chip, key).then_some(Lack::Missing);
        }
        match self.chip? {
            Chip::Esp32 => self.esp32_lack(key),
            Chip::Esp32C3 => self.esp32c3_lack(key),
        }
    }

    // What is wrong with the value of a key on the old chip.
    fn esp32_lack(&self, key: Key) -> Option<Lack>
        ensures { result ≡ old_lack self.now key }
    {
        match key {
            Key::Slots if self.slots? != ESP32_SLOTS => Some(Lack::NoSetUp),
            Key::Active if esp32_channels(self.active?, self.fill?).is_none() => Some(
                Lack::NoSetUp,
            ),
            Key::Format if esp32_format(self.format?).is_none() => Some(Lack::NoSetUp),
            Key::Width if esp32_width(self.width?).is_none() => Some(Lack::NoSetUp),
            Key::Endianness | Key::Order => Some(Lack::Foreign),
            _ => None,
        }
    }

    // What is wrong with the value of a key on the new chip.
    fn esp32c3_lack(&self, key: Key) -> Option<Lack>
        ensures { result ≡ new_lack self.now key }
    {
        if key == Key::Active && !row_fits(self.slots?, self.active?) {
            return Some(Lack::Digits);
        }
        None
    }
}
