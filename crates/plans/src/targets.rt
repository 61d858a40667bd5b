//! The chips that plans are made for.
ghost use Rattle.std.specs.Prelude.{◌≡◌, Some};
ghost use Rattle.plans.specs.Chips.{chips_known, lack_of};
ghost use Rattle.plans.specs.Words.{name_text};

use crate::read::Ask;
use dividers::DividerRange;
use std::fmt;

/// The chips by name.
#[derive(Clone, Copy, PartialEq, Eq)]
pub enum ChipName {
    Esp32,
    Esp32C3,
}

impl fmt::Display for ChipName {
    ghost output = { λ name. Some (name_text name) };

    fn fmt<W: fmt::Write>(&self, f: &mut fmt::Formatter<W>) -> fmt::Result {
        f.write_str(match self {
            ChipName::Esp32 => "ESP32",
            ChipName::Esp32C3 => "ESP32-C3",
        })
    }
}

/// What a chip can divide by, and which set-ups it has.
#[derive(Clone, Copy, PartialEq, Eq)]
pub struct Chip {
    pub name: ChipName,
    /// The largest denominator of its pair.
    pub max: u32,
    /// The integer parts that it takes.
    pub range: DividerRange,
    /// Whether it stores the pair split.
    pub splits: bool,
    pub least_slots: u8,
    pub most_slots: u8,
    /// Whether it has samples of 8 bits; every chip has 16 and 32.
    pub eight_bits: bool,
}

/// What no set-up of a chip has.
#[derive(Clone, Copy, PartialEq, Eq)]
pub enum Lack {
    /// So many slots.
    Slots,
    /// So many data bits.
    Bits,
    /// A frame of so many bits.
    Frame(u32),
}

/// The longest frame, in bits.
pub const MOST_FRAME: u32 = 128;

/// The chips, in the order of the answers.
pub fn chips() -> [Chip; 2]
    ensures { result ≡ chips_known }
{
    let range = DividerRange::eight_bits();
    [
        Chip {
            name: ChipName::Esp32,
            max: 63,
            range,
            splits: false,
            least_slots: 2,
            most_slots: 2,
            eight_bits: false,
        },
        Chip {
            name: ChipName::Esp32C3,
            max: 511,
            range,
            splits: true,
            least_slots: 1,
            most_slots: 16,
            eight_bits: true,
        },
    ]
}

impl Chip {
    /// What the chip lacks for these slots and bits, if anything.
    pub fn lacks(&self, ask: Ask) -> Option<Lack>
        ensures { result ≡ lack_of self.now ask }
    {
        if !(self.least_slots..=self.most_slots).contains(&ask.slots) {
            return Some(Lack::Slots);
        }
        let has_bits = match ask.bits {
            16 | 32 => true,
            8 => self.eight_bits,
            _ => false,
        };
        if !has_bits {
            return Some(Lack::Bits);
        }
        let frame = ask.slots as u32 * ask.bits as u32;
        if frame > MOST_FRAME {
            return Some(Lack::Frame(frame));
        }
        None
    }
}
