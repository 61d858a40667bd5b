//! A frame and its marks.
ghost use Rattle.std.specs.Prelude.{◌≡◌, ◌<◌, ◌*◌};

use crate::esp32_parts::{ESP32_SLOTS, esp32_active, esp32_width};
use old_setups as esp32;
use setups::{Polarity, esp32c3};

/// What one frame shows.
#[derive(Clone, Copy)]
pub struct Frame {
    pub slots: u8,
    /// How many bits a slot has.
    pub slot_bits: u8,
    /// The active slots, the first in the least significant bit.
    pub active: u16,
    /// How many bits word select is kept active, from the first on.
    pub ws_width: u16,
    pub ws_polarity: Polarity,
    ghost some_bits: { 0 < slot_bits },
}

// How many slots the mask has a bit for.
const MOST_SLOTS: u16 = 16;

impl Frame {
    ghost use Rattle.verdicts.specs.Frames.{ShowsNew, ShowsOld, data_mark, slot_begun, ws_mark};

    /// A frame of a set-up of the new chip.
    pub fn of_esp32c3(setup: &esp32c3::Setup) -> Frame
        ensures { ShowsNew setup.now.config result }
    {
        let config = setup.config();
        let slot_bits = config.data_format.data_bits();
        Frame {
            slots: config.channels.count(),
            slot_bits,
            active: config.channels.mask(),
            ws_width: match config.ws_width {
                esp32c3::WsWidth::HalfFrame => setup.frame() / 2,
                esp32c3::WsWidth::OneChannel => slot_bits as u16,
                esp32c3::WsWidth::Bit => 1,
                esp32c3::WsWidth::Bits(bits) => bits,
            },
            ws_polarity: config.ws_polarity,
        }
    }

    /// A frame of the transmit unit of a set-up of the old chip.
    pub fn of_esp32(setup: &esp32::Setup) -> Frame
        ensures { ShowsOld setup.now.config result }
    {
        let config = setup.config();
        let unit = config.tx_config;
        let slot_bits = config.data_format.data_bits();
        Frame {
            slots: ESP32_SLOTS,
            slot_bits,
            active: esp32_active(unit.channels),
            ws_width: esp32_width(unit.ws_width, slot_bits),
            ws_polarity: unit.ws_polarity,
        }
    }

    /// How many bits the frame has.
    pub fn bits(&self) -> u16
        ensures { result ≡ self.now.slots * self.now.slot_bits }
    {
        self.slots as u16 * self.slot_bits as u16
    }

    /// The number of the slot that begins with a bit, if one does. Bits count from 0, slots from 1.
    pub fn slot_begun(&self, bit: u16) -> Option<u16>
        ensures { result ≡ slot_begun self.now bit }
    {
        let slot_bits = self.slot_bits as u16;
        if bit < self.bits() && bit % slot_bits == 0 {
            Some(bit / slot_bits + 1)
        } else {
            None
        }
    }

    /// The mark of a bit of the data line: `#` in an active slot, `.` in any other.
    pub fn data_mark(&self, bit: u16) -> u8
        ensures { result ≡ data_mark self.now bit }
    {
        let slot = bit / self.slot_bits as u16;
        if slot < MOST_SLOTS && (self.active >> slot) % 2 == 1 {
            b'#'
        } else {
            b'.'
        }
    }

    /// The mark of a bit of word select: `-` where it is high, `_` where it is low.
    pub fn ws_mark(&self, bit: u16) -> u8
        ensures { result ≡ ws_mark self.now bit }
    {
        let is_active = bit < self.ws_width;
        if is_active == (self.ws_polarity == Polarity::ActiveHigh) {
            b'-'
        } else {
            b'_'
        }
    }
}
