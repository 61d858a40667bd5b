//! What a frame of the old chip shows of its channels and its width.
ghost use Rattle.std.specs.Prelude.{◌≡◌};
ghost use Rattle.verdicts.specs.Frames.{active_of, width_of};

use old_setups::{Channels, WsWidth};

// How many slots a frame of this chip has.
pub(crate) const ESP32_SLOTS: u8 = 2;

// Two slots by their masks.
const BOTH: u16 = 0b11;

const FIRST: u16 = 0b01;

const SECOND: u16 = 0b10;

pub(crate) fn esp32_active(channels: Channels) -> u16
    ensures { result ≡ active_of channels }
{
    match channels {
        Channels::Stereo => BOTH,
        Channels::Mono | Channels::Left => FIRST,
        Channels::Right => SECOND,
    }
}

// Half of a frame of two slots is a slot.
pub(crate) fn esp32_width(width: WsWidth, slot_bits: u8) -> u16
    ensures { result ≡ width_of width slot_bits }
{
    match width {
        WsWidth::HalfFrame => slot_bits as u16,
        WsWidth::Bit => 1,
    }
}
