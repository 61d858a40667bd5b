//! The rates and set-ups whose figures are settled.
ghost use Rattle.std.specs.Prelude.{◌≡◌};
ghost use Rattle.fractions.specs.Settled.{Settled, frames_settled, half_frame_of, rates_settled};

use setups::esp32c3::{Channels, DataFormat, UnitConfig, WsWidth};

// Every slot of a frame.
const ALL_SLOTS: u16 = u16::MAX;

/// The rates in hertz whose dividers are settled on both chips, in stereo at 16 bits.
#[tactic(auto, using(crate::proofs::Settled::settled))]
pub fn settled_rates() -> [u32; 5]
    ensures rates { result ≡ rates_settled }
    ensures settled { Settled }
{
    [8_000, 32_000, 41_681, 44_100, 48_000]
}

/// Set-ups of the new chip at the limits of its frame, all slots active: half frame with eight and with nine slots of 16 bits, and 129
/// bits of word select with five slots of 32.
pub fn settled_frames() -> [UnitConfig; 3]
    ensures { result ≡ frames_settled }
{
    let long_select = UnitConfig::new_tdm_philips()
        .with_channels(Channels::new(5, ALL_SLOTS, None))
        .with_data_format(DataFormat::Data32Channel32)
        .with_ws_width(WsWidth::Bits(129));
    [half_frame_of(8), half_frame_of(9), long_select]
}

// Half frame with so many slots of 16 bits.
fn half_frame_of(slots: u8) -> UnitConfig
    ensures { result ≡ half_frame_of slots }
{
    UnitConfig::new_tdm_philips().with_channels(Channels::new(slots, ALL_SLOTS, None))
}
