//! Rows of the old chip.
ghost use Rattle.std.specs.Prelude.{◌≡◌};
ghost use Rattle.std.specs.List.{slice_get};
ghost use Rattle.coded.specs.OldRows.{ReadsBoth, ReadsUnit, both_in, formats, unit_in, unit_of};

use crate::places::{at_place, read_flag, read_polarity};
use dividers::Rate;
use old_setups::{Channels, Config, DataFormat, UnitConfig, WsWidth};

const CHANNELS: [Channels; 4] = [
    Channels::Stereo,
    Channels::Mono,
    Channels::Left,
    Channels::Right,
];

const WIDTHS: [WsWidth; 2] = [WsWidth::HalfFrame, WsWidth::Bit];

const FORMATS: [DataFormat; 2] = [DataFormat::Data32Channel32, DataFormat::Data16Channel16];

/// A format by its place.
pub fn esp32_format(place: u32) -> Option<DataFormat>
    ensures { result ≡ slice_get formats place }
{
    at_place(&FORMATS, place)
}

/// A unit by its row CHANNELS WIDTH POLARITY SHIFT; none where the numbers are not one.
#[tactic(auto, using(crate::proofs::OldRows::reads_unit))]
pub fn esp32_unit(numbers: &[u32]) -> Option<UnitConfig>
    ensures reads { ReadsUnit numbers.now result }
    ensures computed { result ≡ unit_in numbers.now }
{
    read_unit(numbers)
}

// The same, number by number.
fn read_unit(numbers: &[u32]) -> Option<UnitConfig>
    ensures { result ≡ unit_in numbers.now }
{
    let [channels, width, polarity, shift] = numbers else {
        return None;
    };
    unit(*channels, *width, *polarity, *shift)
}

fn unit(channels: u32, width: u32, polarity: u32, shift: u32) -> Option<UnitConfig>
    ensures { result ≡ unit_of channels width polarity shift }
{
    Some(UnitConfig {
        channels: at_place(&CHANNELS, channels)?,
        ws_width: at_place(&WIDTHS, width)?,
        ws_polarity: read_polarity(polarity)?,
        msb_shift: read_flag(shift)?,
    })
}

/// Both units by the row RATE FORMAT and the rows of the transmit and of the receive unit; none where the numbers are not that.
#[tactic(auto, using(crate::proofs::OldRows::reads_both))]
pub fn esp32_both(numbers: &[u32]) -> Option<Config>
    ensures reads { ReadsBoth numbers.now result }
    ensures computed { result ≡ both_in numbers.now }
{
    read_both(numbers)
}

// The same, number by number.
fn read_both(numbers: &[u32]) -> Option<Config>
    ensures { result ≡ both_in numbers.now }
{
    let [
        rate,
        format,
        tx_channels,
        tx_width,
        tx_polarity,
        tx_shift,
        rx_channels,
        rx_width,
        rx_polarity,
        rx_shift,
    ] = numbers
    else {
        return None;
    };
    Some(Config {
        tx_config: unit(*tx_channels, *tx_width, *tx_polarity, *tx_shift)?,
        rx_config: unit(*rx_channels, *rx_width, *rx_polarity, *rx_shift)?,
        sample_rate: Rate::from_hz(*rate),
        data_format: esp32_format(*format)?,
    })
}
