//! Rows of the new chip.
ghost use Rattle.std.specs.Prelude.{◌≡◌};
ghost use Rattle.std.specs.List.{slice_get};
ghost use Rattle.coded.specs.NewRows.{ReadsUnit, channels_at, fill_at, unit_in, width_at};

use crate::places::{at_place, read_flag, read_polarity};
use dividers::Rate;
use setups::esp32c3::{Channels, DataFormat, UnitConfig, WsWidth};
use setups::{BitOrder, Endianness};

const FORMATS: [DataFormat; 7] = [
    DataFormat::Data32Channel32,
    DataFormat::Data32Channel24,
    DataFormat::Data32Channel16,
    DataFormat::Data32Channel8,
    DataFormat::Data16Channel16,
    DataFormat::Data16Channel8,
    DataFormat::Data8Channel8,
];

const ENDIANNESSES: [Endianness; 2] = [Endianness::LittleEndian, Endianness::BigEndian];

const ORDERS: [BitOrder; 2] = [BitOrder::MsbFirst, BitOrder::LsbFirst];

// The fill of inactive channels, which may be none.
fn read_fill(filled: u32, fill: u32) -> Option<Option<u32>>
    ensures { result ≡ fill_at filled fill }
{
    match filled {
        0 if fill == 0 => Some(None),
        1 => Some(Some(fill)),
        _ => None,
    }
}

fn read_width(place: u32, bits: u32) -> Option<WsWidth>
    ensures { result ≡ width_at place bits }
{
    match place {
        0 if bits == 0 => Some(WsWidth::HalfFrame),
        1 if bits == 0 => Some(WsWidth::OneChannel),
        2 if bits == 0 => Some(WsWidth::Bit),
        3 => Some(WsWidth::Bits(u16::try_from(bits).ok()?)),
        _ => None,
    }
}

fn read_channels(count: u32, mask: u32, filled: u32, fill: u32) -> Option<Channels>
    ensures { result ≡ channels_at count mask filled fill }
{
    Some(Channels::new(
        u8::try_from(count).ok()?,
        u16::try_from(mask).ok()?,
        read_fill(filled, fill)?,
    ))
}

/// A unit by its row RATE COUNT MASK FILLED FILL FORMAT WIDTH BITS POLARITY SHIFT ENDIANNESS ORDER; none where the numbers are not one.
pub fn esp32c3_unit(numbers: &[u32]) -> Option<UnitConfig>
    ensures reads { ReadsUnit numbers.now result }
    ensures computed { result ≡ unit_in numbers.now }
{
    read_unit(numbers)
}

// The same, number by number.
fn read_unit(numbers: &[u32]) -> Option<UnitConfig>
    ensures { result ≡ unit_in numbers.now }
{
    let [
        rate,
        count,
        mask,
        filled,
        fill,
        format,
        width,
        bits,
        polarity,
        shift,
        endianness,
        order,
    ] = numbers
    else {
        return None;
    };
    Some(UnitConfig {
        sample_rate: Rate::from_hz(*rate),
        channels: read_channels(*count, *mask, *filled, *fill)?,
        data_format: at_place(&FORMATS, *format)?,
        ws_width: read_width(*width, *bits)?,
        ws_polarity: read_polarity(*polarity)?,
        msb_shift: read_flag(*shift)?,
        endianness: at_place(&ENDIANNESSES, *endianness)?,
        bit_order: at_place(&ORDERS, *order)?,
    })
}
