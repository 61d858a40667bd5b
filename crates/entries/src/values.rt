//! Words that name a value.
ghost use Rattle.std.specs.Prelude.{◌≡◌};
ghost use Rattle.std.specs.Str.{bytes_eq};
ghost use Rattle.entries.specs.Values.{chip_in, endianness_in, fill_in, format_in, order_in, polarity_in, shift_in, width_in};

use crate::entry::{Chip, Fill};
use setups::esp32c3::{DataFormat, WsWidth};
use setups::{BitOrder, Endianness, Polarity};
use words::number;

// Whether a word is this text.
fn is(word: &[u8], text: &str) -> bool
    ensures { result ≡ bytes_eq word.now text.now }
{
    word == text.as_bytes()
}

pub(crate) fn read_chip(word: &[u8]) -> Option<Chip>
    ensures { result ≡ chip_in word.now }
{
    if is(word, "ESP32") {
        Some(Chip::Esp32)
    } else if is(word, "ESP32-C3") {
        Some(Chip::Esp32C3)
    } else {
        None
    }
}

pub(crate) fn read_fill(word: &[u8]) -> Option<Fill>
    ensures { result ≡ fill_in word.now }
{
    if is(word, "repeat") {
        Some(Fill::Repeat)
    } else {
        Some(Fill::Number(number(word, u32::MAX).ok()?))
    }
}

// Data bits and channel bits.
pub(crate) fn read_format(word: &[u8]) -> Option<DataFormat>
    ensures { result ≡ format_in word.now }
{
    if is(word, "32/32") {
        Some(DataFormat::Data32Channel32)
    } else if is(word, "32/24") {
        Some(DataFormat::Data32Channel24)
    } else if is(word, "32/16") {
        Some(DataFormat::Data32Channel16)
    } else if is(word, "32/8") {
        Some(DataFormat::Data32Channel8)
    } else if is(word, "16/16") {
        Some(DataFormat::Data16Channel16)
    } else if is(word, "16/8") {
        Some(DataFormat::Data16Channel8)
    } else if is(word, "8/8") {
        Some(DataFormat::Data8Channel8)
    } else {
        None
    }
}

pub(crate) fn read_width(word: &[u8]) -> Option<WsWidth>
    ensures { result ≡ width_in word.now }
{
    if is(word, "half") {
        Some(WsWidth::HalfFrame)
    } else if is(word, "slot") {
        Some(WsWidth::OneChannel)
    } else if is(word, "bit") {
        Some(WsWidth::Bit)
    } else {
        let bits = number(word, u16::MAX as u32).ok()?;
        Some(WsWidth::Bits(bits as u16))
    }
}

pub(crate) fn read_polarity(word: &[u8]) -> Option<Polarity>
    ensures { result ≡ polarity_in word.now }
{
    if is(word, "high") {
        Some(Polarity::ActiveHigh)
    } else if is(word, "low") {
        Some(Polarity::ActiveLow)
    } else {
        None
    }
}

pub(crate) fn read_shift(word: &[u8]) -> Option<bool>
    ensures { result ≡ shift_in word.now }
{
    if is(word, "yes") {
        Some(true)
    } else if is(word, "no") {
        Some(false)
    } else {
        None
    }
}

pub(crate) fn read_endianness(word: &[u8]) -> Option<Endianness>
    ensures { result ≡ endianness_in word.now }
{
    if is(word, "little") {
        Some(Endianness::LittleEndian)
    } else if is(word, "big") {
        Some(Endianness::BigEndian)
    } else {
        None
    }
}

pub(crate) fn read_order(word: &[u8]) -> Option<BitOrder>
    ensures { result ≡ order_in word.now }
{
    if is(word, "msb") {
        Some(BitOrder::MsbFirst)
    } else if is(word, "lsb") {
        Some(BitOrder::LsbFirst)
    } else {
        None
    }
}
