//! What is out of range where a set-up is refused.
ghost use Rattle.std.specs.Prelude.{◌≡◌};
ghost use Rattle.setups.specs.Check.{ws_width_of};
ghost use Rattle.verdicts.specs.Faults.{clock_fault, esp32_fault, esp32c3_fault, rate_fault};

use dividers::{ConfigError, DividerRange, I2sClockDividers, Rate, mclk_multiple};
use old_setups as esp32;
use setups::esp32c3;
use setups::esp32c3::WsWidth;

/// A value with its limit, where that is not the same for every set-up.
#[derive(Clone, Copy, PartialEq, Eq)]
pub enum Fault {
    /// No slot is active.
    NoneActive,
    /// So many slots, of 16 at most.
    Slots(u8),
    /// Word select is active for so many bits, from 1 to `most`.
    WsWidth { bits: u16, most: u16 },
    /// The frame has so many bits, of 128 at most.
    Frame(u16),
    /// The rate is 0.
    NoRate,
    /// The faster of the main clock and the bit clock, in hertz, passes 32 bits.
    Clock(u64),
    /// The integer part is not one that the chip takes.
    IntegerPart(u32),
    /// The pair of this denominator and numerator is not below 1.
    Pair(u32, u32),
}

// The most bits that word select is kept active.
const MAX_WS_WIDTH: u16 = 128;

// The channels of every frame of the old chip.
const ESP32_CHANNELS: u8 = 2;

// Which clock is out of range.
fn rate_fault(rate: Rate, channels: u8, bits: u8) -> Fault
    ensures { result ≡ rate_fault rate.0 channels bits }
{
    let rate = rate.as_hz();
    if rate == 0 {
        return Fault::NoRate;
    }
    let mclk = rate as u64 * mclk_multiple(bits) as u64;
    let bclk = rate as u64 * channels as u64 * bits as u64;
    Fault::Clock(mclk.max(bclk))
}

// The integer part, or the pair, that the chip does not take.
fn clock_fault(rate: Rate, channels: u8, bits: u8, max: u32, range: DividerRange) -> Fault
    ensures { result ≡ clock_fault rate.0 channels bits max range }
{
    match I2sClockDividers::new(rate, channels, bits, max) {
        Ok(dividers) if dividers.within(range).is_err() => {
            Fault::IntegerPart(dividers.mclk_divider)
        }
        Ok(dividers) => Fault::Pair(dividers.denominator, dividers.numerator),
        Err(_) => rate_fault(rate, channels, bits),
    }
}

// What is out of range in a set-up of the new chip that is refused so.
pub(crate) fn esp32c3_fault(
    config: &esp32c3::UnitConfig,
    reach: esp32c3::ClockReach,
    error: ConfigError,
) -> Fault
    ensures { result ≡ esp32c3_fault config.now reach.max reach.range error }
{
    let rate = config.sample_rate;
    let channels = config.channels.count();
    let bits = config.data_format.data_bits();
    match error {
        ConfigError::ChannelsOutOfRange if config.channels.active_count() == 0 => Fault::NoneActive,
        ConfigError::ChannelsOutOfRange => Fault::Slots(channels),
        ConfigError::WsWidthOutOfRange => Fault::WsWidth {
            bits: ws_width(config),
            most: config.frame().min(MAX_WS_WIDTH),
        },
        ConfigError::FrameTooLong => Fault::Frame(config.frame()),
        ConfigError::RateOutOfRange => rate_fault(rate, channels, bits),
        ConfigError::ClockOutOfReach => clock_fault(
            rate,
            channels,
            bits,
            reach.max(),
            reach.range(),
        ),
    }
}

// How many bits word select is kept active.
fn ws_width(config: &esp32c3::UnitConfig) -> u16
    ensures { result ≡ ws_width_of config.now }
{
    match config.ws_width {
        WsWidth::HalfFrame => config.frame() / 2,
        WsWidth::OneChannel => config.data_format.data_bits() as u16,
        WsWidth::Bit => 1,
        WsWidth::Bits(bits) => bits,
    }
}

// What is out of range in a set-up of the old chip that is refused so.
pub(crate) fn esp32_fault(
    config: &esp32::Config,
    reach: esp32::ClockReach,
    error: ConfigError,
) -> Fault
    ensures { result ≡ esp32_fault config.now reach.max reach.range error }
{
    let rate = config.sample_rate;
    let bits = config.data_format.data_bits();
    match error {
        ConfigError::ClockOutOfReach => {
            clock_fault(rate, ESP32_CHANNELS, bits, reach.max(), reach.range())
        }
        _ => rate_fault(rate, ESP32_CHANNELS, bits),
    }
}
