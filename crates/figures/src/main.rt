//! Prints the dividers of four common rates: rate, integer part, bit divider, and the pair of each chip.
#![tactic(auto)]

use dividers::{ConfigError, I2sClockDividers, Rate, settled_rates};
use std::io;

const STEREO: u8 = 2;

const BITS: u8 = 16;

// The largest denominators of the two chips.
const ESP32_MAX: u32 = 63;

const ESP32C3_MAX: u32 = 511;

fn dividers_of(rate: u32, max: u32) -> Result<I2sClockDividers, ConfigError> {
    I2sClockDividers::new(Rate::from_hz(rate), STEREO, BITS, max)
}

fn main(rt: HostRuntime) -> io::Result<()> {
    for rate in settled_rates() {
        let (Ok(old), Ok(new)) = (dividers_of(rate, ESP32_MAX), dividers_of(rate, ESP32C3_MAX))
        else {
            continue;
        };
        let I2sClockDividers {
            mclk_divider,
            bclk_divider,
            denominator,
            numerator,
        } = old;
        let a = new.denominator;
        let n = new.numerator;
        println!(rt; "{rate} {mclk_divider} {bclk_divider} {denominator} {numerator} {a} {n}")?;
    }
    Ok(())
}
