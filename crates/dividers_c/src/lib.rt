//! The dividers for C and Rust to call: a refusal is its number, and the rest is then 0.
#![tactic(auto)]

ghost use Rattle.std.specs.Prelude.{◌≡◌};
ghost use Rattle.dividers.specs.Answers.{answer_of};
ghost use Rattle.dividers.specs.Clock.{within_range};
ghost use Rattle.dividers.specs.Split.{split_answer};
ghost use Rattle.dividers_c.specs.InC.{dividers_in_c, split_in_c, within_in_c};

use dividers::{ConfigError, DividerRange, I2sClockDividers, I2sMclkDividers, Rate};

// What stands for no refusal.
const ACCEPTED: u32 = 0;

/// Dividers as C has them, which knows no `Result`; `refusal` is 0 where there are any.
#[repr(C)]
#[derive(Clone, Copy)]
pub struct Dividers {
    pub refusal: u32,
    pub mclk_divider: u32,
    pub bclk_divider: u32,
    pub denominator: u32,
    pub numerator: u32,
}

impl From<Result<I2sClockDividers, ConfigError>> for Dividers {
    ghost from_gives = { λ answer d. d ≡ dividers_in_c answer };

    fn from(answer: Result<I2sClockDividers, ConfigError>) -> Dividers {
        match answer {
            Ok(d) => Dividers {
                refusal: ACCEPTED,
                mclk_divider: d.mclk_divider,
                bclk_divider: d.bclk_divider,
                denominator: d.denominator,
                numerator: d.numerator,
            },
            Err(e) => Dividers {
                refusal: u32::from(e.number()),
                mclk_divider: 0,
                bclk_divider: 0,
                denominator: 0,
                numerator: 0,
            },
        }
    }
}

/// A split pair as C has it, which knows no `Result`; `refusal` is 0 where there is one, and `yn1` is 0 or 1.
#[repr(C)]
#[derive(Clone, Copy)]
pub struct MclkDividers {
    pub refusal: u32,
    pub x: u32,
    pub y: u32,
    pub z: u32,
    pub yn1: u32,
}

impl From<Result<I2sMclkDividers, ConfigError>> for MclkDividers {
    ghost from_gives = { λ answer d. d ≡ split_in_c answer };

    fn from(answer: Result<I2sMclkDividers, ConfigError>) -> MclkDividers {
        match answer {
            Ok(I2sMclkDividers { x, y, z, yn1 }) => MclkDividers {
                refusal: ACCEPTED,
                x,
                y,
                z,
                yn1: u32::from(yn1),
            },
            Err(e) => MclkDividers {
                refusal: u32::from(e.number()),
                x: 0,
                y: 0,
                z: 0,
                yn1: 0,
            },
        }
    }
}

/// The dividers of a rate in hertz.
#[unsafe(no_mangle)]
pub extern "C" fn i2s_clock_dividers(rate: u32, channels: u8, data_bits: u8, max: u32) -> Dividers
    ensures { result ≡ dividers_in_c (answer_of rate channels data_bits max) }
{
    I2sClockDividers::new(Rate::from_hz(rate), channels, data_bits, max).into()
}

/// The pair of denominator and numerator, split.
#[unsafe(no_mangle)]
pub extern "C" fn i2s_mclk_dividers(denominator: u32, numerator: u32) -> MclkDividers
    ensures { result ≡ split_in_c (split_answer denominator numerator) }
{
    let pair = I2sClockDividers {
        mclk_divider: 0,
        bclk_divider: 0,
        denominator,
        numerator,
    };
    pair.mclk_dividers().into()
}

/// For C: 0 where an integer part lies from the least to the most, else the refusal's number.
#[unsafe(no_mangle)]
pub extern "C" fn i2s_within(mclk_divider: u32, least: u32, most: u32) -> u32
    ensures { result ≡ within_in_c (within_range mclk_divider least most) }
{
    let dividers = I2sClockDividers {
        mclk_divider,
        bclk_divider: 0,
        denominator: 0,
        numerator: 0,
    };
    match dividers.within(DividerRange { least, most }) {
        Ok(()) => ACCEPTED,
        Err(e) => u32::from(e.number()),
    }
}
