//! The dividers of a rate and of a set-up.
ghost use Rattle.std.specs.Prelude.{◌≡◌, ◌≤◌, IfOk, None};
ghost use Rattle.std.specs.Result.{result_err};
ghost use Rattle.dividers.specs.Answers.{Accepts, DividersRule};
ghost use Rattle.dividers.specs.Clock.{mclk_of, out_of_range};
ghost use Rattle.fractions.specs.Early.{by_reach, new_early, old_early};
ghost use Rattle.fractions.specs.Nearest.{FractionNearest};
ghost use Rattle.old_setups.specs.Configs as OldConfigs;
ghost use Rattle.setups.specs.Check.{bits_of, rate_wrong, slots_of};
ghost use Rattle.setups.specs.Refused.{refused};

use dividers::{ConfigError, I2sClockDividers, Rate};
use old_setups::Config;
use setups::esp32c3::{ClockReach, UnitConfig};

// The channels of every frame of the old chip.
const CHANNELS: u8 = 2;

// The largest denominators of the old and of the new chip.
const OLD_MAX: u32 = 63;

const NEW_MAX: u32 = 511;

/// The dividers of a rate, a number of channels and a data width, with denominators up to `max`. No fraction with a denominator up to
/// `max` is nearer than theirs.
#[tactic(auto, using(crate::proofs::Early::answer_refused, crate::proofs::Nearest::answers_nearest))]
pub fn clock_of(
    rate: Rate,
    channels: u8,
    data_bits: u8,
    max: u32,
) -> Result<I2sClockDividers, ConfigError>
    ensures refused { result_err result ≡ refused (out_of_range rate.0 channels data_bits) ConfigError.RateOutOfRange None }
    ensures rule { Accepts result (DividersRule rate.0 channels data_bits max) }
    ensures nearest { 3 ≤ max → max ≤ 1000 → IfOk result (λ d. FractionNearest (mclk_of rate.0 data_bits) max d) }
{
    I2sClockDividers::new(rate, channels, data_bits, max)
}

/// The dividers of a set-up of the new chip, refused by the first of 1 to 4 that applies; 5 does not refuse them.
#[tactic(auto, using(crate::proofs::Early::one_of_four, crate::proofs::Early::out_of_reach))]
pub fn esp32c3_clock(config: &UnitConfig) -> Result<I2sClockDividers, ConfigError>
    ensures refused { result_err result ≡ new_early config.now }
    ensures rule { Accepts result (DividersRule config.now.sample_rate.0 (slots_of config.now) (bits_of config.now) 511) }
    ensures nearest { IfOk result (λ d. FractionNearest (mclk_of config.now.sample_rate.0 (bits_of config.now)) 511 d) }
{
    match config.check(ClockReach::esp32c3()) {
        Ok(_) => unit_clock(config),
        Err(error) if is_by_reach(error) => unit_clock(config),
        Err(error) => Err(error),
    }
}

// The dividers of a set-up, whatever else is wrong with it.
fn unit_clock(config: &UnitConfig) -> Result<I2sClockDividers, ConfigError>
    ensures refused { result_err result ≡ refused (rate_wrong config.now) ConfigError.RateOutOfRange None }
    ensures rule { Accepts result (DividersRule config.now.sample_rate.0 (slots_of config.now) (bits_of config.now) 511) }
    ensures nearest { IfOk result (λ d. FractionNearest (mclk_of config.now.sample_rate.0 (bits_of config.now)) 511 d) }
{
    clock_of(
        config.sample_rate,
        config.channels.count(),
        config.data_format.data_bits(),
        NEW_MAX,
    )
}

// Whether it is the clock's reach that is refused, after all else has passed.
fn is_by_reach(error: ConfigError) -> bool
    ensures { result ≡ by_reach error }
{
    match error {
        ConfigError::ClockOutOfReach => true,
        ConfigError::ChannelsOutOfRange
        | ConfigError::WsWidthOutOfRange
        | ConfigError::FrameTooLong
        | ConfigError::RateOutOfRange => false,
    }
}

/// The dividers of a set-up of the old chip, refused by 4 alone.
pub fn esp32_clock(config: &Config) -> Result<I2sClockDividers, ConfigError>
    ensures refused { result_err result ≡ old_early config.now }
    ensures rule { Accepts result (DividersRule config.now.sample_rate.0 2 (OldConfigs.bits_of config.now) 63) }
    ensures nearest { IfOk result (λ d. FractionNearest (mclk_of config.now.sample_rate.0 (OldConfigs.bits_of config.now)) 63 d) }
{
    clock_of(
        config.sample_rate,
        CHANNELS,
        config.data_format.data_bits(),
        OLD_MAX,
    )
}
