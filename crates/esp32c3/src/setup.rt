//! A unit's set-up that passed this chip's check.
ghost use Rattle.std.specs.Prelude.{◌≡◌, None, IfOk};
ghost use Rattle.std.specs.Result.{result_err};
ghost use Rattle.esp32c3.specs.Chip.{unit_numbers, unit_refusal};

use dividers::ConfigError;
use setups::esp32c3::{ClockReach, DataFormat, UnitConfig, UnitNumbers};

/// A unit's set-up that passed this chip's check, with its numbers, and the format that its unit keeps.
#[derive(Drop)]
pub struct UnitSetup {
    pub(crate) config: UnitConfig,
    pub(crate) format: DataFormat,
    pub(crate) numbers: UnitNumbers,
    ghost passed: { unit_refusal config ≡ None },
    ghost numbers_are: { numbers ≡ unit_numbers config },
}

impl UnitSetup {
    // The set-up, if it passes the check with what this chip's clock fields take.
    #[tactic(auto, using(crate::specs::Laws::refusal_at, crate::specs::Laws::numbers_at))]
    pub(crate) fn of(config: &UnitConfig, format: DataFormat) -> Result<UnitSetup, ConfigError>
        ensures refused { result_err result ≡ unit_refusal config.now }
        ensures config { IfOk result (λ s. s.config ≡ config.now) }
        ensures format { IfOk result (λ s. s.format ≡ format) }
    {
        let setup = config.check(ClockReach::esp32c3())?;
        Ok(UnitSetup {
            config: *config,
            format,
            numbers: setup.numbers(),
        })
    }
}
