//! Set-ups accepted or refused.
ghost use Rattle.std.specs.Prelude.{IfErr, MatchResult};
ghost use Rattle.old_setups.specs.Passing as OldPassing;
ghost use Rattle.setups.specs.Passing.{PassedAs};
ghost use Rattle.verdicts.specs.Blame.{IsWrongNew, IsWrongOld};
ghost use Rattle.verdicts.specs.Verdicts.{RefusedNew, RefusedOld};

use crate::fault::{Fault, esp32_fault, esp32c3_fault};
use dividers::ConfigError;
use old_setups as esp32;
use setups::esp32c3;

/// A refusal with what is out of range.
#[derive(Clone, Copy, PartialEq, Eq)]
pub struct Refused {
    pub error: ConfigError,
    pub fault: Fault,
}

/// The set-up of the new chip, if it passes the chip's check.
pub fn accept_esp32c3(
    config: &esp32c3::UnitConfig,
    reach: esp32c3::ClockReach,
) -> Result<esp32c3::Setup, Refused>
    ensures checked { MatchResult result (PassedAs reach.max reach.range config.now) (RefusedNew reach.max reach.range config.now) }
    ensures blamed { IfErr result (λ r. IsWrongNew config.now reach.max reach.range r.fault) }
{
    match config.check(reach) {
        Ok(passed) => Ok(passed),
        Err(error) => {
            let fault = esp32c3_fault(config, reach, error);
            Err(Refused { error, fault })
        }
    }
}

/// The set-up of the old chip, if it passes the chip's check.
pub fn accept_esp32(
    config: &esp32::Config,
    reach: esp32::ClockReach,
) -> Result<esp32::Setup, Refused>
    ensures checked { MatchResult result (OldPassing.PassedAs reach.max reach.range config.now) (RefusedOld reach.max reach.range config.now) }
    ensures blamed { IfErr result (λ r. IsWrongOld config.now reach.max reach.range r.fault) }
{
    match config.check(reach) {
        Ok(setup) => Ok(setup),
        Err(error) => {
            let fault = esp32_fault(config, reach, error);
            Err(Refused { error, fault })
        }
    }
}
