//! The reply to a sheet.
ghost use Rattle.std.specs.Prelude.{◌≡◌, IfOk};
ghost use Rattle.dividers.specs.Answers.{eight_bit_range};
ghost use Rattle.old_setups.specs.Configs as OldConfigs;
ghost use Rattle.setups.specs.Check.{refusal_of};
ghost use Rattle.replies.specs.Outcomes.{outcome_by, outcome_of};

use complaints::WrongText;
use dividers::ConfigError;
use drawings::{Esp32C3Text, Esp32Text, RefusalText};
use listings::{Esp32C3Puts, Esp32Puts};
use old_setups as esp32;
use setups::esp32c3;
use sheets::{Asked, read_sheet};
use std::alloc::{AllocError, Global};
use verdicts::{accept_esp32, accept_esp32c3};

/// What came of a sheet.
#[derive(Clone, Copy, PartialEq, Eq)]
pub enum Outcome {
    /// It is no whole set-up of its chip, or a line of it cannot be read.
    Unread,
    Accepted,
    Refused(ConfigError),
}

/// What the clocks of the chips take.
#[derive(Clone, Copy)]
pub struct Reaches {
    pub esp32: esp32::ClockReach,
    pub esp32c3: esp32c3::ClockReach,
}

impl Reaches {
    /// What the two chips take.
    pub fn of_chips() -> Reaches
        ensures esp32 { result.esp32.max ≡ 63 }
        ensures esp32_range { result.esp32.range ≡ eight_bit_range }
        ensures esp32c3 { result.esp32c3.max ≡ 511 }
        ensures esp32c3_range { result.esp32c3.range ≡ eight_bit_range }
    {
        Reaches {
            esp32: esp32::ClockReach::esp32(),
            esp32c3: esp32c3::ClockReach::esp32c3(),
        }
    }
}

/// A sheet's outcome, with the text to show for it.
#[derive(Drop)]
pub struct Reply {
    pub outcome: Outcome,
    pub text: String,
}

/// The reply to the lines of a text.
pub fn reply_to(heap: Global, text: &[u8], reaches: Reaches) -> Result<Reply, AllocError>
    ensures { IfOk result (λ r. r.outcome ≡ outcome_of reaches text.now) }
{
    match read_sheet(text).asked() {
        None => Ok(Reply {
            outcome: Outcome::Unread,
            text: WrongText(text).to_string(heap)?,
        }),
        Some(Asked::Esp32(config)) => reply_esp32(heap, &config, reaches.esp32),
        Some(Asked::Esp32C3(config)) => reply_esp32c3(heap, &config, reaches.esp32c3),
    }
}

// The reply to a set-up of the old chip.
fn reply_esp32(
    heap: Global,
    config: &esp32::Config,
    reach: esp32::ClockReach,
) -> Result<Reply, AllocError>
    ensures { IfOk result (λ r. r.outcome ≡ outcome_by (OldConfigs.refusal_of reach.range config.now)) }
{
    Ok(match accept_esp32(config, reach) {
        Ok(setup) => Reply {
            outcome: Outcome::Accepted,
            text: format!(in heap; "{}{}", Esp32Text(&setup), Esp32Puts(&setup))?,
        },
        Err(refused) => Reply {
            outcome: Outcome::Refused(refused.error),
            text: RefusalText {
                refused,
                range: reach.range(),
            }
            .to_string(heap)?,
        },
    })
}

// The reply to a set-up of the new chip.
fn reply_esp32c3(
    heap: Global,
    config: &esp32c3::UnitConfig,
    reach: esp32c3::ClockReach,
) -> Result<Reply, AllocError>
    ensures { IfOk result (λ r. r.outcome ≡ outcome_by (refusal_of reach.max reach.range config.now)) }
{
    Ok(match accept_esp32c3(config, reach) {
        Ok(setup) => Reply {
            outcome: Outcome::Accepted,
            text: format!(in heap; "{}{}", Esp32C3Text(&setup), Esp32C3Puts(&setup))?,
        },
        Err(refused) => Reply {
            outcome: Outcome::Refused(refused.error),
            text: RefusalText {
                refused,
                range: reach.range(),
            }
            .to_string(heap)?,
        },
    })
}
