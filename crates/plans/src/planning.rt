//! The plan of one chip for one rate, slot count and data width.
ghost use Rattle.std.specs.Prelude.{◌≡◌};
ghost use Rattle.plans.specs.Chips.{chips_known};
ghost use Rattle.plans.specs.Plans.{Says, any_planned, fault_of, plan_of};

use crate::read::Ask;
use crate::targets::{Chip, Lack, chips};
use dividers::{ConfigError, I2sClockDividers, I2sMclkDividers, Rate, mclk_multiple};

/// What is out of range where a plan is refused.
#[derive(Clone, Copy, PartialEq, Eq)]
pub enum Fault {
    /// The rate is 0.
    NoRate,
    /// The faster of the main clock and the bit clock, in hertz, passes 32 bits.
    Clock(u64),
    /// The integer part is not one that the chip takes.
    IntegerPart(u32),
    /// The pair is not below 1.
    Pair(u32, u32),
}

/// Dividers that a chip takes.
#[derive(Clone, Copy, PartialEq, Eq)]
pub struct Plan {
    pub dividers: I2sClockDividers,
    /// The parts of the pair, on a chip that stores it split.
    pub split: Option<I2sMclkDividers>,
}

/// Why a chip has no plan.
#[derive(Clone, Copy, PartialEq, Eq)]
pub enum NoPlan {
    Refused(ConfigError, Fault),
    /// The chip has no such set-up.
    NoSetUp(Lack),
}

impl Chip {
    /// The chip's plan.
    #[tactic(auto, using(crate::proofs::Said::plan_says))]
    pub fn plan(&self, ask: Ask) -> Result<Plan, NoPlan>
        ensures says { Says self.now ask result }
        ensures computed { result ≡ plan_of self.now ask }
    {
        self.plan_for(ask)
    }

    // The plan, step by step.
    fn plan_for(&self, ask: Ask) -> Result<Plan, NoPlan>
        ensures { result ≡ plan_of self.now ask }
    {
        if let Some(lack) = self.lacks(ask) {
            return Err(NoPlan::NoSetUp(lack));
        }
        let rate = Rate::from_hz(ask.rate);
        let found = I2sClockDividers::new(rate, ask.slots, ask.bits, self.max);
        let dividers = found.map_err(|error| NoPlan::Refused(error, clock_fault(ask)))?;
        let fault = Fault::IntegerPart(dividers.mclk_divider);
        dividers
            .within(self.range)
            .map_err(|error| NoPlan::Refused(error, fault))?;
        let split = if self.splits {
            let fault = Fault::Pair(dividers.denominator, dividers.numerator);
            let found = dividers.mclk_dividers();
            Some(found.map_err(|error| NoPlan::Refused(error, fault))?)
        } else {
            None
        };
        Ok(Plan { dividers, split })
    }
}

// Which clock is out of range.
fn clock_fault(ask: Ask) -> Fault
    ensures { result ≡ fault_of ask }
{
    if ask.rate == 0 {
        return Fault::NoRate;
    }
    let mclk = ask.rate as u64 * mclk_multiple(ask.bits) as u64;
    let bclk = ask.rate as u64 * ask.slots as u64 * ask.bits as u64;
    Fault::Clock(mclk.max(bclk))
}

// Whether some chip has a plan.
pub(crate) fn any_planned(ask: Ask) -> bool
    ensures { result ≡ any_planned chips_known ask }
{
    chips().iter().any(|chip| chip.plan(ask).is_ok())
}
