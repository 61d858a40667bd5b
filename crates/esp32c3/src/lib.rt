//! The new chip over a block.
#![tactic(auto)]

mod chip;
mod same;
mod setup;

pub use chip::{Esp32C3, Opening};
pub use setup::UnitSetup;
