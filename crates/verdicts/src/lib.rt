//! Verdicts on set-ups: accepted, or refused with the value that is wrong; and one frame of a unit, bit by bit, as its data line and its
//! word select show it.
#![tactic(auto)]

mod esp32_parts;
mod fault;
mod frame;
mod verdict;

pub use fault::Fault;
pub use frame::Frame;
pub use verdict::{Refused, accept_esp32, accept_esp32c3};
