//! One call of a unit by its value, on the units of an opened block.
#![tactic(auto)]

mod receive;
mod step;
mod transmit;

pub use receive::step_rx;
pub use step::make_call;
pub use transmit::step_tx;
