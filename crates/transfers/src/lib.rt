//! What the calls of a unit do on a chip, by the unit's numbers.
#![tactic(auto)]

mod events;
mod receive;
mod transmit;

pub use events::{clear_rx, clear_tx, listen_rx, listen_tx};
pub use receive::{apply_rx, reset_rx, start_rx, wait_rx};
pub use transmit::{apply_tx, start_tx, wait_tx};
