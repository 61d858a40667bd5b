//! The units of an opened block: at rest they take a set-up and start, running they wait and stop.
#![tactic(auto)]

mod opened;
mod rx_resting;
mod rx_running;
mod tx_resting;
mod tx_running;
mod unit;

pub use opened::{Opened, open};
pub use rx_resting::RxResting;
pub use rx_running::RxRunning;
pub use tx_resting::TxResting;
pub use tx_running::TxRunning;
pub use unit::Unit;
