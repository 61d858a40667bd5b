//! Plans of clocks: lines of rate, slots and bits read, and planned for each chip.
#![tactic(auto)]

mod counting;
mod planning;
mod read;
mod targets;

pub use counting::{Outcome, Tally};
pub use planning::{Fault, NoPlan, Plan};
pub use read::{Ask, Number, Unread, read_line};
pub use targets::{Chip, ChipName, Lack, MOST_FRAME, chips};
pub use words::{Lines, first_line};
