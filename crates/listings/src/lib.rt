//! The fields that a set-up puts, in words.
#![tactic(auto)]

mod puts;
mod row;

pub use puts::{Esp32C3Puts, Esp32Puts};
