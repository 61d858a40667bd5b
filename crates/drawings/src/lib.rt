//! Verdicts in words, and the picture of a frame.
#![tactic(auto)]

mod picture;
mod verdict;

pub use verdict::{Esp32C3Text, Esp32Text, RefusalText};
