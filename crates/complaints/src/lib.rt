//! What is wrong with a sheet that asks no set-up, in words.
#![tactic(auto)]

mod lines;
mod wrong;

pub use wrong::{BadLineText, LackText, WrongText};
