//! Texts read byte by byte: lines, words, and words that are decimal numbers.
#![tactic(auto)]

mod lines;
mod numbers;
mod parts;
mod shown;

pub use lines::{Lines, first_line};
pub use numbers::{NoNumber, number};
pub use parts::first_word;
pub use shown::Shown;
