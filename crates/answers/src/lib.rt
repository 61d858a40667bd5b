//! Answers in words to lines that ask for plans.
#![tactic(auto)]

mod answer;
mod texts;

pub use answer::{Answer, answer_line, summary};
