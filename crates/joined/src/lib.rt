//! Transfers of words: a start and a wait joined in one call.
#![tactic(auto)]

mod receive;
mod transmit;
mod word;

pub use receive::read_words;
pub use transmit::write_words;
pub use word::{AcceptedWord, accepted_bytes};
