//! Replies to sheets: what comes of one, and the text to show for it.
#![tactic(auto)]

mod reply;

pub use reply::{Outcome, Reaches, Reply, reply_to};
