//! The dividers of a set-up, shown with the law that their fraction is nearest, also where its clock is out of reach; and the settled
//! figures of both chips.
#![tactic(auto)]

mod clock;
mod figures;

pub use clock::{clock_of, esp32_clock, esp32c3_clock};
pub use figures::{settled_frames, settled_rates};
