//! Sheets: one unit's set-up, as a gin writes it line by line.
#![tactic(auto)]

mod asked;
mod lack;
mod reading;
mod sheet;

pub use asked::Asked;
pub use lack::Lack;
pub use reading::{BadLine, Reading, read_sheet};
pub use sheet::{Sheet, Twice};
