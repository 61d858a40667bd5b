//! One line of a sheet: a key of a unit's set-up and its value.
#![tactic(auto)]

mod entry;
mod key;
mod read;
mod row;
mod values;

pub use entry::{Chip, Entry, Fill};
pub use key::{Key, keys};
pub use read::{Unread, read_entry};
pub use row::Row;
