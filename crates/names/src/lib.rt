//! The fields by the names that the published driver has for them.
#![tactic(auto)]

mod field_name;
mod table;

pub use field_name::FieldName;
pub use table::{RX_FIELDS, TX_FIELDS};
