//! A field's name as a text.
use crate::table::NAMES;
use fields::Field;
use std::fmt;

/// The name of a field; fields of both chips may share one.
#[derive(Clone, Copy)]
pub struct FieldName(pub Field);

impl fmt::Display for FieldName {
    fn fmt<W: fmt::Write>(&self, f: &mut fmt::Formatter<W>) -> fmt::Result {
        let place = self.0.place();
        f.write_str(NAMES[place])
    }
}
