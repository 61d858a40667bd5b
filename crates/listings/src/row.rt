//! A row of puts in words.
ghost use Rattle.std.specs.Prelude.{Some};
ghost use Rattle.listings.specs.Stored.{stored_text};

use fields::Field;
use names::FieldName;
use std::fmt;

// What a put stores: the number, and the field's width in bits.
#[derive(Clone, Copy)]
struct StoredText {
    number: u32,
    width: u32,
}

impl fmt::Display for StoredText {
    ghost output = { λ stored. Some (stored_text stored) };

    fn fmt<W: fmt::Write>(&self, f: &mut fmt::Formatter<W>) -> fmt::Result {
        let StoredText { number, width } = *self;
        let bits = if width == 1 { "bit" } else { "bits" };
        write!(f, "{number} ({width} {bits})")
    }
}

// A line for each put, in order.
#[derive(Clone, Copy)]
pub(crate) struct RowText<'a>(pub(crate) &'a [(Field, u32)]);

impl fmt::Display for RowText<'_> {
    fn fmt<W: fmt::Write>(&self, f: &mut fmt::Formatter<W>) -> fmt::Result {
        for (field, number) in self.0.iter().copied() {
            let width = field.width();
            writeln!(f, "{} = {}", FieldName(field), StoredText { number, width })?;
        }
        Ok(())
    }
}
