//! The picture of a frame.
use std::fmt;
use verdicts::Frame;

// One frame, a column for each bit: the slots at their first bits, the data line, word select.
#[derive(Clone, Copy)]
pub(crate) struct PictureText(pub(crate) Frame);

impl fmt::Display for PictureText {
    fn fmt<W: fmt::Write>(&self, f: &mut fmt::Formatter<W>) -> fmt::Result {
        let frame = self.0;
        f.write_str("slot ")?;
        let mut room = 0u16;
        for bit in 0..frame.bits() {
            if let Some(slot) = frame.slot_begun(bit) {
                for _ in 0..room {
                    f.write_char(' ')?;
                }
                write!(f, "{slot}")?;
                // A number of two digits takes the column of the next bit too.
                let digits = if slot < 10 { 1 } else { 2 };
                room = (frame.slot_bits as u16).saturating_sub(digits);
            }
        }
        f.write_str("\ndata ")?;
        for bit in 0..frame.bits() {
            f.write_char(char::from(frame.data_mark(bit)))?;
        }
        f.write_str("\nws   ")?;
        for bit in 0..frame.bits() {
            f.write_char(char::from(frame.ws_mark(bit)))?;
        }
        f.write_char('\n')
    }
}
