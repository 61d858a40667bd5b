//! Bytes as a text can show them.
use std::{fmt, str};

// How many bytes are shown.
const SHOWN: usize = 40;

// How many characters a byte takes at most: `\xNN`.
const WIDEST: usize = 4;

const HEX: &[u8; 16] = b"0123456789abcdef";

/// Bytes between quotes, at most 40 of them; those that do not print as `\xNN`.
#[derive(Clone, Copy)]
pub struct Shown<'a>(pub &'a [u8]);

impl fmt::Display for Shown<'_> {
    fn fmt<W: fmt::Write>(&self, f: &mut fmt::Formatter<W>) -> fmt::Result {
        // Written in one piece; a character at a time takes about twice as long.
        let mut text = [0u8; SHOWN * WIDEST];
        let mut len = 0;
        for byte in self.0.iter().take(SHOWN) {
            // Never so, as there is room for all that are shown; it keeps the places in bounds.
            if len > text.len() - WIDEST {
                break;
            }
            match byte {
                b' '..=b'~' => {
                    text[len] = *byte;
                    len += 1;
                }
                _ => {
                    text[len] = b'\\';
                    text[len + 1] = b'x';
                    text[len + 2] = HEX[(byte / 16) as usize];
                    text[len + 3] = HEX[(byte % 16) as usize];
                    len += WIDEST;
                }
            }
        }
        let shown = text.get(..len).and_then(|bytes| str::from_utf8(bytes).ok());
        write!(f, "\"{}\"", shown.unwrap_or(""))?;
        if self.0.len() > SHOWN {
            write!(f, " and more, in all {} bytes", self.0.len())?;
        }
        Ok(())
    }
}
