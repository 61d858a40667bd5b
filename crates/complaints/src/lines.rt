//! The lines of a sheet by their keys.
use entries::{Key, read_entry};
use words::{Lines, first_word};

// Whether a line names a key, with whatever value.
fn names(line: &[u8], key: Key) -> bool {
    Key::named(first_word(line).0) == Some(key)
}

// Whether some line names a key.
pub(crate) fn is_named(text: &[u8], key: Key) -> bool {
    Lines::new(text).any(|line| names(line, key))
}

// Whether a line says something of a key.
fn says(line: &[u8], key: Key) -> bool {
    matches!(read_entry(line), Ok(Some(entry)) if entry.key() == key)
}

// The first line that says something of a key, by its number.
pub(crate) fn line_of(text: &[u8], key: Key) -> Option<(u64, &[u8])> {
    (1..u64::MAX)
        .zip(Lines::new(text))
        .find(|(_, line)| says(line, key))
}
