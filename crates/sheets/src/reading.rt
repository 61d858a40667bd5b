//! A sheet read line by line.
ghost use Rattle.std.specs.Prelude.{◌≡◌};
ghost use Rattle.sheets.specs.Readings.{line_answer, nothing_read, reading_after, reading_of, sheet_after_line};

use crate::sheet::Sheet;
use entries::{Key, Unread, read_entry};
use words::Lines;

/// Why a line counts for nothing.
#[derive(Clone, Copy, PartialEq, Eq)]
pub enum BadLine {
    Unread(Unread),
    /// A line before it has the same key.
    Twice(Key),
}

/// What a sheet says.
#[derive(Clone, Copy)]
pub struct Reading {
    pub sheet: Sheet,
    /// Whether no line is bad.
    pub all_read: bool,
}

impl Sheet {
    /// Takes a line, if it says anything.
    pub fn take_line(&mut self, line: &[u8]) -> Result<(), BadLine>
        ensures sheet { self.new ≡ sheet_after_line self.old line.now }
        ensures answer { result ≡ line_answer self.old line.now }
    {
        if let Some(entry) = read_entry(line).map_err(BadLine::Unread)? {
            self.take(entry).map_err(|_| BadLine::Twice(entry.key()))?;
        }
        Ok(())
    }
}

impl Reading {
    const fn new() -> Reading
        ensures { result ≡ nothing_read }
    {
        Reading {
            sheet: Sheet::new(),
            all_read: true,
        }
    }

    fn take_line(&mut self, line: &[u8])
        ensures { self.new ≡ reading_after self.old line.now }
    {
        if self.sheet.take_line(line).is_err() {
            self.all_read = false;
        }
    }
}

/// What the lines of a text say.
pub fn read_sheet(text: &[u8]) -> Reading
    ensures { result ≡ reading_of text.now }
{
    let mut reading = Reading::new();
    for line in Lines::new(text) {
        reading.take_line(line);
    }
    reading
}
