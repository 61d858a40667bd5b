//! The lines and keys of a sheet that asks no set-up.
use crate::lines::{is_named, line_of};
use entries::{Key, Unread, keys};
use sheets::{BadLine, Lack, Sheet, read_sheet};
use std::fmt;
use words::{Lines, Shown};

/// Of the lines of a text, each bad one, then what the chip has not, then the keys that are missing.
#[derive(Clone, Copy)]
pub struct WrongText<'a>(pub &'a [u8]);

impl fmt::Display for WrongText<'_> {
    fn fmt<W: fmt::Write>(&self, f: &mut fmt::Formatter<W>) -> fmt::Result {
        let text = self.0;
        let sheet = read_sheet(text).sheet;
        write_bad_lines(f, text)?;
        write_lacks(f, text, &sheet)?;
        write_missing(f, text, &sheet)
    }
}

fn write_bad_lines<W: fmt::Write>(f: &mut fmt::Formatter<W>, text: &[u8]) -> fmt::Result {
    let mut sheet = Sheet::new();
    for (number, line) in (1..u64::MAX).zip(Lines::new(text)) {
        if let Err(bad) = sheet.take_line(line) {
            let wrong = bad_line(bad);
            write_line(f, number, line, wrong)?;
        }
    }
    Ok(())
}

// What the chip has not.
fn write_lacks<W: fmt::Write>(
    f: &mut fmt::Formatter<W>,
    text: &[u8],
    sheet: &Sheet,
) -> fmt::Result {
    for key in keys() {
        if let Some((number, line)) = line_of(text, key)
            && let Some(lack) = sheet.lack(key)
        {
            write_line(f, number, line, lacking(key, lack))?;
        }
    }
    Ok(())
}

// The keys that no line names.
fn write_missing<W: fmt::Write>(
    f: &mut fmt::Formatter<W>,
    text: &[u8],
    sheet: &Sheet,
) -> fmt::Result {
    for key in keys() {
        if sheet.lack(key) == Some(Lack::Missing) && !is_named(text, key) {
            writeln!(f, "no line has {key}; {} is expected", key.expected())?;
        }
    }
    Ok(())
}

/// What is wrong with a line that is not read, and what is expected.
#[derive(Clone, Copy)]
pub struct BadLineText(pub BadLine);

impl fmt::Display for BadLineText {
    fn fmt<W: fmt::Write>(&self, f: &mut fmt::Formatter<W>) -> fmt::Result {
        let Wrong { what, expected } = bad_line(self.0);
        write!(f, "{what}; {expected} is expected")
    }
}

/// What is wrong with a key of a sheet, and what is expected.
#[derive(Clone, Copy)]
pub struct LackText {
    pub key: Key,
    pub lack: Lack,
}

impl fmt::Display for LackText {
    fn fmt<W: fmt::Write>(&self, f: &mut fmt::Formatter<W>) -> fmt::Result {
        let Wrong { what, expected } = lacking(self.key, self.lack);
        write!(f, "{}: {what}; {expected} is expected", self.key)
    }
}

// What is wrong with a line, and what is expected.
#[derive(Clone, Copy)]
struct Wrong {
    what: &'static str,
    expected: &'static str,
}

fn write_line<W: fmt::Write>(
    f: &mut fmt::Formatter<W>,
    number: u64,
    line: &[u8],
    wrong: Wrong,
) -> fmt::Result {
    let Wrong { what, expected } = wrong;
    writeln!(
        f,
        "line {number}, {}: {what}; {expected} is expected",
        Shown(line)
    )
}

fn bad_line(bad: BadLine) -> Wrong {
    match bad {
        BadLine::Unread(Unread::NoKey) => Wrong {
            what: "no key has this name",
            expected: "chip, rate, slots, active, fill, format, width, polarity, shift, endianness or order",
        },
        BadLine::Unread(Unread::NoValue(key)) => Wrong {
            what: "the key has no value",
            expected: key.expected(),
        },
        BadLine::Unread(Unread::ManyValues(key)) => Wrong {
            what: "the key has more than one value",
            expected: key.expected(),
        },
        BadLine::Unread(Unread::NotAValue(key)) => Wrong {
            what: "the key has no such value",
            expected: key.expected(),
        },
        BadLine::Twice(_) => Wrong {
            what: "a line before has the key",
            expected: "one line for each key",
        },
    }
}

fn lacking(key: Key, lack: Lack) -> Wrong {
    match lack {
        Lack::Foreign => Wrong {
            what: "the ESP32 has no such key",
            expected: "no line for it",
        },
        Lack::NoSetUp => Wrong {
            what: "the ESP32 has no such set-up",
            expected: esp32_has(key),
        },
        Lack::Digits => Wrong {
            what: "the row has not as many digits as there are slots",
            expected: "a digit for each slot",
        },
        Lack::Missing => Wrong {
            what: "the key is missing",
            expected: key.expected(),
        },
    }
}

// What the old chip has for a key.
fn esp32_has(key: Key) -> &'static str {
    match key {
        Key::Slots => "2",
        Key::Active => {
            "11 with fill repeat (stereo), 10 with fill repeat (mono), 10 with fill 0 (left) or 01 with fill 0 (right)"
        }
        Key::Format => "32/32 or 16/16",
        Key::Width => "half or bit",
        _ => key.expected(),
    }
}
