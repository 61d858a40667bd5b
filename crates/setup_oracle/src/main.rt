//! Checks set-ups, a line each, and prints a line for each: `refused N`, or the numbers by name.
//!
//! A line is whole numbers with spaces between them; lines without a word, and those that begin with #, pass. A unit of the
//! new chip, and both units of the old one:
//!
//!   1 RATE COUNT MASK FILLED FILL FORMAT WIDTH BITS POLARITY SHIFT ENDIANNESS ORDER
//!   0 RATE FORMAT, then CHANNELS WIDTH POLARITY SHIFT of the transmit unit, then the same of the receive unit
//!
//! FORMAT, WIDTH, POLARITY, ENDIANNESS, ORDER and the old chip's CHANNELS are places of an enum's variants, counted from 0 as they
//! are declared. FILLED is 1 where inactive channels send FILL, and 0 where there is no fill and FILL is 0. BITS is 0 but where
//! WIDTH is `Bits`. SHIFT is 0 or 1.
#![tactic(auto)]

mod new_chip;
mod old_chip;

use coded::{esp32_both, esp32c3_unit};
use std::io;
use std::process::ExitCode;

// The words of a line as numbers; none where one is no number of 32 bits.
fn read_numbers(rt: &HostRuntime, line: &str) -> io::Result<Option<Vec<u32>>> {
    let mut numbers = Vec::new(rt.alloc());
    for word in line.split_whitespace() {
        let Ok(number) = word.parse() else {
            return Ok(None);
        };
        numbers.push(number)?;
    }
    Ok(Some(numbers))
}

// Answers a line; false where it is no set-up.
fn answer(rt: &HostRuntime, line: &str) -> io::Result<bool> {
    let Some(numbers) = read_numbers(rt, line)? else {
        return Ok(false);
    };
    match numbers.as_slice() {
        [1, row @ ..] => {
            let Some(unit) = esp32c3_unit(row) else {
                return Ok(false);
            };
            new_chip::print(rt, &unit)?;
        }
        [0, row @ ..] => {
            let Some(both) = esp32_both(row) else {
                return Ok(false);
            };
            old_chip::print(rt, &both)?;
        }
        _ => return Ok(false),
    }
    Ok(true)
}

fn main(rt: HostRuntime) -> io::Result<ExitCode> {
    for (number, line) in (1..u64::MAX).zip(rt.lines(rt.alloc())) {
        let line = match line {
            Ok(line) => line,
            Err(error) => {
                eprintln!(rt; "setup_oracle: line {number} cannot be read: {error}")?;
                return Ok(ExitCode::FAILURE);
            }
        };
        let text = line.as_str();
        if text.starts_with('#') || text.trim().is_empty() {
            continue;
        }
        if !answer(&rt, text)? {
            eprintln!(rt; "setup_oracle: line {number} is no set-up: \"{text}\"")?;
            return Ok(ExitCode::FAILURE);
        }
    }
    Ok(ExitCode::SUCCESS)
}
