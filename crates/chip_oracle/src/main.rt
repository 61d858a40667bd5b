//! Makes calls of the chips over a block that notes what is done to it, a line each, and prints a line for each: the notes in their
//! order and the answer, with commas between them. So it does with orders, which are calls on the units of a chip that is opened.
//!
//! A line is words with spaces between them; lines without a word, and those that begin with #, pass. A call:
//!
//!   CHIP NAME TX RX LATE WAIT HUNG ENABLED ARGUMENTS
//!
//! CHIP is 0 for the old chip and 1 for the new one, NAME the driver's name of the function, all others are whole numbers. What was
//! done before the call is not noted: TX and RX are 0 where that half is at rest, 1 where it was started, and 2 where it was
//! polled until it ended; LATE, WAIT and HUNG are what each start draws; ENABLED is a mask of the enabled events. The arguments:
//!
//!   configure                                      both units, as in setup_oracle without the first number: of the new chip the
//!                                                  transmit unit and then the receive unit; of the old chip RATE FORMAT and both
//!   configure_tx configure_rx                      a unit; of the old chip its FORMAT first
//!   tx_start wait_for_tx_done wait_for_rx_done     ALLOWANCE
//!   rx_start                                       LENGTH
//!   enable_listen                                  MASK ON
//!   listen unlisten clear_interrupts               MASK
//!   set_master update reset_tx tx_stop reset_rx interrupts
//!
//! A MASK has 1 for rx_hung, 2 for tx_hung, 4 for rx_done, 8 for tx_done. The notes:
//!
//!   put FIELD NUMBER        the number that the field then stores
//!   clear HALF EVENTS
//!   enable HALF EVENTS on   or off
//!   poll tx idle            or busy
//!   poll rx EVENTS          those that stand then
//!
//! The answer is `end` where the function answers nothing, `answer` with the polls or `none`, `answer` with events, or `refused N`.
//!
//! The lines of an order, with tx or rx for UNIT:
//!
//!   open CHIP TX_LIMIT RX_LIMIT TX_STARTS RX_STARTS DRAWS SET-UPS
//!   UNIT apply_config ARGUMENTS                    a unit, of the old chip without its format
//!   UNIT start LENGTH ALLOWANCE
//!   UNIT wait ALLOWANCE
//!   UNIT stop                                      tx_stop of the transmit unit, abandon of the receive unit
//!   UNIT listen MASK                               and so unlisten and clear_interrupts
//!   interrupts                                     ends the order
//!
//! The block is new, and DRAWS has LATE WAIT HUNG for each of the first TX_STARTS starts of the transmit half, and then for the first
//! RX_STARTS of the receive half. SET-UPS are both units as in configure. The answer to `open` is `end`, or `refused N UNIT`, and
//! then no call follows. A unit answers `end`, `answer` with the polls of a start or a wait, `not taken` where it takes no such call
//! at that point, or `refused N`, with length and limit behind 7 and with the polls behind 8 and 9.
#![tactic(auto)]

mod before;
mod functions;
mod interrupts;
mod new_chip;
mod old_chip;
mod order;
mod print;

use before::Before;
use order::{LAST, Line, read_opening};
use std::io;
use std::process::ExitCode;

// The numbers that say what was done before a call.
const BEFORE: usize = 6;

// Words as numbers; none where one is no number of 32 bits.
fn read_numbers(rt: &HostRuntime, line: &str) -> io::Result<Option<Vec<u32>>> {
    let mut numbers = Vec::new(rt.alloc());
    for word in line.split_whitespace().skip(2) {
        let Ok(number) = word.parse() else {
            return Ok(None);
        };
        numbers.push(number)?;
    }
    Ok(Some(numbers))
}

// Answers a call; false where there is none like that, or it did more than is noted.
fn answer(rt: &HostRuntime, line: &str) -> io::Result<bool> {
    let mut words = line.split_whitespace();
    let (Some(chip), Some(name)) = (words.next(), words.next()) else {
        return Ok(false);
    };
    let Some(numbers) = read_numbers(rt, line)? else {
        return Ok(false);
    };
    let Some((before, arguments)) = numbers.as_slice().split_at_checked(BEFORE) else {
        return Ok(false);
    };
    match (chip, Before::read(before)) {
        ("0", Some(before)) => old_chip::run(rt, before, name, arguments),
        ("1", Some(before)) => new_chip::run(rt, before, name, arguments),
        _ => Ok(false),
    }
}

// The word that begins an order.
const FIRST: &str = "open";

// Whether the line begins an order.
fn opens(line: &str) -> bool {
    line.split_whitespace().next() == Some(FIRST)
}

// Makes an order; false where a line is none of one.
fn make_order(rt: &HostRuntime, lines: &[Line]) -> io::Result<bool> {
    let Some(first) = lines.first() else {
        return Ok(false);
    };
    let text = first.text.as_str();
    let Some(numbers) = read_numbers(rt, text)? else {
        return print::no_call(rt, first);
    };
    let Some(opening) = read_opening(rt, numbers.as_slice())? else {
        return print::no_call(rt, first);
    };
    match text.split_whitespace().nth(1) {
        Some("0") => old_chip::make_order(rt, &opening, lines),
        Some("1") => new_chip::make_order(rt, &opening, lines),
        _ => print::no_call(rt, first),
    }
}

// Makes a call that stands alone, or takes a line to those of an order and makes that at its last; false where a line is neither.
fn take(rt: &HostRuntime, line: Line, order: &mut Vec<Line>) -> io::Result<bool> {
    let text = line.text.as_str();
    if order.is_empty() && !opens(text) {
        return Ok(answer(rt, text)? || print::no_call(rt, &line)?);
    }
    let is_last = text.trim() == LAST;
    order.push(line)?;
    if !is_last {
        return Ok(true);
    }
    let is_order = make_order(rt, order.as_slice())?;
    order.clear();
    Ok(is_order)
}

fn main(rt: HostRuntime) -> io::Result<ExitCode> {
    let mut order = Vec::new(rt.alloc());
    for (number, line) in (1..u64::MAX).zip(rt.lines(rt.alloc())) {
        let text = match line {
            Ok(line) => line,
            Err(error) => {
                eprintln!(rt; "chip_oracle: line {number} cannot be read: {error}")?;
                return Ok(ExitCode::FAILURE);
            }
        };
        if text.starts_with('#') || text.trim().is_empty() {
            continue;
        }
        if !take(&rt, Line { number, text }, &mut order)? {
            return Ok(ExitCode::FAILURE);
        }
    }
    if let Some(first) = order.first() {
        eprintln!(rt;
            "chip_oracle: the order of line {} has no end",
            first.number
        )?;
        return Ok(ExitCode::FAILURE);
    }
    Ok(ExitCode::SUCCESS)
}
