//! Prints what a call did and answered, as one line.

use crate::functions::Answer;
use crate::order::Line;
use calls::{Answer as UnitsAnswer, UnitAnswer};
use chips::I2sInterrupts;
use errors::{DmaError, Error, OpenError};
use fields::{Field, Side};
use marks::Events;
use names::FieldName;
use recorded::{Note, Notes};
use std::io;

// The driver's names of a half's four events, without tx_ and rx_.
fn event_names(half: Side) -> [&'static str; 4] {
    match half {
        Side::Transmit => ["hung", "done", "out_done", "out_total_eof"],
        Side::Receive => ["hung", "done", "in_done", "in_suc_eof"],
    }
}

fn print_events(rt: &HostRuntime, half: Side, events: Events) -> io::Result<()> {
    match half {
        Side::Transmit => print!(rt; "tx")?,
        Side::Receive => print!(rt; "rx")?,
    }
    let named = [events.hung, events.done, events.link_done, events.eof];
    for (name, is_named) in event_names(half).iter().zip(named.iter()) {
        if *is_named {
            print!(rt; " {}", *name)?;
        }
    }
    Ok(())
}

fn print_put(rt: &HostRuntime, field: Field, number: u32) -> io::Result<()> {
    print!(rt; "put {} {number}", FieldName(field))
}

fn print_note(rt: &HostRuntime, note: Note) -> io::Result<()> {
    match note {
        Note::Put(field, number) => print_put(rt, field, number),
        Note::Clear(half, events) => {
            print!(rt; "clear ")?;
            print_events(rt, half, events)
        }
        Note::Enable(half, events, on) => {
            print!(rt; "enable ")?;
            print_events(rt, half, events)?;
            if on {
                print!(rt; " on")
            } else {
                print!(rt; " off")
            }
        }
        Note::PollTx(true) => print!(rt; "poll tx idle"),
        Note::PollTx(false) => print!(rt; "poll tx busy"),
        Note::PollRx(events) => {
            print!(rt; "poll ")?;
            print_events(rt, Side::Receive, events)
        }
    }
}

fn print_interrupts(rt: &HostRuntime, events: I2sInterrupts) -> io::Result<()> {
    print!(rt; "answer")?;
    let names = ["rx_hung", "tx_hung", "rx_done", "tx_done"];
    let answered = [
        events.rx_hung,
        events.tx_hung,
        events.rx_done,
        events.tx_done,
    ];
    for (name, is_answered) in names.iter().zip(answered.iter()) {
        if *is_answered {
            print!(rt; " {}", *name)?;
        }
    }
    println!(rt; "")
}

/// Prints an answer, which ends a line.
pub(crate) fn print_answer(rt: &HostRuntime, answer: Answer) -> io::Result<()> {
    match answer {
        Answer::Nothing => println!(rt; "end"),
        Answer::Polls(Some(polls)) => println!(rt; "answer {polls}"),
        Answer::Polls(None) => println!(rt; "answer none"),
        Answer::Events(events) => print_interrupts(rt, events),
        Answer::Refused(number) => println!(rt; "refused {number}"),
    }
}

// Prints notes, each with a comma behind it.
fn print_notes(rt: &HostRuntime, notes: &[Note]) -> io::Result<()> {
    for note in notes {
        print_note(rt, *note)?;
        print!(rt; ", ")?;
    }
    Ok(())
}

/// Prints the notes of a call in their order, and its answer; false, and nothing printed, where notes were lost.
pub(crate) fn all(rt: &HostRuntime, notes: &Notes, answer: Answer) -> io::Result<bool> {
    if notes.lost != 0 {
        return Ok(false);
    }
    print_notes(rt, notes.kept.as_slice())?;
    print_answer(rt, answer)?;
    Ok(true)
}

/// Prints the notes behind those of the earlier calls, and answers how many there are now; none where notes were lost.
pub(crate) fn more(rt: &HostRuntime, notes: &Notes, earlier: usize) -> io::Result<Option<usize>> {
    let kept = notes.kept.as_slice();
    let Some((_, of_call)) = kept.split_at_checked(earlier) else {
        return Ok(None);
    };
    if notes.lost != 0 {
        return Ok(None);
    }
    print_notes(rt, of_call)?;
    Ok(Some(kept.len()))
}

/// Prints the answer of either unit.
pub(crate) fn unit_answer(rt: &HostRuntime, answer: UnitsAnswer) -> io::Result<()> {
    let (UnitsAnswer::Transmit(answer) | UnitsAnswer::Receive(answer)) = answer;
    match answer {
        UnitAnswer::Done => print_answer(rt, Answer::Nothing),
        UnitAnswer::Polled(polls) => print_answer(rt, Answer::Polls(Some(polls))),
        UnitAnswer::Refused(error) => print_refusal(rt, error),
        UnitAnswer::NotTaken => println!(rt; "not taken"),
    }
}

// A refusal's number and what it carries.
fn print_refusal(rt: &HostRuntime, error: Error) -> io::Result<()> {
    print!(rt; "refused {}", error.number())?;
    match error {
        Error::ConfigError(_) | Error::IllegalArgument => println!(rt; ""),
        Error::DmaError(DmaError { length, limit }) => println!(rt; " {length} {limit}"),
        Error::StartTimedOut(polls) | Error::TimedOut(polls) => println!(rt; " {polls}"),
    }
}

/// Prints why an opening is refused, and whose set-up it is.
pub(crate) fn open_refusal(rt: &HostRuntime, error: OpenError) -> io::Result<()> {
    let unit = match error.unit {
        Side::Transmit => "tx",
        Side::Receive => "rx",
    };
    println!(rt; "refused {} {unit}", error.error.number())
}

/// Says that a line is no call, and is false.
pub(crate) fn no_call(rt: &HostRuntime, line: &Line) -> io::Result<bool> {
    eprintln!(rt;
        "chip_oracle: line {} is no call: \"{}\"",
        line.number, line.text
    )?;
    Ok(false)
}
