//! Calls and answers of units in words.
use crate::driven::fault;
use crate::script::{Script, SetUp};
use calls::{Answer, Call, UnitAnswer, UnitCall};
use chips::I2sInterrupts;
use dividers::DividerRange;
use drawings::RefusalText;
use errors::Error;
use std::fmt;
use words::Shown;

/// A call as the script writes it.
#[derive(Clone, Copy)]
pub struct CallText<'a> {
    pub call: Call<usize>,
    pub set_ups: &'a [SetUp<'a>],
}

impl fmt::Display for CallText<'_> {
    fn fmt<W: fmt::Write>(&self, f: &mut fmt::Formatter<W>) -> fmt::Result {
        let (unit, stop, call) = match self.call {
            Call::Transmit(call) => ("transmit", "stop", call),
            Call::Receive(call) => ("receive", "abandon", call),
        };
        write!(f, "{unit} ")?;
        match call {
            UnitCall::ApplyConfig(place) => match self.set_ups.get(place) {
                Some(set_up) => write!(f, "apply {}", Shown(set_up.name)),
                None => f.write_str("apply"),
            },
            UnitCall::Start(len, allowance) => write!(f, "start {len} {allowance}"),
            UnitCall::Wait(allowance) => write!(f, "wait {allowance}"),
            UnitCall::Stop => f.write_str(stop),
            UnitCall::Listen(events) => write!(f, "listen{}", EventsText(events)),
            UnitCall::Unlisten(events) => write!(f, "unlisten{}", EventsText(events)),
            UnitCall::ClearInterrupts(events) => write!(f, "clear{}", EventsText(events)),
        }
    }
}

/// Events by their names, each after a blank.
#[derive(Clone, Copy)]
pub struct EventsText(pub I2sInterrupts);

impl fmt::Display for EventsText {
    fn fmt<W: fmt::Write>(&self, f: &mut fmt::Formatter<W>) -> fmt::Result {
        let I2sInterrupts {
            rx_hung,
            tx_hung,
            rx_done,
            tx_done,
        } = self.0;
        for (name, is_named) in [
            (" rx_hung", rx_hung),
            (" tx_hung", tx_hung),
            (" rx_done", rx_done),
            (" tx_done", tx_done),
        ] {
            if is_named {
                f.write_str(name)?;
            }
        }
        Ok(())
    }
}

/// What a call was answered, in a line.
#[derive(Clone, Copy)]
pub struct AnswerText<'a> {
    pub call: Call<usize>,
    pub answer: Answer,
    pub set_ups: &'a [SetUp<'a>],
}

impl fmt::Display for AnswerText<'_> {
    fn fmt<W: fmt::Write>(&self, f: &mut fmt::Formatter<W>) -> fmt::Result {
        let (Answer::Transmit(answer) | Answer::Receive(answer)) = self.answer;
        match answer {
            UnitAnswer::Done => writeln!(f, "done"),
            UnitAnswer::Polled(1) => writeln!(f, "done, 1 poll"),
            UnitAnswer::Polled(polls) => writeln!(f, "done, {polls} polls"),
            UnitAnswer::Refused(error @ Error::ConfigError(_)) => match self.refused_set_up() {
                Some(text) => write!(f, "{text}"),
                None => writeln!(f, "{error}"),
            },
            UnitAnswer::Refused(error @ Error::IllegalArgument) => {
                writeln!(f, "{error}, and this one is {}", self.length())
            }
            UnitAnswer::Refused(error) => writeln!(f, "{error}"),
            UnitAnswer::NotTaken => writeln!(f, "not taken, and nothing is done: {}", self.why()),
        }
    }
}

impl AnswerText<'_> {
    // What is out of range in the set-up that the call applies.
    fn refused_set_up(&self) -> Option<RefusalText> {
        let (Call::Transmit(call) | Call::Receive(call)) = self.call;
        match call {
            UnitCall::ApplyConfig(place) => Some(RefusalText {
                refused: fault(&self.set_ups.get(place)?.asked)?,
                range: DividerRange::eight_bits(),
            }),
            _ => None,
        }
    }

    // The length that a start asks.
    fn length(&self) -> usize {
        let (Call::Transmit(call) | Call::Receive(call)) = self.call;
        match call {
            UnitCall::Start(len, _) => len,
            _ => 0,
        }
    }

    fn why(&self) -> &'static str {
        let (Call::Transmit(call) | Call::Receive(call)) = self.call;
        match call {
            UnitCall::ApplyConfig(_) | UnitCall::Start(_, _) => "the unit runs",
            _ => "the unit is at rest",
        }
    }
}
