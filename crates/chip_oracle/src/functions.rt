//! Calls that every chip takes.

use crate::interrupts::read_interrupts;
use chips::{I2sInterrupts, RegisterAccessPrivate};
use coded::read_flag;

/// What a call answers.
#[derive(Clone, Copy)]
pub enum Answer {
    Nothing,
    Polls(Option<u32>),
    Events(I2sInterrupts),
    Refused(u8),
}

fn read_allowance(arguments: &[u32]) -> Option<u16> {
    match arguments {
        [allowance] => u16::try_from(*allowance).ok(),
        _ => None,
    }
}

// A call that answers nothing; none where it is not one of these, or is not called like that.
fn plain<C: RegisterAccessPrivate>(chip: &mut C, name: &str, arguments: &[u32]) -> Option<()> {
    match (name, arguments) {
        ("set_master", []) => chip.set_master(),
        ("update", []) => chip.update(),
        ("reset_tx", []) => chip.reset_tx(),
        ("tx_stop", []) => chip.tx_stop(),
        ("reset_rx", []) => chip.reset_rx(),
        ("rx_start", [len]) => chip.rx_start(*len),
        ("enable_listen", [mask, on]) => {
            chip.enable_listen(read_interrupts(*mask)?, read_flag(*on)?);
        }
        (_, [mask]) => return of_events(chip, name, read_interrupts(*mask)?),
        _ => return None,
    }
    Some(())
}

// The same of a call with events.
fn of_events<C: RegisterAccessPrivate>(
    chip: &mut C,
    name: &str,
    events: I2sInterrupts,
) -> Option<()> {
    match name {
        "listen" => chip.listen(events),
        "unlisten" => chip.unlisten(events),
        "clear_interrupts" => chip.clear_interrupts(events),
        _ => return None,
    }
    Some(())
}

/// Makes the call; none where no chip has it, or it is not called like that.
pub(crate) fn call<C: RegisterAccessPrivate>(
    chip: &mut C,
    name: &str,
    arguments: &[u32],
) -> Option<Answer> {
    match name {
        "tx_start" => Some(Answer::Polls(chip.tx_start(read_allowance(arguments)?))),
        "wait_for_tx_done" => {
            let polls = chip.wait_for_tx_done(read_allowance(arguments)?);
            Some(Answer::Polls(polls))
        }
        "wait_for_rx_done" => {
            let polls = chip.wait_for_rx_done(read_allowance(arguments)?);
            Some(Answer::Polls(polls))
        }
        "interrupts" if arguments.is_empty() => Some(Answer::Events(chip.interrupts())),
        _ => {
            plain(chip, name, arguments)?;
            Some(Answer::Nothing)
        }
    }
}
