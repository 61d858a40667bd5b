//! Calls of the new chip, which has a set-up for each unit.

use crate::before::Before;
use crate::functions::{Answer, call};
use crate::order::{self, Line, Listed, Opening};
use crate::print;
use blocks::RegBlock;
use chips::RegisterAccessPrivate;
use coded::esp32c3_unit;
use esp32c3::Esp32C3;
use recorded::{Notes, Recorded};
use setups::esp32c3::{Config, UnitConfig};
use simulated::{PacedBlock, ScriptedBlock};
use std::io;

// The numbers of a unit.
const WORDS: usize = 12;

// Takes a set-up of both units over, or says what refuses it.
fn configure<B: RegBlock>(chip: &mut Esp32C3<B>, tx: UnitConfig, rx: UnitConfig) -> Answer {
    let config = Config {
        rx_config: rx,
        tx_config: tx,
    };
    match Esp32C3::<B>::check_open(&config) {
        Ok(opening) => {
            chip.configure(&opening);
            Answer::Nothing
        }
        Err((_, error)) => Answer::Refused(error.number()),
    }
}

// The same of one unit.
fn configure_unit<B: RegBlock>(chip: &mut Esp32C3<B>, unit: UnitConfig, transmit: bool) -> Answer {
    match Esp32C3::<B>::check(&unit, unit.data_format) {
        Ok(setup) => {
            if transmit {
                chip.configure_tx(&setup);
            } else {
                chip.configure_rx(&setup);
            }
            Answer::Nothing
        }
        Err(error) => Answer::Refused(error.number()),
    }
}

// Makes a call; none where the chip has none like that.
fn called<B: RegBlock>(chip: &mut Esp32C3<B>, name: &str, arguments: &[u32]) -> Option<Answer> {
    match name {
        "configure" => {
            let (tx, rx) = arguments.split_at_checked(WORDS)?;
            Some(configure(chip, esp32c3_unit(tx)?, esp32c3_unit(rx)?))
        }
        "configure_tx" => Some(configure_unit(chip, esp32c3_unit(arguments)?, true)),
        "configure_rx" => Some(configure_unit(chip, esp32c3_unit(arguments)?, false)),
        _ => call(chip, name, arguments),
    }
}

/// Makes a call and prints what it did; false where the chip has none like that.
pub(crate) fn run(
    rt: &HostRuntime,
    before: Before,
    name: &str,
    arguments: &[u32],
) -> io::Result<bool> {
    let mut chip = Esp32C3 {
        block: PacedBlock::new(before.draw, before.draw),
    };
    before.bring(&mut chip);
    let mut chip = Esp32C3 {
        block: Recorded::new(chip.block),
    };
    match called(&mut chip, name, arguments) {
        Some(answer) => print::all(rt, &chip.block.notes, answer),
        None => Ok(false),
    }
}

impl<B: RegBlock> Listed for Esp32C3<Recorded<B>> {
    fn read_config(row: &[u32]) -> Option<Config> {
        let (tx, rx) = row.split_at_checked(WORDS)?;
        Some(Config {
            tx_config: esp32c3_unit(tx)?,
            rx_config: esp32c3_unit(rx)?,
        })
    }

    fn read_unit(row: &[u32]) -> Option<UnitConfig> {
        esp32c3_unit(row)
    }

    fn notes(&self) -> &Notes {
        &self.block.notes
    }
}

/// Makes an order and prints what its calls did; false where a line is none of one.
pub(crate) fn make_order(rt: &HostRuntime, opening: &Opening, lines: &[Line]) -> io::Result<bool> {
    let block = ScriptedBlock::new(opening.tx_draws.as_slice(), opening.rx_draws.as_slice());
    let chip = Esp32C3 {
        block: Recorded::new(block),
    };
    order::make(rt, chip, opening, lines)
}
