//! Calls of the old chip, which has one rate and one format for both units.

use crate::before::Before;
use crate::functions::{Answer, call};
use crate::order::{self, Line, Listed, Opening};
use crate::print;
use blocks::RegBlock;
use chips::RegisterAccessPrivate;
use coded::{esp32_both, esp32_format, esp32_unit};
use esp32::Esp32;
use old_setups::{Config, UnitConfig};
use recorded::{Notes, Recorded};
use simulated::{PacedBlock, ScriptedBlock};
use std::io;

// Takes a set-up of both units over, or says what refuses it.
fn configure<B: RegBlock>(chip: &mut Esp32<B>, config: &Config) -> Answer {
    match Esp32::<B>::check_open(config) {
        Ok(opening) => {
            chip.configure(&opening);
            Answer::Nothing
        }
        Err((_, error)) => Answer::Refused(error.number()),
    }
}

// The same of one unit, which begins with the format that it keeps.
fn configure_unit<B: RegBlock>(
    chip: &mut Esp32<B>,
    arguments: &[u32],
    transmit: bool,
) -> Option<Answer> {
    let [format, unit @ ..] = arguments else {
        return None;
    };
    let (unit, format) = (esp32_unit(unit)?, esp32_format(*format)?);
    Some(match Esp32::<B>::check(&unit, format) {
        Ok(setup) => {
            if transmit {
                chip.configure_tx(&setup);
            } else {
                chip.configure_rx(&setup);
            }
            Answer::Nothing
        }
        Err(error) => Answer::Refused(error.number()),
    })
}

// Makes a call; none where the chip has none like that.
fn called<B: RegBlock>(chip: &mut Esp32<B>, name: &str, arguments: &[u32]) -> Option<Answer> {
    match name {
        "configure" => Some(configure(chip, &esp32_both(arguments)?)),
        "configure_tx" => configure_unit(chip, arguments, true),
        "configure_rx" => configure_unit(chip, arguments, false),
        _ => call(chip, name, arguments),
    }
}

/// Makes a call and prints what it did; false where the chip has none like that.
pub(crate) fn run(
    rt: &HostRuntime,
    before: Before,
    name: &str,
    arguments: &[u32],
) -> io::Result<bool> {
    let mut chip = Esp32 {
        block: PacedBlock::new(before.draw, before.draw),
    };
    before.bring(&mut chip);
    let mut chip = Esp32 {
        block: Recorded::new(chip.block),
    };
    match called(&mut chip, name, arguments) {
        Some(answer) => print::all(rt, &chip.block.notes, answer),
        None => Ok(false),
    }
}

impl<B: RegBlock> Listed for Esp32<Recorded<B>> {
    fn read_config(row: &[u32]) -> Option<Config> {
        esp32_both(row)
    }

    fn read_unit(row: &[u32]) -> Option<UnitConfig> {
        esp32_unit(row)
    }

    fn notes(&self) -> &Notes {
        &self.block.notes
    }
}

/// Makes an order and prints what its calls did; false where a line is none of one.
pub(crate) fn make_order(rt: &HostRuntime, opening: &Opening, lines: &[Line]) -> io::Result<bool> {
    let block = ScriptedBlock::new(opening.tx_draws.as_slice(), opening.rx_draws.as_slice());
    let chip = Esp32 {
        block: Recorded::new(block),
    };
    order::make(rt, chip, opening, lines)
}
