//! What a set-up puts, function by function of its chip.
use crate::row::RowText;
use new_registers::rows as new_rows;
use old_registers::rows as old_rows;
use old_setups as esp32;
use setups::esp32c3;
use std::fmt;

/// What a set-up of the new chip puts, as the transmit unit's and as the receive unit's.
#[derive(Clone, Copy)]
pub struct Esp32C3Puts<'a>(pub &'a esp32c3::Setup);

impl fmt::Display for Esp32C3Puts<'_> {
    fn fmt<W: fmt::Write>(&self, f: &mut fmt::Formatter<W>) -> fmt::Result {
        let numbers = self.0.numbers();
        f.write_str("puts of the transmit unit, in order:\n")?;
        write!(f, "{}", RowText(&new_rows::tx_clock(&numbers)))?;
        write!(f, "{}", RowText(&new_rows::tx_form(&numbers)))?;
        f.write_str("puts of the receive unit, in order:\n")?;
        write!(f, "{}", RowText(&new_rows::rx_clock(&numbers)))?;
        write!(f, "{}", RowText(&new_rows::rx_form(&numbers)))
    }
}

/// What a set-up of both units of the old chip puts.
#[derive(Clone, Copy)]
pub struct Esp32Puts<'a>(pub &'a esp32::Setup);

impl fmt::Display for Esp32Puts<'_> {
    fn fmt<W: fmt::Write>(&self, f: &mut fmt::Formatter<W>) -> fmt::Result {
        let setup = self.0;
        let numbers = setup.numbers();
        f.write_str("puts of the transmit unit, in order:\n")?;
        write!(f, "{}", RowText(&old_rows::tx_set(&setup.tx_numbers())))?;
        f.write_str("puts of the receive unit, in order:\n")?;
        write!(f, "{}", RowText(&old_rows::rx_set(&setup.rx_numbers())))?;
        f.write_str("puts of the clock and of what both units share, in order:\n")?;
        write!(f, "{}", RowText(&old_rows::clock(&numbers)))?;
        write!(f, "{}", RowText(&old_rows::form(&numbers)))
    }
}
