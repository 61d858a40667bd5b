//! Verdicts in words.
use crate::picture::PictureText;
use dividers::{DividerRange, I2sClockDividers};
use old_setups as esp32;
use setups::esp32c3;
use std::fmt;
use verdicts::{Fault, Frame, Refused};

// The most slots of a frame, the most bits of one, and the fastest clock in hertz.
const MOST_SLOTS: u8 = 16;

const MOST_FRAME: u16 = 128;

const MOST_CLOCK: u32 = u32::MAX;

/// An accepted set-up of the new chip: its dividers and its frame.
#[derive(Clone, Copy)]
pub struct Esp32C3Text<'a>(pub &'a esp32c3::Setup);

impl fmt::Display for Esp32C3Text<'_> {
    fn fmt<W: fmt::Write>(&self, f: &mut fmt::Formatter<W>) -> fmt::Result {
        let setup = self.0;
        let numbers = setup.numbers();
        writeln!(
            f,
            "accepted: {}, split {} {} {} {}",
            DividersText(setup.dividers()),
            numbers.clkm_div_x,
            numbers.clkm_div_y,
            numbers.clkm_div_z,
            u8::from(numbers.clkm_div_yn1)
        )?;
        write!(f, "{}", PictureText(Frame::of_esp32c3(setup)))?;
        shift_note(f, setup.config().msb_shift)
    }
}

/// An accepted set-up of the old chip.
#[derive(Clone, Copy)]
pub struct Esp32Text<'a>(pub &'a esp32::Setup);

impl fmt::Display for Esp32Text<'_> {
    fn fmt<W: fmt::Write>(&self, f: &mut fmt::Formatter<W>) -> fmt::Result {
        let setup = self.0;
        writeln!(f, "accepted: {}", DividersText(setup.dividers()))?;
        write!(f, "{}", PictureText(Frame::of_esp32(setup)))?;
        f.write_str("polarity: this chip stores none, and word select is drawn as written\n")?;
        shift_note(f, setup.config().tx_config.msb_shift)
    }
}

// What the picture does not draw.
fn shift_note<W: fmt::Write>(f: &mut fmt::Formatter<W>, msb_shift: bool) -> fmt::Result {
    if msb_shift {
        f.write_str("shift: data lags word select by one bit, which is not drawn\n")?;
    }
    Ok(())
}

#[derive(Clone, Copy)]
struct DividersText(I2sClockDividers);

impl fmt::Display for DividersText {
    fn fmt<W: fmt::Write>(&self, f: &mut fmt::Formatter<W>) -> fmt::Result {
        let I2sClockDividers {
            mclk_divider,
            bclk_divider,
            denominator,
            numerator,
        } = self.0;
        write!(
            f,
            "integer part {mclk_divider}, bit divider {bclk_divider}, pair {denominator} {numerator}"
        )
    }
}

/// A refusal: its number, its name, the value that is wrong and its limit.
#[derive(Clone, Copy)]
pub struct RefusalText {
    pub refused: Refused,
    /// The integer parts that the chip takes.
    pub range: DividerRange,
}

impl fmt::Display for RefusalText {
    fn fmt<W: fmt::Write>(&self, f: &mut fmt::Formatter<W>) -> fmt::Result {
        let Refused { error, fault } = self.refused;
        write!(f, "refused by {}, {error:?}: ", error.number())?;
        write_fault(f, fault, self.range)?;
        f.write_char('\n')
    }
}

fn write_fault<W: fmt::Write>(
    f: &mut fmt::Formatter<W>,
    fault: Fault,
    range: DividerRange,
) -> fmt::Result {
    match fault {
        Fault::NoneActive => f.write_str("active slots 0, at least 1 is needed"),
        Fault::Slots(slots) => write!(f, "slots {slots}, at most {MOST_SLOTS} is possible"),
        Fault::WsWidth { bits, most } => write!(
            f,
            "word select is active for {bits} bits, from 1 to {most} is possible"
        ),
        Fault::Frame(bits) => write!(f, "frame {bits} bits, at most {MOST_FRAME} is possible"),
        Fault::NoRate => f.write_str("rate 0 Hz, at least 1 is needed"),
        Fault::Clock(hertz) => {
            write!(f, "a clock of {hertz} Hz, at most {MOST_CLOCK} is possible")
        }
        Fault::IntegerPart(n) => {
            let DividerRange { least, most } = range;
            write!(f, "integer part {n}, from {least} to {most} is possible")
        }
        Fault::Pair(denominator, numerator) => write!(
            f,
            "pair {denominator} {numerator}, the second has to be below the first"
        ),
    }
}
