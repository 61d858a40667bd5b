//! Plans and faults in words.
use dividers::{I2sClockDividers, I2sMclkDividers};
use plans::{Ask, Chip, Fault, Lack, MOST_FRAME, NoPlan, Plan, Unread, chips};
use std::fmt;
use words::Shown;

// What is asked, and a line for each chip.
#[derive(Clone, Copy)]
pub(crate) struct PlansText(pub(crate) Ask);

impl fmt::Display for PlansText {
    fn fmt<W: fmt::Write>(&self, f: &mut fmt::Formatter<W>) -> fmt::Result {
        let Ask { rate, slots, bits } = self.0;
        writeln!(f, "{rate} {slots} {bits}")?;
        for chip in &chips() {
            writeln!(f, "  {}: {}", chip.name, PlanText { chip, ask: self.0 })?;
        }
        Ok(())
    }
}

// A chip's plan of what is asked, or why it has none.
#[derive(Clone, Copy)]
struct PlanText<'a> {
    chip: &'a Chip,
    ask: Ask,
}

impl fmt::Display for PlanText<'_> {
    fn fmt<W: fmt::Write>(&self, f: &mut fmt::Formatter<W>) -> fmt::Result {
        let PlanText { chip, ask } = *self;
        match chip.plan(ask) {
            Ok(Plan { dividers, split }) => {
                let I2sClockDividers {
                    mclk_divider,
                    bclk_divider,
                    denominator,
                    numerator,
                } = dividers;
                write!(
                    f,
                    "integer part {mclk_divider}, bit divider {bclk_divider}, pair {denominator} {numerator}"
                )?;
                if let Some(I2sMclkDividers { x, y, z, yn1 }) = split {
                    write!(f, ", split {x} {y} {z} {}", u8::from(yn1))?;
                }
                Ok(())
            }
            Err(NoPlan::Refused(error, fault)) => {
                write!(
                    f,
                    "refused by {}, {error:?}: {}",
                    error.number(),
                    FaultText { chip, fault }
                )
            }
            Err(NoPlan::NoSetUp(lack)) => write!(f, "- {}", LackText { chip, ask, lack }),
        }
    }
}

// What is out of range, and its limit. It holds the chip as the others do, each for a text of its own.
#[derive(Clone, Copy)]
struct FaultText<'a> {
    chip: &'a Chip,
    fault: Fault,
}

impl fmt::Display for FaultText<'_> {
    fn fmt<W: fmt::Write>(&self, f: &mut fmt::Formatter<W>) -> fmt::Result {
        match self.fault {
            Fault::NoRate => f.write_str("rate 0 Hz, at least 1 is needed"),
            Fault::Clock(hertz) => {
                write!(f, "a clock of {hertz} Hz, at most {} is possible", u32::MAX)
            }
            Fault::IntegerPart(n) => {
                let range = self.chip.range;
                write!(
                    f,
                    "integer part {n}, from {} to {} is possible",
                    range.least, range.most
                )
            }
            Fault::Pair(denominator, numerator) => {
                write!(
                    f,
                    "pair {denominator} {numerator}, the second has to be below the first"
                )
            }
        }
    }
}

// What a chip has no set-up of, and what it has.
#[derive(Clone, Copy)]
struct LackText<'a> {
    chip: &'a Chip,
    ask: Ask,
    lack: Lack,
}

impl fmt::Display for LackText<'_> {
    fn fmt<W: fmt::Write>(&self, f: &mut fmt::Formatter<W>) -> fmt::Result {
        let LackText { chip, ask, lack } = *self;
        match lack {
            Lack::Slots => {
                write!(f, "slots {}, this chip has {}", ask.slots, chip.least_slots)?;
                if chip.most_slots > chip.least_slots {
                    write!(f, " to {}", chip.most_slots)?;
                }
                Ok(())
            }
            Lack::Bits => {
                let eight = if chip.eight_bits { "8, " } else { "" };
                write!(f, "bits {}, this chip has {eight}16 and 32", ask.bits)
            }
            Lack::Frame(frame) => {
                write!(f, "frame {frame} bits, at most {MOST_FRAME} is possible")
            }
        }
    }
}

// A line that cannot be read: its number, why, and how it begins.
#[derive(Clone, Copy)]
pub(crate) struct UnreadText<'a> {
    pub(crate) number: u64,
    pub(crate) line: &'a [u8],
    pub(crate) unread: Unread,
}

impl fmt::Display for UnreadText<'_> {
    fn fmt<W: fmt::Write>(&self, f: &mut fmt::Formatter<W>) -> fmt::Result {
        let UnreadText {
            number,
            line,
            unread,
        } = *self;
        writeln!(
            f,
            "line {number} is not read: {unread}; RATE SLOTS BITS is expected, and this is {}",
            Shown(line)
        )
    }
}
