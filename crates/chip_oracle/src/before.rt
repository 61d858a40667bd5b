//! What was done to a chip before the call.

use crate::interrupts::read_interrupts;
use chips::{I2sInterrupts, RegisterAccessPrivate};
use coded::{at_place, read_flag};
use marks::Draw;

/// How far a half has come.
#[derive(Clone, Copy, PartialEq, Eq)]
enum Course {
    Rest,
    Started,
    Ended,
}

/// Both halves, what their starts draw, and the events that are enabled.
#[derive(Clone, Copy)]
pub struct Before {
    tx: Course,
    rx: Course,
    pub draw: Draw,
    enabled: I2sInterrupts,
}

// The length of a start of the receive half, of which a block takes no notice.
const ANY_LENGTH: u32 = 4;

const COURSES: [Course; 3] = [Course::Rest, Course::Started, Course::Ended];

impl Before {
    /// What the first numbers of a line say; none where they say nothing.
    pub(crate) fn read(numbers: &[u32]) -> Option<Before> {
        let [tx, rx, late, wait, hung, enabled] = numbers else {
            return None;
        };
        Some(Before {
            tx: at_place(&COURSES, *tx)?,
            rx: at_place(&COURSES, *rx)?,
            draw: Draw {
                late: *late,
                wait: *wait,
                hung: read_flag(*hung)?,
            },
            enabled: read_interrupts(*enabled)?,
        })
    }

    /// Brings a new chip there.
    pub(crate) fn bring<C: RegisterAccessPrivate>(&self, chip: &mut C) {
        chip.listen(self.enabled);
        if self.tx != Course::Rest {
            let _ = chip.tx_start(0);
        }
        if self.tx == Course::Ended {
            for _ in 0..self.draw.tx_polls() {
                let _ = chip.poll_tx();
            }
        }
        if self.rx != Course::Rest {
            chip.rx_start(ANY_LENGTH);
        }
        if self.rx == Course::Ended {
            for _ in 0..self.draw.rx_polls() {
                let _ = chip.poll_rx();
            }
        }
    }
}
