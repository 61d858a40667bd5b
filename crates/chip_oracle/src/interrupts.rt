//! Masks of events.

use chips::I2sInterrupts;

/// A mask of the driver's events.
pub(crate) fn read_interrupts(mask: u32) -> Option<I2sInterrupts> {
    if mask > 15 {
        return None;
    }
    Some(I2sInterrupts {
        rx_hung: mask % 2 == 1,
        tx_hung: mask / 2 % 2 == 1,
        rx_done: mask / 4 % 2 == 1,
        tx_done: mask / 8 == 1,
    })
}
