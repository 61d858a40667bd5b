//! Set-ups as rows of numbers.
//!
//! FORMAT, WIDTH, POLARITY, ENDIANNESS, ORDER and the old chip's CHANNELS are places of an enum's variants, counted from 0 as they
//! are declared. FILLED is 1 where inactive channels send FILL, and 0 where there is no fill and FILL is 0. BITS is 0 but where
//! WIDTH is `Bits`. SHIFT is 0 or 1.
#![tactic(auto)]

mod new_chip;
mod old_chip;
mod places;

pub use new_chip::esp32c3_unit;
pub use old_chip::{esp32_both, esp32_format, esp32_unit};
pub use places::{at_place, read_flag};
