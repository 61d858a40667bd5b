//! Numbers as places of a list.
ghost use Rattle.std.specs.Prelude.{◌≡◌};
ghost use Rattle.std.specs.List.{slice_get};
ghost use Rattle.coded.specs.Places.{flags, polarities};

use setups::Polarity;

const FLAGS: [bool; 2] = [false, true];

const POLARITIES: [Polarity; 2] = [Polarity::ActiveHigh, Polarity::ActiveLow];

/// The value at a place, counted from 0; none where there are fewer.
pub fn at_place<T: Copy>(values: &[T], place: u32) -> Option<T>
    ensures { result ≡ slice_get values.now place }
{
    values.get(place as usize).copied()
}

/// What 0 and 1 stand for.
pub fn read_flag(number: u32) -> Option<bool>
    ensures { result ≡ slice_get flags number }
{
    at_place(&FLAGS, number)
}

pub(crate) fn read_polarity(place: u32) -> Option<Polarity>
    ensures { result ≡ slice_get polarities place }
{
    at_place(&POLARITIES, place)
}
