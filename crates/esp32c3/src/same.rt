//! Whether two set-ups of a unit are the same.
ghost use Rattle.std.specs.Cmp.Rules.{comparing};
ghost use Rattle.std.specs.Prelude.{◌≡◌, Decides};
ghost use Rattle.esp32c3.specs.Same.{SameSignals, SameSound};

use setups::esp32c3::UnitConfig;

fn same_sound(a: &UnitConfig, b: &UnitConfig) -> bool
    ensures { Decides result (SameSound a.now b.now) }
{
    a.sample_rate == b.sample_rate && a.channels == b.channels && a.data_format == b.data_format
}

fn same_signals(a: &UnitConfig, b: &UnitConfig) -> bool
    ensures { Decides result (SameSignals a.now b.now) }
{
    a.ws_width == b.ws_width
        && a.ws_polarity == b.ws_polarity
        && a.msb_shift == b.msb_shift
        && a.endianness == b.endianness
        && a.bit_order == b.bit_order
}

pub(crate) fn same_config(a: &UnitConfig, b: &UnitConfig) -> bool
    ensures { Decides result (a.now ≡ b.now) }
{
    same_sound(a, b) && same_signals(a, b)
}
