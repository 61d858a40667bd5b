//! Units of the new chip.

use setups::esp32c3::{ClockReach, UnitConfig, UnitNumbers};
use std::io;

fn print_numbers(rt: &HostRuntime, n: UnitNumbers) -> io::Result<()> {
    print!(rt;
        "clkm_div_x {} clkm_div_y {} clkm_div_yn1 {} ",
        n.clkm_div_x,
        n.clkm_div_y,
        u32::from(n.clkm_div_yn1)
    )?;
    print!(rt;
        "clkm_div_z {} clkm_div_num {} bck_div_num {} ",
        n.clkm_div_z, n.clkm_div_num, n.bck_div_num
    )?;
    print!(rt;
        "msb_shift {} tdm_ws_width {} bits_mod {} ",
        u32::from(n.msb_shift),
        n.tdm_ws_width,
        n.bits_mod
    )?;
    print!(rt;
        "tdm_chan_bits {} half_sample_bits {} ",
        n.tdm_chan_bits, n.half_sample_bits
    )?;
    print!(rt;
        "chan_equal {} big_endian {} bit_order {} ",
        u32::from(n.chan_equal),
        u32::from(n.big_endian),
        u32::from(n.bit_order)
    )?;
    print!(rt;
        "ws_idle_pol {} tdm_tot_chan_num {} ",
        u32::from(n.ws_idle_pol),
        n.tdm_tot_chan_num
    )?;
    println!(rt;
        "tdm_chan_en {} single_data {}",
        n.tdm_chan_en, n.single_data
    )
}

/// Checks a unit, and prints its numbers or what refuses it.
pub(crate) fn print(rt: &HostRuntime, unit: &UnitConfig) -> io::Result<()> {
    match unit.check(ClockReach::esp32c3()) {
        Ok(setup) => print_numbers(rt, setup.numbers()),
        Err(error) => println!(rt; "refused {}", error.number()),
    }
}
