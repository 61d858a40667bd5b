//! Both units of the old chip.

use old_setups::{ClockNumbers, ClockReach, Config, UnitNumbers};
use std::io;

fn print_clock(rt: &HostRuntime, n: ClockNumbers) -> io::Result<()> {
    print!(rt;
        "clkm_div_num {} clkm_div_a {} clkm_div_b {} ",
        n.clkm_div_num, n.clkm_div_a, n.clkm_div_b
    )?;
    print!(rt;
        "tx_bck_div_num {} rx_bck_div_num {} ",
        n.bck_div_num, n.bck_div_num
    )?;
    print!(rt; "tx_bits_mod {} rx_bits_mod {} ", n.bits_mod, n.bits_mod)
}

fn print_tx(rt: &HostRuntime, n: UnitNumbers) -> io::Result<()> {
    print!(rt;
        "tx_msb_shift {} tx_short_sync {} ",
        u32::from(n.msb_shift),
        u32::from(n.short_sync)
    )?;
    print!(rt;
        "tx_fifo_mod {} sigle_data {} tx_chan_mod {} ",
        n.fifo_mod, n.sigle_data, n.tx_chan_mod
    )
}

fn print_rx(rt: &HostRuntime, n: UnitNumbers) -> io::Result<()> {
    print!(rt;
        "rx_msb_shift {} rx_short_sync {} ",
        u32::from(n.msb_shift),
        u32::from(n.short_sync)
    )?;
    println!(rt; "rx_fifo_mod {} rx_chan_mod {}", n.fifo_mod, n.rx_chan_mod)
}

/// Checks both units, and prints their numbers or what refuses them.
pub(crate) fn print(rt: &HostRuntime, both: &Config) -> io::Result<()> {
    match both.check(ClockReach::esp32()) {
        Ok(setup) => {
            print_clock(rt, setup.numbers())?;
            print_tx(rt, setup.tx_numbers())?;
            print_rx(rt, setup.rx_numbers())
        }
        Err(error) => println!(rt; "refused {}", error.number()),
    }
}
