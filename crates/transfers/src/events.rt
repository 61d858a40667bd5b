//! A unit's own events. Those of the other unit, and those that the chip has not, are passed over.
ghost use Rattle.chips.specs.Moves.{OnRx, OnTx};
ghost use Rattle.std.specs.Prelude.{◌≡◌};
ghost use Rattle.marks.specs.Events.{no_events};
ghost use Rattle.chips.specs.Interrupts.{rx_named, tx_named};
ghost use Rattle.transfers.specs.Events.{forgotten, listened, rx_own, tx_own};

use chips::{I2sInterrupts, RegisterAccessPrivate};

// Those of the transmit unit.
fn of_tx(interrupts: I2sInterrupts) -> I2sInterrupts
    ensures tx { tx_named result ≡ tx_named interrupts }
    ensures rx { rx_named result ≡ no_events }
{
    I2sInterrupts {
        rx_hung: false,
        rx_done: false,
        ..interrupts
    }
}

// Those of the receive unit.
fn of_rx(interrupts: I2sInterrupts) -> I2sInterrupts
    ensures rx { rx_named result ≡ rx_named interrupts }
    ensures tx { tx_named result ≡ no_events }
{
    I2sInterrupts {
        tx_hung: false,
        tx_done: false,
        ..interrupts
    }
}

/// Turns the transmit unit's own events on or off.
#[tactic(auto, using(crate::proofs::Nothing::none_enabled))]
pub fn listen_tx<C: RegisterAccessPrivate>(chip: &mut C, interrupts: I2sInterrupts, enable: bool)
    ensures { OnTx C.tx C.rx C.common (listened (tx_own interrupts C.own_events) enable) chip.old chip.new }
{
    chip.enable_listen(of_tx(interrupts), enable);
}

/// Turns the receive unit's own events on or off.
#[tactic(auto, using(crate::proofs::Nothing::none_enabled))]
pub fn listen_rx<C: RegisterAccessPrivate>(chip: &mut C, interrupts: I2sInterrupts, enable: bool)
    ensures { OnRx C.tx C.rx C.common (listened (rx_own interrupts C.own_events) enable) chip.old chip.new }
{
    chip.enable_listen(of_rx(interrupts), enable);
}

/// Ends the transmit unit's own events.
#[tactic(auto, using(crate::proofs::Nothing::none_cleared))]
pub fn clear_tx<C: RegisterAccessPrivate>(chip: &mut C, interrupts: I2sInterrupts)
    ensures { OnTx C.tx C.rx C.common (forgotten (tx_own interrupts C.own_events)) chip.old chip.new }
{
    chip.clear_interrupts(of_tx(interrupts));
}

/// Ends the receive unit's own events.
#[tactic(auto, using(crate::proofs::Nothing::none_cleared))]
pub fn clear_rx<C: RegisterAccessPrivate>(chip: &mut C, interrupts: I2sInterrupts)
    ensures { OnRx C.tx C.rx C.common (forgotten (rx_own interrupts C.own_events)) chip.old chip.new }
{
    chip.clear_interrupts(of_rx(interrupts));
}
