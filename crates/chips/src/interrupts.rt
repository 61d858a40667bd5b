//! Events of both halves by the driver's names.
ghost use Rattle.std.specs.Prelude.{◌≡◌};
ghost use Rattle.marks.specs.Events.{intersection};
ghost use Rattle.marks.specs.Marks.{cleared, enabling};
ghost use Rattle.blocks.specs.Half.{moved};
ghost use Rattle.chips.specs.Interrupts.{interrupts_of, rx_named, tx_named};

use blocks::RegBlock;
use fields::Side;
use marks::Events;

/// A set of the driver's events. A chip passes over those that it lacks.
#[derive(Clone, Copy, PartialEq, Eq)]
pub struct I2sInterrupts {
    /// Receive buffer hung, indicating a stall in data reception.
    pub rx_hung: bool,
    /// Transmit buffer hung, indicating a stall in data transmission.
    pub tx_hung: bool,
    /// Reception of data is complete.
    pub rx_done: bool,
    /// Transmission of data is complete.
    pub tx_done: bool,
}

impl I2sInterrupts {
    // Those of the transmit half.
    fn tx(self) -> Events
        ensures { result ≡ tx_named self }
    {
        Events {
            hung: self.tx_hung,
            done: self.tx_done,
            link_done: false,
            eof: false,
        }
    }

    // Those of the receive half.
    fn rx(self) -> Events
        ensures { result ≡ rx_named self }
    {
        Events {
            hung: self.rx_hung,
            done: self.rx_done,
            link_done: false,
            eof: false,
        }
    }
}

/// Turns the named events on or off, those of `own` alone.
pub fn enable_events<B: RegBlock>(
    block: &mut B,
    interrupts: I2sInterrupts,
    own: Events,
    enable: bool,
)
    ensures tx { B.tx block.new ≡ moved (enabling (intersection (tx_named interrupts) own) enable) (B.tx block.old) }
    ensures rx { B.rx block.new ≡ moved (enabling (intersection (rx_named interrupts) own) enable) (B.rx block.old) }
    ensures common { B.common block.new ≡ B.common block.old }
{
    block.enable(Side::Transmit, interrupts.tx().intersection(own), enable);
    block.enable(Side::Receive, interrupts.rx().intersection(own), enable);
}

/// Ends the named events, those of `own` alone.
pub fn clear_events<B: RegBlock>(block: &mut B, interrupts: I2sInterrupts, own: Events)
    ensures tx { B.tx block.new ≡ moved (cleared (intersection (tx_named interrupts) own)) (B.tx block.old) }
    ensures rx { B.rx block.new ≡ moved (cleared (intersection (rx_named interrupts) own)) (B.rx block.old) }
    ensures common { B.common block.new ≡ B.common block.old }
{
    block.clear(Side::Transmit, interrupts.tx().intersection(own));
    block.clear(Side::Receive, interrupts.rx().intersection(own));
}

/// The events of `own` that are reported: they stand and are enabled.
pub fn reported_events<B: RegBlock>(block: &B, own: Events) -> I2sInterrupts
    ensures answer { result ≡ interrupts_of own (B.tx block.now).marks (B.rx block.now).marks }
    ensures unchanged { block.exit.now ≡ block.entry.now }
{
    let tx = block.reported(Side::Transmit).intersection(own);
    let rx = block.reported(Side::Receive).intersection(own);
    I2sInterrupts {
        rx_hung: rx.hung,
        tx_hung: tx.hung,
        rx_done: rx.done,
        tx_done: tx.done,
    }
}
