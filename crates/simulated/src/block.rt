//! A simulated block, whatever its halves draw from.
ghost use Rattle.std.specs.Prelude.{◌≡◌};
ghost use Rattle.blocks.specs.Half.{marks_on, new_common, new_half};
ghost use Rattle.simulated.specs.Simulated.{common_of, rx_of, tx_of};

use blocks::RegBlock;
use fields::{Field, Side};
use marks::{Draw, Events, Marks};
use tables::{Draws, Plain};

/// A plain table with, for each half, what its starts draw from.
#[derive(Drop)]
pub struct Simulated<D> {
    plain: Plain,
    tx_draws: D,
    rx_draws: D,
}

/// Draws the same row at each start of a half, one row for each half.
pub type PacedBlock = Simulated<Draw>;

/// Each start of a half draws the next row of that half's list; after the last row it draws late 0, wait
/// 4,294,967,295 and no hung bit.
pub type ScriptedBlock<'a> = Simulated<&'a [Draw]>;

impl<D: Draws> Simulated<D> {
    /// A block with every field 0 and every mark down.
    pub fn new(tx_draws: D, rx_draws: D) -> Simulated<D>
        ensures tx { tx_of D.to_come result ≡ new_half (D.to_come tx_draws) }
        ensures rx { rx_of D.to_come result ≡ new_half (D.to_come rx_draws) }
        ensures common { common_of result ≡ new_common }
    {
        Simulated {
            plain: Plain::new(),
            tx_draws,
            rx_draws,
        }
    }

    /// What a half keeps beside its fields, for tests and reports; a chip's registers do not show it.
    pub fn marks(&self, half: Side) -> Marks
        ensures answer { result ≡ marks_on half (tx_of D.to_come self.now) (rx_of D.to_come self.now) }
        ensures unchanged { self.exit.now ≡ self.entry.now }
    {
        self.plain.marks(half)
    }
}

impl<D: Draws> RegBlock for Simulated<D> {
    ghost tx = { tx_of D.to_come };

    ghost rx = { rx_of D.to_come };

    ghost common = { common_of };

    fn get(&self, field: Field) -> u32 {
        self.plain.get(field)
    }

    fn events(&self, half: Side) -> Events {
        self.marks(half).events
    }

    fn enabled(&self, half: Side) -> Events {
        self.marks(half).enabled
    }

    fn put(&mut self, field: Field, value: u32) {
        self.plain
            .put(field, value, &mut self.tx_draws, &mut self.rx_draws);
    }

    fn clear(&mut self, half: Side, events: Events) {
        self.plain.clear(half, events);
    }

    fn enable(&mut self, half: Side, events: Events, on: bool) {
        self.plain.enable(half, events, on);
    }

    fn poll_tx(&mut self) -> bool {
        self.plain.poll_tx()
    }

    fn poll_rx(&mut self) -> Events {
        self.plain.poll_rx()
    }
}
