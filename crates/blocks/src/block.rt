//! What every block means, whatever it draws.
ghost use Rattle.std.specs.Prelude.{◌≡◌, ℕ};
ghost use Rattle.fields.specs.declared.CommonField.{CommonField};
ghost use Rattle.fields.specs.declared.RxField.{RxField};
ghost use Rattle.fields.specs.declared.Side.TheVariants.{Transmit, Receive};
ghost use Rattle.fields.specs.declared.TxField.{TxField};
ghost use Rattle.marks.specs.Events.{intersection};
ghost use Rattle.marks.specs.Marks.{cleared, enabling, idle, after_tx_poll, after_rx_poll};
ghost use Rattle.blocks.specs.Half.{Half, marks_on, moved, number_in, upon};
ghost use Rattle.blocks.specs.Puts.{put_tx, put_rx, put_common};

use fields::{Field, Side};
use marks::Events;

/// A block of registers. What a function answers and what it makes of a half follow from that half and the
/// arguments alone; the other half and the common part stay as they were.
pub trait RegBlock {
    // Each function says itself what it leaves of the three parts, and each look that it changes nothing: these are facts of a
    // call, which no type holds. What a call is handed stays apart, as a struct for it would be taken apart at once.

    ghost tx: { Self → Half TxField };

    ghost rx: { Self → Half RxField };

    ghost common: { Self → CommonField → ℕ };

    /// The number that a field stores.
    fn get(&self, field: Field) -> u32
        ensures answer { result ≡ number_in (tx self.now) (rx self.now) (common self.now) field }
        ensures unchanged { self.exit.now ≡ self.entry.now };

    /// The events of a half that stand, enabled or not.
    fn events(&self, half: Side) -> Events
        ensures answer { result ≡ (marks_on half (tx self.now) (rx self.now)).events }
        ensures unchanged { self.exit.now ≡ self.entry.now };

    /// The events of a half that are enabled, standing or not.
    fn enabled(&self, half: Side) -> Events
        ensures answer { result ≡ (marks_on half (tx self.now) (rx self.now)).enabled }
        ensures unchanged { self.exit.now ≡ self.entry.now };

    /// The events of a half that are reported: they stand and are enabled.
    fn reported(&self, half: Side) -> Events
        ensures answer { result ≡ intersection (marks_on half (tx self.now) (rx self.now)).events (marks_on half (tx self.now) (rx self.now)).enabled }
        ensures unchanged { self.exit.now ≡ self.entry.now }
    {
        self.events(half).intersection(self.enabled(half))
    }

    /// Stores a number in a field, cut to the field's width, and does what the field does.
    fn put(&mut self, field: Field, value: u32)
        ensures tx { tx self.new ≡ put_tx field value (tx self.old) }
        ensures rx { rx self.new ≡ put_rx field value (rx self.old) }
        ensures common { common self.new ≡ put_common field value (common self.old) };

    /// Ends the named events of a half.
    fn clear(&mut self, half: Side, events: Events)
        ensures tx { tx self.new ≡ moved (upon Transmit half (cleared events)) (tx self.old) }
        ensures rx { rx self.new ≡ moved (upon Receive half (cleared events)) (rx self.old) }
        ensures common { common self.new ≡ common self.old };

    /// Turns the named events of a half on or off.
    fn enable(&mut self, half: Side, events: Events, on: bool)
        ensures tx { tx self.new ≡ moved (upon Transmit half (enabling events on)) (tx self.old) }
        ensures rx { rx self.new ≡ moved (upon Receive half (enabling events on)) (rx self.old) }
        ensures common { common self.new ≡ common self.old };

    /// Polls the transmit half: whether it is found idle.
    fn poll_tx(&mut self) -> bool
        ensures answer { result ≡ idle (tx self.old).marks }
        ensures tx { tx self.new ≡ moved after_tx_poll (tx self.old) }
        ensures rx { rx self.new ≡ rx self.old }
        ensures common { common self.new ≡ common self.old };

    /// Polls the receive half: which of its events stand then, enabled or not.
    fn poll_rx(&mut self) -> Events
        ensures answer { result ≡ (after_rx_poll (rx self.old).marks).events }
        ensures tx { tx self.new ≡ tx self.old }
        ensures rx { rx self.new ≡ moved after_rx_poll (rx self.old) }
        ensures common { common self.new ≡ common self.old };
}
