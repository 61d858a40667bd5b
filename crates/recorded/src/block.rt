//! A block over any other that hands every call on and notes what it does.
ghost use Rattle.std.specs.Prelude.{◌≡◌, []};
ghost use Rattle.fields.specs.declared.Side.TheVariants.{Transmit, Receive};
ghost use Rattle.marks.specs.Marks.{cleared, enabling, idle, after_tx_poll, after_rx_poll};
ghost use Rattle.blocks.specs.Half.{moved, upon};
ghost use Rattle.blocks.specs.Puts.{put_tx, put_rx, put_common, stored_in};
ghost use Rattle.recorded.specs.declared.note.Note.TheVariants.{Put, Clear, Enable, PollTx, PollRx};
ghost use Rattle.recorded.specs.Notes.{Appended};

use crate::note::{Note, Notes};
use blocks::RegBlock;
use fields::{Field, Side};
use marks::Events;

/// A block that notes each put, clear, enabling and poll of the one in it. Looks are not noted.
#[derive(Drop)]
pub struct Recorded<B> {
    pub inner: B,
    pub notes: Notes,
}

impl<B: RegBlock> Recorded<B> {
    /// The block, with nothing noted.
    pub fn new(inner: B) -> Recorded<B>
        ensures inner { result.inner ≡ inner }
        ensures kept { result.notes.kept.items ≡ [] }
        ensures lost { result.notes.lost ≡ 0 }
    {
        Recorded {
            inner,
            notes: Notes::new(),
        }
    }
}

impl<B: RegBlock> RegBlock for Recorded<B> {
    ghost tx = { λ r. B.RegBlock.tx r.inner };

    ghost rx = { λ r. B.RegBlock.rx r.inner };

    ghost common = { λ r. B.RegBlock.common r.inner };

    fn get(&self, field: Field) -> u32 {
        self.inner.get(field)
    }

    fn events(&self, half: Side) -> Events {
        self.inner.events(half)
    }

    fn enabled(&self, half: Side) -> Events {
        self.inner.enabled(half)
    }

    fn put(&mut self, field: Field, value: u32)
        ensures tx { B.RegBlock.tx self.new.inner ≡ put_tx field value (B.RegBlock.tx self.old.inner) }
        ensures rx { B.RegBlock.rx self.new.inner ≡ put_rx field value (B.RegBlock.rx self.old.inner) }
        ensures common { B.RegBlock.common self.new.inner ≡ put_common field value (B.RegBlock.common self.old.inner) }
        ensures noted { Appended (Put field (stored_in field value)) self.old.notes self.new.notes }
    {
        self.inner.put(field, value);
        let number = self.get(field);
        self.notes.add(Note::Put(field, number));
    }

    fn clear(&mut self, half: Side, events: Events)
        ensures tx { B.RegBlock.tx self.new.inner ≡ moved (upon Transmit half (cleared events)) (B.RegBlock.tx self.old.inner) }
        ensures rx { B.RegBlock.rx self.new.inner ≡ moved (upon Receive half (cleared events)) (B.RegBlock.rx self.old.inner) }
        ensures common { B.RegBlock.common self.new.inner ≡ B.RegBlock.common self.old.inner }
        ensures noted { Appended (Clear half events) self.old.notes self.new.notes }
    {
        self.inner.clear(half, events);
        self.notes.add(Note::Clear(half, events));
    }

    fn enable(&mut self, half: Side, events: Events, on: bool)
        ensures tx { B.RegBlock.tx self.new.inner ≡ moved (upon Transmit half (enabling events on)) (B.RegBlock.tx self.old.inner) }
        ensures rx { B.RegBlock.rx self.new.inner ≡ moved (upon Receive half (enabling events on)) (B.RegBlock.rx self.old.inner) }
        ensures common { B.RegBlock.common self.new.inner ≡ B.RegBlock.common self.old.inner }
        ensures noted { Appended (Enable half events on) self.old.notes self.new.notes }
    {
        self.inner.enable(half, events, on);
        self.notes.add(Note::Enable(half, events, on));
    }

    fn poll_tx(&mut self) -> bool
        ensures answer { result ≡ idle (B.RegBlock.tx self.old.inner).marks }
        ensures tx { B.RegBlock.tx self.new.inner ≡ moved after_tx_poll (B.RegBlock.tx self.old.inner) }
        ensures rx { B.RegBlock.rx self.new.inner ≡ B.RegBlock.rx self.old.inner }
        ensures common { B.RegBlock.common self.new.inner ≡ B.RegBlock.common self.old.inner }
        ensures noted { Appended (PollTx result) self.old.notes self.new.notes }
    {
        let found = self.inner.poll_tx();
        self.notes.add(Note::PollTx(found));
        found
    }

    fn poll_rx(&mut self) -> Events
        ensures answer { result ≡ (after_rx_poll (B.RegBlock.rx self.old.inner).marks).events }
        ensures tx { B.RegBlock.tx self.new.inner ≡ B.RegBlock.tx self.old.inner }
        ensures rx { B.RegBlock.rx self.new.inner ≡ moved after_rx_poll (B.RegBlock.rx self.old.inner) }
        ensures common { B.RegBlock.common self.new.inner ≡ B.RegBlock.common self.old.inner }
        ensures noted { Appended (PollRx result) self.old.notes self.new.notes }
    {
        let found = self.inner.poll_rx();
        self.notes.add(Note::PollRx(found));
        found
    }
}
