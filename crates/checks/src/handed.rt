//! A block over any other that hands every call on, as a chip's wrapper does.
use blocks::RegBlock;
use fields::{Field, Side};
use marks::Events;

#[derive(Drop)]
pub struct Handed<B> {
    pub inner: B,
}

impl<B: RegBlock> RegBlock for Handed<B> {
    ghost tx = { λ h. B.RegBlock.tx h.inner };

    ghost rx = { λ h. B.RegBlock.rx h.inner };

    ghost common = { λ h. B.RegBlock.common h.inner };

    fn get(&self, field: Field) -> u32 {
        self.inner.get(field)
    }

    fn events(&self, half: Side) -> Events {
        self.inner.events(half)
    }

    fn enabled(&self, half: Side) -> Events {
        self.inner.enabled(half)
    }

    fn put(&mut self, field: Field, value: u32) {
        self.inner.put(field, value);
    }

    fn clear(&mut self, half: Side, events: Events) {
        self.inner.clear(half, events);
    }

    fn enable(&mut self, half: Side, events: Events, on: bool) {
        self.inner.enable(half, events, on);
    }

    fn poll_tx(&mut self) -> bool {
        self.inner.poll_tx()
    }

    fn poll_rx(&mut self) -> Events {
        self.inner.poll_rx()
    }
}
