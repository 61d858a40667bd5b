//! The old chip over a block.
ghost use Rattle.std.proofs.Common.{rules};
ghost use Rattle.std.specs.Cmp.Rules.{comparing};
ghost use Rattle.std.specs.Prelude.{◌≡◌, None};
ghost use Rattle.fields.specs.declared.TxField.TheVariants.{OldTxStart};
ghost use Rattle.esp32.specs.Chip.{old_at_open, old_masters, old_opens, old_own_events, old_rx, old_rx_divider, old_tx, old_tx_divider, old_updates, open_refusal, unit_refusal};
ghost use Rattle.esp32.specs.Laws.{rx_divides, rx_handles, rx_opens, tx_divides, tx_halts, tx_handles, tx_opens};

use crate::setup::{Opening, UnitSetup};
use blocks::RegBlock;
use chips::{
    Awaited, I2sInterrupts, RegisterAccessPrivate, clear_events, enable_events, poll_until,
    reported_events,
};
use dividers::ConfigError;
use fields::{Field, RxField, Side, TxField};
use marks::Events;
use old_registers as registers;
use old_setups::{Config, DataFormat, UnitConfig};

// The chip's events: hung of either half.
const OWN: Events = Events {
    hung: true,
    done: false,
    link_done: false,
    eof: false,
};

/// The old chip, whose registers are a block.
#[derive(Drop)]
pub struct Esp32<B> {
    pub block: B,
}

impl<B: RegBlock> RegBlock for Esp32<B> {
    ghost tx = { λ c. B.RegBlock.tx c.block };

    ghost rx = { λ c. B.RegBlock.rx c.block };

    ghost common = { λ c. B.RegBlock.common c.block };

    fn get(&self, field: Field) -> u32 {
        self.block.get(field)
    }

    fn events(&self, half: Side) -> Events {
        self.block.events(half)
    }

    fn enabled(&self, half: Side) -> Events {
        self.block.enabled(half)
    }

    fn put(&mut self, field: Field, value: u32) {
        self.block.put(field, value);
    }

    fn clear(&mut self, half: Side, events: Events) {
        self.block.clear(half, events);
    }

    fn enable(&mut self, half: Side, events: Events, on: bool) {
        self.block.enable(half, events, on);
    }

    fn poll_tx(&mut self) -> bool {
        self.block.poll_tx()
    }

    fn poll_rx(&mut self) -> Events {
        self.block.poll_rx()
    }
}

impl<B: RegBlock> RegisterAccessPrivate for Esp32<B> {
    type UnitConfig = UnitConfig;

    type DataFormat = DataFormat;

    type Setup = UnitSetup;

    type Config = Config;

    type Opening = Opening;

    const MAX: u32 = 63;

    ghost MAX = { 63 };

    ghost refusal = { unit_refusal };

    ghost from = { λ s. (s.config, s.format) };

    ghost open_refusal = { open_refusal };

    ghost from_open = { λ o. o.config };

    ghost keeps = { λ c. c.data_format };

    ghost tx_moves = { old_tx };

    ghost rx_moves = { old_rx };

    ghost opens = { old_opens };

    ghost masters = { old_masters };

    ghost updates = { old_updates };

    ghost tx_start_field = { OldTxStart };

    ghost own_events = { old_own_events };

    ghost tx_divider = { old_tx_divider };

    ghost rx_divider = { old_rx_divider };

    ghost own_divider = { None };

    ghost tx_at_open = { old_at_open };

    ghost rx_at_open = { old_at_open };

    ghost max_least = { Prim.search rules };

    ghost max_most = { Prim.search rules };

    ghost tx_divides = { tx_divides };

    ghost rx_divides = { rx_divides };

    ghost tx_opens = { tx_opens };

    ghost rx_opens = { rx_opens };

    ghost tx_handles = { tx_handles };

    ghost rx_handles = { rx_handles };

    ghost tx_halts = { tx_halts };

    fn check(config: &UnitConfig, format: DataFormat) -> Result<UnitSetup, ConfigError> {
        Ok(UnitSetup::of(config, format))
    }

    fn same_config(a: &UnitConfig, b: &UnitConfig) -> bool {
        a == b
    }

    fn check_open(config: &Config) -> Result<Opening, (Side, ConfigError)> {
        Opening::of(config).map_err(|error| (Side::Transmit, error))
    }

    fn data_format(opening: &Opening) -> DataFormat {
        opening.config.data_format
    }

    fn own_events() -> Events {
        OWN
    }

    fn enable_listen(&mut self, interrupts: I2sInterrupts, enable: bool) {
        enable_events(&mut self.block, interrupts, OWN, enable);
    }

    fn interrupts(&self) -> I2sInterrupts {
        reported_events(&self.block, OWN)
    }

    fn clear_interrupts(&mut self, interrupts: I2sInterrupts) {
        clear_events(&mut self.block, interrupts, OWN);
    }

    fn set_master(&mut self) {
        self.block.put(Field::Rx(RxField::OldRxSlaveMod), 0);
        self.block.put(Field::Tx(TxField::OldTxSlaveMod), 0);
    }

    fn configure(&mut self, opening: &Opening) {
        let (tx, rx) = (&opening.tx.numbers, &opening.rx.numbers);
        registers::configure(&mut self.block, tx, rx, &opening.numbers);
    }

    fn update(&mut self) {}

    fn configure_tx(&mut self, setup: &UnitSetup) {
        registers::configure_tx(&mut self.block, &setup.numbers);
    }

    fn configure_rx(&mut self, setup: &UnitSetup) {
        registers::configure_rx(&mut self.block, &setup.numbers);
    }

    fn reset_tx(&mut self) {
        registers::reset_tx(&mut self.block);
    }

    fn tx_start(&mut self, allowance: u16) -> Option<u32> {
        registers::tx_raise(&mut self.block);
        poll_until(&mut self.block, Awaited::TxBusy, allowance)
    }

    fn tx_stop(&mut self) {
        registers::tx_stop(&mut self.block);
    }

    fn wait_for_tx_done(&mut self, allowance: u16) -> Option<u32> {
        let polls = poll_until(&mut self.block, Awaited::TxIdle, allowance)?;
        registers::tx_stop(&mut self.block);
        Some(polls)
    }

    fn reset_rx(&mut self) {
        registers::reset_rx(&mut self.block);
    }

    fn rx_start(&mut self, len: u32) {
        registers::rx_start(&mut self.block, len);
    }

    fn wait_for_rx_done(&mut self, allowance: u16) -> Option<u32> {
        let polls = poll_until(&mut self.block, Awaited::RxEof, allowance)?;
        registers::end_rx(&mut self.block);
        Some(polls)
    }
}
