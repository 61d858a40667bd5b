//! The new chip over a block.
ghost use Rattle.std.proofs.Common.{rules};
ghost use Rattle.std.specs.Prelude.{◌≡◌, None, Some};
ghost use Rattle.fields.specs.declared.TxField.TheVariants.{NewTxStart};
ghost use Rattle.esp32c3.specs.Chip.{new_divider, new_keeps, new_masters, new_open_refusal, new_opens, new_own_events, new_refusal, new_rx, new_rx_at_open, new_rx_divider, new_tx, new_tx_at_open, new_tx_divider, new_updates};
ghost use Rattle.esp32c3.specs.Laws.{rx_divides, rx_handles, rx_opens, tx_divides, tx_halts, tx_handles, tx_opens};

use crate::same;
use crate::setup::UnitSetup;
use blocks::RegBlock;
use chips::{
    Awaited, I2sInterrupts, RegisterAccessPrivate, clear_events, enable_events, poll_until,
    reported_events,
};
use dividers::ConfigError;
use fields::{Field, RxField, Side, TxField};
use marks::Events;
use new_registers as registers;
use setups::esp32c3::{Config, DataFormat, UnitConfig};

// The chip's events: hung and done of either half.
const OWN: Events = Events {
    hung: true,
    done: true,
    link_done: false,
    eof: false,
};

/// The new chip, whose registers are a block.
#[derive(Drop)]
pub struct Esp32C3<B> {
    pub block: B,
}

/// The set-up of both units that passed this chip's check.
#[derive(Drop)]
pub struct Opening {
    tx: UnitSetup,
    rx: UnitSetup,
    ghost tx_keeps: { tx.format ≡ tx.config.data_format },
    ghost rx_keeps: { rx.format ≡ tx.config.data_format },
}

impl<B: RegBlock> RegBlock for Esp32C3<B> {
    ghost tx = { λ c. B.RegBlock.tx c.block };

    ghost rx = { λ c. B.RegBlock.rx c.block };

    ghost common = { λ c. B.RegBlock.common c.block };

    fn get(&self, field: Field) -> u32 {
        self.block.get(field)
    }

    fn events(&self, half: Side) -> Events {
        self.block.events(half)
    }

    fn enabled(&self, half: Side) -> Events {
        self.block.enabled(half)
    }

    fn put(&mut self, field: Field, value: u32) {
        self.block.put(field, value);
    }

    fn clear(&mut self, half: Side, events: Events) {
        self.block.clear(half, events);
    }

    fn enable(&mut self, half: Side, events: Events, on: bool) {
        self.block.enable(half, events, on);
    }

    fn poll_tx(&mut self) -> bool {
        self.block.poll_tx()
    }

    fn poll_rx(&mut self) -> Events {
        self.block.poll_rx()
    }
}

impl<B: RegBlock> RegisterAccessPrivate for Esp32C3<B> {
    type UnitConfig = UnitConfig;

    type DataFormat = DataFormat;

    type Setup = UnitSetup;

    type Config = Config;

    type Opening = Opening;

    const MAX: u32 = 511;

    ghost MAX = { 511 };

    ghost refusal = { new_refusal };

    ghost from = { λ s. (s.config, s.format) };

    ghost open_refusal = { new_open_refusal };

    ghost from_open = { λ o. record { rx_config = o.rx.config; tx_config = o.tx.config } };

    ghost keeps = { new_keeps };

    ghost tx_moves = { new_tx };

    ghost rx_moves = { new_rx };

    ghost opens = { new_opens };

    ghost masters = { new_masters };

    ghost updates = { new_updates };

    ghost tx_start_field = { NewTxStart };

    ghost own_events = { new_own_events };

    ghost tx_divider = { new_tx_divider };

    ghost rx_divider = { new_rx_divider };

    ghost own_divider = { Some new_divider };

    ghost tx_at_open = { new_tx_at_open };

    ghost rx_at_open = { new_rx_at_open };

    ghost max_least = { Prim.search rules };

    ghost max_most = { Prim.search rules };

    ghost tx_divides = { tx_divides };

    ghost rx_divides = { rx_divides };

    ghost tx_opens = { tx_opens };

    ghost rx_opens = { rx_opens };

    ghost tx_handles = { tx_handles };

    ghost rx_handles = { rx_handles };

    ghost tx_halts = { tx_halts };

    fn check(config: &UnitConfig, format: DataFormat) -> Result<UnitSetup, ConfigError> {
        UnitSetup::of(config, format)
    }

    fn same_config(a: &UnitConfig, b: &UnitConfig) -> bool {
        same::same_config(a, b)
    }

    fn check_open(config: &Config) -> Result<Opening, (Side, ConfigError)> {
        let format = config.tx_config.data_format;
        let tx = match UnitSetup::of(&config.tx_config, format) {
            Ok(tx) => tx,
            Err(error) => return Err((Side::Transmit, error)),
        };
        let rx = match UnitSetup::of(&config.rx_config, format) {
            Ok(rx) => rx,
            Err(error) => return Err((Side::Receive, error)),
        };
        Ok(Opening { tx, rx })
    }

    fn data_format(opening: &Opening) -> DataFormat {
        opening.tx.format
    }

    fn own_events() -> Events {
        OWN
    }

    fn enable_listen(&mut self, interrupts: I2sInterrupts, enable: bool) {
        enable_events(&mut self.block, interrupts, OWN, enable);
    }

    fn interrupts(&self) -> I2sInterrupts {
        reported_events(&self.block, OWN)
    }

    fn clear_interrupts(&mut self, interrupts: I2sInterrupts) {
        clear_events(&mut self.block, interrupts, OWN);
    }

    fn set_master(&mut self) {
        self.block.put(Field::Tx(TxField::NewTxSlaveMod), 0);
        self.block.put(Field::Rx(RxField::NewRxSlaveMod), 0);
    }

    fn configure(&mut self, opening: &Opening) {
        self.configure_tx(&opening.tx);
        self.configure_rx(&opening.rx);
    }

    fn update(&mut self) {
        registers::update_tx(&mut self.block);
        registers::update_rx(&mut self.block);
    }

    fn configure_tx(&mut self, setup: &UnitSetup) {
        registers::configure_tx(&mut self.block, &setup.numbers);
    }

    fn configure_rx(&mut self, setup: &UnitSetup) {
        registers::configure_rx(&mut self.block, &setup.numbers);
    }

    fn reset_tx(&mut self) {
        registers::reset_tx(&mut self.block);
    }

    fn tx_start(&mut self, _allowance: u16) -> Option<u32> {
        registers::tx_start(&mut self.block);
        Some(0)
    }

    fn tx_stop(&mut self) {
        registers::tx_stop(&mut self.block);
    }

    fn wait_for_tx_done(&mut self, allowance: u16) -> Option<u32> {
        let polls = poll_until(&mut self.block, Awaited::TxIdle, allowance)?;
        registers::tx_stop(&mut self.block);
        Some(polls)
    }

    fn reset_rx(&mut self) {
        registers::reset_rx(&mut self.block);
    }

    fn rx_start(&mut self, len: u32) {
        registers::rx_start(&mut self.block, len);
    }

    fn wait_for_rx_done(&mut self, allowance: u16) -> Option<u32> {
        let polls = poll_until(&mut self.block, Awaited::RxDone, allowance)?;
        registers::end_rx(&mut self.block);
        Some(polls)
    }
}
