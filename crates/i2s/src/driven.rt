//! What the tool knows of each chip that it drives.
use chips::RegisterAccessPrivate;
use dividers::{ConfigError, I2sClockDividers};
use esp32::Esp32;
use esp32c3::Esp32C3;
use fields::{CommonField, Field, RxField, Side, TxField};
use fractions::{esp32_clock, esp32c3_clock};
use marks::Marks;
use old_setups as old;
use setups::esp32c3 as new;
use sheets::Asked;
use simulated::Simulated;
use tables::Draws;
use verdicts::{Refused, accept_esp32, accept_esp32c3};

/// A chip on a block that comes with the port.
pub(crate) trait Driven: RegisterAccessPrivate + Drop {
    /// A unit's set-up.
    fn unit(asked: &Asked) -> Option<Self::UnitConfig>;

    /// The set-up of both units; none where the chip has none like that.
    fn both(tx: &Asked, rx: &Asked) -> Option<Self::Config>;

    /// What a half keeps beside its fields.
    fn marks(&self, half: Side) -> Marks;

    /// The fields in which a unit's divider stands.
    fn divider_fields(unit: Side) -> &'static [Field];

    /// Whether a unit's own set-ups have dividers, and not the opening alone.
    fn has_own_dividers() -> bool;
}

static OLD_TX_DIVIDER: [Field; 4] = [
    Field::Common(CommonField::OldClkmDivNum),
    Field::Tx(TxField::OldTxBckDivNum),
    Field::Common(CommonField::OldClkmDivA),
    Field::Common(CommonField::OldClkmDivB),
];

static OLD_RX_DIVIDER: [Field; 4] = [
    Field::Common(CommonField::OldClkmDivNum),
    Field::Rx(RxField::OldRxBckDivNum),
    Field::Common(CommonField::OldClkmDivA),
    Field::Common(CommonField::OldClkmDivB),
];

static NEW_TX_DIVIDER: [Field; 6] = [
    Field::Tx(TxField::NewTxClkmDivNum),
    Field::Tx(TxField::NewTxBckDivNum),
    Field::Tx(TxField::NewTxClkmDivX),
    Field::Tx(TxField::NewTxClkmDivY),
    Field::Tx(TxField::NewTxClkmDivZ),
    Field::Tx(TxField::NewTxClkmDivYn1),
];

static NEW_RX_DIVIDER: [Field; 6] = [
    Field::Rx(RxField::NewRxClkmDivNum),
    Field::Rx(RxField::NewRxBckDivNum),
    Field::Rx(RxField::NewRxClkmDivX),
    Field::Rx(RxField::NewRxClkmDivY),
    Field::Rx(RxField::NewRxClkmDivZ),
    Field::Rx(RxField::NewRxClkmDivYn1),
];

impl<D: Draws> Driven for Esp32<Simulated<D>> {
    fn unit(asked: &Asked) -> Option<old::UnitConfig> {
        match asked {
            Asked::Esp32(config) => Some(config.tx_config),
            Asked::Esp32C3(_) => None,
        }
    }

    fn both(tx: &Asked, rx: &Asked) -> Option<old::Config> {
        match (tx, rx) {
            (Asked::Esp32(tx), Asked::Esp32(rx))
                if tx.sample_rate == rx.sample_rate && tx.data_format == rx.data_format => {
                Some(tx.with_rx_config(rx.rx_config))
            }
            _ => None,
        }
    }

    fn marks(&self, half: Side) -> Marks {
        self.block.marks(half)
    }

    fn divider_fields(unit: Side) -> &'static [Field] {
        match unit {
            Side::Transmit => &OLD_TX_DIVIDER,
            Side::Receive => &OLD_RX_DIVIDER,
        }
    }

    fn has_own_dividers() -> bool {
        false
    }
}

impl<D: Draws> Driven for Esp32C3<Simulated<D>> {
    fn unit(asked: &Asked) -> Option<new::UnitConfig> {
        match asked {
            Asked::Esp32(_) => None,
            Asked::Esp32C3(config) => Some(*config),
        }
    }

    fn both(tx: &Asked, rx: &Asked) -> Option<new::Config> {
        match (tx, rx) {
            (Asked::Esp32C3(tx), Asked::Esp32C3(rx)) => Some(new::Config {
                rx_config: *rx,
                tx_config: *tx,
            }),
            _ => None,
        }
    }

    fn marks(&self, half: Side) -> Marks {
        self.block.marks(half)
    }

    fn divider_fields(unit: Side) -> &'static [Field] {
        match unit {
            Side::Transmit => &NEW_TX_DIVIDER,
            Side::Receive => &NEW_RX_DIVIDER,
        }
    }

    fn has_own_dividers() -> bool {
        true
    }
}

/// The dividers of a set-up by the search, also where its clock is out of reach.
pub(crate) fn clock(asked: &Asked) -> Result<I2sClockDividers, ConfigError> {
    match asked {
        Asked::Esp32(config) => esp32_clock(config),
        Asked::Esp32C3(config) => esp32c3_clock(config),
    }
}

/// What is out of range in a set-up that is refused.
pub(crate) fn fault(asked: &Asked) -> Option<Refused> {
    match asked {
        Asked::Esp32(config) => accept_esp32(config, old::ClockReach::esp32()).err(),
        Asked::Esp32C3(config) => accept_esp32c3(config, new::ClockReach::esp32c3()).err(),
    }
}
