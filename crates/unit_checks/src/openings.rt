//! Openings refused, and what they give back.
use crate::chips_opened::{new_config, old_config, refused_new, refused_old};
use dividers::{ConfigError, Rate};
use errors::OpenError;
use fields::{Field, Side, TxField};
use setups::esp32c3::{Channels, UnitConfig, WsWidth};
use std::test::Fail;

fn unit() -> UnitConfig {
    UnitConfig::new_tdm_philips()
}

// A set-up for each refusal of the new chip.
fn wrong_units() -> [(UnitConfig, ConfigError); 5] {
    [
        (
            unit().with_channels(Channels::new(17, 1, None)),
            ConfigError::ChannelsOutOfRange,
        ),
        (
            unit().with_ws_width(WsWidth::Bits(0)),
            ConfigError::WsWidthOutOfRange,
        ),
        (
            unit().with_channels(Channels::new(9, 1, None)),
            ConfigError::FrameTooLong,
        ),
        (
            unit().with_sample_rate(Rate::from_hz(0)),
            ConfigError::RateOutOfRange,
        ),
        (
            unit().with_sample_rate(Rate::from_hz(2_441)),
            ConfigError::ClockOutOfReach,
        ),
    ]
}

// Each of the five names its unit, the transmit unit first, and the block is given back as it was.
#[test]
fn wrong_set_ups_are_not_opened(rt: HostRuntime) -> Result<(), Fail> {
    let field = Field::Tx(TxField::NewTxTdmEn);
    for (wrong, error) in wrong_units() {
        let receive = new_config().with_rx_config(wrong);
        let both = receive.with_tx_config(wrong);
        for (unit, config) in [(Side::Transmit, both), (Side::Receive, receive)] {
            assert!(rt; refused_new(&config, field) == Some((OpenError { unit, error }, 0)));
        }
    }
    Ok(())
}

#[test]
fn the_old_chip_names_the_transmit_unit(rt: HostRuntime) -> Result<(), Fail> {
    let field = Field::Tx(TxField::OldTxRightFirst);
    let unit = Side::Transmit;
    for (hertz, error) in [
        (0, ConfigError::RateOutOfRange),
        (2_441, ConfigError::ClockOutOfReach),
        (629_977, ConfigError::ClockOutOfReach),
    ] {
        let config = old_config().with_sample_rate(Rate::from_hz(hertz));
        assert!(rt; refused_old(&config, field) == Some((OpenError { unit, error }, 0)));
    }
    Ok(())
}
