//! Calls refused, and what they leave.
use crate::chips_opened::{ALL_EVENTS, LIMIT, NO_EVENTS, on_new, on_old, rx, tx};
use calls::{Answer, UnitAnswer, UnitCall};
use chips::I2sInterrupts;
use dividers::{ConfigError, Rate};
use errors::{DmaError, Error};
use fields::{Field, TxField};
use marks::{Draw, Events};
use setups::esp32c3::{Channels, UnitConfig, WsWidth};
use std::test::Fail;

// Found busy at the third poll of an old start, finished two polls later.
const LATE: Draw = Draw {
    late: 2,
    wait: 2,
    hung: false,
};

// Never found busy on the old chip.
const NO_WAIT: Draw = Draw {
    late: 0,
    wait: 0,
    hung: false,
};

const PROMPT: Draw = Draw {
    late: 0,
    wait: 2,
    hung: true,
};

const LENGTHS: [usize; 9] = [0, 4, 4_000, 4_001, 4_096, 4_097, 65_535, 65_536, usize::MAX];

// By length: the transmit unit has 6 at 0 and above 65,535, the receive unit also above 4,096 and where no words are whole; 7 is above the limit.
const TX_NUMBERS: [u8; 9] = [6, 0, 0, 7, 7, 7, 7, 6, 6];

const RX_NUMBERS: [u8; 9] = [6, 0, 0, 6, 7, 6, 6, 6, 6];

#[test]
fn lengths_are_refused_on_the_new_chip(rt: HostRuntime) -> Result<(), Fail> {
    let heap = rt.alloc();
    for ((len, tx_number), rx_number) in LENGTHS
        .iter()
        .zip(TX_NUMBERS.iter())
        .zip(RX_NUMBERS.iter())
    {
        let calls = [
            tx(UnitCall::Start(*len, 0)),
            rx(UnitCall::Start(*len, 65_535)),
        ];
        let left = on_new(heap, PROMPT, &calls, &[])?;
        assert_eq!(rt; left.answered(), [*tx_number, *rx_number]);
        assert!(rt; left.tx_runs == (*tx_number == 0) && left.rx_runs == (*rx_number == 0));
    }
    Ok(())
}

#[test]
fn lengths_are_refused_on_the_old_chip(rt: HostRuntime) -> Result<(), Fail> {
    let heap = rt.alloc();
    for ((len, tx_number), rx_number) in LENGTHS
        .iter()
        .zip(TX_NUMBERS.iter())
        .zip(RX_NUMBERS.iter())
    {
        let calls = [
            tx(UnitCall::Start(*len, 65_535)),
            rx(UnitCall::Start(*len, 0)),
        ];
        let left = on_old(heap, PROMPT, &calls, &[])?;
        assert_eq!(rt; left.answered(), [*tx_number, *rx_number]);
    }
    Ok(())
}

// A transfer above the limit carries its length and the limit, and leaves the unit reset with nothing drawn.
#[test]
fn a_transfer_above_the_limit_is_refused(rt: HostRuntime) -> Result<(), Fail> {
    let calls = [
        rx(UnitCall::Start(4, 0)),
        rx(UnitCall::Wait(1)),
        rx(UnitCall::Stop),
        rx(UnitCall::Start(4_004, 0)),
        tx(UnitCall::Start(4_001, 9)),
    ];
    let error = |length| Error::DmaError(DmaError {
        length,
        limit: LIMIT,
    });
    let left = on_new(rt.alloc(), PROMPT, &calls, &[])?;
    assert!(rt; left.is_refused(3, error(4_004)) && left.is_refused(4, error(4_001)));
    assert!(rt; !left.rx_runs && !left.tx_runs);
    for marks in [left.tx, left.rx] {
        assert!(rt; !marks.busy && !marks.stale);
    }
    let left = on_old(rt.alloc(), PROMPT, &[tx(UnitCall::Start(4_001, 9))], &[])?;
    assert!(rt; left.is_refused(0, error(4_001)) && left.tx.wait == 0);
    Ok(())
}

// 8 on the old chip: the unit rests with its start field 0, and carries the polls of its allowance.
#[test]
fn a_start_that_is_not_found_is_refused(rt: HostRuntime) -> Result<(), Fail> {
    for (draw, allowance, busy) in [
        (NO_WAIT, 0u16, true),
        (NO_WAIT, 1, false),
        (NO_WAIT, 65_535, false),
        (LATE, 0, true),
        (LATE, 2, true),
    ] {
        let calls = [tx(UnitCall::Start(4, allowance))];
        let left = on_old(rt.alloc(), draw, &calls, &[Field::Tx(TxField::OldTxStart)])?;
        let error = Error::StartTimedOut(u32::from(allowance));
        assert!(rt; left.is_refused(0, error) && !left.tx_runs);
        assert!(rt; left.numbers.as_slice() == [0].as_slice() && left.tx.busy == busy);
    }
    let left = on_old(rt.alloc(), LATE, &[tx(UnitCall::Start(4, 3))], &[])?;
    assert!(rt; left.answers.get(0) == Some(&Answer::Transmit(UnitAnswer::Polled(3))));
    Ok(())
}

// 9 on both chips and both units: the unit still runs, and a later wait finds it.
#[test]
fn a_wait_that_finds_nothing_is_refused(rt: HostRuntime) -> Result<(), Fail> {
    for allowance in [0u16, 1, 2] {
        let new = [
            tx(UnitCall::Start(4, 0)),
            rx(UnitCall::Start(4, 0)),
            tx(UnitCall::Wait(allowance)),
            rx(UnitCall::Wait(allowance)),
        ];
        let left = on_new(rt.alloc(), PROMPT, &new, &[])?;
        let error = Error::TimedOut(u32::from(allowance));
        assert!(rt; left.is_refused(2, error) && left.is_refused(3, error));
        assert!(rt; left.tx_runs && left.rx_runs);
    }
    for allowance in [0u16, 1] {
        let old = [
            tx(UnitCall::Start(4, 1)),
            rx(UnitCall::Start(4, 0)),
            tx(UnitCall::Wait(allowance)),
            rx(UnitCall::Wait(allowance)),
            tx(UnitCall::Wait(65_535)),
            rx(UnitCall::Wait(65_535)),
        ];
        let left = on_old(rt.alloc(), PROMPT, &old, &[])?;
        let error = Error::TimedOut(u32::from(allowance));
        assert!(rt; left.is_refused(2, error) && left.is_refused(3, error));
        assert!(rt; !left.tx_runs && !left.rx_runs);
    }
    Ok(())
}

// A set-up that is refused leaves the unit at rest and its fields as they were.
#[test]
fn set_ups_are_refused_on_the_new_chip(rt: HostRuntime) -> Result<(), Fail> {
    let unit = UnitConfig::new_tdm_philips();
    for (wrong, error) in [
        (
            unit.with_channels(Channels::new(2, 0, None)),
            ConfigError::ChannelsOutOfRange,
        ),
        (
            unit.with_ws_width(WsWidth::Bits(33)),
            ConfigError::WsWidthOutOfRange,
        ),
        (
            unit.with_channels(Channels::new(16, 1, None)),
            ConfigError::FrameTooLong,
        ),
        (
            unit.with_sample_rate(Rate::from_hz(16_777_216)),
            ConfigError::RateOutOfRange,
        ),
        (
            unit.with_sample_rate(Rate::from_hz(629_977)),
            ConfigError::ClockOutOfReach,
        ),
    ] {
        let calls = [
            tx(UnitCall::ApplyConfig(wrong)),
            rx(UnitCall::ApplyConfig(wrong)),
        ];
        let left = on_new(
            rt.alloc(),
            PROMPT,
            &calls,
            &[Field::Tx(TxField::NewTxClkmDivNum)],
        )?;
        let error = Error::ConfigError(error);
        assert!(rt; left.is_refused(0, error) && left.is_refused(1, error));
        assert!(rt; left.numbers.as_slice() == [14].as_slice());
    }
    Ok(())
}

// Events of the other unit, and those that the chip has not, are passed over.
#[test]
fn a_unit_has_its_own_events(rt: HostRuntime) -> Result<(), Fail> {
    let calls = [
        tx(UnitCall::Listen(ALL_EVENTS)),
        tx(UnitCall::Start(4, 0)),
        rx(UnitCall::Start(4, 0)),
        tx(UnitCall::Wait(9)),
        rx(UnitCall::Wait(9)),
        rx(UnitCall::ClearInterrupts(ALL_EVENTS)),
    ];
    let left = on_new(rt.alloc(), PROMPT, &calls, &[])?;
    let reported = I2sInterrupts {
        tx_hung: true,
        tx_done: true,
        ..NO_EVENTS
    };
    assert!(rt; left.reported == reported && left.rx.enabled == Events::none());
    Ok(())
}
