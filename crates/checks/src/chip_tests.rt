//! Tests of the chips over a paced block: allowances of every size, what starts and waits find, resets, events and dividers.
use blocks::RegBlock;
use chips::{I2sInterrupts, RegisterAccessPrivate};
use dividers::Rate;
use esp32::Esp32;
use esp32c3::Esp32C3;
use fields::{CommonField, Field, RxField, Side, TxField};
use marks::{Draw, Events};
use old_setups as old;
use setups::esp32c3::{DataFormat, UnitConfig};
use simulated::PacedBlock;
use std::test::Fail;

const DRAWS: Draw = Draw {
    late: 2,
    wait: 3,
    hung: true,
};

const NO_WAIT: Draw = Draw {
    late: 2,
    wait: 0,
    hung: false,
};

const ALL: I2sInterrupts = I2sInterrupts {
    rx_hung: true,
    tx_hung: true,
    rx_done: true,
    tx_done: true,
};

const NONE: I2sInterrupts = I2sInterrupts {
    rx_hung: false,
    tx_hung: false,
    rx_done: false,
    tx_done: false,
};

fn new_chip(draw: Draw) -> Esp32C3<PacedBlock> {
    Esp32C3 {
        block: PacedBlock::new(draw, draw),
    }
}

fn old_chip(draw: Draw) -> Esp32<PacedBlock> {
    Esp32 {
        block: PacedBlock::new(draw, draw),
    }
}

// The old chip's start polls until busy is found: after late polls, and never where there is no wait.
#[test]
fn an_old_start_is_found_busy(rt: HostRuntime) {
    for (allowance, polls) in [
        (0, None),
        (1, None),
        (2, None),
        (3, Some(3)),
        (65_535, Some(3)),
    ] {
        let mut chip = old_chip(DRAWS);
        assert!(rt; chip.tx_start(allowance) == polls);
        assert!(rt; chip.block.marks(Side::Transmit).busy);
    }
    let mut chip = old_chip(NO_WAIT);
    assert!(rt; chip.tx_start(65_535) == None && !chip.block.marks(Side::Transmit).busy);
}

// The new chip's start makes no poll, and a wait ends at a poll that finds the half idle, also where it is late.
#[test]
fn a_new_wait_goes_by_its_polls(rt: HostRuntime) {
    let mut chip = new_chip(DRAWS);
    assert!(rt; chip.tx_start(0) == Some(0));
    assert!(rt; chip.wait_for_tx_done(0) == None && chip.wait_for_tx_done(9) == Some(1));
    assert!(rt; chip.block.marks(Side::Transmit).busy);
    assert_eq!(rt; chip.block.get(Field::Tx(TxField::NewTxStart)), 0);
}

// Both chips find a receive after its waits, and clear the event of its end.
#[test]
fn a_receive_ends_after_its_waits(rt: HostRuntime) {
    let mut new = new_chip(DRAWS);
    new.rx_start(4_096);
    assert_eq!(rt; new.block.get(Field::Rx(RxField::NewRxEofNum)), 4_095);
    assert!(rt; new.wait_for_rx_done(3) == None && new.wait_for_rx_done(65_535) == Some(1));
    assert!(rt; !new.block.events(Side::Receive).done && new.block.events(Side::Receive).eof);
    let mut old = old_chip(DRAWS);
    old.rx_start(4_096);
    assert_eq!(rt; old.block.get(Field::Rx(RxField::OldRxEofNum)), 1_024);
    assert!(rt; old.wait_for_rx_done(65_535) == Some(4));
    assert!(rt; !old.block.events(Side::Receive).eof && old.block.events(Side::Receive).done);
    old.rx_start(0);
    new.rx_start(0);
    assert!(rt;
        old.block.get(Field::Rx(RxField::OldRxEofNum)) == 0
            && new.block.get(Field::Rx(RxField::NewRxEofNum)) == 0
    );
}

#[test]
fn resets_leave_what_each_chip_says(rt: HostRuntime) {
    let (mut new, mut old) = (new_chip(DRAWS), old_chip(DRAWS));
    let _ = new.tx_start(0);
    let _ = old.tx_start(0);
    new.reset_tx();
    old.reset_tx();
    let (of_new, of_old) = (
        new.block.marks(Side::Transmit),
        old.block.marks(Side::Transmit),
    );
    assert!(rt; !of_new.busy && !of_new.stale && of_new.link);
    assert!(rt; !of_old.busy && !of_old.stale && !of_old.link);
}

// A chip passes over the events that it lacks, and turning off undoes turning on.
#[test]
fn events_are_the_chips_own(rt: HostRuntime) {
    let (mut new, mut old) = (new_chip(DRAWS), old_chip(DRAWS));
    new.listen(ALL);
    old.listen(ALL);
    assert!(rt; new.block.enabled(Side::Receive).done && !old.block.enabled(Side::Receive).done);
    assert!(rt; new.block.enabled(Side::Transmit).hung && old.block.enabled(Side::Transmit).hung);
    new.rx_start(4);
    let _ = new.wait_for_rx_done(0);
    for _ in 0..4 {
        let _ = new.block.poll_rx();
    }
    assert!(rt; new.interrupts().rx_hung && new.interrupts().rx_done && !new.interrupts().tx_done);
    new.clear_interrupts(ALL);
    new.unlisten(ALL);
    assert!(rt; new.interrupts() == NONE && !new.block.enabled(Side::Receive).hung);
}

// Each of the 16 masks turns on those of its events that the chip has, and turning them off leaves none.
#[test]
fn every_mask_is_taken(rt: HostRuntime) {
    for mask in 0..16u32 {
        let named = I2sInterrupts {
            rx_hung: mask % 2 == 1,
            tx_hung: mask / 2 % 2 == 1,
            rx_done: mask / 4 % 2 == 1,
            tx_done: mask / 8 == 1,
        };
        let (mut new, mut old) = (new_chip(DRAWS), old_chip(DRAWS));
        new.listen(named);
        old.listen(named);
        let (tx, rx) = (
            new.block.enabled(Side::Transmit),
            new.block.enabled(Side::Receive),
        );
        assert!(rt;
            tx.hung == named.tx_hung && tx.done == named.tx_done && !tx.link_done && !tx.eof
        );
        assert!(rt;
            rx.hung == named.rx_hung && rx.done == named.rx_done && !rx.link_done && !rx.eof
        );
        let (tx, rx) = (
            old.block.enabled(Side::Transmit),
            old.block.enabled(Side::Receive),
        );
        assert!(rt; tx.hung == named.tx_hung && !tx.done && !tx.link_done && !tx.eof);
        assert!(rt; rx.hung == named.rx_hung && !rx.done && !rx.link_done && !rx.eof);
        new.unlisten(named);
        old.unlisten(named);
        assert!(rt; new.block.enabled(Side::Transmit) == Events::none());
        assert!(rt; old.block.enabled(Side::Receive) == Events::none());
    }
}

// Any length is put, cut to the field's width: 12 bits of the new chip, 32 of the old one.
#[test]
fn any_length_starts_a_receive(rt: HostRuntime) {
    for (len, of_new, of_old) in [
        (0, 0, 0),
        (1, 0, 0),
        (3, 2, 0),
        (4_097, 0, 1_024),
        (8_192, 4_095, 2_048),
        (u32::MAX, 4_094, 1_073_741_823),
    ] {
        let (mut new, mut old) = (new_chip(DRAWS), old_chip(DRAWS));
        new.rx_start(len);
        old.rx_start(len);
        assert_eq!(rt; new.block.get(Field::Rx(RxField::NewRxEofNum)), of_new);
        assert_eq!(rt; old.block.get(Field::Rx(RxField::OldRxEofNum)), of_old);
        assert!(rt; new.block.marks(Side::Receive).busy && old.block.marks(Side::Receive).busy);
    }
}

// With the largest draws no allowance is enough, and each poll is made.
#[test]
fn the_largest_draws_time_out(rt: HostRuntime) {
    let most = Draw {
        late: u32::MAX,
        wait: u32::MAX,
        hung: true,
    };
    let (mut new, mut old) = (new_chip(most), old_chip(most));
    assert!(rt; old.tx_start(65_535) == None);
    assert_eq!(rt; old.block.marks(Side::Transmit).late, u32::MAX - 65_535);
    new.rx_start(4);
    assert!(rt; new.wait_for_rx_done(1) == None && new.wait_for_rx_done(0) == None);
    assert!(rt; new.wait_for_rx_done(65_535) == None);
    assert_eq!(rt; new.block.marks(Side::Receive).wait, u32::MAX - 65_536);
}

// A set-up that is taken over puts its divider, and the other unit's stays.
#[test]
fn dividers_are_those_of_the_set_ups(rt: HostRuntime) -> Result<(), Fail> {
    let mut new = new_chip(DRAWS);
    let format = DataFormat::Data16Channel16;
    let slow = UnitConfig::new_tdm_philips().with_sample_rate(Rate::from_hz(8_000));
    let fast = UnitConfig::new_tdm_philips().with_sample_rate(Rate::from_hz(48_000));
    new.configure_tx(&Esp32C3::<PacedBlock>::check(&slow, format)?);
    new.configure_rx(&Esp32C3::<PacedBlock>::check(&fast, format)?);
    let parts = [
        new.block.get(Field::Tx(TxField::NewTxClkmDivNum)),
        new.block.get(Field::Rx(RxField::NewRxClkmDivNum)),
        new.block.get(Field::Rx(RxField::NewRxClkmDivX)),
    ];
    assert!(rt; parts == [78, 13, 47]);
    let both = old::Config::new_tdm_philips().with_sample_rate(Rate::from_hz(44_100));
    let mut old = old_chip(DRAWS);
    if let Ok(opening) = Esp32::<PacedBlock>::check_open(&both) {
        old.configure(&opening);
    }
    let parts = [
        old.block.get(Field::Common(CommonField::OldClkmDivNum)),
        old.block.get(Field::Common(CommonField::OldClkmDivA)),
        old.block.get(Field::Common(CommonField::OldClkmDivB)),
        old.block.get(Field::Rx(RxField::OldRxBckDivNum)),
    ];
    assert!(rt; parts == [14, 29, 5, 8]);
    Ok(())
}
