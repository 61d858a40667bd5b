//! Orders with the same calls of each unit agree, and lists that have not the same calls are told apart.
use crate::chips_opened::{NewChip, on_new, on_old, on_two_new, rx, tx};
use alike::same_calls;
use calls::{Call, UnitCall};
use dividers::Rate;
use fields::{CommonField, Field, RxField, TxField};
use marks::Draw;
use setups::esp32c3::UnitConfig;
use std::test::Fail;

const DRAW: Draw = Draw {
    late: 0,
    wait: 3,
    hung: true,
};

fn fast() -> UnitConfig {
    UnitConfig::new_tdm_philips().with_sample_rate(Rate::from_hz(48_000))
}

fn mixed() -> [Call<UnitConfig>; 7] {
    [
        rx(UnitCall::Start(8, 0)),
        tx(UnitCall::ApplyConfig(fast())),
        tx(UnitCall::Start(8, 0)),
        rx(UnitCall::Wait(2)),
        tx(UnitCall::Wait(1)),
        rx(UnitCall::Wait(9)),
        tx(UnitCall::Stop),
    ]
}

fn one_after_the_other() -> [Call<UnitConfig>; 7] {
    [
        tx(UnitCall::ApplyConfig(fast())),
        tx(UnitCall::Start(8, 0)),
        tx(UnitCall::Wait(1)),
        tx(UnitCall::Stop),
        rx(UnitCall::Start(8, 0)),
        rx(UnitCall::Wait(2)),
        rx(UnitCall::Wait(9)),
    ]
}

#[test]
fn orders_agree(rt: HostRuntime) -> Result<(), Fail> {
    let (same_calls, one, other) = on_two_new(rt.alloc(), DRAW, &mixed(), &one_after_the_other())?;
    assert!(rt; same_calls);
    assert_eq!(rt; one.answered(), [0, 0, 0, 9, 9, 0, 0]);
    assert_eq!(rt; other.answered(), [0, 0, 9, 0, 0, 9, 0]);
    assert!(rt; one.tx == other.tx && one.rx == other.rx);
    Ok(())
}

fn same(one: &[Call<UnitConfig>], other: &[Call<UnitConfig>]) -> bool {
    same_calls::<NewChip>(one, other)
}

// A call more, another order within a unit, or another set-up is another list.
#[test]
fn other_lists_are_told_apart(rt: HostRuntime) {
    let list = mixed();
    assert!(rt; same(&list, &one_after_the_other()) && same(&[], &[]));
    assert!(rt; !same(&list, &list[1..]) && !same(&list[1..], &list) && !same(&list, &[]));
    let swapped = [tx(UnitCall::Wait(1)), tx(UnitCall::Stop)];
    let other_way = [tx(UnitCall::Stop), tx(UnitCall::Wait(1))];
    assert!(rt; !same(&swapped, &other_way));
    let set_up = [tx(UnitCall::ApplyConfig(fast()))];
    let other_set_up = [tx(UnitCall::ApplyConfig(UnitConfig::new_tdm_philips()))];
    assert!(rt; same(&set_up, &set_up) && !same(&set_up, &other_set_up));
    assert!(rt; !same(&set_up, &[rx(UnitCall::ApplyConfig(fast()))]));
}

// A unit's divider is that of the set-up that it last accepted; on the old chip that of the opening.
#[test]
fn dividers_follow_the_set_ups(rt: HostRuntime) -> Result<(), Fail> {
    let calls = [
        tx(UnitCall::ApplyConfig(fast())),
        rx(UnitCall::ApplyConfig(fast().with_sample_rate(Rate::from_hz(0)))),
        tx(UnitCall::Start(4, 0)),
        tx(UnitCall::ApplyConfig(UnitConfig::new_tdm_philips())),
    ];
    let fields = [
        Field::Tx(TxField::NewTxClkmDivNum),
        Field::Tx(TxField::NewTxClkmDivX),
        Field::Rx(RxField::NewRxClkmDivNum),
        Field::Rx(RxField::NewRxClkmDivZ),
    ];
    let left = on_new(rt.alloc(), DRAW, &calls, &fields)?;
    assert_eq!(rt; left.answered(), [0, 4, 0, 10]);
    assert!(rt; left.numbers.as_slice() == [13, 47, 14, 76].as_slice());
    let unit = old_setups::UnitConfig::new_tdm_msb();
    let calls = [
        tx(UnitCall::ApplyConfig(unit)),
        rx(UnitCall::ApplyConfig(unit)),
    ];
    let fields = [
        Field::Common(CommonField::OldClkmDivNum),
        Field::Common(CommonField::OldClkmDivA),
        Field::Tx(TxField::OldTxBckDivNum),
    ];
    let left = on_old(rt.alloc(), DRAW, &calls, &fields)?;
    assert!(rt; left.numbers.as_slice() == [14, 29, 8].as_slice());
    Ok(())
}
