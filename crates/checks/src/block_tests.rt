//! Tests of the blocks: the worked example, starts while busy, scripts that run out, and numbers that do not fit.
use crate::handed::Handed;
use blocks::RegBlock;
use fields::{CommonField, Field, RxField, Side, TxField};
use marks::{Draw, Events};
use simulated::{PacedBlock, ScriptedBlock};
use std::process::Abort;

const TX_START: Field = Field::Tx(TxField::NewTxStart);

const RX_START: Field = Field::Rx(RxField::NewRxStart);

const NONE: Events = Events {
    hung: false,
    done: false,
    link_done: false,
    eof: false,
};

const ENDED_HUNG: Events = Events {
    hung: true,
    done: true,
    link_done: true,
    eof: true,
};

// Late twice, busy three times, and hung at the end.
const WORKED: Draw = Draw {
    late: 2,
    wait: 3,
    hung: true,
};

const AT_ONCE: Draw = Draw {
    late: 0,
    wait: 0,
    hung: false,
};

// The rows of the worked example in docs/RULES.md: whether a poll finds the half idle, and busy, late and wait after it.
static COURSE: [(bool, bool, u32, u32); 8] = [
    (true, true, 1, 3),
    (true, true, 0, 3),
    (false, true, 0, 2),
    (false, true, 0, 1),
    (false, true, 0, 0),
    (true, false, 0, 0),
    (true, false, 0, 0),
    (true, false, 0, 0),
];

// The worked example on any block whose first transmit start draws `WORKED`.
fn worked_example<B: RegBlock>(rt: &impl Abort, block: &mut B) {
    block.put(TX_START, 3);
    assert_eq!(rt; block.get(TX_START), 1);
    for (idle, busy, _, _) in COURSE.iter() {
        assert!(rt; block.poll_tx() == *idle);
        let events = if *busy { NONE } else { ENDED_HUNG };
        assert!(rt; block.events(Side::Transmit) == events);
    }
    assert!(rt; block.reported(Side::Transmit) == NONE && block.events(Side::Receive) == NONE);
}

#[test]
fn marks_go_as_in_the_worked_example(rt: HostRuntime) {
    let mut block = PacedBlock::new(WORKED, AT_ONCE);
    block.put(TX_START, 3);
    for (idle, busy, late, wait) in COURSE.iter() {
        assert!(rt; block.poll_tx() == *idle);
        let marks = block.marks(Side::Transmit);
        assert!(rt; marks.busy == *busy && marks.late == *late && marks.wait == *wait);
        assert!(rt; marks.stale && marks.link && !marks.pending && marks.hung);
    }
}

#[test]
fn polls_go_as_in_the_worked_example(rt: HostRuntime) {
    assert_eq!(rt; WORKED.tx_polls(), 6);
    worked_example(&rt, &mut PacedBlock::new(WORKED, AT_ONCE));
    worked_example(&rt, &mut ScriptedBlock::new(&[WORKED], &[]));
    worked_example(
        &rt,
        &mut Handed {
            inner: PacedBlock::new(WORKED, AT_ONCE),
        },
    );
}

#[test]
fn a_receive_half_never_looks_at_late(rt: HostRuntime) {
    let mut block = PacedBlock::new(AT_ONCE, WORKED);
    block.put(RX_START, 1);
    for _ in 0..3 {
        assert!(rt; block.poll_rx() == NONE);
    }
    assert!(rt; block.poll_rx() == ENDED_HUNG);
    assert_eq!(rt; block.marks(Side::Receive).late, WORKED.late);
}

// A field of each width that there is, of both chips, with its width in bits.
static WIDTHS: [(Field, u32); 12] = [
    (Field::Rx(RxField::OldRxMono), 1),
    (Field::Tx(TxField::NewTxClkSel), 2),
    (Field::Tx(TxField::OldTxChanMod), 3),
    (Field::Rx(RxField::NewRxTdmTotChanNum), 4),
    (Field::Tx(TxField::NewTxBitsMod), 5),
    (Field::Common(CommonField::OldClkmDivA), 6),
    (Field::Rx(RxField::NewRxTdmWsWidth), 7),
    (Field::Common(CommonField::OldClkmDivNum), 8),
    (Field::Tx(TxField::NewTxClkmDivX), 9),
    (Field::Rx(RxField::NewRxEofNum), 12),
    (Field::Rx(RxField::OldRxEofNum), 32),
    (Field::Tx(TxField::NewSingleData), 32),
];

// Numbers that do not fit: what a field of one bit, of 12 and of 8 then holds.
#[test]
fn numbers_are_cut(rt: HostRuntime) {
    let end = Field::Rx(RxField::NewRxEofNum);
    let divider = Field::Common(CommonField::OldClkmDivNum);
    let mut block = PacedBlock::new(WORKED, WORKED);
    block.put(TX_START, 2);
    let idle = !block.marks(Side::Transmit).busy;
    block.put(TX_START, u32::MAX);
    block.put(end, 4_096 + 7);
    block.put(divider, 256 + 2);
    let cut = [block.get(TX_START), block.get(end), block.get(divider)];
    assert!(rt; cut == [1, 7, 2]);
    let pending = block.marks(Side::Receive).pending;
    block.put(Field::Rx(RxField::NewRxUpdate), 3);
    assert!(rt; idle && pending && !block.marks(Side::Receive).pending);
}

// Each field keeps its lowest bits, and no field reaches into another.
#[test]
fn every_width_is_cut(rt: HostRuntime) {
    let mut block = PacedBlock::new(WORKED, WORKED);
    for value in [u32::MAX, 0, 0x5555_5555, 0xaaaa_aaaa] {
        for (field, _) in WIDTHS.iter() {
            block.put(*field, value);
        }
        for (field, width) in WIDTHS.iter() {
            assert_eq!(rt; field.width(), *width);
            assert_eq!(rt; block.get(*field), value << (32 - *width) >> (32 - *width));
        }
    }
}

// A number does by what is stored of it: 2 is no start and 3 is, and so with an update.
#[test]
fn a_put_does_what_is_stored(rt: HostRuntime) {
    let update = Field::Rx(RxField::NewRxUpdate);
    let mut block = PacedBlock::new(WORKED, WORKED);
    block.put(TX_START, 2);
    assert!(rt; !block.marks(Side::Transmit).busy && block.poll_tx());
    block.put(TX_START, 3);
    assert!(rt; block.marks(Side::Transmit).busy && block.get(TX_START) == 1);
    block.put(Field::Rx(RxField::NewRxMono), 0);
    block.put(update, 2);
    assert!(rt; block.marks(Side::Receive).pending);
    block.put(update, u32::MAX);
    assert!(rt; !block.marks(Side::Receive).pending && !block.marks(Side::Transmit).pending);
}

// With nothing started, polls find a half idle and leave it as it is.
#[test]
fn polls_of_a_half_at_rest_leave_it(rt: HostRuntime) {
    let mut block = ScriptedBlock::new(&[WORKED], &[WORKED]);
    let before = [block.marks(Side::Transmit), block.marks(Side::Receive)];
    for _ in 0..3 {
        assert!(rt; block.poll_tx() && block.poll_rx() == NONE);
    }
    assert!(rt; [block.marks(Side::Transmit), block.marks(Side::Receive)] == before);
}

#[test]
fn resets_lower_their_marks(rt: HostRuntime) {
    let mut block = PacedBlock::new(WORKED, WORKED);
    block.put(TX_START, 1);
    block.put(Field::Tx(TxField::NewTxFifoReset), 1);
    let marks = block.marks(Side::Transmit);
    assert!(rt; marks.busy && !marks.stale && marks.link && !marks.pending);
    block.put(Field::Tx(TxField::NewTxReset), 1);
    block.put(Field::Tx(TxField::OldOutRst), 1);
    let marks = block.marks(Side::Transmit);
    assert!(rt; !marks.busy && !marks.link && !marks.pending);
}

// Starts while busy, past the last row, and with no row at all.
#[test]
fn a_script_runs_out(rt: HostRuntime) {
    let mut block = ScriptedBlock::new(&[WORKED, AT_ONCE], &[]);
    let mut waits = [0; 4];
    for wait in waits.iter_mut() {
        block.put(TX_START, 1);
        *wait = block.marks(Side::Transmit).wait;
    }
    assert!(rt; waits == [3, 0, u32::MAX, u32::MAX]);
    assert!(rt; !block.poll_tx() && block.poll_rx() == NONE);
    block.put(RX_START, 1);
    assert_eq!(rt; block.marks(Side::Receive).wait, u32::MAX);
}

// The events of a mask with this number.
fn mask(n: u8) -> Events {
    Events {
        hung: n % 2 == 1,
        done: n / 2 % 2 == 1,
        link_done: n / 4 % 2 == 1,
        eof: n / 8 == 1,
    }
}

#[test]
fn every_mask_is_taken(rt: HostRuntime) {
    for n in 0..16 {
        let mut block = PacedBlock::new(WORKED, AT_ONCE);
        block.put(RX_START, 1);
        let ended = block.poll_rx();
        block.enable(Side::Receive, mask(n), true);
        assert!(rt; block.reported(Side::Receive) == ended.intersection(mask(n)));
        block.clear(Side::Receive, mask(n));
        assert!(rt; block.events(Side::Receive) == ended.difference(mask(n)));
        block.enable(Side::Receive, mask(n), false);
        assert!(rt; block.enabled(Side::Receive) == NONE && block.enabled(Side::Transmit) == NONE);
    }
}

#[test]
fn fields_are_told_apart(rt: HostRuntime) {
    assert!(rt; TX_START == Field::Tx(TxField::NewTxStart) && TX_START != RX_START);
}
