//! The old chip's register functions over any block.
ghost use Rattle.std.specs.Prelude.{◌≡◌, true, false};
ghost use Rattle.chips.specs.Moves.{OnRx, OnTx};
ghost use Rattle.chips.specs.Resets.{AfterReset};
ghost use Rattle.chips.specs.Puts.{puts_common, puts_rx, puts_tx};
ghost use Rattle.old_registers.specs.Rows.{clock, opening, rx_set, tx_set};
ghost use Rattle.old_registers.specs.Registers.{link_ends, rx_ended, rx_reset, rx_started, tx_raised, tx_reset, tx_stopped};

use crate::rows;
use blocks::RegBlock;
use chips::put_row;
use fields::{Field, RxField, Side, TxField};
use marks::Events;
use old_setups::{ClockNumbers, UnitNumbers};

// The bytes of a word, in which this chip counts the receive end.
const WORD: u32 = 4;

// What a reset clears in either half.
const LINK_ENDS: Events = Events {
    hung: false,
    done: false,
    link_done: true,
    eof: true,
};

// What a receive start and a finished receive wait clear.
const EOF: Events = Events {
    hung: false,
    done: false,
    link_done: false,
    eof: true,
};

/// Puts the clock of both halves.
pub fn set_clock<B: RegBlock>(block: &mut B, numbers: &ClockNumbers)
    ensures tx { B.tx block.new ≡ puts_tx (clock numbers.now) (B.tx block.old) }
    ensures rx { B.rx block.new ≡ puts_rx (clock numbers.now) (B.rx block.old) }
    ensures common { B.common block.new ≡ puts_common (clock numbers.now) (B.common block.old) }
{
    put_row(block, &rows::clock(numbers));
}

/// Puts a unit's set-up into the transmit half.
pub fn configure_tx<B: RegBlock>(block: &mut B, numbers: &UnitNumbers)
    ensures { OnTx B.tx B.rx B.common (puts_tx (tx_set numbers.now)) block.old block.new }
{
    put_row(block, &rows::tx_set(numbers));
}

/// Puts a unit's set-up into the receive half.
pub fn configure_rx<B: RegBlock>(block: &mut B, numbers: &UnitNumbers)
    ensures { OnRx B.tx B.rx B.common (puts_rx (rx_set numbers.now)) block.old block.new }
{
    put_row(block, &rows::rx_set(numbers));
}

/// Puts the set-ups of both units, their clock and what they share.
pub fn configure<B: RegBlock>(
    block: &mut B,
    tx: &UnitNumbers,
    rx: &UnitNumbers,
    numbers: &ClockNumbers,
)
    ensures tx { B.tx block.new ≡ puts_tx (opening tx.now rx.now numbers.now) (B.tx block.old) }
    ensures rx { B.rx block.new ≡ puts_rx (opening tx.now rx.now numbers.now) (B.rx block.old) }
    ensures common { B.common block.new ≡ puts_common (opening tx.now rx.now numbers.now) (B.common block.old) }
{
    configure_tx(block, tx);
    configure_rx(block, rx);
    set_clock(block, numbers);
    put_row(block, &rows::form(numbers));
}

/// Resets the transmit half with its link, and clears out_done and out_total_eof.
pub fn reset_tx<B: RegBlock>(block: &mut B)
    ensures half { OnTx B.tx B.rx B.common tx_reset block.old block.new }
    ensures leaves { AfterReset link_ends (B.tx block.old) (B.tx block.new) }
    ensures link { (B.tx block.new).marks.link ≡ false }
{
    block.put(Field::Tx(TxField::OldTxReset), 1);
    block.put(Field::Tx(TxField::OldTxFifoReset), 1);
    block.put(Field::Tx(TxField::OldTxReset), 0);
    block.put(Field::Tx(TxField::OldTxFifoReset), 0);
    block.put(Field::Tx(TxField::OldOutRst), 1);
    block.put(Field::Tx(TxField::OldOutRst), 0);
    block.clear(Side::Transmit, LINK_ENDS);
}

/// Starts the transmit half.
pub fn tx_raise<B: RegBlock>(block: &mut B)
    ensures half { OnTx B.tx B.rx B.common tx_raised block.old block.new }
    ensures busy { (B.tx block.new).marks.busy ≡ true }
{
    block.put(Field::Tx(TxField::OldTxStart), 1);
}

/// Stops the transmit half.
pub fn tx_stop<B: RegBlock>(block: &mut B)
    ensures { OnTx B.tx B.rx B.common tx_stopped block.old block.new }
{
    block.put(Field::Tx(TxField::OldTxStart), 0);
}

/// Resets the receive half with its link, and clears in_done and in_suc_eof; its start field stays.
pub fn reset_rx<B: RegBlock>(block: &mut B)
    ensures half { OnRx B.tx B.rx B.common rx_reset block.old block.new }
    ensures leaves { AfterReset link_ends (B.rx block.old) (B.rx block.new) }
    ensures link { (B.rx block.new).marks.link ≡ false }
{
    block.put(Field::Rx(RxField::OldRxReset), 1);
    block.put(Field::Rx(RxField::OldRxFifoReset), 1);
    block.put(Field::Rx(RxField::OldRxReset), 0);
    block.put(Field::Rx(RxField::OldRxFifoReset), 0);
    block.put(Field::Rx(RxField::OldInRst), 1);
    block.put(Field::Rx(RxField::OldInRst), 0);
    block.clear(Side::Receive, LINK_ENDS);
}

/// Starts the receive half for a length in bytes, which is put in words.
pub fn rx_start<B: RegBlock>(block: &mut B, len: u32)
    ensures half { OnRx B.tx B.rx B.common (rx_started len) block.old block.new }
    ensures busy { (B.rx block.new).marks.busy ≡ true }
{
    end_rx(block);
    block.put(Field::Rx(RxField::OldRxEofNum), len / WORD);
    block.put(Field::Rx(RxField::OldRxStart), 1);
}

/// Clears in_suc_eof.
pub fn end_rx<B: RegBlock>(block: &mut B)
    ensures { OnRx B.tx B.rx B.common rx_ended block.old block.new }
{
    block.clear(Side::Receive, EOF);
}
