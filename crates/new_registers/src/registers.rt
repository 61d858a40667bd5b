//! The new chip's register functions over any block. A chip with the same fields uses these as they are.
ghost use Rattle.std.specs.Prelude.{◌≡◌, true};
ghost use Rattle.fields.specs.declared.TxField.{TxField};
ghost use Rattle.chips.specs.Moves.{OnRx, OnTx};
ghost use Rattle.chips.specs.Resets.{AfterReset};
ghost use Rattle.chips.specs.Puts.{puts_rx, puts_tx};
ghost use Rattle.new_registers.specs.Rows.{rx_clock, rx_form, rx_set, tx_clock, tx_form, tx_set};
ghost use Rattle.new_registers.specs.Registers.{done_and_hung, rx_ended, rx_reset, rx_started, rx_updated, tx_reset, tx_started, tx_stopped, tx_updated};

use crate::rows::{rx_clock, rx_form, tx_clock, tx_form};
use blocks::RegBlock;
use chips::put_row;
use fields::{Field, RxField, Side, TxField};
use marks::Events;
use setups::esp32c3::UnitNumbers;

// What a reset clears in either half.
const ENDED: Events = Events {
    hung: true,
    done: true,
    link_done: false,
    eof: false,
};

// What a finished receive wait clears.
const DONE: Events = Events {
    hung: false,
    done: true,
    link_done: false,
    eof: false,
};

/// Puts the clock of the transmit half.
pub fn set_tx_clock<B: RegBlock>(block: &mut B, numbers: &UnitNumbers)
    ensures { OnTx B.tx B.rx B.common (puts_tx (tx_clock numbers.now)) block.old block.new }
{
    put_row(block, &tx_clock(numbers));
}

/// Puts the clock of the receive half.
pub fn set_rx_clock<B: RegBlock>(block: &mut B, numbers: &UnitNumbers)
    ensures { OnRx B.tx B.rx B.common (puts_rx (rx_clock numbers.now)) block.old block.new }
{
    put_row(block, &rx_clock(numbers));
}

/// Puts a unit's set-up into the transmit half, its clock first.
pub fn configure_tx<B: RegBlock>(block: &mut B, numbers: &UnitNumbers)
    ensures { OnTx B.tx B.rx B.common (puts_tx (tx_set numbers.now)) block.old block.new }
{
    set_tx_clock(block, numbers);
    put_row(block, &tx_form(numbers));
}

/// Puts a unit's set-up into the receive half, its clock first.
pub fn configure_rx<B: RegBlock>(block: &mut B, numbers: &UnitNumbers)
    ensures { OnRx B.tx B.rx B.common (puts_rx (rx_set numbers.now)) block.old block.new }
{
    set_rx_clock(block, numbers);
    put_row(block, &rx_form(numbers));
}

/// Has the transmit half take over what was put.
pub fn update_tx<B: RegBlock>(block: &mut B)
    ensures { OnTx B.tx B.rx B.common tx_updated block.old block.new }
{
    block.put(Field::Tx(TxField::NewTxUpdate), 0);
    block.put(Field::Tx(TxField::NewTxUpdate), 1);
}

/// Has the receive half take over what was put.
pub fn update_rx<B: RegBlock>(block: &mut B)
    ensures { OnRx B.tx B.rx B.common rx_updated block.old block.new }
{
    block.put(Field::Rx(RxField::NewRxUpdate), 0);
    block.put(Field::Rx(RxField::NewRxUpdate), 1);
}

/// Resets the transmit half and clears tx_done and tx_hung.
pub fn reset_tx<B: RegBlock>(block: &mut B)
    ensures half { OnTx B.tx B.rx B.common tx_reset block.old block.new }
    ensures leaves { AfterReset done_and_hung (B.tx block.old) (B.tx block.new) }
    ensures link { (B.tx block.new).marks.link ≡ (B.tx block.old).marks.link }
{
    block.put(Field::Tx(TxField::NewTxReset), 1);
    block.put(Field::Tx(TxField::NewTxFifoReset), 1);
    block.put(Field::Tx(TxField::NewTxReset), 0);
    block.put(Field::Tx(TxField::NewTxFifoReset), 0);
    block.clear(Side::Transmit, ENDED);
}

/// Starts the transmit half.
pub fn tx_start<B: RegBlock>(block: &mut B)
    ensures half { OnTx B.tx B.rx B.common tx_started block.old block.new }
    ensures busy { (B.tx block.new).marks.busy ≡ true }
{
    block.put(Field::Tx(TxField::NewTxStart), 1);
}

/// Stops the transmit half.
pub fn tx_stop<B: RegBlock>(block: &mut B)
    ensures { OnTx B.tx B.rx B.common tx_stopped block.old block.new }
{
    block.put(Field::Tx(TxField::NewTxStart), 0);
}

/// Resets the receive half, its start field first, and clears rx_done and rx_hung.
pub fn reset_rx<B: RegBlock>(block: &mut B)
    ensures half { OnRx B.tx B.rx B.common rx_reset block.old block.new }
    ensures leaves { AfterReset done_and_hung (B.rx block.old) (B.rx block.new) }
    ensures link { (B.rx block.new).marks.link ≡ (B.rx block.old).marks.link }
{
    block.put(Field::Rx(RxField::NewRxStart), 0);
    block.put(Field::Rx(RxField::NewRxReset), 1);
    block.put(Field::Rx(RxField::NewRxFifoReset), 1);
    block.put(Field::Rx(RxField::NewRxReset), 0);
    block.put(Field::Rx(RxField::NewRxFifoReset), 0);
    block.clear(Side::Receive, ENDED);
}

/// Starts the receive half for a length in bytes, which is put less 1.
pub fn rx_start<B: RegBlock>(block: &mut B, len: u32)
    ensures half { OnRx B.tx B.rx B.common (rx_started len) block.old block.new }
    ensures busy { (B.rx block.new).marks.busy ≡ true }
{
    block.put(Field::Rx(RxField::NewRxEofNum), len.saturating_sub(1));
    block.put(Field::Rx(RxField::NewRxStart), 1);
}

/// Clears rx_done.
pub fn end_rx<B: RegBlock>(block: &mut B)
    ensures { OnRx B.tx B.rx B.common rx_ended block.old block.new }
{
    block.clear(Side::Receive, DONE);
}
