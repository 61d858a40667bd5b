//! The transmit unit, running.
ghost use Rattle.std.specs.Prelude.{◌≡◌, ◌≤◌, IfOk, MatchResult, false, true};
ghost use Rattle.chips.specs.Moves.{OnTx, waited};
ghost use Rattle.transfers.specs.Calls.{told, wait_says};
ghost use Rattle.transfers.specs.Events.{forgotten, listened, tx_own};
ghost use Rattle.transfers.specs.Refused.{WaitRefused};

use crate::opened::Opened;
use crate::tx_resting::TxResting;
use chips::{I2sInterrupts, RegisterAccessPrivate};
use errors::Error;
use transfers::{clear_tx, listen_tx, wait_tx};

/// The transmit unit of an opened block, running.
#[derive(Drop)]
pub struct TxRunning<C: RegisterAccessPrivate> {
    pub(crate) limit: u16,
    pub(crate) format: C::DataFormat,
}

impl<C: RegisterAccessPrivate> TxRunning<C> {
    /// Waits until the transfer is finished, and answers the polls that it took.
    #[tactic(auto, using(transfers::proofs::Refused::wait_refused))]
    pub fn wait(
        self,
        opened: &mut Opened<C>,
        allowance: u16,
    ) -> Result<(TxResting<C>, u32), (TxRunning<C>, Error)>
        ensures answer { told result ≡ wait_says C.tx_moves allowance (C.tx opened.old.chip) }
        ensures within { IfOk result (λ p. p.1 ≤ allowance) }
        ensures half { OnTx C.tx C.rx C.common (waited C.tx_moves allowance) opened.old.chip opened.new.chip }
        ensures refused { WaitRefused C.tx_moves allowance (told result) (C.tx opened.old.chip) (C.tx opened.new.chip) }
        ensures limit { MatchResult result (λ p. p.0.limit ≡ self.limit) (λ e. e.0.limit ≡ self.limit) }
        ensures format { MatchResult result (λ p. p.0.format ≡ self.format) (λ e. e.0.format ≡ self.format) }
    {
        match wait_tx(&mut opened.chip, allowance) {
            Ok(polls) => Ok((
                TxResting {
                    limit: self.limit,
                    format: self.format,
                },
                polls,
            )),
            Err(error) => Err((self, error)),
        }
    }

    /// Stops the transfer, and resets nothing.
    pub fn tx_stop(self, opened: &mut Opened<C>) -> TxResting<C>
        ensures half { OnTx C.tx C.rx C.common C.tx_moves.stops opened.old.chip opened.new.chip }
        ensures limit { result.limit ≡ self.limit }
        ensures format { result.format ≡ self.format }
    {
        opened.chip.tx_stop();
        TxResting {
            limit: self.limit,
            format: self.format,
        }
    }

    /// Turns those of its own events that are named on.
    pub fn listen(&self, opened: &mut Opened<C>, interrupts: I2sInterrupts)
        ensures { OnTx C.tx C.rx C.common (listened (tx_own interrupts C.own_events) true) opened.old.chip opened.new.chip }
    {
        listen_tx(&mut opened.chip, interrupts, true);
    }

    /// Turns those of its own events that are named off.
    pub fn unlisten(&self, opened: &mut Opened<C>, interrupts: I2sInterrupts)
        ensures { OnTx C.tx C.rx C.common (listened (tx_own interrupts C.own_events) false) opened.old.chip opened.new.chip }
    {
        listen_tx(&mut opened.chip, interrupts, false);
    }

    /// Ends those of its own events that are named.
    pub fn clear_interrupts(&self, opened: &mut Opened<C>, interrupts: I2sInterrupts)
        ensures { OnTx C.tx C.rx C.common (forgotten (tx_own interrupts C.own_events)) opened.old.chip opened.new.chip }
    {
        clear_tx(&mut opened.chip, interrupts);
    }
}
