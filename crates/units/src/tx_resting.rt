//! The transmit unit at rest.
ghost use Rattle.std.specs.Prelude.{◌≡◌, ◌≤◌, IfOk, MatchResult, false, true};
ghost use Rattle.chips.specs.Moves.{OnTx};
ghost use Rattle.transfers.specs.Calls.{apply_leaves, apply_told, told, tx_start_leaves, tx_start_says};
ghost use Rattle.transfers.specs.Events.{forgotten, listened, tx_own};
ghost use Rattle.transfers.specs.Refused.{StartRefused, StartUnfound};

use crate::opened::Opened;
use crate::tx_running::TxRunning;
use chips::{I2sInterrupts, RegisterAccessPrivate};
use dividers::ConfigError;
use errors::Error;
use transfers::{apply_tx, clear_tx, listen_tx, start_tx};

/// The transmit unit of an opened block, at rest.
#[derive(Drop)]
pub struct TxResting<C: RegisterAccessPrivate> {
    // The longest transfer in bytes.
    pub(crate) limit: u16,
    pub(crate) format: C::DataFormat,
}

impl<C: RegisterAccessPrivate> TxResting<C> {
    /// Takes a set-up over, unless it is refused.
    pub fn apply_config(
        self,
        opened: &mut Opened<C>,
        config: &C::UnitConfig,
    ) -> Result<TxResting<C>, (TxResting<C>, ConfigError)>
        ensures answer { apply_told result ≡ C.refusal (config.now, self.format) }
        ensures half { OnTx C.tx C.rx C.common (apply_leaves C.tx_moves C.refusal (config.now, self.format)) opened.old.chip opened.new.chip }
        ensures limit { MatchResult result (λ unit. unit.limit ≡ self.limit) (λ e. e.0.limit ≡ self.limit) }
        ensures format { MatchResult result (λ unit. unit.format ≡ self.format) (λ e. e.0.format ≡ self.format) }
    {
        match apply_tx(&mut opened.chip, self.format, config) {
            Ok(()) => Ok(self),
            Err(error) => Err((self, error)),
        }
    }

    /// Starts a transfer of so many bytes, and answers the polls that it took to find it started.
    #[tactic(auto, using(transfers::proofs::Refused::tx_start_refused, transfers::proofs::Refused::tx_start_unfound))]
    pub fn start(
        self,
        opened: &mut Opened<C>,
        len: usize,
        allowance: u16,
    ) -> Result<(TxRunning<C>, u32), (TxResting<C>, Error)>
        ensures answer { told result ≡ tx_start_says C.tx_moves self.limit len allowance (C.tx opened.old.chip) }
        ensures within { IfOk result (λ p. p.1 ≤ allowance) }
        ensures half { OnTx C.tx C.rx C.common (tx_start_leaves C.tx_moves self.limit len allowance) opened.old.chip opened.new.chip }
        ensures refused { StartRefused (told result) (C.tx opened.old.chip) (C.tx opened.new.chip) }
        ensures unfound { StartUnfound C.tx_moves C.tx_start_field allowance (told result) (C.tx opened.old.chip) (C.tx opened.new.chip) }
        ensures limit { MatchResult result (λ p. p.0.limit ≡ self.limit) (λ e. e.0.limit ≡ self.limit) }
        ensures format { MatchResult result (λ p. p.0.format ≡ self.format) (λ e. e.0.format ≡ self.format) }
    {
        match start_tx(&mut opened.chip, self.limit, len, allowance) {
            Ok(polls) => Ok((
                TxRunning {
                    limit: self.limit,
                    format: self.format,
                },
                polls,
            )),
            Err(error) => Err((self, error)),
        }
    }

    /// Turns those of its own events that are named on.
    pub fn listen(&self, opened: &mut Opened<C>, interrupts: I2sInterrupts)
        ensures { OnTx C.tx C.rx C.common (listened (tx_own interrupts C.own_events) true) opened.old.chip opened.new.chip }
    {
        listen_tx(&mut opened.chip, interrupts, true);
    }

    /// Turns those of its own events that are named off.
    pub fn unlisten(&self, opened: &mut Opened<C>, interrupts: I2sInterrupts)
        ensures { OnTx C.tx C.rx C.common (listened (tx_own interrupts C.own_events) false) opened.old.chip opened.new.chip }
    {
        listen_tx(&mut opened.chip, interrupts, false);
    }

    /// Ends those of its own events that are named.
    pub fn clear_interrupts(&self, opened: &mut Opened<C>, interrupts: I2sInterrupts)
        ensures { OnTx C.tx C.rx C.common (forgotten (tx_own interrupts C.own_events)) opened.old.chip opened.new.chip }
    {
        clear_tx(&mut opened.chip, interrupts);
    }
}
