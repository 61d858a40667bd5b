//! The receive unit at rest.
ghost use Rattle.std.specs.Prelude.{◌≡◌, IfOk, MatchResult, false, true};
ghost use Rattle.chips.specs.Moves.{OnRx};
ghost use Rattle.transfers.specs.Calls.{apply_leaves, apply_told, told, rx_start_leaves, rx_start_says};
ghost use Rattle.transfers.specs.Events.{forgotten, listened, rx_own};
ghost use Rattle.transfers.specs.Refused.{StartRefused};

use crate::opened::Opened;
use crate::rx_running::RxRunning;
use chips::{I2sInterrupts, RegisterAccessPrivate};
use dividers::ConfigError;
use errors::Error;
use transfers::{apply_rx, clear_rx, listen_rx, start_rx};

/// The receive unit of an opened block, at rest.
#[derive(Drop)]
pub struct RxResting<C: RegisterAccessPrivate> {
    // The longest transfer in bytes.
    pub(crate) limit: u16,
    pub(crate) format: C::DataFormat,
}

impl<C: RegisterAccessPrivate> RxResting<C> {
    /// Takes a set-up over, unless it is refused.
    pub fn apply_config(
        self,
        opened: &mut Opened<C>,
        config: &C::UnitConfig,
    ) -> Result<RxResting<C>, (RxResting<C>, ConfigError)>
        ensures answer { apply_told result ≡ C.refusal (config.now, self.format) }
        ensures half { OnRx C.tx C.rx C.common (apply_leaves C.rx_moves C.refusal (config.now, self.format)) opened.old.chip opened.new.chip }
        ensures limit { MatchResult result (λ unit. unit.limit ≡ self.limit) (λ e. e.0.limit ≡ self.limit) }
        ensures format { MatchResult result (λ unit. unit.format ≡ self.format) (λ e. e.0.format ≡ self.format) }
    {
        match apply_rx(&mut opened.chip, self.format, config) {
            Ok(()) => Ok(self),
            Err(error) => Err((self, error)),
        }
    }

    /// Starts a transfer of so many bytes. It makes no poll on any chip.
    #[tactic(auto, using(transfers::proofs::Refused::rx_start_refused))]
    pub fn start(
        self,
        opened: &mut Opened<C>,
        len: usize,
        _allowance: u16,
    ) -> Result<(RxRunning<C>, u32), (RxResting<C>, Error)>
        ensures answer { told result ≡ rx_start_says self.limit len }
        ensures none { IfOk result (λ p. p.1 ≡ 0) }
        ensures half { OnRx C.tx C.rx C.common (rx_start_leaves C.rx_moves self.limit len) opened.old.chip opened.new.chip }
        ensures refused { StartRefused (told result) (C.rx opened.old.chip) (C.rx opened.new.chip) }
        ensures limit { MatchResult result (λ p. p.0.limit ≡ self.limit) (λ e. e.0.limit ≡ self.limit) }
        ensures format { MatchResult result (λ p. p.0.format ≡ self.format) (λ e. e.0.format ≡ self.format) }
    {
        match start_rx(&mut opened.chip, self.limit, len) {
            Ok(polls) => Ok((
                RxRunning {
                    limit: self.limit,
                    format: self.format,
                },
                polls,
            )),
            Err(error) => Err((self, error)),
        }
    }

    /// Turns those of its own events that are named on.
    pub fn listen(&self, opened: &mut Opened<C>, interrupts: I2sInterrupts)
        ensures { OnRx C.tx C.rx C.common (listened (rx_own interrupts C.own_events) true) opened.old.chip opened.new.chip }
    {
        listen_rx(&mut opened.chip, interrupts, true);
    }

    /// Turns those of its own events that are named off.
    pub fn unlisten(&self, opened: &mut Opened<C>, interrupts: I2sInterrupts)
        ensures { OnRx C.tx C.rx C.common (listened (rx_own interrupts C.own_events) false) opened.old.chip opened.new.chip }
    {
        listen_rx(&mut opened.chip, interrupts, false);
    }

    /// Ends those of its own events that are named.
    pub fn clear_interrupts(&self, opened: &mut Opened<C>, interrupts: I2sInterrupts)
        ensures { OnRx C.tx C.rx C.common (forgotten (rx_own interrupts C.own_events)) opened.old.chip opened.new.chip }
    {
        clear_rx(&mut opened.chip, interrupts);
    }
}
