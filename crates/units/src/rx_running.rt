//! The receive unit, running.
ghost use Rattle.std.specs.Prelude.{◌≡◌, ◌≤◌, IfOk, MatchResult, false, true};
ghost use Rattle.chips.specs.Moves.{OnRx, waited};
ghost use Rattle.transfers.specs.Calls.{told, wait_says};
ghost use Rattle.transfers.specs.Events.{forgotten, listened, rx_own};
ghost use Rattle.transfers.specs.Refused.{WaitRefused};

use crate::opened::Opened;
use crate::rx_resting::RxResting;
use chips::{I2sInterrupts, RegisterAccessPrivate};
use errors::Error;
use transfers::{clear_rx, listen_rx, reset_rx, wait_rx};

/// The receive unit of an opened block, running.
#[derive(Drop)]
pub struct RxRunning<C: RegisterAccessPrivate> {
    pub(crate) limit: u16,
    pub(crate) format: C::DataFormat,
}

impl<C: RegisterAccessPrivate> RxRunning<C> {
    /// Waits until the transfer is finished, and answers the polls that it took.
    #[tactic(auto, using(transfers::proofs::Refused::wait_refused))]
    pub fn wait(
        self,
        opened: &mut Opened<C>,
        allowance: u16,
    ) -> Result<(RxResting<C>, u32), (RxRunning<C>, Error)>
        ensures answer { told result ≡ wait_says C.rx_moves allowance (C.rx opened.old.chip) }
        ensures within { IfOk result (λ p. p.1 ≤ allowance) }
        ensures half { OnRx C.tx C.rx C.common (waited C.rx_moves allowance) opened.old.chip opened.new.chip }
        ensures refused { WaitRefused C.rx_moves allowance (told result) (C.rx opened.old.chip) (C.rx opened.new.chip) }
        ensures limit { MatchResult result (λ p. p.0.limit ≡ self.limit) (λ e. e.0.limit ≡ self.limit) }
        ensures format { MatchResult result (λ p. p.0.format ≡ self.format) (λ e. e.0.format ≡ self.format) }
    {
        match wait_rx(&mut opened.chip, allowance) {
            Ok(polls) => Ok((
                RxResting {
                    limit: self.limit,
                    format: self.format,
                },
                polls,
            )),
            Err(error) => Err((self, error)),
        }
    }

    /// Gives the transfer up and resets the unit.
    pub fn abandon(self, opened: &mut Opened<C>) -> RxResting<C>
        ensures half { OnRx C.tx C.rx C.common C.rx_moves.resets opened.old.chip opened.new.chip }
        ensures limit { result.limit ≡ self.limit }
        ensures format { result.format ≡ self.format }
    {
        reset_rx(&mut opened.chip);
        RxResting {
            limit: self.limit,
            format: self.format,
        }
    }

    /// Turns those of its own events that are named on.
    pub fn listen(&self, opened: &mut Opened<C>, interrupts: I2sInterrupts)
        ensures { OnRx C.tx C.rx C.common (listened (rx_own interrupts C.own_events) true) opened.old.chip opened.new.chip }
    {
        listen_rx(&mut opened.chip, interrupts, true);
    }

    /// Turns those of its own events that are named off.
    pub fn unlisten(&self, opened: &mut Opened<C>, interrupts: I2sInterrupts)
        ensures { OnRx C.tx C.rx C.common (listened (rx_own interrupts C.own_events) false) opened.old.chip opened.new.chip }
    {
        listen_rx(&mut opened.chip, interrupts, false);
    }

    /// Ends those of its own events that are named.
    pub fn clear_interrupts(&self, opened: &mut Opened<C>, interrupts: I2sInterrupts)
        ensures { OnRx C.tx C.rx C.common (forgotten (rx_own interrupts C.own_events)) opened.old.chip opened.new.chip }
    {
        clear_rx(&mut opened.chip, interrupts);
    }
}
