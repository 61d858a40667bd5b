//! A block that was opened, and its opening.
ghost use Rattle.std.specs.Prelude.{◌≡◌, IfOk, MatchResult, None, Some};
ghost use Rattle.chips.specs.Interrupts.{interrupts_of};
ghost use Rattle.units.specs.Opening.{OpenedBy, fault_of};

use crate::rx_resting::RxResting;
use crate::tx_resting::TxResting;
use chips::{I2sInterrupts, RegisterAccessPrivate};
use errors::OpenError;

/// A chip over its block, opened. It is changed by its units alone.
#[derive(Drop)]
pub struct Opened<C> {
    pub(crate) chip: C,
}

impl<C: RegisterAccessPrivate> Opened<C> {
    /// A look at the block.
    pub fn block(&self) -> &C
        ensures answer { result.now ≡ self.now.chip }
        ensures unchanged { self.exit.now ≡ self.entry.now }
    {
        &self.chip
    }

    /// The events of both halves that are reported: they stand and are enabled.
    pub fn interrupts(&self) -> I2sInterrupts
        ensures answer { result ≡ interrupts_of C.own_events (C.tx self.now.chip).marks (C.rx self.now.chip).marks }
        ensures unchanged { self.exit.now ≡ self.entry.now }
    {
        self.chip.interrupts()
    }
}

/// Opens a chip with its set-ups and the longest transfer of each unit in bytes. Refused, it gives the chip back as it was.
pub fn open<C: RegisterAccessPrivate>(
    chip: C,
    config: &C::Config,
    tx_limit: u16,
    rx_limit: u16,
) -> Result<(Opened<C>, TxResting<C>, RxResting<C>), (C, OpenError)>
    ensures answer { MatchResult result (λ _. C.open_refusal config.now ≡ None) (λ e. C.open_refusal config.now ≡ Some (fault_of e.1)) }
    ensures leaves { MatchResult result (λ p. OpenedBy C.tx C.rx C.common C.masters C.opens C.updates config.now chip p.0.chip) (λ e. e.0 ≡ chip) }
    ensures tx_divider { IfOk result (λ p. C.tx_divider (C.tx p.0.chip).fields (C.common p.0.chip) ≡ C.tx_at_open config.now) }
    ensures rx_divider { IfOk result (λ p. C.rx_divider (C.rx p.0.chip).fields (C.common p.0.chip) ≡ C.rx_at_open config.now) }
    ensures tx_limit { IfOk result (λ p. p.1.limit ≡ tx_limit) }
    ensures rx_limit { IfOk result (λ p. p.2.limit ≡ rx_limit) }
    ensures tx_format { IfOk result (λ p. p.1.format ≡ C.keeps config.now) }
    ensures rx_format { IfOk result (λ p. p.2.format ≡ C.keeps config.now) }
{
    let opening = match C::check_open(config) {
        Ok(opening) => opening,
        Err((unit, error)) => return Err((chip, OpenError { unit, error })),
    };
    let format = C::data_format(&opening);
    let mut chip = chip;
    chip.set_master();
    chip.configure(&opening);
    chip.update();
    Ok((
        Opened { chip },
        TxResting {
            limit: tx_limit,
            format,
        },
        RxResting {
            limit: rx_limit,
            format,
        },
    ))
}
