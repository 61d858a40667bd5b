//! Words written by the transmit unit.
ghost use Rattle.std.specs.Prelude.{◌≡◌, ◌*◌, length};
ghost use Rattle.calls.specs.Joined.{joined_next, joined_says};
ghost use Rattle.calls.specs.Rules.{tx_rules};
ghost use Rattle.joined.specs.Ends.{end_said, end_unit};
ghost use Rattle.steps.specs.Sides.{tx_side};
ghost use Rattle.units.specs.declared.Unit.TheVariants as units;

use crate::word::AcceptedWord;
use chips::RegisterAccessPrivate;
use errors::Error;
use units::{Opened, TxResting, TxRunning, Unit};

/// Writes words: a start and a wait over their length in bytes. It answers the polls of both; refused, it gives the unit back, running
/// if the wait timed out and at rest if not.
pub fn write_words<C: RegisterAccessPrivate, W: AcceptedWord>(
    unit: TxResting<C>,
    opened: &mut Opened<C>,
    words: &[W],
    start_allowance: u16,
    allowance: u16,
) -> Result<(TxResting<C>, u32), (Unit<TxResting<C>, TxRunning<C>>, Error)>
    ensures answer { end_said result ≡ joined_says (tx_rules C.tx_moves C.refusal C.own_events) (length words.now * W.BYTES) start_allowance allowance (tx_side (units.Resting unit) (C.tx opened.old.chip)) }
    ensures side { tx_side (end_unit result) (C.tx opened.new.chip) ≡ joined_next (tx_rules C.tx_moves C.refusal C.own_events) (length words.now * W.BYTES) start_allowance allowance (tx_side (units.Resting unit) (C.tx opened.old.chip)) }
    ensures rx { C.rx opened.new.chip ≡ C.rx opened.old.chip }
    ensures common { C.common opened.new.chip ≡ C.common opened.old.chip }
{
    let Some(len) = words.len().checked_mul(W::BYTES) else {
        return Err((Unit::Resting(unit), Error::IllegalArgument));
    };
    let (running, started) = match unit.start(opened, len, start_allowance) {
        Ok(started) => started,
        Err((unit, error)) => return Err((Unit::Resting(unit), error)),
    };
    match running.wait(opened, allowance) {
        Ok((unit, polls)) => Ok((unit, started + polls)),
        Err((unit, _)) => Err((
            Unit::Running(unit),
            Error::TimedOut(started + u32::from(allowance)),
        )),
    }
}
