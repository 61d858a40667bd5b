//! Words read by the receive unit.
ghost use Rattle.std.specs.Prelude.{◌≡◌, ◌*◌, length};
ghost use Rattle.calls.specs.Joined.{joined_next, joined_says};
ghost use Rattle.calls.specs.Rules.{rx_rules};
ghost use Rattle.joined.specs.Ends.{end_said, end_unit};
ghost use Rattle.steps.specs.Sides.{rx_side};
ghost use Rattle.units.specs.declared.Unit.TheVariants as units;

use crate::word::AcceptedWord;
use chips::RegisterAccessPrivate;
use errors::Error;
use units::{Opened, RxResting, RxRunning, Unit};

/// Reads words: a start and a wait over their length in bytes. It answers the polls of both; refused, it gives the unit back, running
/// if the wait timed out and at rest if not. There is no memory of words behind a block, so the words stay as they are.
pub fn read_words<C: RegisterAccessPrivate, W: AcceptedWord>(
    unit: RxResting<C>,
    opened: &mut Opened<C>,
    words: &mut [W],
    start_allowance: u16,
    allowance: u16,
) -> Result<(RxResting<C>, u32), (Unit<RxResting<C>, RxRunning<C>>, Error)>
    ensures answer { end_said result ≡ joined_says (rx_rules C.rx_moves C.refusal C.own_events) (length words.old * W.BYTES) start_allowance allowance (rx_side (units.Resting unit) (C.rx opened.old.chip)) }
    ensures side { rx_side (end_unit result) (C.rx opened.new.chip) ≡ joined_next (rx_rules C.rx_moves C.refusal C.own_events) (length words.old * W.BYTES) start_allowance allowance (rx_side (units.Resting unit) (C.rx opened.old.chip)) }
    ensures tx { C.tx opened.new.chip ≡ C.tx opened.old.chip }
    ensures common { C.common opened.new.chip ≡ C.common opened.old.chip }
    ensures words { words.new ≡ words.old }
{
    let Some(len) = words.len().checked_mul(W::BYTES) else {
        return Err((Unit::Resting(unit), Error::IllegalArgument));
    };
    let (running, started) = match unit.start(opened, len, start_allowance) {
        Ok(started) => started,
        Err((unit, error)) => return Err((Unit::Resting(unit), error)),
    };
    match running.wait(opened, allowance) {
        Ok((unit, polls)) => Ok((unit, started + polls)),
        Err((unit, _)) => Err((
            Unit::Running(unit),
            Error::TimedOut(started + u32::from(allowance)),
        )),
    }
}
