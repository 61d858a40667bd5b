//! An opening, and a list of calls on its units.
ghost use Rattle.std.specs.Prelude.{IfOk};
ghost use Rattle.calls.specs.Laws.{OrderLaws};
ghost use Rattle.calls.specs.Opening.{at_open};
ghost use Rattle.calls.specs.Runs.{both};
ghost use Rattle.orders.specs.Outcome.{RunsAs};

use crate::run::{Ran, make_all};
use calls::Call;
use chips::RegisterAccessPrivate;
use errors::OpenError;
use std::alloc::Global;
use units::{Opened, Unit, open};

/// Why a list is not made at all.
#[derive(Clone, Copy, PartialEq, Eq, Debug)]
pub enum Denied {
    /// There is no memory for the answers.
    NoMemory,
    Refused(OpenError),
}

/// Opens a chip and makes a list of calls on its units. Without memory for the answers, or where the opening is refused, it gives the
/// chip back as it was.
pub fn run_opened<C: RegisterAccessPrivate>(
    heap: Global,
    chip: C,
    config: &C::Config,
    tx_limit: u16,
    rx_limit: u16,
    calls: &[Call<C::UnitConfig>],
) -> Result<(Opened<C>, Ran<C>), (C, Denied)>
    ensures outcome { RunsAs C.tx C.rx C.common (both C.tx_moves C.rx_moves C.refusal C.own_events) C.masters C.opens C.updates C.keeps C.open_refusal config.now tx_limit rx_limit calls.now chip result }
    ensures laws { IfOk result (λ p. OrderLaws (both C.tx_moves C.rx_moves C.refusal C.own_events) C.own_divider (λ row. C.tx_divider row (C.common p.0.chip)) (λ row. C.rx_divider row (C.common p.0.chip)) calls.now (at_open C.masters C.opens C.updates C.keeps config.now tx_limit rx_limit (C.tx chip) (C.rx chip)) (C.tx_at_open config.now) (C.rx_at_open config.now)) }
{
    let Ok(room) = Vec::with_capacity(heap, calls.len()) else {
        return Err((chip, Denied::NoMemory));
    };
    let (mut opened, tx, rx) = match open(chip, config, tx_limit, rx_limit) {
        Ok(opened) => opened,
        Err((chip, error)) => return Err((chip, Denied::Refused(error))),
    };
    let ran = make_all(
        &mut opened,
        Unit::Resting(tx),
        Unit::Resting(rx),
        calls,
        room,
    );
    Ok((opened, ran))
}
