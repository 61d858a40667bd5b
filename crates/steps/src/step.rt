//! One call of either unit.
ghost use Rattle.std.specs.Prelude.{◌≡◌};
ghost use Rattle.calls.specs.Runs.{answer_of, both, heard, step_of};
ghost use Rattle.steps.specs.Sides.{sides};

use crate::receive::step_rx;
use crate::transmit::step_tx;
use calls::{Answer, Call};
use chips::RegisterAccessPrivate;
use units::{Opened, RxResting, RxRunning, TxResting, TxRunning, Unit};

/// Makes a call of one unit. The other unit and its half stay as they are.
pub fn make_call<C: RegisterAccessPrivate>(
    opened: &mut Opened<C>,
    tx: Unit<TxResting<C>, TxRunning<C>>,
    rx: Unit<RxResting<C>, RxRunning<C>>,
    call: &Call<C::UnitConfig>,
) -> (
    Unit<TxResting<C>, TxRunning<C>>,
    Unit<RxResting<C>, RxRunning<C>>,
    Answer,
)
    ensures answer { heard result.2 ≡ answer_of (both C.tx_moves C.rx_moves C.refusal C.own_events) call.now (sides tx rx (C.tx opened.old.chip) (C.rx opened.old.chip)) }
    ensures leaves { sides result.0 result.1 (C.tx opened.new.chip) (C.rx opened.new.chip) ≡ step_of (both C.tx_moves C.rx_moves C.refusal C.own_events) call.now (sides tx rx (C.tx opened.old.chip) (C.rx opened.old.chip)) }
    ensures common { C.common opened.new.chip ≡ C.common opened.old.chip }
{
    match call {
        Call::Transmit(call) => {
            let (tx, answer) = step_tx(tx, opened, call);
            (tx, rx, Answer::Transmit(answer))
        }
        Call::Receive(call) => {
            let (rx, answer) = step_rx(rx, opened, call);
            (tx, rx, Answer::Receive(answer))
        }
    }
}
