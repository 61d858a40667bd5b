//! A list of calls on the units of an opened block.
ghost use Rattle.std.specs.Prelude.{◌≡◌, ◌≤◌, IfErr, IfOk, [], length, map};
ghost use Rattle.std.specs.Vec.{vec_capacity};
ghost use Rattle.calls.specs.Laws.{OrderLaws};
ghost use Rattle.calls.specs.Runs.{both, end_of, heard, says_of};
ghost use Rattle.steps.specs.Sides.{sides};

use calls::{Answer, Call};
use chips::RegisterAccessPrivate;
use std::alloc::Global;
use steps::make_call;
use units::{Opened, RxResting, RxRunning, TxResting, TxRunning, Unit};

/// Both units after a list of calls, and the answers, one for each call.
#[derive(Drop)]
pub struct Ran<C: RegisterAccessPrivate> {
    pub tx: Unit<TxResting<C>, TxRunning<C>>,
    pub rx: Unit<RxResting<C>, RxRunning<C>>,
    pub answers: Vec<Answer>,
}

/// Makes a list of calls, refused ones and ones that are not taken included. Without memory for the answers it makes none.
pub fn run_calls<C: RegisterAccessPrivate>(
    heap: Global,
    opened: &mut Opened<C>,
    tx: Unit<TxResting<C>, TxRunning<C>>,
    rx: Unit<RxResting<C>, RxRunning<C>>,
    calls: &[Call<C::UnitConfig>],
) -> Result<
    Ran<C>,
    (
        Unit<TxResting<C>, TxRunning<C>>,
        Unit<RxResting<C>, RxRunning<C>>,
    ),
>
    ensures answers { IfOk result (λ ran. map heard ran.answers.items ≡ says_of (both C.tx_moves C.rx_moves C.refusal C.own_events) calls.now (sides tx rx (C.tx opened.old.chip) (C.rx opened.old.chip))) }
    ensures ends { IfOk result (λ ran. sides ran.tx ran.rx (C.tx opened.new.chip) (C.rx opened.new.chip) ≡ end_of (both C.tx_moves C.rx_moves C.refusal C.own_events) calls.now (sides tx rx (C.tx opened.old.chip) (C.rx opened.old.chip))) }
    ensures common { C.common opened.new.chip ≡ C.common opened.old.chip }
    ensures same_tx { IfErr result (λ e. e.0 ≡ tx) }
    ensures same_rx { IfErr result (λ e. e.1 ≡ rx) }
    ensures same_block { IfErr result (λ e. opened.new ≡ opened.old) }
    ensures laws { OrderLaws (both C.tx_moves C.rx_moves C.refusal C.own_events) C.own_divider (λ row. C.tx_divider row (C.common opened.old.chip)) (λ row. C.rx_divider row (C.common opened.old.chip)) calls.now (sides tx rx (C.tx opened.old.chip) (C.rx opened.old.chip)) (C.tx_divider (C.tx opened.old.chip).fields (C.common opened.old.chip)) (C.rx_divider (C.rx opened.old.chip).fields (C.common opened.old.chip)) }
{
    let Ok(room) = Vec::with_capacity(heap, calls.len()) else {
        return Err((tx, rx));
    };
    Ok(make_all(opened, tx, rx, calls, room))
}

// Makes them, where there is room for the answers.
pub(crate) fn make_all<C: RegisterAccessPrivate>(
    opened: &mut Opened<C>,
    tx: Unit<TxResting<C>, TxRunning<C>>,
    rx: Unit<RxResting<C>, RxRunning<C>>,
    calls: &[Call<C::UnitConfig>],
    room: Vec<Answer>,
) -> Ran<C>
    requires empty { room.items ≡ [] }
    requires room { length calls.now ≤ vec_capacity room }
    ensures answers { map heard result.answers.items ≡ says_of (both C.tx_moves C.rx_moves C.refusal C.own_events) calls.now (sides tx rx (C.tx opened.old.chip) (C.rx opened.old.chip)) }
    ensures ends { sides result.tx result.rx (C.tx opened.new.chip) (C.rx opened.new.chip) ≡ end_of (both C.tx_moves C.rx_moves C.refusal C.own_events) calls.now (sides tx rx (C.tx opened.old.chip) (C.rx opened.old.chip)) }
    ensures common { C.common opened.new.chip ≡ C.common opened.old.chip }
{
    let mut tx = tx;
    let mut rx = rx;
    let mut answers = room;
    for call in calls {
        let (next_tx, next_rx, answer) = make_call(opened, tx, rx, call);
        tx = next_tx;
        rx = next_rx;
        answers.push_reserved(answer);
    }
    Ran { tx, rx, answers }
}
