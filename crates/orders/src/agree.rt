//! Two lists of calls on two openings.
ghost use Rattle.std.specs.Prelude.{◌≡◌, Decides, true};
ghost use Rattle.calls.specs.Agree.{BlocksAlike, SameCalls};
ghost use Rattle.calls.specs.Runs.{both};
ghost use Rattle.orders.specs.Agreed.{AgreedOn};
ghost use Rattle.orders.specs.Outcome.{RunsAs};

use crate::operate::{Denied, run_opened};
use crate::run::Ran;
use alike::same_calls;
use calls::Call;
use chips::RegisterAccessPrivate;
use std::alloc::Global;
use units::Opened;

/// What became of two lists on two openings.
#[derive(Drop)]
pub struct TwoRuns<C: RegisterAccessPrivate> {
    /// Whether both lists have the same calls of each unit, whatever stands between them.
    pub same_calls: bool,
    pub one: Result<(Opened<C>, Ran<C>), (C, Denied)>,
    pub other: Result<(Opened<C>, Ran<C>), (C, Denied)>,
}

/// Opens two chips with one set-up, and makes a list of calls on each. With the same calls of each unit, on blocks alike, all answers
/// and both blocks are alike.
#[tactic(auto, using(crate::proofs::Agreed::agreed))]
pub fn run_both<C: RegisterAccessPrivate>(
    heap: Global,
    one: C,
    other: C,
    config: &C::Config,
    tx_limit: u16,
    rx_limit: u16,
    calls: &[Call<C::UnitConfig>],
    other_calls: &[Call<C::UnitConfig>],
) -> TwoRuns<C>
    ensures same_calls { Decides result.same_calls (SameCalls calls.now other_calls.now) }
    ensures one { RunsAs C.tx C.rx C.common (both C.tx_moves C.rx_moves C.refusal C.own_events) C.masters C.opens C.updates C.keeps C.open_refusal config.now tx_limit rx_limit calls.now one result.one }
    ensures other { RunsAs C.tx C.rx C.common (both C.tx_moves C.rx_moves C.refusal C.own_events) C.masters C.opens C.updates C.keeps C.open_refusal config.now tx_limit rx_limit other_calls.now other result.other }
    ensures alike { result.same_calls ≡ true → BlocksAlike C.tx C.rx C.common one other → AgreedOn C.tx C.rx C.common result.one result.other }
{
    let same_calls = same_calls::<C>(calls, other_calls);
    let one = run_opened(heap, one, config, tx_limit, rx_limit, calls);
    let other = run_opened(heap, other, config, tx_limit, rx_limit, other_calls);
    TwoRuns {
        same_calls,
        one,
        other,
    }
}
