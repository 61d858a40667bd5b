//! Whether two lists have the same calls of each unit, whatever stands between them.
ghost use Rattle.std.specs.Prelude.{◌≡◌, ◌∷◌, Decides, MatchOption, None, Some, [], drop};
ghost use Rattle.calls.specs.Agree.{SameCalls};
ghost use Rattle.calls.specs.Runs.{picked};
ghost use Rattle.alike.specs.Of.{call_of};

use crate::call::same_unit_call;
use calls::{Call, UnitCall};
use chips::RegisterAccessPrivate;
use fields::Side;

/// Whether both lists have the same transmit calls and the same receive calls, each in its order.
pub fn same_calls<C: RegisterAccessPrivate>(
    calls: &[Call<C::UnitConfig>],
    other: &[Call<C::UnitConfig>],
) -> bool
    ensures { Decides result (SameCalls calls.now other.now) }
{
    same_of::<C>(Side::Transmit, calls, other) && same_of::<C>(Side::Receive, calls, other)
}

// The same for one unit.
fn same_of<C: RegisterAccessPrivate>(
    unit: Side,
    calls: &[Call<C::UnitConfig>],
    other: &[Call<C::UnitConfig>],
) -> bool
    ensures { Decides result (picked (call_of unit) calls.now ≡ picked (call_of unit) other.now) }
{
    let mut from = 0;
    for call in calls {
        if let Some(call) = of(unit, call) {
            let Some((next, found)) = next_of(unit, other, from) else {
                return false;
            };
            if !same_unit_call::<C>(call, found) {
                return false;
            }
            from = next;
        }
    }
    next_of(unit, other, from).is_none()
}

// The unit's next call from a place on, and the place after it.
fn next_of<S>(unit: Side, calls: &[Call<S>], from: usize) -> Option<(usize, &UnitCall<S>)>
    ensures { MatchOption result (picked (call_of unit) (drop from calls.now) ≡ []) (λ p. picked (call_of unit) (drop from calls.now) ≡ p.1.now ∷ picked (call_of unit) (drop p.0 calls.now)) }
{
    for place in from..calls.len() {
        if let Some(call) = of(unit, &calls[place]) {
            return Some((place + 1, call));
        }
    }
    None
}

// The call, if it is the unit's.
fn of<S>(unit: Side, call: &Call<S>) -> Option<&UnitCall<S>>
    ensures { MatchOption result (call_of unit call.now ≡ None) (λ c. call_of unit call.now ≡ Some c.now) }
{
    match (unit, call) {
        (Side::Transmit, Call::Transmit(call)) => Some(call),
        (Side::Receive, Call::Receive(call)) => Some(call),
        _ => None,
    }
}
