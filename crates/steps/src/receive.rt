//! One call of the receive unit.
ghost use Rattle.std.specs.Prelude.{◌≡◌};
ghost use Rattle.calls.specs.Rules.{rx_rules};
ghost use Rattle.calls.specs.Steps.{next, said_of, says};
ghost use Rattle.steps.specs.Sides.{rx_side};
ghost use Rattle.units.specs.declared.Unit.TheVariants as units;

use calls::{UnitAnswer, UnitCall};
use chips::RegisterAccessPrivate;
use errors::Error;
use units::{Opened, RxResting, RxRunning, Unit};

/// Makes a call of the receive unit. One that it does not take at this point does nothing.
pub fn step_rx<C: RegisterAccessPrivate>(
    unit: Unit<RxResting<C>, RxRunning<C>>,
    opened: &mut Opened<C>,
    call: &UnitCall<C::UnitConfig>,
) -> (Unit<RxResting<C>, RxRunning<C>>, UnitAnswer)
    ensures answer { said_of result.1 ≡ says (rx_rules C.rx_moves C.refusal C.own_events) call.now (rx_side unit (C.rx opened.old.chip)) }
    ensures side { rx_side result.0 (C.rx opened.new.chip) ≡ next (rx_rules C.rx_moves C.refusal C.own_events) call.now (rx_side unit (C.rx opened.old.chip)) }
    ensures tx { C.tx opened.new.chip ≡ C.tx opened.old.chip }
    ensures common { C.common opened.new.chip ≡ C.common opened.old.chip }
{
    match unit {
        Unit::Resting(resting) => rest(resting, opened, call),
        Unit::Running(running) => run(running, opened, call),
    }
}

// The call where the unit is at rest.
fn rest<C: RegisterAccessPrivate>(
    unit: RxResting<C>,
    opened: &mut Opened<C>,
    call: &UnitCall<C::UnitConfig>,
) -> (Unit<RxResting<C>, RxRunning<C>>, UnitAnswer)
    ensures answer { said_of result.1 ≡ says (rx_rules C.rx_moves C.refusal C.own_events) call.now (rx_side (units.Resting unit) (C.rx opened.old.chip)) }
    ensures side { rx_side result.0 (C.rx opened.new.chip) ≡ next (rx_rules C.rx_moves C.refusal C.own_events) call.now (rx_side (units.Resting unit) (C.rx opened.old.chip)) }
    ensures tx { C.tx opened.new.chip ≡ C.tx opened.old.chip }
    ensures common { C.common opened.new.chip ≡ C.common opened.old.chip }
{
    match call {
        UnitCall::ApplyConfig(config) => match unit.apply_config(opened, config) {
            Ok(unit) => (Unit::Resting(unit), UnitAnswer::Done),
            Err((unit, error)) => (
                Unit::Resting(unit),
                UnitAnswer::Refused(Error::ConfigError(error)),
            ),
        },
        UnitCall::Start(len, allowance) => match unit.start(opened, *len, *allowance) {
            Ok((unit, polls)) => (Unit::Running(unit), UnitAnswer::Polled(polls)),
            Err((unit, error)) => (Unit::Resting(unit), UnitAnswer::Refused(error)),
        },
        UnitCall::Wait(_) | UnitCall::Stop => (Unit::Resting(unit), UnitAnswer::NotTaken),
        UnitCall::Listen(interrupts) => {
            unit.listen(opened, *interrupts);
            (Unit::Resting(unit), UnitAnswer::Done)
        }
        UnitCall::Unlisten(interrupts) => {
            unit.unlisten(opened, *interrupts);
            (Unit::Resting(unit), UnitAnswer::Done)
        }
        UnitCall::ClearInterrupts(interrupts) => {
            unit.clear_interrupts(opened, *interrupts);
            (Unit::Resting(unit), UnitAnswer::Done)
        }
    }
}

// The call where the unit runs.
fn run<C: RegisterAccessPrivate>(
    unit: RxRunning<C>,
    opened: &mut Opened<C>,
    call: &UnitCall<C::UnitConfig>,
) -> (Unit<RxResting<C>, RxRunning<C>>, UnitAnswer)
    ensures answer { said_of result.1 ≡ says (rx_rules C.rx_moves C.refusal C.own_events) call.now (rx_side (units.Running unit) (C.rx opened.old.chip)) }
    ensures side { rx_side result.0 (C.rx opened.new.chip) ≡ next (rx_rules C.rx_moves C.refusal C.own_events) call.now (rx_side (units.Running unit) (C.rx opened.old.chip)) }
    ensures tx { C.tx opened.new.chip ≡ C.tx opened.old.chip }
    ensures common { C.common opened.new.chip ≡ C.common opened.old.chip }
{
    match call {
        UnitCall::ApplyConfig(_) | UnitCall::Start(_, _) => {
            (Unit::Running(unit), UnitAnswer::NotTaken)
        }
        UnitCall::Wait(allowance) => match unit.wait(opened, *allowance) {
            Ok((unit, polls)) => (Unit::Resting(unit), UnitAnswer::Polled(polls)),
            Err((unit, error)) => (Unit::Running(unit), UnitAnswer::Refused(error)),
        },
        UnitCall::Stop => (Unit::Resting(unit.abandon(opened)), UnitAnswer::Done),
        UnitCall::Listen(interrupts) => {
            unit.listen(opened, *interrupts);
            (Unit::Running(unit), UnitAnswer::Done)
        }
        UnitCall::Unlisten(interrupts) => {
            unit.unlisten(opened, *interrupts);
            (Unit::Running(unit), UnitAnswer::Done)
        }
        UnitCall::ClearInterrupts(interrupts) => {
            unit.clear_interrupts(opened, *interrupts);
            (Unit::Running(unit), UnitAnswer::Done)
        }
    }
}
