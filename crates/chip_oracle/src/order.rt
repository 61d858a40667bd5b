//! Orders of calls on the units of a chip that is opened.

use crate::functions::Answer;
use crate::interrupts::read_interrupts;
use crate::print;
use calls::{Call, UnitCall};
use chips::RegisterAccessPrivate;
use coded::read_flag;
use errors::OpenError;
use marks::Draw;
use recorded::Notes;
use std::io;
use steps::make_call;
use units::{Opened, RxResting, TxResting, Unit, open};

/// A line of an order.
#[derive(Drop)]
pub struct Line {
    pub number: u64,
    pub text: String,
}

/// How an opening begins: the longest transfers, what the starts of each half draw, and the numbers of the set-up.
#[derive(Drop)]
pub struct Opening {
    pub tx_limit: u16,
    pub rx_limit: u16,
    pub tx_draws: Vec<Draw>,
    pub rx_draws: Vec<Draw>,
    pub set_up: Vec<u32>,
}

/// What orders need of a chip over a block that notes: its set-ups as rows of numbers, and its notes.
pub(crate) trait Listed: RegisterAccessPrivate {
    fn read_config(row: &[u32]) -> Option<Self::Config>;

    fn read_unit(row: &[u32]) -> Option<Self::UnitConfig>;

    fn notes(&self) -> &Notes;
}

/// The line that ends an order.
pub(crate) const LAST: &str = "interrupts";

// The numbers of a draw, and of an opening before its draws.
const DRAW: usize = 3;

const HEAD: usize = 4;

fn read_draw(numbers: &[u32]) -> Option<Draw> {
    let [late, wait, hung] = numbers else {
        return None;
    };
    Some(Draw {
        late: *late,
        wait: *wait,
        hung: read_flag(*hung)?,
    })
}

// So many draws, and the numbers behind them.
fn read_draws<'a>(
    rt: &HostRuntime,
    count: u32,
    numbers: &'a [u32],
) -> io::Result<Option<(Vec<Draw>, &'a [u32])>> {
    let mut draws = Vec::new(rt.alloc());
    let mut numbers = numbers;
    for _ in 0..count {
        let Some((first, rest)) = numbers.split_at_checked(DRAW) else {
            return Ok(None);
        };
        let Some(draw) = read_draw(first) else {
            return Ok(None);
        };
        draws.push(draw)?;
        numbers = rest;
    }
    Ok(Some((draws, numbers)))
}

/// What the numbers of an opening's line say; none where they say nothing.
pub(crate) fn read_opening(rt: &HostRuntime, numbers: &[u32]) -> io::Result<Option<Opening>> {
    let Some((head, rest)) = numbers.split_at_checked(HEAD) else {
        return Ok(None);
    };
    let [tx_limit, rx_limit, tx_starts, rx_starts] = head else {
        return Ok(None);
    };
    let (Ok(tx_limit), Ok(rx_limit)) = (u16::try_from(*tx_limit), u16::try_from(*rx_limit)) else {
        return Ok(None);
    };
    let Some((tx_draws, rest)) = read_draws(rt, *tx_starts, rest)? else {
        return Ok(None);
    };
    let Some((rx_draws, rest)) = read_draws(rt, *rx_starts, rest)? else {
        return Ok(None);
    };
    Ok(Some(Opening {
        tx_limit,
        rx_limit,
        tx_draws,
        rx_draws,
        set_up: Vec::from_slice(rt.alloc(), rest)?,
    }))
}

fn read_unit_call<C: Listed>(name: &str, arguments: &[u32]) -> Option<UnitCall<C::UnitConfig>>
where
    C::UnitConfig: Copy,
{
    match (name, arguments) {
        ("apply_config", row) => Some(UnitCall::ApplyConfig(C::read_unit(row)?)),
        ("start", [len, allowance]) => Some(UnitCall::Start(
            *len as usize,
            u16::try_from(*allowance).ok()?,
        )),
        ("wait", [allowance]) => Some(UnitCall::Wait(u16::try_from(*allowance).ok()?)),
        ("stop", []) => Some(UnitCall::Stop),
        ("listen", [mask]) => Some(UnitCall::Listen(read_interrupts(*mask)?)),
        ("unlisten", [mask]) => Some(UnitCall::Unlisten(read_interrupts(*mask)?)),
        ("clear_interrupts", [mask]) => Some(UnitCall::ClearInterrupts(read_interrupts(*mask)?)),
        _ => None,
    }
}

// The call that a line says; none where it says none.
fn read_call<C: Listed>(rt: &HostRuntime, line: &str) -> io::Result<Option<Call<C::UnitConfig>>>
where
    C::UnitConfig: Copy,
{
    let mut words = line.split_whitespace();
    let (Some(unit), Some(name)) = (words.next(), words.next()) else {
        return Ok(None);
    };
    let Some(arguments) = crate::read_numbers(rt, line)? else {
        return Ok(None);
    };
    let call = read_unit_call::<C>(name, arguments.as_slice());
    Ok(match (unit, call) {
        ("tx", Some(call)) => Some(Call::Transmit(call)),
        ("rx", Some(call)) => Some(Call::Receive(call)),
        _ => None,
    })
}

/// Opens a chip, makes the calls of the lines between the first and the last, and prints a line for each; false at the first line that
/// says none of that.
pub(crate) fn make<C: Listed + Drop>(
    rt: &HostRuntime,
    chip: C,
    opening: &Opening,
    lines: &[Line],
) -> io::Result<bool>
where
    C::Config: Drop,
    C::UnitConfig: Copy,
{
    let [first, calls @ .., last] = lines else {
        return Ok(true);
    };
    let Some(config) = C::read_config(opening.set_up.as_slice()) else {
        return print::no_call(rt, first);
    };
    match open(chip, &config, opening.tx_limit, opening.rx_limit) {
        Ok((opened, tx, rx)) => make_calls(rt, opened, tx, rx, first, calls),
        Err((chip, error)) => say_refused(rt, &chip, error, first, calls),
    }
}

// No call follows an opening that is refused.
fn say_refused<C: Listed>(
    rt: &HostRuntime,
    chip: &C,
    error: OpenError,
    first: &Line,
    calls: &[Line],
) -> io::Result<bool> {
    if print::more(rt, chip.notes(), 0)?.is_none() {
        return print::no_call(rt, first);
    }
    print::open_refusal(rt, error)?;
    if let Some(call) = calls.first() {
        return print::no_call(rt, call);
    }
    print::print_answer(rt, Answer::Events(chip.interrupts()))?;
    Ok(true)
}

fn make_calls<C: Listed + Drop>(
    rt: &HostRuntime,
    opened: Opened<C>,
    tx: TxResting<C>,
    rx: RxResting<C>,
    first: &Line,
    calls: &[Line],
) -> io::Result<bool>
where
    C::Config: Drop,
    C::UnitConfig: Copy,
{
    let mut opened = opened;
    let Some(mut printed) = print::more(rt, opened.block().notes(), 0)? else {
        return print::no_call(rt, first);
    };
    print::print_answer(rt, Answer::Nothing)?;
    let mut tx = Unit::Resting(tx);
    let mut rx = Unit::Resting(rx);
    for line in calls {
        let Some(call) = read_call::<C>(rt, line.text.as_str())? else {
            return print::no_call(rt, line);
        };
        let (next_tx, next_rx, answer) = make_call(&mut opened, tx, rx, &call);
        tx = next_tx;
        rx = next_rx;
        let Some(more) = print::more(rt, opened.block().notes(), printed)? else {
            return print::no_call(rt, line);
        };
        printed = more;
        print::unit_answer(rt, answer)?;
    }
    print::print_answer(rt, Answer::Events(opened.interrupts()))?;
    Ok(true)
}
