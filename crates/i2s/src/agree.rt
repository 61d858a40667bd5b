//! `agree`: makes two orders from one opening, and says whether every answer and both halves agree.
use crate::driven::Driven;
use crate::replay::{pace, print_bad, whole_call};
use crate::script::{Drawing, Item, Script, SetUp, What};
use crate::show::half_name;
use crate::told::{AnswerText, CallText};
use anyhow::anyhow;
use calls::{Answer, Call, UnitAnswer};
use entries::Chip;
use esp32::Esp32;
use esp32c3::Esp32C3;
use fields::{Field, Side};
use names::{FieldName, RX_FIELDS, TX_FIELDS};
use orders::{Denied, Ran, TwoRuns, run_both};
use simulated::{PacedBlock, ScriptedBlock};
use std::alloc::{AllocError, Global};
use std::io;

/// A call that was made, with the line that asks it and the answer.
#[derive(Clone, Copy)]
struct Made {
    line: u64,
    call: Call<usize>,
    answer: Answer,
}

/// Makes the calls of two scripts from the opening of the first.
pub(crate) fn agree(rt: &HostRuntime, text: &[u8], other_text: &[u8]) -> anyhow::Result<()> {
    let mut script = Script::read(rt.alloc(), text)?;
    let items = script.read_other(rt.alloc(), other_text)?;
    print_script(rt, "first", items.as_slice())?;
    print_script(rt, "second", script.items.as_slice())?;
    agree_script(rt, &script, items.as_slice())
}

fn print_script(rt: &HostRuntime, which: &str, items: &[Item]) -> io::Result<()> {
    println!(rt; "the {which} script:")?;
    let bad = print_bad(rt, items)?;
    println!(rt; "{} calls, {bad} lines not read", call_count(items))
}

fn call_count(items: &[Item]) -> usize {
    items
        .iter()
        .filter(|item| matches!(item.what, What::Call(_)))
        .count()
}

fn agree_script(rt: &HostRuntime, script: &Script, items: &[Item]) -> anyhow::Result<()> {
    match script.chip {
        Some(Chip::Esp32) => agree_esp32(rt, script, items),
        Some(Chip::Esp32C3) => agree_esp32c3(rt, script, items),
        None => Err(anyhow!("the first script has no line 'chip', so nothing is done")),
    }
}

fn agree_esp32(rt: &HostRuntime, script: &Script, items: &[Item]) -> anyhow::Result<()> {
    let (tx, rx) = (script.tx_draws.as_slice(), script.rx_draws.as_slice());
    if script.drawing == Some(Drawing::Scripted) {
        let (block, other) = (ScriptedBlock::new(tx, rx), ScriptedBlock::new(tx, rx));
        agree_on(rt, script, items, Esp32 { block }, Esp32 { block: other })
    } else {
        let (tx, rx) = (pace(tx), pace(rx));
        let (block, other) = (PacedBlock::new(tx, rx), PacedBlock::new(tx, rx));
        agree_on(rt, script, items, Esp32 { block }, Esp32 { block: other })
    }
}

fn agree_esp32c3(rt: &HostRuntime, script: &Script, items: &[Item]) -> anyhow::Result<()> {
    let (tx, rx) = (script.tx_draws.as_slice(), script.rx_draws.as_slice());
    if script.drawing == Some(Drawing::Scripted) {
        let (block, other) = (ScriptedBlock::new(tx, rx), ScriptedBlock::new(tx, rx));
        agree_on(
            rt,
            script,
            items,
            Esp32C3 { block },
            Esp32C3 { block: other },
        )
    } else {
        let (tx, rx) = (pace(tx), pace(rx));
        let (block, other) = (PacedBlock::new(tx, rx), PacedBlock::new(tx, rx));
        agree_on(
            rt,
            script,
            items,
            Esp32C3 { block },
            Esp32C3 { block: other },
        )
    }
}

// The calls of a script with their set-ups.
fn whole_calls<C: Driven>(
    heap: Global,
    items: &[Item],
    set_ups: &[SetUp],
) -> Result<Vec<Call<C::UnitConfig>>, AllocError> {
    let mut calls = Vec::new(heap);
    for item in items {
        if let What::Call(call) = item.what
            && let Some(call) = whole_call::<C>(call, set_ups)
        {
            calls.push(call)?;
        }
    }
    Ok(calls)
}

// Opens both chips alike, makes an order on each, and compares what came of them.
fn agree_on<C: Driven>(
    rt: &HostRuntime,
    script: &Script,
    items: &[Item],
    one: C,
    other: C,
) -> anyhow::Result<()> {
    let Some(ready) = script.ready() else {
        return Err(anyhow!("the first script opens no chip, so nothing is done"));
    };
    let Some(config) = C::both(&ready.tx.asked, &ready.rx.asked) else {
        return Err(anyhow!("both units of the ESP32 have one rate and one format"));
    };
    let set_ups = script.set_ups.as_slice();
    let calls = whole_calls::<C>(rt.alloc(), items, set_ups)?;
    let other_calls = whole_calls::<C>(rt.alloc(), script.items.as_slice(), set_ups)?;
    let runs = run_both(
        rt.alloc(),
        one,
        other,
        &config,
        ready.tx_limit,
        ready.rx_limit,
        calls.as_slice(),
        other_calls.as_slice(),
    );
    compare_runs(rt, script, items, &runs)
}

fn compare_runs<C: Driven>(
    rt: &HostRuntime,
    script: &Script,
    items: &[Item],
    runs: &TwoRuns<C>,
) -> anyhow::Result<()> {
    match (&runs.one, &runs.other) {
        (Ok((opened, ran)), Ok((other_opened, other_ran))) => {
            print_same_calls(rt, runs.same_calls)?;
            let made = made_calls(rt.alloc(), items, ran)?;
            let other_made = made_calls(rt.alloc(), script.items.as_slice(), other_ran)?;
            let (made, other_made) = (made.as_slice(), other_made.as_slice());
            let set_ups = script.set_ups.as_slice();
            let answers_agree = compare_answers(rt, made, other_made, set_ups)?;
            let halves_agree = compare_blocks(rt, opened.block(), other_opened.block())?;
            conclude(
                rt,
                answers_agree && halves_agree,
                made.len(),
                other_made.len(),
            )
        }
        (Err((_, denied)), _) | (Ok(_), Err((_, denied))) => denied_text(*denied),
    }
}

fn print_same_calls(rt: &HostRuntime, same_calls: bool) -> io::Result<()> {
    if same_calls {
        println!(rt; "each unit has the same calls in both scripts")
    } else {
        println!(rt; "the calls of a unit are not the same in both scripts")
    }
}

// The last line, and whether the tool ends well.
fn conclude(
    rt: &HostRuntime,
    agrees: bool,
    calls: usize,
    other_calls: usize,
) -> anyhow::Result<()> {
    if agrees {
        println!(rt; "both orders agree: {calls} calls and {other_calls} calls")?;
        return Ok(());
    }
    println!(rt; "the orders part: {calls} calls and {other_calls} calls")?;
    Err(anyhow!("the orders part"))
}

fn denied_text(denied: Denied) -> anyhow::Result<()> {
    Err(match denied {
        Denied::NoMemory => anyhow!("there is no memory for the answers, and no call is made"),
        Denied::Refused(error) => anyhow!("the opening is refused, so no call is made: {error}"),
    })
}

// The calls that were made, each with its line and its answer.
fn made_calls<C: Driven>(
    heap: Global,
    items: &[Item],
    ran: &Ran<C>,
) -> Result<Vec<Made>, AllocError> {
    let mut made = Vec::new(heap);
    let mut answers = ran.answers.iter();
    for item in items {
        if let What::Call(call) = item.what
            && let Some(answer) = answers.next()
        {
            made.push(Made {
                line: item.line,
                call,
                answer: *answer,
            })?;
        }
    }
    Ok(made)
}

fn is_of(unit: Side, made: &Made) -> bool {
    match made.call {
        Call::Transmit(_) => unit == Side::Transmit,
        Call::Receive(_) => unit == Side::Receive,
    }
}

fn unit_answer(made: &Made) -> UnitAnswer {
    let (Answer::Transmit(answer) | Answer::Receive(answer)) = made.answer;
    answer
}

// Where a unit's answers part in two orders.
#[derive(Clone, Copy)]
enum Parting {
    /// Nowhere: so many answers are the same.
    Nowhere(u64),
    /// The second script has no call for this line of the first.
    InFirst(u64),
    /// The first script has no call for this line of the second.
    InSecond(u64),
    /// After so many calls.
    Answers(u64, Made, Made),
}

fn where_parted(unit: Side, made: &[Made], other_made: &[Made]) -> Parting {
    let mut others = other_made.iter().filter(|other| is_of(unit, *other));
    let mut count = 0u64;
    for one in made.iter().filter(|one| is_of(unit, *one)) {
        let Some(other) = others.next() else {
            return Parting::InFirst(one.line);
        };
        if unit_answer(one) != unit_answer(other) {
            return Parting::Answers(count, *one, *other);
        }
        count = count.saturating_add(1);
    }
    match others.next() {
        Some(more) => Parting::InSecond(more.line),
        None => Parting::Nowhere(count),
    }
}

// Whether the answers of both units are the same in both orders; where they part is printed.
fn compare_answers(
    rt: &HostRuntime,
    made: &[Made],
    other_made: &[Made],
    set_ups: &[SetUp],
) -> io::Result<bool> {
    let mut agree = true;
    for unit in [Side::Transmit, Side::Receive] {
        let parting = where_parted(unit, made, other_made);
        print_parting(rt, unit, parting, set_ups)?;
        agree = agree && matches!(parting, Parting::Nowhere(_));
    }
    Ok(agree)
}

fn print_parting(
    rt: &HostRuntime,
    unit: Side,
    parting: Parting,
    set_ups: &[SetUp],
) -> io::Result<()> {
    print!(rt; "the {} unit: ", half_name(unit))?;
    match parting {
        Parting::Nowhere(count) => println!(rt; "{count} answers, all the same"),
        Parting::InFirst(line) => {
            println!(rt; "the second script has no call for line {line} of the first")
        }
        Parting::InSecond(line) => {
            println!(rt; "the first script has no call for line {line} of the second")
        }
        Parting::Answers(count, one, other) => {
            println!(rt; "the answers part after {count} calls")?;
            print_made(rt, "first", &one, set_ups)?;
            print_made(rt, "second", &other, set_ups)
        }
    }
}

fn print_made(rt: &HostRuntime, which: &str, made: &Made, set_ups: &[SetUp]) -> io::Result<()> {
    let Made { line, call, answer } = *made;
    print!(rt;
        "  the {which} script, line {line} {}: {}",
        CallText { call, set_ups },
        AnswerText {
            call,
            answer,
            set_ups
        }
    )
}

// Whether both halves are the same in both blocks; where they part is printed.
fn compare_blocks<C: Driven>(rt: &HostRuntime, one: &C, other: &C) -> io::Result<bool> {
    let mut agree = true;
    for half in [Side::Transmit, Side::Receive] {
        agree = compare_halves(rt, half, one, other)? && agree;
    }
    Ok(agree)
}

fn compare_halves<C: Driven>(rt: &HostRuntime, half: Side, one: &C, other: &C) -> io::Result<bool> {
    print!(rt; "the {} half: ", half_name(half))?;
    if let Some(field) = parted_field(half, one, other) {
        let (here, there) = (one.get(field), other.get(field));
        println!(rt; "{} is {here} and {there}", FieldName(field))?;
        return Ok(false);
    }
    let agree = one.marks(half) == other.marks(half);
    if agree {
        println!(rt; "the same fields, marks and events")?;
    } else {
        println!(rt; "the marks part")?;
    }
    Ok(agree)
}

// The first field of a half that differs in two blocks.
fn parted_field<C: Driven>(half: Side, one: &C, other: &C) -> Option<Field> {
    match half {
        Side::Transmit => TX_FIELDS
            .iter()
            .map(|field| Field::Tx(*field))
            .find(|field| one.get(*field) != other.get(*field)),
        Side::Receive => RX_FIELDS
            .iter()
            .map(|field| Field::Rx(*field))
            .find(|field| one.get(*field) != other.get(*field)),
    }
}
