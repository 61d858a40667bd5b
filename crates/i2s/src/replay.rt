//! `replay`: makes every call of a script and prints each answer.
use crate::bad::Bad;
use crate::driven::{Driven, clock, fault};
use crate::script::{Drawing, Item, Opening, Ready, Script, SetUp, What};
use crate::show::{half_name, print_half, print_numbers};
use crate::told::{AnswerText, CallText, EventsText};
use anyhow::anyhow;
use calls::{Answer, Call, UnitAnswer, UnitCall};
use dividers::{DividerRange, I2sClockDividers};
use drawings::RefusalText;
use entries::Chip;
use errors::OpenError;
use esp32::Esp32;
use esp32c3::Esp32C3;
use fields::Side;
use marks::Draw;
use orders::{Ran, run_calls};
use simulated::{PacedBlock, ScriptedBlock};
use std::alloc::{AllocError, Global};
use std::io;
use units::{Opened, RxResting, RxRunning, TxResting, TxRunning, Unit, open};
use words::Shown;

// After so many calls the tool says how far it is.
const STEP: usize = 100_000;

// What a start draws on a block of which the script says nothing.
const AT_ONCE: Draw = Draw {
    late: 0,
    wait: 0,
    hung: false,
};

/// Replays a script.
pub(crate) fn replay(rt: &HostRuntime, text: &[u8]) -> anyhow::Result<()> {
    let script = Script::read(rt.alloc(), text)?;
    match script.chip {
        Some(Chip::Esp32) => replay_esp32(rt, &script),
        Some(Chip::Esp32C3) => replay_esp32c3(rt, &script),
        None => {
            print_bad(rt, script.items.as_slice())?;
            Err(anyhow!("the script has no line 'chip', so nothing is done"))
        }
    }
}

fn replay_esp32(rt: &HostRuntime, script: &Script) -> anyhow::Result<()> {
    let (tx, rx) = (script.tx_draws.as_slice(), script.rx_draws.as_slice());
    if script.drawing == Some(Drawing::Scripted) {
        let block = ScriptedBlock::new(tx, rx);
        replay_on(rt, script, Esp32 { block })
    } else {
        let block = PacedBlock::new(pace(tx), pace(rx));
        replay_on(rt, script, Esp32 { block })
    }
}

fn replay_esp32c3(rt: &HostRuntime, script: &Script) -> anyhow::Result<()> {
    let (tx, rx) = (script.tx_draws.as_slice(), script.rx_draws.as_slice());
    if script.drawing == Some(Drawing::Scripted) {
        let block = ScriptedBlock::new(tx, rx);
        replay_on(rt, script, Esp32C3 { block })
    } else {
        let block = PacedBlock::new(pace(tx), pace(rx));
        replay_on(rt, script, Esp32C3 { block })
    }
}

/// The row that a paced half draws.
pub(crate) fn pace(draws: &[Draw]) -> Draw {
    draws.first().copied().unwrap_or(AT_ONCE)
}

/// Prints the bad lines.
pub(crate) fn print_bad(rt: &HostRuntime, items: &[Item]) -> io::Result<u64> {
    let mut bad = 0u64;
    for item in items {
        if let What::Bad(why) = item.what {
            print_bad_line(rt, item.line, why)?;
            bad = bad.saturating_add(1);
        }
    }
    Ok(bad)
}

fn print_bad_line(rt: &HostRuntime, line: u64, why: Bad) -> io::Result<()> {
    println!(rt; "line {line}, nothing is done: {why}")
}

// The set-up that a unit's divider comes from, by its place, and the line that says so.
#[derive(Clone, Copy)]
struct Accepted {
    line: u64,
    set_up: usize,
}

/// What was done, and the set-ups that the dividers come from.
#[derive(Clone, Copy)]
struct Tally {
    done: u64,
    refused: u64,
    not_taken: u64,
    bad: u64,
    tx_accepted: Accepted,
    rx_accepted: Accepted,
}

impl Tally {
    // At the opening, with so many bad lines before it.
    fn new(opening: Opening, bad: u64) -> Tally {
        let line = opening.line;
        Tally {
            done: 0,
            refused: 0,
            not_taken: 0,
            bad,
            tx_accepted: Accepted {
                line,
                set_up: opening.tx,
            },
            rx_accepted: Accepted {
                line,
                set_up: opening.rx,
            },
        }
    }

    fn calls(&self) -> u64 {
        self.done
            .saturating_add(self.refused)
            .saturating_add(self.not_taken)
    }

    fn count(&mut self, answer: UnitAnswer) {
        let count = match answer {
            UnitAnswer::Done | UnitAnswer::Polled(_) => &mut self.done,
            UnitAnswer::Refused(_) => &mut self.refused,
            UnitAnswer::NotTaken => &mut self.not_taken,
        };
        *count = count.saturating_add(1);
    }

    // A set-up that a unit with dividers of its own accepts is the one that its divider comes from.
    fn accept(&mut self, line: u64, call: Call<usize>, answer: Answer) {
        match (call, answer) {
            (Call::Transmit(UnitCall::ApplyConfig(set_up)), Answer::Transmit(UnitAnswer::Done)) => {
                self.tx_accepted = Accepted { line, set_up };
            }
            (Call::Receive(UnitCall::ApplyConfig(set_up)), Answer::Receive(UnitAnswer::Done)) => {
                self.rx_accepted = Accepted { line, set_up };
            }
            _ => {}
        }
    }
}

/// The calls that are still to be made, each with its line.
#[derive(Drop)]
struct Queue<C: Driven> {
    calls: Vec<Call<C::UnitConfig>>,
    items: Vec<(u64, Call<usize>)>,
}

impl<C: Driven> Queue<C> {
    fn add(&mut self, line: u64, call: Call<usize>, set_ups: &[SetUp]) -> Result<(), AllocError> {
        if let Some(whole) = whole_call::<C>(call, set_ups) {
            self.calls.push(whole)?;
            self.items.push((line, call))?;
        }
        Ok(())
    }

    fn clear(&mut self) {
        self.calls.clear();
        self.items.clear();
    }
}

/// An opened chip and its units.
#[derive(Drop)]
struct Player<C: Driven> {
    opened: Opened<C>,
    tx: Unit<TxResting<C>, TxRunning<C>>,
    rx: Unit<RxResting<C>, RxRunning<C>>,
}

// The call with the set-up itself.
pub(crate) fn whole_call<C: Driven>(
    call: Call<usize>,
    set_ups: &[SetUp],
) -> Option<Call<C::UnitConfig>> {
    Some(match call {
        Call::Transmit(call) => Call::Transmit(whole_unit_call::<C>(call, set_ups)?),
        Call::Receive(call) => Call::Receive(whole_unit_call::<C>(call, set_ups)?),
    })
}

fn whole_unit_call<C: Driven>(
    call: UnitCall<usize>,
    set_ups: &[SetUp],
) -> Option<UnitCall<C::UnitConfig>> {
    Some(match call {
        UnitCall::ApplyConfig(place) => UnitCall::ApplyConfig(C::unit(&set_ups.get(place)?.asked)?),
        UnitCall::Start(len, allowance) => UnitCall::Start(len, allowance),
        UnitCall::Wait(allowance) => UnitCall::Wait(allowance),
        UnitCall::Stop => UnitCall::Stop,
        UnitCall::Listen(events) => UnitCall::Listen(events),
        UnitCall::Unlisten(events) => UnitCall::Unlisten(events),
        UnitCall::ClearInterrupts(events) => UnitCall::ClearInterrupts(events),
    })
}

// Opens the chip and plays the script on it.
fn replay_on<C: Driven>(rt: &HostRuntime, script: &Script, chip: C) -> anyhow::Result<()> {
    let items = script.items.as_slice();
    let Some(ready) = script.ready() else {
        print_bad(rt, items)?;
        return Err(anyhow!("the script opens no chip, so nothing is done"));
    };
    let Some(config) = C::both(&ready.tx.asked, &ready.rx.asked) else {
        return differ(rt, items, ready.opening);
    };
    // what stands before the opening is said before it
    let (before, items) = split_at_line(items, ready.opening.line);
    let tally = Tally::new(ready.opening, print_bad(rt, before)?);
    match open(chip, &config, ready.tx_limit, ready.rx_limit) {
        Ok((opened, tx, rx)) => {
            let (tx, rx) = (Unit::Resting(tx), Unit::Resting(rx));
            play(
                rt,
                Player { opened, tx, rx },
                items,
                script.set_ups.as_slice(),
                tally,
            )
        }
        Err((_, error)) => refuse(rt, ready, error),
    }
}

fn differ(rt: &HostRuntime, items: &[Item], opening: Opening) -> anyhow::Result<()> {
    print_bad(rt, items)?;
    println!(rt;
        "line {}, nothing is done: both units of the ESP32 have one rate and one format",
        opening.line
    )?;
    Err(anyhow!("the set-ups of the opening differ"))
}

fn refuse(rt: &HostRuntime, ready: Ready, error: OpenError) -> anyhow::Result<()> {
    print!(rt; "line {} open: ", ready.opening.line)?;
    let set_up = match error.unit {
        Side::Transmit => ready.tx,
        Side::Receive => ready.rx,
    };
    print_refused(rt, &set_up, error)?;
    Err(anyhow!("the opening is refused, so no call is made"))
}

// The items before a line, and those from it on.
fn split_at_line<'a>(items: &'a [Item<'a>], line: u64) -> (&'a [Item<'a>], &'a [Item<'a>]) {
    let place = items.iter().position(|item| item.line >= line);
    items
        .split_at_checked(place.unwrap_or(items.len()))
        .unwrap_or((items, &[]))
}

// What refuses an opening, with the unit, the value and its limit.
fn print_refused(rt: &HostRuntime, set_up: &SetUp, error: OpenError) -> io::Result<()> {
    match fault(&set_up.asked) {
        Some(refused) => print!(rt;
            "{} unit, set-up {}: {}",
            half_name(error.unit),
            Shown(set_up.name),
            RefusalText {
                refused,
                range: DividerRange::eight_bits()
            }
        ),
        None => println!(rt; "{error}"),
    }
}

// Plays what the lines ask, calls together up to the next line of another kind.
fn play<C: Driven>(
    rt: &HostRuntime,
    player: Player<C>,
    items: &[Item],
    set_ups: &[SetUp],
    tally: Tally,
) -> anyhow::Result<()> {
    println!(rt; "line {} open: done", tally.tx_accepted.line)?;
    let mut queue = Queue {
        calls: Vec::new(rt.alloc()),
        items: Vec::new(rt.alloc()),
    };
    let (mut player, mut tally) = (player, tally);
    for item in items {
        player = player.take(rt, item, set_ups, &mut queue, &mut tally)?;
    }
    let player = player.make_calls(rt, set_ups, &mut queue, &mut tally)?;
    player.close(rt, set_ups, &tally)
}

impl<C: Driven> Player<C> {
    fn take(
        self,
        rt: &HostRuntime,
        item: &Item,
        set_ups: &[SetUp],
        queue: &mut Queue<C>,
        tally: &mut Tally,
    ) -> anyhow::Result<Player<C>> {
        if let What::Call(call) = item.what {
            queue.add(item.line, call, set_ups)?;
            if queue.calls.len() < STEP {
                return Ok(self);
            }
        }
        let player = self.make_calls(rt, set_ups, queue, tally)?;
        player.say(rt, item, tally)?;
        Ok(player)
    }

    // What a line that is no call asks to be said; of a call, how far the tool is.
    fn say(&self, rt: &HostRuntime, item: &Item, tally: &mut Tally) -> io::Result<()> {
        match item.what {
            What::Call(_) => eprintln!(rt; "i2s replay: {} calls made", tally.calls()),
            What::Show(half) => {
                print!(rt; "line {} ", item.line)?;
                print_half(rt, self.opened.block(), half)
            }
            What::ShowEvents => println!(rt;
                "line {} events that are reported:{}",
                item.line,
                EventsText(self.opened.interrupts())
            ),
            What::Bad(why) => {
                tally.bad = tally.bad.saturating_add(1);
                print_bad_line(rt, item.line, why)
            }
        }
    }

    // Makes the calls that are still to be made, and prints their answers.
    fn make_calls(
        self,
        rt: &HostRuntime,
        set_ups: &[SetUp],
        queue: &mut Queue<C>,
        tally: &mut Tally,
    ) -> anyhow::Result<Player<C>> {
        let Player { mut opened, tx, rx } = self;
        let calls = queue.calls.as_slice();
        match run_calls(rt.alloc(), &mut opened, tx, rx, calls) {
            Ok(Ran { tx, rx, answers }) => {
                for ((line, call), answer) in queue.items.iter().zip(answers.iter()) {
                    print_answer(rt, *line, *call, *answer, set_ups)?;
                    let (Answer::Transmit(of_unit) | Answer::Receive(of_unit)) = *answer;
                    tally.count(of_unit);
                    if C::has_own_dividers() {
                        tally.accept(*line, *call, *answer);
                    }
                }
                queue.clear();
                Ok(Player { opened, tx, rx })
            }
            Err(_) => Err(anyhow!(
                "there is no memory for the answers of {} calls, and none of them is made",
                calls.len()
            )),
        }
    }

    // What both units have at the end, and what was done.
    fn close(&self, rt: &HostRuntime, set_ups: &[SetUp], tally: &Tally) -> anyhow::Result<()> {
        let chip = self.opened.block();
        print_divider(rt, chip, Side::Transmit, set_ups, tally.tx_accepted)?;
        print_divider(rt, chip, Side::Receive, set_ups, tally.rx_accepted)?;
        print_tally(rt, tally)?;
        println!(rt;
            "; the transmit unit {}, the receive unit {}",
            state(self.tx.is_running()),
            state(self.rx.is_running())
        )?;
        if tally.bad != 0 {
            return Err(anyhow!("nothing is done for {} lines", tally.bad));
        }
        Ok(())
    }
}

fn print_answer(
    rt: &HostRuntime,
    line: u64,
    call: Call<usize>,
    answer: Answer,
    set_ups: &[SetUp],
) -> io::Result<()> {
    print!(rt;
        "line {line} {}: {}",
        CallText { call, set_ups },
        AnswerText {
            call,
            answer,
            set_ups
        }
    )
}

fn print_tally(rt: &HostRuntime, tally: &Tally) -> io::Result<()> {
    print!(rt;
        "{} calls: {} done, {} refused, {} not taken; {} lines not read",
        tally.calls(),
        tally.done,
        tally.refused,
        tally.not_taken,
        tally.bad
    )
}

// The divider that stands in a unit's fields, and the set-up that it comes from.
fn print_divider<C: Driven>(
    rt: &HostRuntime,
    chip: &C,
    unit: Side,
    set_ups: &[SetUp],
    accepted: Accepted,
) -> io::Result<()> {
    print!(rt; "the {} unit's divider: ", half_name(unit))?;
    print_numbers(rt, chip, C::divider_fields(unit))?;
    match set_ups.get(accepted.set_up) {
        Some(set_up) => print_source(rt, set_up, accepted.line),
        None => Ok(()),
    }
}

fn print_source(rt: &HostRuntime, set_up: &SetUp, line: u64) -> io::Result<()> {
    print!(rt; "; of set-up {}, line {line}", Shown(set_up.name))?;
    match clock(&set_up.asked) {
        Ok(
            I2sClockDividers {
                mclk_divider,
                bclk_divider,
                denominator,
                numerator,
            },
        ) => println!(rt;
            ": integer part {mclk_divider}, bit divider {bclk_divider}, pair {denominator} {numerator}"
        ),
        Err(_) => println!(rt; ""),
    }
}

fn state(is_running: bool) -> &'static str {
    if is_running { "runs" } else { "is at rest" }
}
