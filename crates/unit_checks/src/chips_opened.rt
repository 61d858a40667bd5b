//! Chips over paced blocks, and what calls on them answer and leave, in plain values.
use blocks::RegBlock;
use calls::{Answer, Call, UnitAnswer, UnitCall};
use chips::{I2sInterrupts, RegisterAccessPrivate};
use errors::{Error, OpenError};
use esp32::Esp32;
use esp32c3::Esp32C3;
use fields::{Field, Side};
use marks::{Draw, Marks};
use old_setups as old;
use orders::{Ran, run_both, run_opened};
use setups::esp32c3 as new;
use simulated::PacedBlock;
use std::alloc::Global;
use std::test::Fail;
use units::{Opened, RxResting, TxResting, open};

pub const NO_EVENTS: I2sInterrupts = I2sInterrupts {
    rx_hung: false,
    tx_hung: false,
    rx_done: false,
    tx_done: false,
};

pub const ALL_EVENTS: I2sInterrupts = I2sInterrupts {
    rx_hung: true,
    tx_hung: true,
    rx_done: true,
    tx_done: true,
};

// No transfer is longer than this.
pub const LIMIT: u16 = 4_000;

pub(crate) type NewChip = Esp32C3<PacedBlock>;

pub(crate) type OldChip = Esp32<PacedBlock>;

pub(crate) fn new_chip(draw: Draw) -> NewChip {
    Esp32C3 {
        block: PacedBlock::new(draw, draw),
    }
}

pub(crate) fn old_chip(draw: Draw) -> OldChip {
    Esp32 {
        block: PacedBlock::new(draw, draw),
    }
}

pub(crate) fn new_config() -> new::Config {
    new::Config {
        rx_config: new::UnitConfig::new_tdm_philips(),
        tx_config: new::UnitConfig::new_tdm_philips(),
    }
}

pub(crate) fn old_config() -> old::Config {
    old::Config::new_tdm_philips()
}

/// What calls answer, and what they leave.
#[derive(Drop)]
pub(crate) struct Left {
    pub answers: Vec<Answer>,
    pub tx_runs: bool,
    pub rx_runs: bool,
    pub tx: Marks,
    pub rx: Marks,
    pub reported: I2sInterrupts,
    /// The numbers in the fields that were asked for.
    pub numbers: Vec<u32>,
}

impl Left {
    /// The answers' numbers: the refusal's, 0 where the call is done, 10 where it is not taken, 11 where there is no such call.
    pub(crate) fn answered<const N: usize>(&self) -> [u8; N] {
        let mut numbers = [11; N];
        for (number, answer) in numbers.iter_mut().zip(self.answers.iter()) {
            let (Answer::Transmit(answer) | Answer::Receive(answer)) = answer;
            *number = match answer {
                UnitAnswer::Done | UnitAnswer::Polled(_) => 0,
                UnitAnswer::Refused(error) => error.number(),
                UnitAnswer::NotTaken => 10,
            };
        }
        numbers
    }

    /// Whether the call at a place is answered by this refusal.
    pub(crate) fn is_refused(&self, place: usize, error: Error) -> bool {
        match self.answers.get(place) {
            Some(Answer::Transmit(answer) | Answer::Receive(answer)) => {
                *answer == UnitAnswer::Refused(error)
            }
            None => false,
        }
    }
}

fn seen<C: RegisterAccessPrivate>(
    heap: Global,
    opened: &Opened<C>,
    ran: Ran<C>,
    tx: Marks,
    rx: Marks,
    fields: &[Field],
) -> Result<Left, Fail> {
    let mut numbers = Vec::new(heap);
    for field in fields {
        numbers.push(opened.block().get(*field))?;
    }
    Ok(Left {
        tx_runs: ran.tx.is_running(),
        rx_runs: ran.rx.is_running(),
        answers: ran.answers,
        tx,
        rx,
        reported: opened.interrupts(),
        numbers,
    })
}

fn left_on_new(
    heap: Global,
    opened: &Opened<NewChip>,
    ran: Ran<NewChip>,
    fields: &[Field],
) -> Result<Left, Fail> {
    let block = &opened.block().block;
    let (tx, rx) = (block.marks(Side::Transmit), block.marks(Side::Receive));
    seen(heap, opened, ran, tx, rx, fields)
}

fn not_expected() -> Fail {
    Fail::new("it is opened, or is not, against what is expected")
}

/// What calls on the new chip answer, and what they leave there and in these fields.
pub(crate) fn on_new(
    heap: Global,
    draw: Draw,
    calls: &[Call<new::UnitConfig>],
    fields: &[Field],
) -> Result<Left, Fail> {
    match run_opened(heap, new_chip(draw), &new_config(), LIMIT, LIMIT, calls) {
        Ok((opened, ran)) => left_on_new(heap, &opened, ran, fields),
        Err(_) => Err(not_expected()),
    }
}

/// The same on the old chip.
pub(crate) fn on_old(
    heap: Global,
    draw: Draw,
    calls: &[Call<old::UnitConfig>],
    fields: &[Field],
) -> Result<Left, Fail> {
    match run_opened(heap, old_chip(draw), &old_config(), LIMIT, LIMIT, calls) {
        Ok((opened, ran)) => {
            let block = &opened.block().block;
            let (tx, rx) = (block.marks(Side::Transmit), block.marks(Side::Receive));
            seen(heap, &opened, ran, tx, rx, fields)
        }
        Err(_) => Err(not_expected()),
    }
}

/// What two lists on two new chips answer and leave, and whether they have the same calls of each unit.
pub(crate) fn on_two_new(
    heap: Global,
    draw: Draw,
    calls: &[Call<new::UnitConfig>],
    other_calls: &[Call<new::UnitConfig>],
) -> Result<(bool, Left, Left), Fail> {
    let runs = run_both(
        heap,
        new_chip(draw),
        new_chip(draw),
        &new_config(),
        LIMIT,
        LIMIT,
        calls,
        other_calls,
    );
    let same_calls = runs.same_calls;
    match (runs.one, runs.other) {
        (Ok((one, ran)), Ok((other, other_ran))) => Ok((
            same_calls,
            left_on_new(heap, &one, ran, &[])?,
            left_on_new(heap, &other, other_ran, &[])?,
        )),
        _ => Err(not_expected()),
    }
}

/// Opens the new chip; of both units no transfer is longer than `limit`.
pub(crate) fn open_new(
    draw: Draw,
    config: &new::Config,
    limit: u16,
) -> Result<(Opened<NewChip>, TxResting<NewChip>, RxResting<NewChip>), (NewChip, OpenError)> {
    open(new_chip(draw), config, limit, limit)
}

/// What refuses an opening of the new chip, and the number in a field of the chip that is given back.
pub(crate) fn refused_new(config: &new::Config, field: Field) -> Option<(OpenError, u32)> {
    let draw = Draw {
        late: 0,
        wait: 0,
        hung: false,
    };
    match open_new(draw, config, 1) {
        Ok(_) => None,
        Err((chip, error)) => Some((error, chip.get(field))),
    }
}

/// The same of the old chip.
pub(crate) fn refused_old(config: &old::Config, field: Field) -> Option<(OpenError, u32)> {
    let draw = Draw {
        late: 0,
        wait: 0,
        hung: false,
    };
    match open(old_chip(draw), config, 1, 1) {
        Ok(_) => None,
        Err((chip, error)) => Some((error, chip.get(field))),
    }
}

pub(crate) fn tx<S>(call: UnitCall<S>) -> Call<S> {
    Call::Transmit(call)
}

pub(crate) fn rx<S>(call: UnitCall<S>) -> Call<S> {
    Call::Receive(call)
}
