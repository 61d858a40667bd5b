//! A script: the opening of a chip, set-ups by name, and calls in their order.
use crate::bad::Bad;
use crate::parts::{end_of_line, next_name, next_number, next_text, next_yes};
use calls::{Call, UnitCall};
use chips::I2sInterrupts;
use entries::{Chip, Entry, keys};
use fields::Side;
use marks::Draw;
use sheets::{Asked, Sheet};
use std::alloc::{AllocError, Global};
use std::mem;
use words::Lines;

/// A set-up with its name.
#[derive(Clone, Copy)]
pub struct SetUp<'a> {
    pub name: &'a [u8],
    pub asked: Asked,
}

/// What a line asks to be done or said at its place.
#[derive(Clone, Copy)]
pub enum What<'a> {
    /// A call, with a set-up by its place in the script's list.
    Call(Call<usize>),
    Show(Side),
    ShowEvents,
    Bad(Bad<'a>),
}

/// A line by its number.
#[derive(Clone, Copy)]
pub struct Item<'a> {
    pub line: u64,
    pub what: What<'a>,
}

/// What the starts of the block draw.
#[derive(Clone, Copy, PartialEq, Eq)]
pub enum Drawing {
    /// The same row at each start of a half.
    Paced,
    /// The rows of a list.
    Scripted,
}

/// The set-ups of both units at the opening, by their places in the script's list.
#[derive(Clone, Copy)]
pub struct Opening {
    pub line: u64,
    pub tx: usize,
    pub rx: usize,
}

// A set-up whose lines are being read.
#[derive(Clone, Copy)]
struct Section<'a> {
    line: u64,
    name: &'a [u8],
    sheet: Sheet,
    is_whole: bool,
}

// What a line says, where nothing is wrong with it.
#[derive(Clone, Copy)]
enum Said<'a> {
    Nothing,
    Chip(Chip),
    Draw(Drawing, Side, Draw),
    Limit(Side, u16),
    Open(Opening),
    /// The set-up as far as it is read, and what is wrong with this line of it.
    Section(Section<'a>, Option<Bad<'a>>),
    End(Section<'a>),
    Asks(What<'a>),
}

/// All that an opening needs.
#[derive(Clone, Copy)]
pub struct Ready<'a> {
    pub opening: Opening,
    pub tx_limit: u16,
    pub rx_limit: u16,
    pub tx: SetUp<'a>,
    pub rx: SetUp<'a>,
}

/// What a script says.
#[derive(Drop)]
pub struct Script<'a> {
    pub chip: Option<Chip>,
    pub drawing: Option<Drawing>,
    pub tx_draws: Vec<Draw>,
    pub rx_draws: Vec<Draw>,
    pub tx_limit: Option<u16>,
    pub rx_limit: Option<u16>,
    pub set_ups: Vec<SetUp<'a>>,
    pub opening: Option<Opening>,
    pub items: Vec<Item<'a>>,
    section: Option<Section<'a>>,
}

// The words that begin the lines of a script.
const LINES: &str =
    "a line begins with chip, pace, draw, limit, set-up, end, open, transmit, receive or show";

const POLLS: &str = "the number of polls";

const TX_CALLS: &str = "the transmit unit has apply, start, wait, stop, listen, unlisten and clear";

const RX_CALLS: &str =
    "the receive unit has apply, start, wait, abandon, listen, unlisten and clear";

impl<'a> Script<'a> {
    /// What a text says.
    pub(crate) fn read(heap: Global, text: &'a [u8]) -> Result<Script<'a>, AllocError> {
        let mut script = Script {
            chip: None,
            drawing: None,
            tx_draws: Vec::new(heap),
            rx_draws: Vec::new(heap),
            tx_limit: None,
            rx_limit: None,
            set_ups: Vec::new(heap),
            opening: None,
            items: Vec::new(heap),
            section: None,
        };
        script.take_text(text, false)?;
        Ok(script)
    }

    /// Takes a text that has calls and set-ups alone, and gives this script's own calls, in whose place it puts those.
    pub(crate) fn read_other(
        &mut self,
        heap: Global,
        text: &'a [u8],
    ) -> Result<Vec<Item<'a>>, AllocError> {
        let own = mem::replace(&mut self.items, Vec::new(heap));
        self.take_text(text, true)?;
        Ok(own)
    }

    /// What the opening needs; none where the script opens no chip.
    pub(crate) fn ready(&self) -> Option<Ready<'a>> {
        let opening = self.opening?;
        Some(Ready {
            opening,
            tx_limit: self.tx_limit?,
            rx_limit: self.rx_limit?,
            tx: *self.set_ups.get(opening.tx)?,
            rx: *self.set_ups.get(opening.rx)?,
        })
    }

    fn take_text(&mut self, text: &'a [u8], is_opened: bool) -> Result<(), AllocError> {
        for (line, words) in (1..u64::MAX).zip(Lines::new(text)) {
            match self.read_line(line, words, is_opened) {
                Ok(said) => self.take(line, said)?,
                Err(bad) => self.add(line, What::Bad(bad))?,
            }
        }
        if let Some(section) = self.section {
            self.section = None;
            let bad = Bad::Said("the set-up that begins here has no line 'end'");
            self.add(section.line, What::Bad(bad))?;
        }
        Ok(())
    }

    fn add(&mut self, line: u64, what: What<'a>) -> Result<(), AllocError> {
        self.items.push(Item { line, what })?;
        Ok(())
    }

    fn take(&mut self, line: u64, said: Said<'a>) -> Result<(), AllocError> {
        match said {
            Said::Nothing => Ok(()),
            Said::Asks(what) => self.add(line, what),
            Said::End(section) => self.end_section(line, section),
            Said::Section(section, bad) => {
                self.section = Some(section);
                match bad {
                    Some(bad) => self.add(line, What::Bad(bad)),
                    None => Ok(()),
                }
            }
            Said::Draw(drawing, half, draw) => self.add_draw(drawing, half, draw),
            Said::Chip(chip) => {
                self.chip = Some(chip);
                Ok(())
            }
            Said::Limit(Side::Transmit, bytes) => {
                self.tx_limit = Some(bytes);
                Ok(())
            }
            Said::Limit(Side::Receive, bytes) => {
                self.rx_limit = Some(bytes);
                Ok(())
            }
            Said::Open(opening) => {
                self.opening = Some(opening);
                Ok(())
            }
        }
    }

    fn add_draw(&mut self, drawing: Drawing, half: Side, draw: Draw) -> Result<(), AllocError> {
        self.drawing = Some(drawing);
        match half {
            Side::Transmit => self.tx_draws.push(draw)?,
            Side::Receive => self.rx_draws.push(draw)?,
        }
        Ok(())
    }

    // A set-up with a line that is not read is not taken, and what else it lacks is not told.
    fn end_section(&mut self, line: u64, section: Section<'a>) -> Result<(), AllocError> {
        self.section = None;
        if !section.is_whole {
            return self.add(line, What::Bad(Bad::SetUpBroken(section.name)));
        }
        for key in keys() {
            if let Some(lack) = section.sheet.lack(key) {
                self.add(line, What::Bad(Bad::SetUpLack(section.name, key, lack)))?;
            }
        }
        if let Some(asked) = section.sheet.asked() {
            let name = section.name;
            self.set_ups.push(SetUp { name, asked })?;
        }
        Ok(())
    }

    fn read_line(&self, line: u64, words: &'a [u8], is_opened: bool) -> Result<Said<'a>, Bad<'a>> {
        let mut rest = words;
        let first = next_text(&mut rest);
        if first.is_empty() || first.starts_with('#') {
            return Ok(Said::Nothing);
        }
        if let Some(section) = self.section {
            return Ok(section_line(first, words, section));
        }
        if let Some(why) = self.out_of_place(first, is_opened) {
            return Err(Bad::Said(why));
        }
        let said = self.next_said(line, first, words, &mut rest)?;
        end_of_line(rest)?;
        Ok(said)
    }

    // What the words behind the first one say.
    fn next_said(
        &self,
        line: u64,
        first: &str,
        words: &'a [u8],
        rest: &mut &'a [u8],
    ) -> Result<Said<'a>, Bad<'a>> {
        match first {
            "set-up" => self.next_section(line, rest),
            "transmit" => self.next_call(Side::Transmit, rest),
            "receive" => self.next_call(Side::Receive, rest),
            "show" => next_show(rest),
            "chip" => self.next_chip(rest),
            "pace" => self.next_draw(Drawing::Paced, rest),
            "draw" => self.next_draw(Drawing::Scripted, rest),
            "limit" => self.next_limit(rest),
            "open" => self.next_open(line, rest),
            _ => Err(Bad::Unknown(words, LINES)),
        }
    }

    // Why a line that begins with this word stands at a wrong place.
    fn out_of_place(&self, first: &str, is_opened: bool) -> Option<&'static str> {
        match first {
            "transmit" | "receive" | "show" if self.opening.is_none() => {
                Some("no call is made before the line 'open'")
            }
            "chip" | "pace" | "draw" | "limit" | "open" if is_opened => {
                Some("the opening is that of the first script")
            }
            "chip" | "pace" | "draw" | "limit" | "open" if self.opening.is_some() => {
                Some("the chip is opened already")
            }
            "end" => Some("no set-up is begun here"),
            _ => None,
        }
    }

    fn next_chip(&self, rest: &mut &'a [u8]) -> Result<Said<'a>, Bad<'a>> {
        let chip = match next_text(rest) {
            "ESP32" => Chip::Esp32,
            "ESP32-C3" => Chip::Esp32C3,
            _ => return Err(Bad::Said("the chip is ESP32 or ESP32-C3")),
        };
        if self.chip.is_some() {
            return Err(Bad::Said("a line before names the chip"));
        }
        Ok(Said::Chip(chip))
    }

    // pace HALF LATE WAIT HUNG, or draw HALF LATE WAIT HUNG; a paced half has one row, a scripted one as many as there are lines
    fn next_draw(&self, drawing: Drawing, rest: &mut &'a [u8]) -> Result<Said<'a>, Bad<'a>> {
        let half = next_half(rest)?;
        let draw = Draw {
            late: next_number(rest, "late", u32::MAX)?,
            wait: next_number(rest, "wait", u32::MAX)?,
            hung: next_yes(rest)?,
        };
        if self.drawing.is_some_and(|before| before != drawing) {
            return Err(Bad::Said("a block is paced or draws from lists, not both"));
        }
        let is_first = match half {
            Side::Transmit => self.tx_draws.is_empty(),
            Side::Receive => self.rx_draws.is_empty(),
        };
        if drawing == Drawing::Paced && !is_first {
            return Err(Bad::Said("a line before sets the pace of this half"));
        }
        Ok(Said::Draw(drawing, half, draw))
    }

    // limit UNIT BYTES
    fn next_limit(&self, rest: &mut &'a [u8]) -> Result<Said<'a>, Bad<'a>> {
        let unit = next_half(rest)?;
        let bytes = next_u16(rest, "the limit")?;
        let before = match unit {
            Side::Transmit => self.tx_limit,
            Side::Receive => self.rx_limit,
        };
        if before.is_some() {
            return Err(Bad::Said("a line before sets the limit of this unit"));
        }
        Ok(Said::Limit(unit, bytes))
    }

    // open TRANSMIT-SET-UP RECEIVE-SET-UP
    fn next_open(&self, line: u64, rest: &mut &'a [u8]) -> Result<Said<'a>, Bad<'a>> {
        let tx = self.next_set_up(rest)?;
        let rx = self.next_set_up(rest)?;
        if self.tx_limit.is_none() || self.rx_limit.is_none() {
            return Err(Bad::Said(
                "before it stand 'limit transmit BYTES' and 'limit receive BYTES'",
            ));
        }
        Ok(Said::Open(Opening { line, tx, rx }))
    }

    // set-up NAME
    fn next_section(&self, line: u64, rest: &mut &'a [u8]) -> Result<Said<'a>, Bad<'a>> {
        let name = next_name(rest)?;
        let Some(chip) = self.chip else {
            return Err(Bad::Said("a line 'chip' stands before the set-ups"));
        };
        let mut sheet = Sheet::new();
        let _ = sheet.take(Entry::Chip(chip));
        let is_new = !self.set_ups.iter().any(|one| one.name == name);
        let section = Section {
            line,
            name,
            sheet,
            is_whole: is_new,
        };
        let bad = if is_new {
            None
        } else {
            Some(Bad::NameTaken(name))
        };
        Ok(Said::Section(section, bad))
    }

    // The place of the set-up of the next name.
    fn next_set_up(&self, rest: &mut &'a [u8]) -> Result<usize, Bad<'a>> {
        let name = next_name(rest)?;
        self.set_ups
            .iter()
            .position(|one| one.name == name)
            .ok_or(Bad::NoSetUp(name))
    }

    // transmit CALL or receive CALL
    fn next_call(&self, unit: Side, rest: &mut &'a [u8]) -> Result<Said<'a>, Bad<'a>> {
        let call = self.next_unit_call(unit, rest)?;
        Ok(Said::Asks(What::Call(match unit {
            Side::Transmit => Call::Transmit(call),
            Side::Receive => Call::Receive(call),
        })))
    }

    fn next_unit_call(&self, unit: Side, rest: &mut &'a [u8]) -> Result<UnitCall<usize>, Bad<'a>> {
        let name = *rest;
        match (next_text(rest), unit) {
            ("apply", _) => self.next_set_up(rest).map(UnitCall::ApplyConfig),
            ("start", _) => next_start(rest),
            ("wait", _) => next_u16(rest, POLLS).map(UnitCall::Wait),
            ("stop", Side::Transmit) | ("abandon", Side::Receive) => Ok(UnitCall::Stop),
            ("listen", _) => next_events(rest).map(UnitCall::Listen),
            ("unlisten", _) => next_events(rest).map(UnitCall::Unlisten),
            ("clear", _) => next_events(rest).map(UnitCall::ClearInterrupts),
            (_, Side::Transmit) => Err(Bad::Unknown(name, TX_CALLS)),
            (_, Side::Receive) => Err(Bad::Unknown(name, RX_CALLS)),
        }
    }
}

fn next_start<'a>(rest: &mut &'a [u8]) -> Result<UnitCall<usize>, Bad<'a>> {
    let len = next_number(rest, "the length", u32::MAX)?;
    Ok(UnitCall::Start(len as usize, next_u16(rest, POLLS)?))
}

// A line of a set-up, up to its end.
fn section_line<'a>(first: &str, words: &'a [u8], section: Section<'a>) -> Said<'a> {
    if first == "end" {
        return Said::End(section);
    }
    let mut section = section;
    match section.sheet.take_line(words) {
        Ok(()) => Said::Section(section, None),
        Err(bad) => {
            section.is_whole = false;
            Said::Section(section, Some(Bad::SetUpLine(words, bad)))
        }
    }
}

// show HALF, or show events
fn next_show<'a>(rest: &mut &'a [u8]) -> Result<Said<'a>, Bad<'a>> {
    let what = match next_text(rest) {
        "transmit" => What::Show(Side::Transmit),
        "receive" => What::Show(Side::Receive),
        "events" => What::ShowEvents,
        _ => return Err(Bad::Said("transmit, receive or events is shown")),
    };
    Ok(Said::Asks(what))
}

fn next_half<'a>(rest: &mut &'a [u8]) -> Result<Side, Bad<'a>> {
    match next_text(rest) {
        "transmit" => Ok(Side::Transmit),
        "receive" => Ok(Side::Receive),
        _ => Err(Bad::Said("transmit or receive is expected")),
    }
}

fn next_u16<'a>(rest: &mut &'a [u8], what: &'static str) -> Result<u16, Bad<'a>> {
    let number = next_number(rest, what, u32::from(u16::MAX))?;
    u16::try_from(number).map_err(|_| Bad::Said("a number up to 65535 is expected"))
}

// Events up to the end of the line.
fn next_events<'a>(rest: &mut &'a [u8]) -> Result<I2sInterrupts, Bad<'a>> {
    let mut events = I2sInterrupts {
        rx_hung: false,
        tx_hung: false,
        rx_done: false,
        tx_done: false,
    };
    for _ in 0..rest.len() {
        match next_text(rest) {
            "rx_hung" => events.rx_hung = true,
            "tx_hung" => events.tx_hung = true,
            "rx_done" => events.rx_done = true,
            "tx_done" => events.tx_done = true,
            "" => break,
            _ => return Err(Bad::Said("events are rx_hung, tx_hung, rx_done and tx_done")),
        }
    }
    Ok(events)
}
