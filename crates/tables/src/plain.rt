//! The plain table of fields, with the marks of both halves.
ghost use Rattle.std.specs.Prelude.{◌≡◌, length, slice_index, slice_set};
ghost use Rattle.fields.specs.declared.Side.TheVariants.{Transmit, Receive};
ghost use Rattle.fields.specs.Table.{place_of, rx_row, tx_row};
ghost use Rattle.tables.specs.Plain.{common_in, marks_of, rx_in, tx_in, JustMade, MarksMoved, UnusedKept};
ghost use Rattle.marks.specs.Marks.{after_put, after_rx_poll, after_tx_poll, cleared, enabling, idle};
ghost use Rattle.blocks.specs.Half.{upon};
ghost use Rattle.blocks.specs.Puts.{draws_on, in_rx, in_tx, later, marks_after, put_common, put_rx, put_tx, stored_in};

use crate::draws::Draws;
use blocks::{is_start, stored};
use fields::{Field, Kind, Side};
use marks::{Events, Marks};

/// Every field's number at its place, and the marks of both halves. A put is handed what the starts of each half draw from.
#[derive(Drop)]
pub struct Plain {
    // Fixed memory, a place for each field.
    table: [u32; 160],
    tx: Marks,
    rx: Marks,
}

impl Plain {
    /// Every field 0 and every mark down.
    pub fn new() -> Plain
        ensures { JustMade result }
    {
        Plain {
            table: [0u32; 160],
            tx: Marks::new(),
            rx: Marks::new(),
        }
    }

    /// The number of a field.
    pub fn get(&self, field: Field) -> u32
        ensures { result ≡ slice_index self.now.table (place_of field) }
    {
        let place = field.place();
        self.table[place]
    }

    /// A put where each start of a half draws the next of that half's rows: of `tx` or of `rx`.
    pub fn put<T: Draws, R: Draws>(&mut self, field: Field, value: u32, tx: &mut T, rx: &mut R)
        ensures tx { tx_in self.new (T.to_come tx.new) ≡ put_tx field value (tx_in self.old (T.to_come tx.old)) }
        ensures rx { rx_in self.new (R.to_come rx.new) ≡ put_rx field value (rx_in self.old (R.to_come rx.old)) }
        ensures common { common_in self.new ≡ put_common field value (common_in self.old) }
        ensures unused { UnusedKept self.old self.new }
    {
        self.put_and_draw(field, value, tx, rx);
    }

    // Stores, and moves the marks and the draws of the field's half.
    fn put_and_draw<T: Draws, R: Draws>(&mut self, field: Field, value: u32, tx: &mut T, rx: &mut R)
        ensures sized { length self.old.table ≡ 160 }
        ensures table { self.new.table ≡ slice_set self.old.table (place_of field) (stored_in field value) }
        ensures tx { self.new.tx ≡ marks_after tx_row (in_tx field) value (T.to_come tx.old 0) self.old.tx }
        ensures rx { self.new.rx ≡ marks_after rx_row (in_rx field) value (R.to_come rx.old 0) self.old.rx }
        ensures tx_draws { T.to_come tx.new ≡ later (draws_on tx_row (in_tx field) value) (T.to_come tx.old) }
        ensures rx_draws { R.to_come rx.new ≡ later (draws_on rx_row (in_rx field) value) (R.to_come rx.old) }
    {
        let number = self.store(field, value);
        let starts = is_start(field, value);
        match field {
            Field::Tx(_) => put_on(&mut self.tx, field.kind(), number, tx, starts),
            Field::Rx(_) => put_on(&mut self.rx, field.kind(), number, rx, starts),
            Field::Common(_) => {}
        }
    }

    // Stores what fits of the value, and answers that.
    fn store(&mut self, field: Field, value: u32) -> u32
        ensures answer { result ≡ stored_in field value }
        ensures table { self.new.table ≡ slice_set self.old.table (place_of field) (stored_in field value) }
        ensures tx { self.new.tx ≡ self.old.tx }
        ensures rx { self.new.rx ≡ self.old.rx }
    {
        let number = stored(field, value);
        self.table[field.place()] = number;
        number
    }

    /// The marks of a half.
    pub fn marks(&self, half: Side) -> Marks
        ensures { result ≡ marks_of half self.now }
    {
        match half {
            Side::Transmit => self.tx,
            Side::Receive => self.rx,
        }
    }

    /// Ends the named events of a half.
    pub fn clear(&mut self, half: Side, events: Events)
        ensures { MarksMoved (upon Transmit half (cleared events)) (upon Receive half (cleared events)) self.old self.new }
    {
        // As in `enable`; one function that is handed the move needs a contract and answers longer than these arms.
        match half {
            Side::Transmit => self.tx.clear(events),
            Side::Receive => self.rx.clear(events),
        }
    }

    /// Turns the named events of a half on or off.
    pub fn enable(&mut self, half: Side, events: Events, on: bool)
        ensures { MarksMoved (upon Transmit half (enabling events on)) (upon Receive half (enabling events on)) self.old self.new }
    {
        match half {
            Side::Transmit => self.tx.enable(events, on),
            Side::Receive => self.rx.enable(events, on),
        }
    }

    /// Polls the transmit half: whether it is found idle.
    pub fn poll_tx(&mut self) -> bool
        ensures answer { result ≡ idle self.old.tx }
        ensures after { MarksMoved after_tx_poll (λ m. m) self.old self.new }
    {
        self.tx.poll_tx()
    }

    /// Polls the receive half: which of its events stand then.
    pub fn poll_rx(&mut self) -> Events
        ensures answer { result ≡ (after_rx_poll self.old.rx).events }
        ensures after { MarksMoved (λ m. m) after_rx_poll self.old self.new }
    {
        self.rx.poll_rx()
    }
}

// Moves a half's marks as a put does that stored this number in a field of this kind; a row is drawn where it starts.
fn put_on<D: Draws>(marks: &mut Marks, kind: Kind, number: u32, draws: &mut D, starts: bool)
    ensures marks { marks.new ≡ after_put kind number (D.to_come draws.old 0) marks.old }
    ensures draws { D.to_come draws.new ≡ later starts (D.to_come draws.old) }
{
    marks.put(kind, number, draws.next_draw());
    if starts {
        draws.advance();
    }
}
