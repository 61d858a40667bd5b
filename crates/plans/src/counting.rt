//! What comes of a line, and the count of it.
ghost use Rattle.std.specs.Prelude.{◌≡◌};
ghost use Rattle.plans.specs.Outcomes.{outcome_of, counted, nothing_counted};

use crate::planning::any_planned;
use crate::read::{Ask, Unread};

/// What came of a line.
#[derive(Clone, Copy, PartialEq, Eq)]
pub enum Outcome {
    /// It asks nothing.
    Passed,
    /// At least one chip has a plan.
    Planned,
    /// No chip has one.
    Refused,
    /// It cannot be read.
    Unread,
}

/// How many lines were planned, refused and not read.
#[derive(Clone, Copy, PartialEq, Eq)]
pub struct Tally {
    pub planned: u64,
    pub refused: u64,
    pub unread: u64,
}

impl Tally {
    /// Nothing counted yet.
    pub const fn new() -> Tally
        ensures { result ≡ nothing_counted }
    {
        Tally {
            planned: 0,
            refused: 0,
            unread: 0,
        }
    }

    /// Counts one line more.
    pub fn count(&mut self, outcome: Outcome)
        ensures { self.new ≡ counted self.old outcome }
    {
        match outcome {
            Outcome::Passed => {}
            Outcome::Planned => self.planned = self.planned.saturating_add(1),
            Outcome::Refused => self.refused = self.refused.saturating_add(1),
            Outcome::Unread => self.unread = self.unread.saturating_add(1),
        }
    }
}

impl Outcome {
    /// What comes of a line that is read so.
    pub fn of(reading: Result<Option<Ask>, Unread>) -> Outcome
        ensures { result ≡ outcome_of reading }
    {
        match reading {
            Ok(None) => Outcome::Passed,
            Ok(Some(ask)) if any_planned(ask) => Outcome::Planned,
            Ok(Some(_)) => Outcome::Refused,
            Err(_) => Outcome::Unread,
        }
    }
}
