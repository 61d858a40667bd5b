//! What is wrong with a line of a script.
use complaints::{BadLineText, LackText};
use entries::Key;
use sheets::{BadLine, Lack};
use std::fmt;
use words::Shown;

/// Why nothing is done for a line.
#[derive(Clone, Copy)]
pub enum Bad<'a> {
    /// The line, and what is known in its place.
    Unknown(&'a [u8], &'static str),
    /// A sentence that says it all.
    Said(&'static str),
    /// A number that is none, or above its limit.
    Number {
        what: &'static str,
        word: &'a [u8],
        most: u32,
    },
    /// More words than the line has room for.
    More(&'a [u8]),
    NoSetUp(&'a [u8]),
    NameTaken(&'a [u8]),
    /// A line of a set-up.
    SetUpLine(&'a [u8], BadLine),
    /// A set-up of which a line is bad.
    SetUpBroken(&'a [u8]),
    /// What a set-up lacks at its end.
    SetUpLack(&'a [u8], Key, Lack),
}

impl fmt::Display for Bad<'_> {
    fn fmt<W: fmt::Write>(&self, f: &mut fmt::Formatter<W>) -> fmt::Result {
        match *self {
            Bad::Unknown(line, known) => write!(f, "{} is not known; {known}", Shown(line)),
            Bad::Said(text) => f.write_str(text),
            Bad::Number {
                what,
                word: [],
                most,
            } => { write!(f, "{what} is missing, a number up to {most} is expected") }
            Bad::Number { what, word, most } => write!(
                f,
                "{what} is {}, a number up to {most} is expected",
                Shown(word)
            ),
            Bad::More(word) => write!(f, "{} is one word too many", Shown(word)),
            Bad::NoSetUp(name) => write!(f, "no set-up before is called {}", Shown(name)),
            Bad::NameTaken(name) => write!(f, "a set-up before is called {}", Shown(name)),
            Bad::SetUpLine(line, bad) => write!(f, "{}: {}", Shown(line), BadLineText(bad)),
            Bad::SetUpBroken(name) => write!(
                f,
                "set-up {} is not taken: a line of it is not read",
                Shown(name)
            ),
            Bad::SetUpLack(name, key, lack) => write!(
                f,
                "set-up {} is not taken: {}",
                Shown(name),
                LackText { key, lack }
            ),
        }
    }
}
