//! The answer to one line, and the closing line.
ghost use Rattle.std.specs.Prelude.{◌≡◌, ◌<◌, IfOk, string_bytes, string_len};
ghost use Rattle.answers.specs.Summary.{closing_text, lines_word, summary_text};
ghost use Rattle.plans.specs.Lines.{reading_of};
ghost use Rattle.plans.specs.Outcomes.{outcome_of};

use crate::texts::{PlansText, UnreadText};
use plans::{Outcome, Tally, read_line};
use std::alloc::{AllocError, Global};

/// A line's outcome, with the text to show for it.
#[derive(Drop)]
pub struct Answer {
    pub outcome: Outcome,
    pub text: String,
}

/// The answer to the line of this number.
pub fn answer_line(heap: Global, number: u64, line: &[u8]) -> Result<Answer, AllocError>
    ensures { IfOk result (λ a. a.outcome ≡ outcome_of (reading_of line.now)) }
{
    let reading = read_line(line);
    let text = match reading {
        Ok(None) => String::new(heap),
        Ok(Some(ask)) => PlansText(ask).to_string(heap)?,
        Err(unread) => UnreadText {
            number,
            line,
            unread,
        }
        .to_string(heap)?,
    };
    Ok(Answer {
        outcome: Outcome::of(reading),
        text,
    })
}

/// The closing line: how many lines there were, and what came of them.
pub fn summary(heap: Global, tally: &Tally) -> Result<String, AllocError>
    ensures some { IfOk result (λ t. 0 < string_len t) }
    ensures text { IfOk result (λ t. string_bytes t ≡ summary_text tally.now) }
{
    let all = tally
        .planned
        .saturating_add(tally.refused)
        .saturating_add(tally.unread);
    closing_line(heap, all, lines_word(all), tally)
}

fn lines_word(n: u64) -> &'static str
    ensures { result.now ≡ lines_word n }
{
    if n == 1 { "line" } else { "lines" }
}

// The closing line, from how many lines there were and the word for so many.
fn closing_line(heap: Global, all: u64, lines: &str, tally: &Tally) -> Result<String, AllocError>
    ensures { IfOk result (λ t. string_bytes t ≡ closing_text all lines.now tally.now) }
{
    let Tally {
        planned,
        refused,
        unread,
    } = *tally;
    format!(in heap; "{all} {lines}: {planned} planned, {refused} refused, {unread} not read\n")
}
