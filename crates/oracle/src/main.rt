//! Replays answers of the published Rust, a line each, and says where the port agrees with them.
#![tactic(auto)]

use dividers::{I2sClockDividers, Rate};
use std::io;

// How the port agrees with a line.
#[derive(Clone, Copy)]
enum Agreement {
    /// The same numbers.
    Same,
    /// Another pair where the Rust's products were cut.
    BetterPair,
    /// Refused where the Rust panics.
    Refused,
}

fn is(word: &str, n: u32) -> bool {
    word.parse().ok() == Some(n)
}

// Whether the words are the parts of the split, or dashes where the Rust has none.
fn same_split(words: [&str; 4], dividers: I2sClockDividers) -> bool {
    let [x, y, z, yn1] = words;
    match dividers.mclk_dividers() {
        Ok(split) if x != "-" => {
            is(x, split.x) && is(y, split.y) && is(z, split.z) && is(yn1, u32::from(split.yn1))
        }
        _ => words.iter().all(|word| *word == "-"),
    }
}

// The words are RATE CHANNELS BITS MAX, what the Rust did, and its numbers.
fn compare(words: &[&str]) -> Option<Agreement> {
    let [rate, channels, bits, max, rust, numbers @ ..] = words else {
        return None;
    };
    let rate = Rate::from_hz(rate.parse().ok()?);
    let channels = channels.parse().ok()?;
    let bits = bits.parse().ok()?;
    let max = max.parse().ok()?;
    let Ok(dividers) = I2sClockDividers::new(rate, channels, bits, max) else {
        return (*rust == "panics").then_some(Agreement::Refused);
    };
    let [integer, bit, denominator, numerator, x, y, z, yn1] = numbers else {
        return None;
    };
    if !is(integer, dividers.mclk_divider) || !is(bit, dividers.bclk_divider) {
        return None;
    }
    let same_pair = is(denominator, dividers.denominator) && is(numerator, dividers.numerator);
    match *rust {
        "same" if same_pair && same_split([x, y, z, yn1], dividers) => Some(Agreement::Same),
        "cut" if !same_pair => Some(Agreement::BetterPair),
        _ => None,
    }
}

fn main(rt: HostRuntime) -> io::Result<()> {
    let mut same = 0u32;
    let mut better = 0u32;
    let mut refused = 0u32;
    let mut disagrees = 0u32;
    for line in rt.lines(rt.alloc()) {
        let line = line?;
        if line.as_str().starts_with('#') || line.is_empty() {
            continue;
        }
        let words: Vec<&str> = line.as_str().split_whitespace().collect(rt.alloc())?;
        match compare(words.as_slice()) {
            Some(Agreement::Same) => same = same.saturating_add(1),
            Some(Agreement::BetterPair) => better = better.saturating_add(1),
            Some(Agreement::Refused) => refused = refused.saturating_add(1),
            None => {
                disagrees = disagrees.saturating_add(1);
                println!(rt; "disagrees: {line}")?;
            }
        }
    }
    println!(rt;
        "{same} the same, {better} with a better pair where products were cut, {refused} refused where the Rust panics"
    )?;
    println!(rt; "{disagrees} disagree")
}
