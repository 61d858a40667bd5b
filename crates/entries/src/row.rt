//! The row of active slots.
ghost use Rattle.std.specs.Prelude.{◌≡◌, ◌≤◌, ◌<◌, ◌^◌, IsTrue, length};
ghost use Rattle.entries.specs.Rows.{is_binary, is_row, mask_of, row_in};

/// Which slots are active, one digit for each, the first slot first.
#[derive(Clone, Copy, PartialEq, Eq)]
pub struct Row {
    /// How many digits the row has.
    pub digits: u8,
    /// The active slots, the first in the least significant bit.
    pub mask: u16,
}

// The most digits of a row: a chip has no more slots.
const MOST_DIGITS: usize = 16;

// Whether each byte is a 0 or a 1.
fn is_binary(word: &[u8]) -> bool
    ensures { result ≡ is_binary word.now }
{
    word.iter().all(|digit| matches!(digit, b'0' | b'1'))
}

fn is_row(word: &[u8]) -> bool
    ensures { result ≡ is_row word.now }
{
    !word.is_empty() && word.len() <= MOST_DIGITS && is_binary(word)
}

// The mask of a row's digits.
fn mask_of(digits: &[u8]) -> u16
    requires few { length digits.now ≤ 16 }
    ensures mask { result ≡ mask_of digits.now }
    ensures fits { result < 2 ^ length digits.now }
{
    match digits {
        [] => 0,
        [first, rest @ ..] => u16::from(*first == b'1') + 2 * mask_of(rest),
    }
}

/// A word as a row: 1 to 16 digits, each a 0 or a 1.
pub(crate) fn read_row(word: &[u8]) -> Option<Row>
    ensures { result ≡ row_in word.now }
{
    if !is_row(word) {
        return None;
    }
    Some(Row {
        digits: word.len() as u8,
        mask: mask_of(word),
    })
}
