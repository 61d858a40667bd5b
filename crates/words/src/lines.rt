//! The lines of a text.
ghost use Rattle.std.specs.Prelude.{◌≡◌, length, position};
ghost use Rattle.std.specs.Iterator.{at_most};
ghost use Rattle.words.specs.Lines.{IsFirstLine, TakesLine, is_line_feed, line_in, past_line, text_left};

// Where the first line of a text ends, if it has an end.
fn line_end(text: &[u8]) -> Option<usize>
    ensures { result ≡ position is_line_feed text.now }
{
    text.iter().position(|b| *b == b'\n')
}

/// The first line of a text without its end, and what follows that.
pub fn first_line(text: &[u8]) -> (&[u8], &[u8])
    ensures cut { IsFirstLine text.now result.0.now result.1.now }
    ensures line { result.0.now ≡ line_in text.now }
    ensures rest { result.1.now ≡ past_line text.now }
{
    cut_line(text)
}

// The same, by where the line ends.
fn cut_line(text: &[u8]) -> (&[u8], &[u8])
    ensures line { result.0.now ≡ line_in text.now }
    ensures rest { result.1.now ≡ past_line text.now }
{
    match line_end(text) {
        Some(end) => (&text[..end], &text[end + 1..]),
        None => (text, &[]),
    }
}

/// The lines of a text, in order, each without its end.
#[derive(Drop)]
pub struct Lines<'a> {
    text: &'a [u8],
}

impl<'a> Lines<'a> {
    /// All lines of the text.
    pub fn new(text: &'a [u8]) -> Lines<'a>
        ensures { text_left result ≡ text.now }
    {
        Lines { text }
    }
}

impl<'a> Iterator for Lines<'a> {
    type Item = &'a [u8];

    ghost next_gives = { λ s line t. TakesLine (text_left s) line (text_left t) };

    ghost remaining = { λ s. at_most (length (text_left s)) };

    fn next(&mut self) -> Option<&'a [u8]> {
        if self.text.is_empty() {
            return None;
        }
        let (line, rest) = first_line(self.text);
        self.text = rest;
        Some(line)
    }
}
