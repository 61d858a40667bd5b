//! The words of a text, which blanks part.
ghost use Rattle.std.specs.Prelude.{◌≡◌, not, position};
ghost use Rattle.words.specs.Parts.{IsFirstWord, is_blank, past_word, word_in};

fn is_blank(byte: u8) -> bool
    ensures { result ≡ is_blank byte }
{
    matches!(byte, b' ' | b'\t' | b'\r')
}

// Each search is a function, so that what it finds is known by a contract; written where it is used, goals stay open.

// Where the first word of a text begins.
fn word_start(text: &[u8]) -> Option<usize>
    ensures { result ≡ position (λ b. not (is_blank b)) text.now }
{
    text.iter().position(|b| !is_blank(*b))
}

// Where the word at the head of a text ends, if anything follows it.
fn word_end(text: &[u8]) -> Option<usize>
    ensures { result ≡ position is_blank text.now }
{
    text.iter().position(|b| is_blank(*b))
}

/// The first word of a text, empty where there is none, and what follows it.
#[tactic(auto, using(crate::proofs::Cuts::first_word_is))]
pub fn first_word(text: &[u8]) -> (&[u8], &[u8])
    ensures cut { IsFirstWord text.now result.0.now result.1.now }
    ensures word { result.0.now ≡ word_in text.now }
    ensures rest { result.1.now ≡ past_word text.now }
{
    cut_word(text)
}

// The same, by where the word begins and ends.
fn cut_word(text: &[u8]) -> (&[u8], &[u8])
    ensures word { result.0.now ≡ word_in text.now }
    ensures rest { result.1.now ≡ past_word text.now }
{
    let Some(start) = word_start(text) else {
        return (&[], &[]);
    };
    let text = &text[start..];
    match word_end(text) {
        Some(end) => text.split_at(end),
        None => (text, &[]),
    }
}
