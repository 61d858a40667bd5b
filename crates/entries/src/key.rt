//! The keys of a sheet.
ghost use Rattle.std.specs.Prelude.{◌≡◌, Some};
ghost use Rattle.entries.specs.Keys.{expected_text, key_named, key_text, keys_known};

use std::fmt;

/// What a line of a sheet says something of.
#[derive(Clone, Copy, PartialEq, Eq)]
pub enum Key {
    Chip,
    Rate,
    Slots,
    Active,
    Fill,
    Format,
    Width,
    Polarity,
    Shift,
    Endianness,
    Order,
}

/// The keys, in the order of the answers.
pub fn keys() -> [Key; 11]
    ensures { result ≡ keys_known }
{
    [
        Key::Chip,
        Key::Rate,
        Key::Slots,
        Key::Active,
        Key::Fill,
        Key::Format,
        Key::Width,
        Key::Polarity,
        Key::Shift,
        Key::Endianness,
        Key::Order,
    ]
}

impl Key {
    /// The word by which a sheet names the key.
    pub fn name(&self) -> &'static str
        ensures { result.now ≡ key_text self.now }
    {
        match self {
            Key::Chip => "chip",
            Key::Rate => "rate",
            Key::Slots => "slots",
            Key::Active => "active",
            Key::Fill => "fill",
            Key::Format => "format",
            Key::Width => "width",
            Key::Polarity => "polarity",
            Key::Shift => "shift",
            Key::Endianness => "endianness",
            Key::Order => "order",
        }
    }

    /// The key that a word names.
    pub fn named(word: &[u8]) -> Option<Key>
        ensures { result ≡ key_named word.now }
    {
        keys()
            .iter()
            .copied()
            .find(|key| word == key.name().as_bytes())
    }

    /// What its value may be, in words.
    pub fn expected(&self) -> &'static str
        ensures { result.now ≡ expected_text self.now }
    {
        match self {
            Key::Chip => "ESP32 or ESP32-C3",
            Key::Rate => "hertz, a number up to 4294967295",
            Key::Slots => "a number up to 255",
            Key::Active => "a 0 or a 1 for each slot, the first slot first, 1 to 16 of them",
            Key::Fill => "repeat, or a number up to 4294967295",
            Key::Format => "32/32, 32/24, 32/16, 32/8, 16/16, 16/8 or 8/8",
            Key::Width => "half, slot, bit, or a number of bits up to 65535",
            Key::Polarity => "high or low",
            Key::Shift => "yes or no",
            Key::Endianness => "little or big",
            Key::Order => "msb or lsb",
        }
    }
}

impl fmt::Display for Key {
    ghost output = { λ key. Some (key_text key) };

    fn fmt<W: fmt::Write>(&self, f: &mut fmt::Formatter<W>) -> fmt::Result {
        f.write_str(self.name())
    }
}
