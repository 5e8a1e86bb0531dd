//! What may stand next in a text, and what is half read.
ghost use Rattle.std.specs.Prelude.{◌≡◌};

use crate::OrderedJson;

/// What may stand next in the text.
#[derive(Clone, Copy, Debug)]
pub enum Mode {
    /// A value.
    Value,
    /// A value, or the bracket that closes an array with none.
    FirstItem,
    /// A key, or the bracket that closes an object with none.
    FirstKey,
    /// A key.
    Key,
    /// The colon after a key.
    Colon,
    /// A comma or the closing bracket of the innermost level, or the end of the text where none is
    /// open.
    After,
    /// The next letter of a literal name.
    Name(OpenName),
    /// The first digit of a number, after its minus, which stands at the place.
    Minus { place: usize },
    /// The end of the number 0.
    Zero(OpenNumber),
    /// A further digit, or the end of the number.
    Digits(OpenNumber),
    /// A further byte of a string.
    Text(OpenText),
}

/// A literal name of which the first letters are read.
#[derive(Clone, Copy, Debug)]
pub struct OpenName {
    /// Where the name begins.
    pub place: usize,
    pub name: LiteralName,
    /// How many letters are read.
    pub read: usize,
}

/// A number of which some digits are read.
#[derive(Clone, Copy, Debug)]
pub struct OpenNumber {
    /// Where the number begins, at its minus if it has one.
    pub place: usize,
    pub minus: bool,
    /// What the digits so far spell, or `u64::MAX` where that is more.
    pub magnitude: u64,
}

/// A string of which some characters are read.
#[derive(Clone, Copy, Debug)]
pub struct OpenText {
    /// Where its opening quote stands.
    pub place: usize,
    pub is_key: bool,
    /// How far its next character is read.
    pub spelling: Spelling,
}

/// The three literal names (RFC 8259, section 3).
#[derive(Clone, Copy, Debug)]
pub enum LiteralName {
    Null,
    True,
    False,
}

/// Four hexadecimal digits, by their bytes.
#[derive(Clone, Copy, Debug)]
pub struct Unit {
    pub first: u8,
    pub second: u8,
    pub third: u8,
    pub fourth: u8,
}

impl Unit {
    ghost use Rattle.ordered_json.specs.Spell.{hex_unit};

    /// The digits in their order.
    pub fn new(first: u8, second: u8, third: u8, fourth: u8) -> Unit
        ensures { result ≡ hex_unit first second third fourth }
    {
        Unit {
            first,
            second,
            third,
            fourth,
        }
    }
}

/// How far a character of a string is read, with the bytes of it that are still needed.
#[derive(Clone, Copy, Debug)]
pub enum Spelling {
    /// Between two characters.
    Between,
    /// After a backslash.
    Backslash,
    /// After `\u` and up to three digits.
    Hex0,
    Hex1(u8),
    Hex2(u8, u8),
    Hex3(u8, u8, u8),
    /// After the escape of a high surrogate.
    High(Unit),
    /// After the backslash that follows it.
    HighBackslash(Unit),
    /// After `\u` that follows it, and up to three digits.
    Low0(Unit),
    Low1(Unit, u8),
    Low2(Unit, u8, u8),
    Low3(Unit, u8, u8, u8),
    /// After one, two or three bytes of a character that takes more in UTF-8.
    Lead1(u8),
    Lead2(u8, u8),
    Lead3(u8, u8, u8),
}

/// What a byte of a string makes of the character before it.
#[derive(Clone, Copy, Debug)]
pub enum Spelled {
    /// The character goes on.
    More(Spelling),
    /// The character is read.
    Char(char),
    /// The byte is the closing quote.
    End,
    /// No character goes on so.
    Bad,
}

impl LiteralName {
    ghost use Rattle.ordered_json.specs.Steps.{literal_letters, literal_value};

    /// The letters.
    pub fn letters(self) -> &'static [u8]
        ensures { result.now ≡ literal_letters self }
    {
        match self {
            LiteralName::Null => b"null",
            LiteralName::True => b"true",
            LiteralName::False => b"false",
        }
    }

    /// The value that the name stands for.
    pub fn value(self, place: usize) -> OrderedJson
        ensures { result ≡ literal_value place self }
    {
        match self {
            LiteralName::Null => OrderedJson::Null { place },
            LiteralName::True => OrderedJson::Bool { place, value: true },
            LiteralName::False => OrderedJson::Bool {
                place,
                value: false,
            },
        }
    }
}
