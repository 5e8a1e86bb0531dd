//! The reader: it takes a text byte by byte, and keeps what is open and half read.
ghost use Rattle.std.specs.Prelude.{SomeIff, true, ◌≡◌, ◌≤◌, IfErr, IfOk, OnOk, Ok};
ghost use Rattle.xs_data.specs.Ascii.{digit_zero};
ghost use Rattle.ordered_json.specs.Meaning.{int_value, fits};
ghost use Rattle.ordered_json.specs.Steps as steps;
ghost use Rattle.ordered_json.specs.Steps.{IsFaultOf};

use crate::byte::{is_blank, is_decimal, is_mark};
use crate::level::{Awaits, Level, Levels};
use crate::members::OpenMembers;
use crate::mode::{LiteralName, Mode, OpenName, OpenNumber, OpenText, Spelled, Spelling};
use crate::spell::spell;
use crate::{JsonFault, MAX_LEVELS, OrderedJson};
use std::alloc::Global;
use std::mem;
use xs_data::{Items, Text};

/// A text that was read up to some byte, without a fault.
#[derive(Drop)]
pub struct Reader {
    pub levels: Levels,
    pub mode: Mode,
    /// The characters so far of the string that is being read.
    pub content: Text,
    /// The value of the text, once it is read.
    pub root: Option<OrderedJson>,
}

impl Reader {
    /// At the start of a text. It takes no memory.
    pub fn new(alloc: Global) -> Reader
        ensures { result ≡ steps.start }
    {
        Reader {
            levels: Levels::new(alloc),
            mode: Mode::Value,
            content: Text::new(alloc),
            root: None,
        }
    }

    /// A value is read, which stands before `place`: it goes to the innermost level.
    #[tactic(auto, unfolding(crate::specs::Steps::complete))]
    fn complete(&mut self, alloc: Global, place: usize, json: OrderedJson) -> Result<(), JsonFault>
        ensures ok { OnOk result (steps.complete place json self.old ≡ Ok self.new) }
        ensures err { IfErr result (IsFaultOf (steps.complete place json self.old)) }
    {
        self.mode = Mode::After;
        match self.levels.pop() {
            None => {
                self.root = Some(json);
                Ok(())
            }
            Some(level) => {
                let level = level.with_value(alloc, place, json)?;
                self.levels.push(level)?;
                Ok(())
            }
        }
    }

    /// A bracket opens a level.
    fn open_level(&mut self, place: usize, level: Level, mode: Mode) -> Result<(), JsonFault>
        ensures ok { OnOk result (steps.open_level place level mode self.old ≡ Ok self.new) }
        ensures err { IfErr result (IsFaultOf (steps.open_level place level mode self.old)) }
    {
        if self.levels.len() >= MAX_LEVELS {
            return Err(JsonFault::TooDeep(place));
        }
        self.levels.push(level)?;
        self.mode = mode;
        Ok(())
    }

    /// A bracket closes an array.
    #[tactic(auto, unfolding(crate::specs::Steps::close_list))]
    fn close_list(&mut self, alloc: Global, place: usize) -> Result<(), JsonFault>
        ensures ok { OnOk result (steps.close_list place self.old ≡ Ok self.new) }
        ensures err { IfErr result (IsFaultOf (steps.close_list place self.old)) }
    {
        match self.levels.pop() {
            Some(
                Level::List {
                    place: first,
                    items,
                },
            ) => {
                let list = OrderedJson::List {
                    place: first,
                    items,
                };
                self.complete(alloc, place, list)
            }
            _ => Err(JsonFault::Syntax(place)),
        }
    }

    /// A brace closes an object.
    #[tactic(auto, unfolding(crate::specs::Steps::close_object))]
    fn close_object(&mut self, alloc: Global, place: usize) -> Result<(), JsonFault>
        ensures ok { OnOk result (steps.close_object place self.old ≡ Ok self.new) }
        ensures err { IfErr result (IsFaultOf (steps.close_object place self.old)) }
    {
        match self.levels.pop() {
            Some(
                Level::Object {
                    place: first,
                    members,
                },
            ) => {
                let object = OrderedJson::Object {
                    place: first,
                    members: members.into_items(),
                };
                self.complete(alloc, place, object)
            }
            _ => Err(JsonFault::Syntax(place)),
        }
    }

    /// A comma.
    #[tactic(auto, unfolding(crate::specs::Steps::take_comma))]
    fn take_comma(&mut self, place: usize) -> Result<(), JsonFault>
        ensures ok { OnOk result (steps.take_comma place self.old ≡ Ok self.new) }
        ensures err { IfErr result (IsFaultOf (steps.take_comma place self.old)) }
    {
        match self.levels.awaits() {
            Awaits::Value => self.mode = Mode::Value,
            Awaits::Key => self.mode = Mode::Key,
            Awaits::Nothing => return Err(JsonFault::Syntax(place)),
        }
        Ok(())
    }

    /// The first byte of a value.
    #[tactic(auto, unfolding(crate::specs::Steps::begin_value))]
    fn begin_value(&mut self, alloc: Global, place: usize, byte: u8) -> Result<(), JsonFault>
        ensures ok { OnOk result (steps.begin_value place byte self.old ≡ Ok self.new) }
        ensures err { IfErr result (IsFaultOf (steps.begin_value place byte self.old)) }
    {
        if byte == b'"' {
            self.mode = text_mode(place, false);
            Ok(())
        } else if byte == b'[' {
            let items = Items::new(alloc);
            self.open_level(place, Level::List { place, items }, Mode::FirstItem)
        } else if byte == b'{' {
            let members = OpenMembers::new(alloc);
            self.open_level(place, Level::Object { place, members }, Mode::FirstKey)
        } else {
            self.mode = scalar_mode(place, byte)?;
            Ok(())
        }
    }

    /// The first byte of a key.
    fn begin_key(&mut self, place: usize, byte: u8) -> Result<(), JsonFault>
        ensures ok { OnOk result (steps.begin_key place byte self.old ≡ Ok self.new) }
        ensures err { IfErr result (IsFaultOf (steps.begin_key place byte self.old)) }
    {
        if byte == b'"' {
            self.mode = text_mode(place, true);
            Ok(())
        } else {
            Err(JsonFault::Syntax(place))
        }
    }

    /// A byte between tokens.
    #[tactic(auto, unfolding(crate::specs::Steps::between))]
    fn between(&mut self, alloc: Global, place: usize, byte: u8) -> Result<(), JsonFault>
        ensures ok { OnOk result (steps.between place byte self.old ≡ Ok self.new) }
        ensures err { IfErr result (IsFaultOf (steps.between place byte self.old)) }
    {
        if is_blank(byte) {
            return Ok(());
        }
        match self.mode {
            Mode::Value => self.begin_value(alloc, place, byte),
            Mode::FirstItem if byte == b']' => self.close_list(alloc, place),
            Mode::FirstItem => self.begin_value(alloc, place, byte),
            Mode::FirstKey if byte == b'}' => self.close_object(alloc, place),
            Mode::FirstKey | Mode::Key => self.begin_key(place, byte),
            Mode::Colon if byte == b':' => {
                self.mode = Mode::Value;
                Ok(())
            }
            Mode::After if byte == b',' => self.take_comma(place),
            Mode::After if byte == b']' => self.close_list(alloc, place),
            Mode::After if byte == b'}' => self.close_object(alloc, place),
            _ => Err(JsonFault::Syntax(place)),
        }
    }

    /// A number is at its end.
    #[tactic(auto, unfolding(crate::specs::Steps::end_number))]
    fn end_number(
        &mut self,
        alloc: Global,
        place: usize,
        number: OpenNumber,
    ) -> Result<(), JsonFault>
        ensures ok { OnOk result (steps.end_number place number self.old ≡ Ok self.new) }
        ensures err { IfErr result (IsFaultOf (steps.end_number place number self.old)) }
    {
        match int_value(number.minus, number.magnitude) {
            Some(value) => {
                let int = OrderedJson::Int {
                    place: number.place,
                    value,
                };
                self.complete(alloc, place, int)
            }
            None => Err(JsonFault::Range(number.place)),
        }
    }

    /// The byte after a number's digits.
    #[tactic(auto, unfolding(crate::specs::Steps::after_digits))]
    fn after_digits(
        &mut self,
        alloc: Global,
        place: usize,
        number: OpenNumber,
        byte: u8,
    ) -> Result<(), JsonFault>
        ensures ok { OnOk result (steps.after_digits place number byte self.old ≡ Ok self.new) }
        ensures err { IfErr result (IsFaultOf (steps.after_digits place number byte self.old)) }
    {
        if is_mark(byte) {
            return Err(JsonFault::Fraction(number.place));
        }
        self.end_number(alloc, place, number)?;
        self.between(alloc, place, byte)
    }

    /// A byte after the first digit of a number.
    #[tactic(auto, unfolding(crate::specs::Steps::in_digits))]
    fn in_digits(
        &mut self,
        alloc: Global,
        place: usize,
        number: OpenNumber,
        byte: u8,
    ) -> Result<(), JsonFault>
        ensures ok { OnOk result (steps.in_digits place number byte self.old ≡ Ok self.new) }
        ensures err { IfErr result (IsFaultOf (steps.in_digits place number byte self.old)) }
    {
        if !is_decimal(byte) {
            return self.after_digits(alloc, place, number, byte);
        }
        let digit = u64::from(byte - b'0');
        self.mode = Mode::Digits(OpenNumber {
            place: number.place,
            minus: number.minus,
            magnitude: number.magnitude.saturating_mul(10).saturating_add(digit),
        });
        Ok(())
    }

    /// The byte after a number's minus, which stands at `first`.
    #[tactic(auto, unfolding(crate::specs::Steps::after_minus))]
    fn after_minus(&mut self, place: usize, first: usize, byte: u8) -> Result<(), JsonFault>
        ensures ok { OnOk result (steps.after_minus place first byte self.old ≡ Ok self.new) }
        ensures err { IfErr result (IsFaultOf (steps.after_minus place first byte self.old)) }
    {
        if !is_decimal(byte) {
            return Err(JsonFault::Syntax(place));
        }
        self.mode = number_mode(first, true, byte);
        Ok(())
    }

    /// A byte after the first letter of a literal name.
    #[tactic(auto, unfolding(crate::specs::Steps::in_name))]
    fn in_name(
        &mut self,
        alloc: Global,
        place: usize,
        name: OpenName,
        byte: u8,
    ) -> Result<(), JsonFault>
        ensures ok { OnOk result (steps.in_name place name byte self.old ≡ Ok self.new) }
        ensures err { IfErr result (IsFaultOf (steps.in_name place name byte self.old)) }
    {
        let letters = name.name.letters();
        let read = name.read;
        if read >= letters.len() || letters[read] != byte {
            return Err(JsonFault::Syntax(place));
        }
        if read + 1 == letters.len() {
            return self.complete(alloc, place, name.name.value(name.place));
        }
        self.mode = Mode::Name(OpenName {
            place: name.place,
            name: name.name,
            read: read + 1,
        });
        Ok(())
    }

    /// The closing quote of a key: its object may not have the key.
    #[tactic(auto, unfolding(crate::specs::Steps::end_key))]
    fn end_key(&mut self, alloc: Global, place: usize, first: usize) -> Result<(), JsonFault>
        ensures ok { OnOk result (steps.end_key place first self.old ≡ Ok self.new) }
        ensures err { IfErr result (IsFaultOf (steps.end_key place first self.old)) }
    {
        let key = mem::replace(&mut self.content, Text::new(alloc));
        match self.levels.pop() {
            Some(
                Level::Object {
                    place: bracket,
                    members,
                },
            ) => {
                if members.has_key(key.as_str()) {
                    return Err(JsonFault::DoubleKey(first));
                }
                self.mode = Mode::Colon;
                self.levels.push(Level::Member {
                    place: bracket,
                    members,
                    key,
                    key_place: first,
                })?;
                Ok(())
            }
            _ => Err(JsonFault::Syntax(place)),
        }
    }

    /// The closing quote of a string.
    #[tactic(auto, unfolding(crate::specs::Steps::end_text))]
    fn end_text(&mut self, alloc: Global, place: usize, text: OpenText) -> Result<(), JsonFault>
        ensures ok { OnOk result (steps.end_text place text self.old ≡ Ok self.new) }
        ensures err { IfErr result (IsFaultOf (steps.end_text place text self.old)) }
    {
        let first = text.place;
        if text.is_key {
            return self.end_key(alloc, place, first);
        }
        let string = OrderedJson::Text {
            place: first,
            text: mem::replace(&mut self.content, Text::new(alloc)),
        };
        self.complete(alloc, place, string)
    }

    /// A byte of a string.
    #[tactic(auto, unfolding(crate::specs::Steps::in_text))]
    fn in_text(
        &mut self,
        alloc: Global,
        place: usize,
        text: OpenText,
        byte: u8,
    ) -> Result<(), JsonFault>
        ensures ok { OnOk result (steps.in_text place text byte self.old ≡ Ok self.new) }
        ensures err { IfErr result (IsFaultOf (steps.in_text place text byte self.old)) }
    {
        match spell(text.spelling, byte) {
            Spelled::More(spelling) => {
                self.mode = Mode::Text(OpenText {
                    place: text.place,
                    is_key: text.is_key,
                    spelling,
                });
                Ok(())
            }
            Spelled::Char(character) => {
                self.mode = text_mode(text.place, text.is_key);
                self.content.push(character)?;
                Ok(())
            }
            Spelled::End => self.end_text(alloc, place, text),
            Spelled::Bad => Err(JsonFault::Syntax(place)),
        }
    }

    /// Takes the next byte, which stands at `place`.
    #[tactic(auto, unfolding(crate::specs::Steps::take_byte))]
    pub fn take_byte(&mut self, alloc: Global, place: usize, byte: u8) -> Result<(), JsonFault>
        ensures ok { OnOk result (steps.take_byte place byte self.old ≡ Ok self.new) }
        ensures err { IfErr result (IsFaultOf (steps.take_byte place byte self.old)) }
    {
        match self.mode {
            Mode::Text(text) => self.in_text(alloc, place, text, byte),
            Mode::Name(name) => self.in_name(alloc, place, name, byte),
            Mode::Minus { place: first } => self.after_minus(place, first, byte),
            Mode::Zero(number) => self.after_digits(alloc, place, number, byte),
            Mode::Digits(number) => self.in_digits(alloc, place, number, byte),
            Mode::Value
            | Mode::FirstItem
            | Mode::FirstKey
            | Mode::Key
            | Mode::Colon
            | Mode::After => self.between(alloc, place, byte),
        }
    }

    /// The end of the text, where a number may be at its end too.
    #[tactic(auto, unfolding(crate::specs::Steps::settle))]
    fn settle(&mut self, alloc: Global, place: usize) -> Result<(), JsonFault>
        ensures ok { OnOk result (steps.settle place self.old ≡ Ok self.new) }
        ensures err { IfErr result (IsFaultOf (steps.settle place self.old)) }
    {
        match self.mode {
            Mode::Zero(number) | Mode::Digits(number) => self.end_number(alloc, place, number),
            _ => Ok(()),
        }
    }

    /// The value of the text that was read, which has `len` bytes.
    pub fn finish(mut self, alloc: Global, len: usize) -> Result<OrderedJson, JsonFault>
        ensures ok { IfOk result (λ json. steps.finish len (Ok self) ≡ Ok json) }
        ensures err { IfErr result (IsFaultOf (steps.finish len (Ok self))) }
    {
        self.settle(alloc, len)?;
        let Reader {
            root,
            levels: _,
            mode: _,
            content: _,
        } = self;
        root.ok_or(JsonFault::Syntax(len))
    }
}

/// The mode at the start of a string, and after each of its characters.
fn text_mode(place: usize, is_key: bool) -> Mode
    ensures { result ≡ steps.text_mode place is_key }
{
    Mode::Text(OpenText {
        place,
        is_key,
        spelling: Spelling::Between,
    })
}

/// The mode after the first letter of a literal name.
fn name_mode(place: usize, name: LiteralName) -> Mode
    ensures { result ≡ steps.name_mode place name }
{
    Mode::Name(OpenName {
        place,
        name,
        read: 1,
    })
}

/// The mode after the first digit of a number: no digit follows 0.
fn number_mode(place: usize, minus: bool, digit: u8) -> Mode
    requires { digit_zero ≤ digit }
    ensures { result ≡ steps.number_mode place minus digit }
{
    let number = OpenNumber {
        place,
        minus,
        magnitude: u64::from(digit - b'0'),
    };
    if digit == b'0' {
        Mode::Zero(number)
    } else {
        Mode::Digits(number)
    }
}

/// The mode after the first byte of a value that is no string, array or object.
fn scalar_mode(place: usize, byte: u8) -> Result<Mode, JsonFault>
    ensures { result ≡ steps.scalar_mode place byte }
{
    match byte {
        b'n' => Ok(name_mode(place, LiteralName::Null)),
        b't' => Ok(name_mode(place, LiteralName::True)),
        b'f' => Ok(name_mode(place, LiteralName::False)),
        b'-' => Ok(Mode::Minus { place }),
        b'0'..=b'9' => Ok(number_mode(place, false, byte)),
        _ => Err(JsonFault::Syntax(place)),
    }
}

/// The number of a magnitude and a sign, where it fits.
fn int_value(minus: bool, magnitude: u64) -> Option<i64>
    ensures { SomeIff result (fits minus magnitude ≡ true) (int_value minus magnitude) }
{
    if minus {
        if magnitude <= 1 << 63 {
            Some((-i128::from(magnitude)) as i64)
        } else {
            None
        }
    } else {
        i64::try_from(magnitude).ok()
    }
}
