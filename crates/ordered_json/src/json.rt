//! JSON values with the places of their parts.
ghost use Rattle.std.specs.Prelude.{◌≡◌, map, option_map, is_some};
ghost use Rattle.std.specs.List.{list_all, list_any};
ghost use Rattle.std.specs.Option.{option_copied};
ghost use Rattle.std.specs.Str.{bytes_eq};
ghost use Rattle.ordered_json.specs.Words.{place_of, is_null, as_bool, as_int, as_text, as_list, as_object, as_object_of, member_parts, key_of};

use xs_data::{Items, Text};

/// A JSON value with the place of each of its parts: the offset, in bytes from 0, of its first byte
/// in the text that was read.
#[cycle(json)]
#[derive(Debug, Drop)]
pub enum OrderedJson {
    /// `null`.
    Null {
        place: usize,
    },
    /// `true` or `false`.
    Bool {
        place: usize,
        value: bool,
    },
    /// A number that is whole and fits 64 bits with a sign.
    Int {
        place: usize,
        value: i64,
    },
    /// A string, with its escapes resolved.
    Text {
        place: usize,
        text: Text,
    },
    /// An array, in the order of the text.
    List {
        place: usize,
        items: Items<OrderedJson>,
    },
    /// An object, its members in the order of the text. No key comes twice.
    Object {
        place: usize,
        members: Items<Member>,
    },
}

/// A member of an object.
#[cycle(json)]
#[derive(Debug, Drop)]
pub struct Member {
    /// The key, with its escapes resolved.
    pub key: Text,
    /// Where the key's opening quote stands.
    pub key_place: usize,
    /// The value.
    pub value: OrderedJson,
}

impl OrderedJson {
    /// Where the value begins: the offset, in bytes from 0, of its first byte.
    pub fn place(&self) -> usize
        ensures { result ≡ place_of self.now }
    {
        match self {
            OrderedJson::Null { place }
            | OrderedJson::Bool { place, .. }
            | OrderedJson::Int { place, .. }
            | OrderedJson::Text { place, .. }
            | OrderedJson::List { place, .. }
            | OrderedJson::Object { place, .. } => *place,
        }
    }

    /// Whether the value is `null`.
    pub fn is_null(&self) -> bool
        ensures { result ≡ is_null self.now }
    {
        matches!(self, OrderedJson::Null { .. })
    }

    /// Whether the value is `true` or `false`.
    pub fn is_bool(&self) -> bool
        ensures { result ≡ is_some (as_bool self.now) }
    {
        matches!(self, OrderedJson::Bool { .. })
    }

    /// Whether the value is a number.
    pub fn is_int(&self) -> bool
        ensures { result ≡ is_some (as_int self.now) }
    {
        matches!(self, OrderedJson::Int { .. })
    }

    /// Whether the value is a string.
    pub fn is_text(&self) -> bool
        ensures { result ≡ is_some (as_text self.now) }
    {
        matches!(self, OrderedJson::Text { .. })
    }

    /// Whether the value is an array.
    pub fn is_list(&self) -> bool
        ensures { result ≡ is_some (as_list self.now) }
    {
        matches!(self, OrderedJson::List { .. })
    }

    /// Whether the value is an object.
    pub fn is_object(&self) -> bool
        ensures { result ≡ is_some (as_object self.now) }
    {
        matches!(self, OrderedJson::Object { .. })
    }

    /// Which of `true` and `false` the value is, if it is one.
    pub fn as_bool(&self) -> Option<bool>
        ensures { result ≡ as_bool self.now }
    {
        match self {
            OrderedJson::Bool { value, .. } => Some(*value),
            _ => None,
        }
    }

    /// The number, if the value is one.
    pub fn as_int(&self) -> Option<i64>
        ensures { result ≡ as_int self.now }
    {
        match self {
            OrderedJson::Int { value, .. } => Some(*value),
            _ => None,
        }
    }

    /// The string, if the value is one.
    pub fn as_text(&self) -> Option<&Text>
        ensures { option_copied result ≡ as_text self.now }
    {
        match self {
            OrderedJson::Text { text, .. } => Some(text),
            _ => None,
        }
    }

    /// The values of an array, if the value is one.
    pub fn as_list(&self) -> Option<&[OrderedJson]>
        ensures { option_copied result ≡ as_list self.now }
    {
        match self {
            OrderedJson::List { items, .. } => Some(items.as_slice()),
            _ => None,
        }
    }

    /// The members of an object in the order of the text, if the value is one.
    pub fn as_object(&self) -> Option<&[Member]>
        ensures { option_map (map member_parts) (option_copied result) ≡ as_object self.now }
    {
        match self {
            OrderedJson::Object { members, .. } => Some(members.as_slice()),
            _ => None,
        }
    }

    /// The members of an object that has no other keys than these, if the value is one. It looks at
    /// each member and each key.
    pub fn as_object_of(&self, keys: &[&str]) -> Option<&[Member]>
        ensures { option_map (map member_parts) (option_copied result)
            ≡ as_object_of (map (λ key. key.now) keys.now) self.now }
    {
        let members = self.as_object()?;
        have_only(members, keys).then_some(members)
    }
}

/// Whether each member has one of the keys.
fn have_only(members: &[Member], keys: &[&str]) -> bool
    ensures { result
        ≡ list_all (λ m. list_any (λ key. bytes_eq (key_of m) key.now) keys.now) members.now }
{
    members
        .iter()
        .all(|member| is_among(member.key.as_bytes(), keys))
}

/// Whether the key is one of these.
fn is_among(key: &[u8], keys: &[&str]) -> bool
    ensures { result ≡ list_any (λ other. bytes_eq key.now other.now) keys.now }
{
    keys.iter().any(|other| key == other.as_bytes())
}
