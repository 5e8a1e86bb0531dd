//! The values of an object's members by their keys. Each call looks at the members in their order,
//! up to the one with the key.
ghost use Rattle.std.specs.Prelude.{◌≡◌, map, find, option_map};
ghost use Rattle.std.specs.Option.{option_copied};
ghost use Rattle.std.specs.Str.{bytes_eq};
ghost use Rattle.ordered_json.specs.Words.{get, get_text, get_list, get_object, member_parts, key_of};

use crate::{Member, OrderedJson};
use xs_data::Text;

/// The value under a key.
pub fn get<'a>(members: &'a [Member], key: &str) -> Option<&'a OrderedJson>
    ensures { option_copied result ≡ get key.now (map member_parts members.now) }
{
    Some(&find_member(members, key)?.value)
}

/// The string under a key.
pub fn get_text<'a>(members: &'a [Member], key: &str) -> Option<&'a Text>
    ensures { option_copied result ≡ get_text key.now (map member_parts members.now) }
{
    get(members, key)?.as_text()
}

/// The values of the array under a key.
pub fn get_list<'a>(members: &'a [Member], key: &str) -> Option<&'a [OrderedJson]>
    ensures { option_copied result ≡ get_list key.now (map member_parts members.now) }
{
    get(members, key)?.as_list()
}

/// The members of the object under a key.
pub fn get_object<'a>(members: &'a [Member], key: &str) -> Option<&'a [Member]>
    ensures { option_map (map member_parts) (option_copied result)
        ≡ get_object key.now (map member_parts members.now) }
{
    get(members, key)?.as_object()
}

/// The first member with the key.
fn find_member<'a>(members: &'a [Member], key: &str) -> Option<&'a Member>
    ensures { option_copied result ≡ find (λ m. bytes_eq (key_of m) key.now) members.now }
{
    members
        .iter()
        .find(|member| member.key.as_bytes() == key.as_bytes())
}
