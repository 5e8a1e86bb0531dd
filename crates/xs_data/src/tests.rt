//! Each call once, with ample memory: a body that always gives up would be proved.

use crate::{Items, Text};
use std::test::Fail;

#[test]
fn a_list_keeps_what_was_pushed_in_order(rt: HostRuntime) -> Result<(), Fail> {
    let mut items = Items::new(rt.alloc());
    assert!(rt; items.is_empty());
    for number in [7_u32, 5, 6] {
        assert!(rt; items.push(number).is_ok());
    }
    assert_eq!(rt; items.len(), 3);
    assert_eq!(rt; items.as_slice(), [7, 5, 6].as_slice());
    assert_eq!(rt; items.get(1).copied(), Some(5));
    assert_eq!(rt; items.get(3).copied(), None);
    let again = Items::from_vec(items.into_vec());
    assert_eq!(rt; again.as_slice(), [7, 5, 6].as_slice());
    Ok(())
}

#[test]
fn a_text_is_its_bytes_in_utf_8(rt: HostRuntime) -> Result<(), Fail> {
    let mut text = Text::new(rt.alloc());
    for character in "tür€".chars() {
        text.push(character)?;
    }
    // U+00FC and U+20AC, as RFC 3629 spells them.
    assert_eq!(rt; text.as_bytes(), b"t\xc3\xbcr\xe2\x82\xac".as_slice());
    assert_eq!(rt; text.len(), 7);
    assert_eq!(rt; text.as_str(), "tür€");
    let copy = text.copy(rt.alloc())?;
    assert!(rt; copy.same(text.as_bytes()));
    assert!(rt; !copy.same(b"tur"));
    let string = Text::from_string(String::from_str(rt.alloc(), "a")?);
    assert!(rt; string.same(Text::from_str(rt.alloc(), "a")?.as_bytes()));
    Ok(())
}
