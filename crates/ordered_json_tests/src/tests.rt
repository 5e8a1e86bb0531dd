//! What no clause says: texts from outside, printed faults, and each call once.
use ordered_json::{JsonFault, get, get_list, get_object, get_text, read};
use std::test::Fail;

/// Texts and their first faults. Levels are tried apart.
const FAULTS: [(&[u8], JsonFault); 52] = [
    (b"", JsonFault::Syntax(0)),
    (b"  ", JsonFault::Syntax(2)),
    (b"{\"machines\":[", JsonFault::Syntax(13)),
    (b"[1,]", JsonFault::Syntax(3)),
    (b"[,1]", JsonFault::Syntax(1)),
    (b"{\"a\" 1}", JsonFault::Syntax(5)),
    (b"{\"a\":1,}", JsonFault::Syntax(7)),
    (b"{\"a\":1]", JsonFault::Syntax(6)),
    (b"[1}", JsonFault::Syntax(2)),
    (b"[1] 2", JsonFault::Syntax(4)),
    (b"nul", JsonFault::Syntax(3)),
    (b"nulL", JsonFault::Syntax(3)),
    (b"01", JsonFault::Syntax(1)),
    (b"-01", JsonFault::Syntax(2)),
    (b"-", JsonFault::Syntax(1)),
    (b"+1", JsonFault::Syntax(0)),
    (b"-x", JsonFault::Syntax(1)),
    (b"\"a\nb\"", JsonFault::Syntax(2)),
    (b"\"a\x1f", JsonFault::Syntax(2)),
    (b"\"\\x\"", JsonFault::Syntax(2)),
    (b"\"\\u12G4\"", JsonFault::Syntax(5)),
    (b"\"\\uDC00\"", JsonFault::Syntax(4)),
    (b"\"\\ud800\"", JsonFault::Syntax(7)),
    (b"\"\\ud800\\n\"", JsonFault::Syntax(8)),
    (b"\"\\ud800\\ud800\"", JsonFault::Syntax(10)),
    // A byte order mark, and UTF-8 that is too long, cut, of a surrogate or past the last character.
    (b"\xEF\xBB\xBF1", JsonFault::Syntax(0)),
    (b"\"\xC0\x80\"", JsonFault::Syntax(1)),
    (b"\"\xE0\x80\x80\"", JsonFault::Syntax(2)),
    (b"\"\xED\xA0\x80\"", JsonFault::Syntax(2)),
    (b"\"\xF4\x90\x80\x80\"", JsonFault::Syntax(2)),
    (b"\"\xF5\x80\x80\x80\"", JsonFault::Syntax(1)),
    (b"\"\xE2\x82\"", JsonFault::Syntax(3)),
    (b"\"\xE2\x82", JsonFault::Syntax(3)),
    (b"\"\x80\"", JsonFault::Syntax(1)),
    (b"{\"a\":1,\"a\":2}", JsonFault::DoubleKey(7)),
    (b"{\"a\":1,\"\\u0061\"", JsonFault::DoubleKey(7)),
    (b"{\"a\":{\"b\":1,\"a\":2,\"b\" x", JsonFault::DoubleKey(18)),
    (b"{\"\":0,\"\"", JsonFault::DoubleKey(6)),
    (b"{\"a\":1,\"a", JsonFault::Syntax(9)),
    (b"[1.5", JsonFault::Fraction(1)),
    (b"-0e", JsonFault::Fraction(0)),
    (b"[12E5, 1.0]", JsonFault::Fraction(1)),
    (b"[9223372036854775808]", JsonFault::Range(1)),
    (b"9223372036854775808", JsonFault::Range(0)),
    (b"9223372036854775808x", JsonFault::Range(0)),
    (b"99999999999999999999999999x", JsonFault::Range(0)),
    (b"9223372036854775808.5", JsonFault::Fraction(0)),
    (b"-9223372036854775809", JsonFault::Range(0)),
    (b"18446744073709551616", JsonFault::Range(0)),
    // Two faults: the first one that is found.
    (b"[9223372036854775808 1.5", JsonFault::Range(1)),
    (b"{\"a\":1,\"a\":1.5", JsonFault::DoubleKey(7)),
    (b"[1.5,]", JsonFault::Fraction(1)),
];

/// Texts and their values.
const VALUES: [(&[u8], &str); 7] = [
    (b"null", "Null { place: 0 }"),
    (b"\t\r\n true ", "Bool { place: 4, value: true }"),
    (b"-0", "Int { place: 0, value: 0 }"),
    (
        b"-9223372036854775808",
        "Int { place: 0, value: -9223372036854775808 }",
    ),
    (
        b"[ 9223372036854775807 , false]",
        "List { place: 0, items: Items { items: [Int { place: 2, value: 9223372036854775807 }, Bool { place: 24, value: false }] } }",
    ),
    // An escape of each kind, and the characters of section 7 of RFC 8259.
    (
        b"\"\\\"\\\\\\/\\b\\f\\n\\r\\t\\u20AC\\uD834\\uDD1E\xe2\x82\xac\xf0\x9d\x84\x9e\"",
        "Text { place: 0, text: Text { text: \"\\\"\\\\/\\u{8}\\u{c}\\n\\r\\t\u{20ac}\u{1d11e}\u{20ac}\u{1d11e}\" } }",
    ),
    (
        b"{ \"b\" : [ ] , \"a\":{}}",
        "Object { place: 0, members: Items { items: [Member { key: Text { text: \"b\" }, key_place: 2, value: List { place: 8, items: Items { items: [] } } }, Member { key: Text { text: \"a\" }, key_place: 14, value: Object { place: 18, members: Items { items: [] } } }] } }",
    ),
];

#[test]
fn finds_the_first_fault(rt: HostRuntime) {
    for (text, want) in FAULTS.iter() {
        match read(rt.alloc(), text) {
            Ok(json) => assert!(rt; false, "{text:?} is {json:?}"),
            Err(fault) => assert_eq!(rt; fault, *want, "{text:?}"),
        }
    }
}

#[test]
fn reads_values_with_their_places(rt: HostRuntime) -> Result<(), Fail> {
    for (text, want) in VALUES.iter() {
        let json = read(rt.alloc(), text)?;
        let shown = format!(in rt.alloc(); "{json:?}")?;
        assert_eq!(rt; shown.as_str(), *want);
    }
    Ok(())
}

#[test]
fn takes_values_apart(rt: HostRuntime) -> Result<(), Fail> {
    let json = read(rt.alloc(), b"{\"a\":[null,true,-7],\"b\":{\"c\":\"d\"}}")?;
    assert!(rt; json.is_object() && !json.is_list());
    assert!(rt; json.as_object_of(&["a"]).is_none());
    let members = json.as_object_of(&["b", "a"]).ok_or("no object")?;
    assert!(rt; get(members, "c").is_none());
    assert_eq!(rt; members.len(), 2);
    assert_eq!(rt; members[1].key_place, 20);
    let items = get_list(members, "a").ok_or("no list")?;
    assert_eq!(rt; items.len(), 3);
    assert!(rt; items[0].is_null() && items[1].is_bool() && items[2].is_int());
    assert_eq!(rt; items[1].as_bool(), Some(true));
    assert_eq!(rt; items[2].as_int(), Some(-7));
    let inner = get_object(members, "b").ok_or("no object")?;
    let text = get_text(inner, "c").ok_or("no text")?;
    assert_eq!(rt; text.as_str(), "d");
    assert!(rt; get(inner, "c").is_some_and(|value| value.is_text()));
    Ok(())
}

/// The examples of RFC 8259, section 13: the first is taken, the second has fractions.
#[test]
fn reads_the_examples_of_the_standard(rt: HostRuntime) -> Result<(), Fail> {
    let image =
        b"{\n  \"Image\": {\n      \"Width\":  800,\n      \"Height\": 600,\n      \"Title\":  \"View from 15th Floor\",\n      \"Thumbnail\": {\n          \"Url\":    \"http://www.example.com/image/481989943\",\n          \"Height\": 125,\n          \"Width\":  100\n      },\n      \"Animated\" : false,\n      \"IDs\": [116, 943, 234, 38793]\n    }\n}";
    assert_eq!(rt; read(rt.alloc(), image)?.place(), 0);
    let places = b"[\n  {\n     \"precision\": \"zip\",\n     \"Latitude\":  37.7668,";
    match read(rt.alloc(), places) {
        Ok(_) => assert!(rt; false, "a fraction is taken"),
        Err(fault) => assert_eq!(rt; fault, JsonFault::Fraction(49)),
    }
    Ok(())
}

#[test]
fn limits_depth_and_length(rt: HostRuntime) -> Result<(), Fail> {
    let mut text = Vec::new(rt.alloc());
    for _ in 0..64 {
        text.push(b'[')?;
    }
    for _ in 0..64 {
        text.push(b']')?;
    }
    assert_eq!(rt; read(rt.alloc(), text.as_slice())?.place(), 0);
    let brackets = vec![in rt.alloc(); b'['; 65]?;
    match read(rt.alloc(), brackets.as_slice()) {
        Ok(_) => assert!(rt; false, "65 levels are taken"),
        Err(fault) => assert_eq!(rt; fault, JsonFault::TooDeep(64)),
    }
    let blanks = vec![in rt.alloc(); b' '; 1_048_577]?;
    match read(rt.alloc(), blanks.as_slice()) {
        Ok(_) => assert!(rt; false, "a text that is too long is taken"),
        Err(fault) => {
            assert_eq!(rt; fault, JsonFault::TooLong);
            assert_eq!(rt; fault.place(), 1_048_576);
        }
    }
    match read(rt.alloc(), &blanks.as_slice()[1..]) {
        Ok(_) => assert!(rt; false, "blanks are taken"),
        Err(fault) => assert_eq!(rt; fault, JsonFault::Syntax(1_048_576)),
    }
    Ok(())
}

#[test]
fn faults_are_printed_with_their_places(rt: HostRuntime) -> Result<(), Fail> {
    let rows: [(JsonFault, &str); 7] = [
        (JsonFault::Syntax(13), "no JSON text goes on so at byte 13"),
        (
            JsonFault::DoubleKey(7),
            "the key at byte 7 comes twice in its object",
        ),
        (
            JsonFault::Fraction(1),
            "the number at byte 1 has a fraction or an exponent",
        ),
        (
            JsonFault::Range(0),
            "the number at byte 0 does not fit 64 bits",
        ),
        (
            JsonFault::TooDeep(64),
            "the bracket at byte 64 opens more than 64 levels",
        ),
        (JsonFault::TooLong, "the text is longer than 1048576 bytes"),
        (JsonFault::Memory, "out of memory"),
    ];
    for (fault, want) in rows.iter() {
        let shown = format!(in rt.alloc(); "{fault}")?;
        assert_eq!(rt; shown.as_str(), *want);
    }
    Ok(())
}
