//! Values that `lent_json` reads with ample memory, and those that it refuses. What is expected was written by hand.
use lent_json::{
    Scratch, Unread, Value, as_array, as_object, as_str, as_u64, get, has_only, is_object,
    is_string, read,
};
use std::alloc::Global;
use std::process::Abort;
use std::test::Fail;

// Texts that are no JSON: one that ends too soon, one that goes on, a number that no float is near, a lone surrogate's bytes.
const REFUSED: [&[u8]; 6] = [
    b"",
    b"{\"a\":1",
    b"1 2",
    b"[1e400]",
    b"{\"a\":{\"b\":-1e400}}",
    b"\"\xED\xA0\x80\"",
];

// So many arrays, one in another.
fn nested(rt: &impl Abort, alloc: Global, depth: usize) -> Vec<u8> {
    let mut text = Vec::new(alloc);
    for _ in 0..depth {
        text.push(b'[').expect(rt, "memory");
    }
    for _ in 0..depth {
        text.push(b']').expect(rt, "memory");
    }
    text
}

fn expect_refused(rt: &impl Abort, alloc: Global, text: &[u8]) {
    let mut scratch = Scratch::new(alloc);
    assert!(rt; matches!(read(alloc, text, &mut scratch), Err(Unread::NotJson)));
}

// The value at a key is this text.
fn expect_text(rt: &impl Abort, object: &Value<'_>, key: &str, text: &str) {
    let value = get(object, key).expect(rt, "a value at the key");
    assert!(rt; is_string(value));
    assert_eq!(rt; as_str(value), Some(text));
}

// The value at a key is this whole number, or none.
fn expect_whole(rt: &impl Abort, object: &Value<'_>, key: &str, whole: Option<u64>) {
    let value = get(object, key).expect(rt, "a value at the key");
    assert_eq!(rt; as_u64(value), whole);
}

#[test]
fn texts_are_lent_or_unescaped(rt: HostRuntime) {
    let alloc = rt.alloc();
    let text = br#" {"plain": "ann", "escaped": "a\u006En\n", "a\u0062": "b", "none": ""} "#;
    let mut scratch = Scratch::new(alloc);
    let value = read(alloc, text, &mut scratch).ok().expect(&rt, "a value");
    let object = as_object(&value).expect(&rt, "an object");
    expect_text(&rt, object, "plain", "ann");
    expect_text(&rt, object, "escaped", "ann\n");
    expect_text(&rt, object, "ab", "b");
    expect_text(&rt, object, "none", "");
    assert!(rt; get(object, "other").is_none());
}

#[test]
fn the_last_of_equal_keys_counts(rt: HostRuntime) {
    let alloc = rt.alloc();
    let mut scratch = Scratch::new(alloc);
    let text = br#"{"key":"first","other":1,"k\u0065y":"last"}"#;
    let value = read(alloc, text, &mut scratch).ok().expect(&rt, "a value");
    expect_text(&rt, &value, "key", "last");
    assert!(rt; has_only(&value, &["key", "other"]));
    assert!(rt; !has_only(&value, &["key"]));
}

#[test]
fn whole_numbers(rt: HostRuntime) {
    let alloc = rt.alloc();
    let mut scratch = Scratch::new(alloc);
    let text =
        br#"{"most":18446744073709551615,"more":18446744073709551616,"minus":-1,"point":1.0,"zero":0}"#;
    let value = read(alloc, text, &mut scratch).ok().expect(&rt, "a value");
    expect_whole(&rt, &value, "most", Some(18_446_744_073_709_551_615));
    expect_whole(&rt, &value, "more", None);
    expect_whole(&rt, &value, "minus", None);
    expect_whole(&rt, &value, "point", None);
    expect_whole(&rt, &value, "zero", Some(0));
}

#[test]
fn kinds_are_told_apart(rt: HostRuntime) {
    let alloc = rt.alloc();
    let mut scratch = Scratch::new(alloc);
    let value = read(alloc, br#"[{},"",null]"#, &mut scratch)
        .ok()
        .expect(&rt, "a value");
    assert!(rt; !is_object(&value) && as_object(&value).is_none() && as_str(&value).is_none());
    let items = as_array(&value).expect(&rt, "an array");
    assert_eq!(rt; items.len(), 3);
    assert!(rt; is_object(&items[0]) && is_string(&items[1]) && !is_string(&items[2]));
    assert!(rt; as_array(&items[0]).is_none() && as_u64(&items[1]).is_none());
}

// A scratch that a longer text was unescaped in reads a shorter one as a new scratch does.
#[test]
fn a_scratch_is_kept_from_text_to_text(rt: HostRuntime) {
    let alloc = rt.alloc();
    let mut scratch = Scratch::new(alloc);
    for (text, told) in [
        (br#""a\tlonger\ttext""#.as_slice(), "a\tlonger\ttext"),
        (br#""\t""#, "\t"),
    ] {
        let value = read(alloc, text, &mut scratch).ok().expect(&rt, "a value");
        assert_eq!(rt; as_str(&value), Some(told));
    }
}

#[test]
fn what_is_no_json_is_refused(rt: HostRuntime) {
    for text in REFUSED {
        expect_refused(&rt, rt.alloc(), text);
    }
}

#[test]
fn as_deep_as_127_and_no_deeper(rt: HostRuntime) {
    let alloc = rt.alloc();
    let mut scratch = Scratch::new(alloc);
    let deepest = nested(&rt, alloc, 127);
    assert!(rt; read(alloc, &deepest, &mut scratch).is_ok());
    let deeper = nested(&rt, alloc, 128);
    expect_refused(&rt, alloc, &deeper);
}
