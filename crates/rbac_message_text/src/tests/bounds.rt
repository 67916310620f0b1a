//! The longest text, and the largest numbers.

use super::reading::acknowledges;
use crate::{LineRefusal, Scratch, read_commands, read_message};
use rbac_words::Stamp;
use std::alloc::Global;
use std::process::Abort;

/// This text, and blanks behind it to so many bytes.
fn padded(rt: &impl Abort, alloc: Global, text: &[u8], length: usize) -> Vec<u8> {
    let mut long = Vec::new(alloc);
    long.extend_from_slice(text).expect(rt, "memory");
    long.resize(length, b' ').expect(rt, "memory");
    long
}

fn expect_acknowledgement(rt: &impl Abort, alloc: Global, text: &[u8], stamp: Stamp) {
    let Ok(message) = read_message(alloc, text, &mut Scratch::new(alloc)) else {
        panic!(rt);
    };
    assert!(rt; acknowledges(&message, stamp));
    drop(message);
}

#[test]
fn a_mebibyte_and_no_more(rt: HostRuntime) {
    let mut text = padded(&rt, rt.alloc(), br#"{"stamp":[7,1]}"#, 1_048_576);
    expect_acknowledgement(&rt, rt.alloc(), text.as_slice(), Stamp::at(7, 1));
    text.push(b' ').expect(&rt, "memory");
    let refusal = read_message(rt.alloc(), text.as_slice(), &mut Scratch::new(rt.alloc())).err();
    assert_eq!(rt; refusal, Some(LineRefusal::TooLong));
}

#[test]
fn a_mebibyte_of_commands_and_no_more(rt: HostRuntime) {
    let mut text = padded(&rt, rt.alloc(), b"[]", 1_048_576);
    let Ok(commands) = read_commands(rt.alloc(), text.as_slice(), &mut Scratch::new(rt.alloc()))
    else {
        panic!(rt);
    };
    drop(commands);
    text.push(b' ').expect(&rt, "memory");
    let refusal = read_commands(rt.alloc(), text.as_slice(), &mut Scratch::new(rt.alloc())).err();
    assert_eq!(rt; refusal, Some(LineRefusal::TooLong));
}

#[test]
fn too_long_comes_before_no_json(rt: HostRuntime) {
    let text = padded(&rt, rt.alloc(), b"[", 1_048_577);
    let refusal = read_message(rt.alloc(), text.as_slice(), &mut Scratch::new(rt.alloc())).err();
    assert_eq!(rt; refusal, Some(LineRefusal::TooLong));
}

#[test]
fn large_clocks_and_members(rt: HostRuntime) {
    let alloc = rt.alloc();
    let odd = br#"{"stamp":[9007199254740993,1]}"#;
    expect_acknowledgement(&rt, alloc, odd, Stamp::at(9_007_199_254_740_993, 1));
    let even = br#"{"stamp":[9007199254740992,1]}"#;
    expect_acknowledgement(&rt, alloc, even, Stamp::at(9_007_199_254_740_992, 1));
    let last = br#"{"stamp":[18446744073709551615,4294967295]}"#;
    expect_acknowledgement(&rt, alloc, last, Stamp::at(u64::MAX, u32::MAX));
    expect_acknowledgement(&rt, alloc, br#"{"stamp":[0,0]}"#, Stamp::at(0, 0));
}
