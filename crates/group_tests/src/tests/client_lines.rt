//! What `rbac_lines` reads client lines as, and why others are refused.

use rbac_lines::{LineRefusal, Scratch, read_client};
use rbac_words::Command;
use std::alloc::Global;
use std::process::Abort;

/// Whether member 4 is asked to add ann.
fn adds_ann(asked: &(u32, Command)) -> bool {
    match asked {
        (4, Command::AddUser { user }) => user.as_bytes() == b"ann".as_slice(),
        _ => false,
    }
}

#[test]
fn a_command_of_a_member(rt: HostRuntime) {
    let line = br#"{"command":{"user":"ann","name":"AddUser"},"at":4}"#;
    let Ok(asked) = read_client(rt.alloc(), line, &mut Scratch::new(rt.alloc())) else {
        panic!(rt);
    };
    assert!(rt; adds_ann(&asked));
    drop(asked);
}

/// The line is refused so.
fn expect_refused(rt: &impl Abort, alloc: Global, line: &[u8], refusal: LineRefusal) {
    assert!(rt; read_client(alloc, line, &mut Scratch::new(alloc)).err() == Some(refusal));
}

#[test]
fn a_line_that_is_too_long_and_no_json(rt: HostRuntime) {
    let mut line = Vec::new(rt.alloc());
    line.resize(65_537, b'[').expect(&rt, "memory");
    expect_refused(&rt, rt.alloc(), &line, LineRefusal::TooLong);
    line.truncate(65_536);
    expect_refused(&rt, rt.alloc(), &line, LineRefusal::NotJson);
    drop(line);
}
