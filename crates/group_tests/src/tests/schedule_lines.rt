//! What `rbac_lines` reads lines of a schedule as, and bytes that a golden can't have. Why lines are refused is played by the goldens.

use rbac_lines::{LineRefusal, Scratch, read_line};
use rbac_words::{Command, Event};
use std::alloc::Global;
use std::process::Abort;

fn adds_ann(command: &Command) -> bool {
    match command {
        Command::AddUser { user } => user.as_bytes() == b"ann".as_slice(),
        _ => false,
    }
}

/// Whether it is this submit.
fn submits_ann(event: &Event) -> bool {
    match event {
        Event::Submit {
            at: 4,
            caller: 5,
            serial: 6,
            command,
        } => adds_ann(command.get()),
        _ => false,
    }
}

#[test]
fn a_submit(rt: HostRuntime) {
    let line =
        br#"{"command":{"user":"ann","name":"AddUser"},"serial":6,"caller":5,"at":4,"do":"submit"}"#;
    let Ok(event) = read_line(rt.alloc(), line, &mut Scratch::new(rt.alloc())) else {
        panic!(rt);
    };
    assert!(rt; submits_ann(&event));
    drop(event);
}

/// Whether it is the name of a role that is added.
fn adds(command: &Command, text: &[u8]) -> bool {
    match command {
        Command::AddRole { role } => role.as_bytes() == text,
        _ => false,
    }
}

/// Whether the commands add the roles a and b.
fn add_a_and_b(commands: &[Command]) -> bool {
    let [first, second] = commands else {
        return false;
    };
    adds(first, b"a") && adds(second, b"b")
}

/// Whether it is a batch of the two.
fn is_batch_of_two(event: &Event) -> bool {
    match event {
        Event::SubmitBatch {
            at: 4,
            caller: 5,
            serial: 6,
            commands,
        } => add_a_and_b(commands.as_slice()),
        _ => false,
    }
}

#[test]
fn a_batch(rt: HostRuntime) {
    let line =
        br#"{"commands":[{"role":"a","name":"AddRole"},{"name":"AddRole","role":"b"}],"serial":6,"caller":5,"at":4,"do":"batch"}"#;
    let Ok(event) = read_line(rt.alloc(), line, &mut Scratch::new(rt.alloc())) else {
        panic!(rt);
    };
    assert!(rt; is_batch_of_two(&event));
    drop(event);
}

/// Whether the line is refused as no JSON.
fn is_no_json(alloc: Global, line: &[u8]) -> bool {
    read_line(alloc, line, &mut Scratch::new(alloc)).err() == Some(LineRefusal::NotJson)
}

/// So many arrays, one in another.
fn nested_arrays(rt: &impl Abort, alloc: Global, levels: usize) -> Vec<u8> {
    let mut line = Vec::new(alloc);
    line.resize(levels, b'[').expect(rt, "memory");
    for _ in 0..levels {
        line.push(b']').expect(rt, "memory");
    }
    line
}

#[test]
fn bytes_that_are_no_json(rt: HostRuntime) {
    assert!(rt; is_no_json(rt.alloc(), b"\xef\xbb\xbf{\"do\":\"deliver\",\"at\":1}"));
    assert!(rt; is_no_json(rt.alloc(), b"{\"do\":\"deliver\",\"at\":1,\"\xff\":0}"));
    assert!(rt; is_no_json(rt.alloc(), &nested_arrays(&rt, rt.alloc(), 128)));
    assert!(rt; !is_no_json(rt.alloc(), &nested_arrays(&rt, rt.alloc(), 127)));
}
