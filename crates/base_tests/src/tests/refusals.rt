//! The text of each refusal and fault. What is expected was written by hand.

use line_engine::RunFault;
use rbac_board::SetRefusal;
use rbac_terms::{NameRefusal, VocabularyRefusal};
use std::error::Error;
use std::fmt::InlineText;
use std::process::Abort;
use std::test::Fail;

fn expect_text<E: Error>(rt: &impl Abort, error: E, text: &str) {
    let shown: InlineText<128> = InlineText::of(error);
    assert_eq!(rt; shown.as_str(), text);
}

#[test]
fn faults_of_a_run(rt: HostRuntime) {
    for (fault, text) in [
        (RunFault::Read, "the input cannot be read"),
        (RunFault::Write, "the output cannot be written"),
        (
            RunFault::TooManyReads,
            "the input was read as often as a run may, and its end was not met",
        ),
        (RunFault::NoMemory, "no memory"),
    ] {
        expect_text(&rt, fault, text);
    }
}

// A letter of which nothing is shown.
#[derive(Drop)]
struct Sealed {
    _code: u8,
}

#[test]
fn refusals_of_a_cell(rt: HostRuntime) -> Result<(), Fail> {
    let alloc = rt.alloc();
    let full = SetRefusal::RowFull(Box::new(alloc, Sealed { _code: 1 })?);
    expect_text(&rt, full, "the row has no such place");
    let taken = SetRefusal::Taken(Box::new(alloc, Sealed { _code: 2 })?);
    expect_text(&rt, taken, "the cell holds a value already");
    let no_memory = SetRefusal::NoMemory(Box::new(alloc, Sealed { _code: 3 })?);
    expect_text(&rt, no_memory, "no memory");
    Ok(())
}

#[test]
fn refusals_of_a_name(rt: HostRuntime) {
    let bad_name = "a name has 1 to 64 bytes of A-Z a-z 0-9 _ - .";
    expect_text(&rt, NameRefusal::BadName, bad_name);
    expect_text(&rt, NameRefusal::NoMemory, "no memory");
}

#[test]
fn refusals_of_a_vocabulary(rt: HostRuntime) {
    for (refusal, text) in [
        (
            VocabularyRefusal::TooMany,
            "a vocabulary has at most 256 operations, 4096 objects and 16384 permissions",
        ),
        (
            VocabularyRefusal::Repeated,
            "an operation, an object or a permission stands twice",
        ),
        (
            VocabularyRefusal::UnknownName,
            "a permission speaks of an operation or an object that is not listed",
        ),
        (VocabularyRefusal::NoMemory, "no memory"),
    ] {
        expect_text(&rt, refusal, text);
    }
}
