//! A golden: a schedule and the output that it must get on a founding, as a text that a person reads and writes.
//!
//! A line that begins with `#` is a sentence, and a golden begins with one. A line `> TEXT` is a line of the schedule, a
//! line `< TEXT` one of the output, and `>` alone the empty line. A line `= TEXT` is one of the founding file; a golden
//! without any is played on the sample founding. A line `! WORD` says that the founding file is refused, and by which
//! word. In a text `(a x 65)` stands for 65 times `a`; a line has one such repeat at most. Empty lines separate.

use anyhow::{Context, Result, bail, ensure};
use std::alloc::Global;

/// A founding file, and the schedule with the output that it must get, or the refusal of the file.
#[derive(Drop)]
pub struct Golden {
    /// Empty for the sample founding.
    pub founding: Vec<u8>,
    /// The refusal's word and a line feed, or nothing where the founding is taken.
    pub refusal: Vec<u8>,
    pub input: Vec<u8>,
    pub output: Vec<u8>,
}

impl Golden {
    /// Reads a golden.
    pub(crate) fn read(alloc: Global, text: &str) -> Result<Golden> {
        ensure!(text.starts_with("# "), "a golden begins with its sentence");
        let mut golden = Golden {
            founding: Vec::new(alloc),
            refusal: Vec::new(alloc),
            input: Vec::new(alloc),
            output: Vec::new(alloc),
        };
        for line in text.lines() {
            if let Some(given) = line.strip_prefix("> ") {
                push_line(&mut golden.input, given)?;
            } else if let Some(wanted) = line.strip_prefix("< ") {
                push_line(&mut golden.output, wanted)?;
            } else if let Some(key) = line.strip_prefix("= ") {
                push_line(&mut golden.founding, key)?;
            } else if let Some(word) = line.strip_prefix("! ") {
                push_line(&mut golden.refusal, word)?;
            } else if line == ">" {
                push_line(&mut golden.input, "")?;
            } else if !line.is_empty() && !line.starts_with("#") {
                bail!("no line of a golden: {line}");
            }
        }
        Ok(golden)
    }
}

// A line with its repeat written out, and its line feed.
fn push_line(bytes: &mut Vec<u8>, line: &str) -> Result<()> {
    match line.split_once('(') {
        None => bytes.extend_from_slice(line.as_bytes())?,
        Some((before, after)) => {
            let (repeat, after) = after.split_once(')').context("a repeat that does not end")?;
            let (text, count) = repeat.split_once(" x ").context("a repeat with no count")?;
            bytes.extend_from_slice(before.as_bytes())?;
            for _ in 0..count.parse::<u32>()? {
                bytes.extend_from_slice(text.as_bytes())?;
            }
            bytes.extend_from_slice(after.as_bytes())?;
        }
    }
    bytes.push(b'\n')?;
    Ok(())
}
