//! A reader and a writer that fail once, at a call that a test picks, and a writer that is full after some bytes.

use std::alloc::Global;
use std::io;
use std::io::{Error, ErrorKind, Read, Write};
use std::process::Abort;

/// How many bytes a call gives or takes at most.
pub(crate) const STEP: usize = 7;

/// Gives these bytes, some at a time. One call fails, the one before which so many go well, and those after it go well again.
#[derive(Drop)]
pub(crate) struct FailingReader {
    rest: &'static [u8],
    before: usize,
    failed: bool,
}

impl FailingReader {
    pub(crate) fn of(rest: &'static [u8], before: usize) -> FailingReader {
        FailingReader {
            rest,
            before,
            failed: false,
        }
    }
}

impl Read for FailingReader {
    fn read(&mut self, buf: &mut [u8]) -> io::Result<usize> {
        if self.before == 0 && !self.failed {
            self.failed = true;
            return Err(Error::from(ErrorKind::ConnectionReset));
        }
        self.before = self.before.saturating_sub(1);
        let count = self.rest.len().min(STEP).min(buf.len());
        buf[..count].copy_from_slice(&self.rest[..count]);
        self.rest = &self.rest[count..];
        Ok(count)
    }
}

/// Takes some bytes at a time. One call fails, the one before which so many go well, and those after it go well again.
#[derive(Drop)]
pub(crate) struct FailingWriter {
    pub(crate) taken: Vec<u8>,
    before: usize,
    failed: bool,
}

impl FailingWriter {
    pub(crate) fn of(alloc: Global, before: usize) -> FailingWriter {
        FailingWriter {
            taken: Vec::new(alloc),
            before,
            failed: false,
        }
    }
}

impl Write for FailingWriter {
    fn write(&mut self, buf: &[u8]) -> io::Result<usize> {
        if self.before == 0 && !self.failed {
            self.failed = true;
            return Err(Error::from(ErrorKind::StorageFull));
        }
        self.before = self.before.saturating_sub(1);
        let count = buf.len().min(STEP);
        self.taken.extend_from_slice(&buf[..count])?;
        Ok(count)
    }

    fn flush(&mut self) -> io::Result<()> {
        Ok(())
    }
}

/// Takes so many bytes, and fails after them.
#[derive(Drop)]
pub(crate) struct FullWriter {
    pub(crate) taken: Vec<u8>,
    room: usize,
}

impl FullWriter {
    pub(crate) fn of(alloc: Global, room: usize) -> FullWriter {
        FullWriter {
            taken: Vec::new(alloc),
            room,
        }
    }
}

impl Write for FullWriter {
    fn write(&mut self, buf: &[u8]) -> io::Result<usize> {
        let count = buf.len().min(self.room);
        self.room -= count;
        if count == 0 {
            return Err(Error::from(ErrorKind::StorageFull));
        }
        self.taken.extend_from_slice(&buf[..count])?;
        Ok(count)
    }

    fn flush(&mut self) -> io::Result<()> {
        Ok(())
    }
}

/// How many line feeds there are in these bytes.
fn line_feeds(bytes: &[u8]) -> usize {
    bytes.iter().filter(|byte| **byte == b'\n').count()
}

/// The bytes of an input that a failing reader gave before its failing call.
pub(crate) fn read_before(input: &'static [u8], calls: usize) -> &'static [u8] {
    let count = input.len().min(calls.saturating_mul(STEP));
    &input[..count]
}

/// Of the texts that are due, those were written whole whose lines had ended in what was read.
pub(crate) fn expect_whole_texts(rt: &impl Abort, written: &[u8], texts: &[u8], read: &[u8]) {
    assert!(rt; texts.starts_with(written));
    assert!(rt; written.is_empty() || written.ends_with(b"\n"));
    assert_eq!(rt; line_feeds(written), line_feeds(read));
}
