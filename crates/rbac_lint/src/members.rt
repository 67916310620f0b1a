//! The members of a line's objects, with their places: each key as it stands there, also one that stands twice.

use json::{Reader, Scratch, Token};
use std::alloc::{AllocError, Global};

/// What stands at a key.
#[derive(Clone, Copy, Debug, Drop)]
pub(crate) enum Shown<'l> {
    Text(&'l str),
    Number(&'l str),
    Word,
    /// Which object it is, by the order in which they begin.
    Object(usize),
    Array,
}

impl Shown<'_> {
    /// What it is, as a person says it.
    pub(crate) fn words(self) -> &'static str {
        match self {
            Shown::Text(_) => "a text",
            Shown::Number(_) => "a number",
            Shown::Word => "true, false or null",
            Shown::Object(_) => "an object",
            Shown::Array => "an array",
        }
    }
}

/// A key of an object, and what stands there.
#[derive(Clone, Copy, Debug, Drop)]
pub(crate) struct Member<'l> {
    /// Which object it belongs to, by the order in which they begin: 0 for the line's own object.
    pub(crate) object: usize,
    pub(crate) key: &'l str,
    /// Where the key and the value begin, in bytes from 0.
    pub(crate) key_begin: usize,
    pub(crate) value_begin: usize,
    pub(crate) shown: Shown<'l>,
}

/// An element of an array of a member.
#[derive(Clone, Copy, Debug, Drop)]
pub(crate) struct Element<'l> {
    /// Which member it belongs to, counted from 0.
    pub(crate) member: usize,
    pub(crate) begin: usize,
    pub(crate) shown: Shown<'l>,
}

/// The members and elements of a line, in the order in which they stand there.
#[derive(Drop)]
pub(crate) struct Members<'l> {
    pub(crate) all: Vec<Member<'l>>,
    pub(crate) elements: Vec<Element<'l>>,
}

// What a token shows as a value, if it begins one: an object is the one of this number.
fn shown_of<'l>(token: Token<'l>, objects: usize) -> Option<Shown<'l>> {
    match token {
        Token::String(text) => Some(Shown::Text(text)),
        Token::Number(text) => Some(Shown::Number(text)),
        Token::Bool(_) | Token::Null => Some(Shown::Word),
        Token::BeginObject => Some(Shown::Object(objects)),
        Token::BeginArray => Some(Shown::Array),
        _ => None,
    }
}

impl<'l> Members<'l> {
    // A value: that of the key before it, or an element of the last member's array.
    fn put(&mut self, at_key: bool, begin: usize, shown: Shown<'l>) -> Result<(), AllocError> {
        if at_key {
            if let Some(last) = self.all.last_mut() {
                last.shown = shown;
                last.value_begin = begin;
            }
            return Ok(());
        }
        if let Some(member) = self.all.len().checked_sub(1) {
            self.elements.push(Element {
                member,
                begin,
                shown,
            })?;
        }
        Ok(())
    }
}

// Where the next token begins behind a byte of a line.
fn begin_behind(line: &str, offset: usize) -> usize {
    let behind = line.as_bytes().get(offset..).unwrap_or(b"");
    let between = behind
        .iter()
        .take_while(|byte| matches!(**byte, b' ' | b'\t' | b'\r' | b',' | b':'))
        .count();
    offset.saturating_add(between)
}

/// The members of a line that is JSON.
pub(crate) fn members_of<'l>(
    alloc: Global,
    line: &'l str,
    scratch: &'l mut Scratch<Global>,
) -> Result<Members<'l>, AllocError> {
    let mut reader = Reader::new(line, scratch)?;
    let mut members = Members {
        all: Vec::new(alloc),
        elements: Vec::new(alloc),
    };
    let mut around: Vec<usize> = Vec::new(alloc);
    let mut objects = 0usize;
    let mut at_key = false;
    let mut begin = begin_behind(line, 0);
    while let Some(token) = reader.next() {
        if let Some(shown) = shown_of(token, objects) {
            members.put(at_key, begin, shown)?;
        }
        at_key = false;
        match token {
            Token::Key(key) => {
                at_key = true;
                members.all.push(Member {
                    object: around.last().copied().unwrap_or(0),
                    key,
                    key_begin: begin,
                    value_begin: begin,
                    shown: Shown::Word,
                })?;
            }
            Token::BeginObject => {
                around.push(objects)?;
                objects = objects.saturating_add(1);
            }
            Token::EndObject => drop(around.pop()),
            _ => {}
        }
        begin = begin_behind(line, reader.offset());
    }
    Ok(members)
}
