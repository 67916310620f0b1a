//! Where something stands in a text.

use crate::finding::{BEGIN, Place};

/// The byte order mark of UTF-8.
pub(crate) const MARK: &[u8] = b"\xEF\xBB\xBF";

/// The place of a byte of a text, counted from 0.
pub(crate) fn place_at(text: &[u8], offset: usize) -> Place {
    let before = match text.get(..offset) {
        Some(before) => before,
        None => text,
    };
    let feeds = before.iter().filter(|byte| **byte == b'\n').count();
    let behind = before
        .iter()
        .rev()
        .take_while(|byte| **byte != b'\n')
        .count();
    Place {
        line: (feeds as u64).saturating_add(1),
        column: (behind as u64).saturating_add(1),
    }
}

// The byte from which on a text has another one, at or after this one.
fn found_from(text: &[u8], sought: &[u8], from: usize) -> Option<usize> {
    let rest = text.get(from..)?;
    let at = rest
        .windows(sought.len().max(1))
        .position(|window| window == sought)?;
    from.checked_add(at)
}

// What a line has behind its blanks, and how many blanks these are.
fn behind_blanks(line: &[u8]) -> usize {
    line.iter()
        .take_while(|byte| **byte == b' ' || **byte == b'\t')
        .count()
}

// Whether a line of a TOML text is about this key: the key itself or between quotes, and then an equals sign; or a table of that name.
fn is_about(line: &[u8], key: &[u8]) -> bool {
    let Some(line) = line.get(behind_blanks(line)..) else {
        return false;
    };
    let bare = line
        .strip_prefix(b"\"")
        .or(line.strip_prefix(b"'"))
        .or(line.strip_prefix(b"[["))
        .or(line.strip_prefix(b"["))
        .unwrap_or(line);
    match bare.strip_prefix(key) {
        Some(rest) => match rest.first() {
            Some(next) => !next.is_ascii_alphanumeric() && *next != b'_' && *next != b'-',
            None => true,
        },
        None => false,
    }
}

/// The byte at which the line begins that is about a key of a TOML text, or none.
pub(crate) fn offset_of_key(text: &[u8], key: &[u8]) -> Option<usize> {
    let mut offset = 0usize;
    for line in text.split(|byte| *byte == b'\n') {
        if is_about(line, key) {
            return offset.checked_add(behind_blanks(line));
        }
        offset = offset.saturating_add(line.len()).saturating_add(1);
    }
    None
}

/// The place of a key of a TOML text, or its beginning.
pub(crate) fn place_of_key(text: &[u8], key: &[u8]) -> Place {
    match offset_of_key(text, key) {
        Some(offset) => place_at(text, offset),
        None => BEGIN,
    }
}

/// The place of a word of a TOML text behind a key, or that of the key.
pub(crate) fn place_of_word(text: &[u8], key: &[u8], word: &[u8]) -> Place {
    let Some(offset) = offset_of_key(text, key) else {
        return BEGIN;
    };
    match found_from(text, word, offset) {
        Some(found) => place_at(text, found),
        None => place_at(text, offset),
    }
}
