//! What is wrong with the objects of a line.
ghost use Rattle.std.specs.Prelude.{◌≡◌, ◌≢◌, [], IsSome, OnOk};

use crate::expected::{CLIENT, COMMANDS, Field, Kind, WORDS, command_fields, line_fields, nearest};
use crate::finding::{Finding, Place, at_least, fault};
use crate::founding::is_name;
use crate::members::{Member, Members, Shown, members_of};
use crate::places::MARK;
use json::Scratch;
use rbac_lines::LineRefusal;
use serde_json::{Error, Value};
use std::alloc::{AllocError, Global};

/// The most bytes of a line.
const MOST_BYTES: usize = 65_536;

/// What kind of line is expected.
#[derive(Clone, Copy, Debug, PartialEq, Eq, Drop)]
pub(crate) enum LineKind {
    Client,
    Schedule,
}

/// A line that is looked at, and what was found so far.
#[derive(Drop)]
struct Look<'m, 't, 'f> {
    alloc: Global,
    number: u64,
    members: &'m Members<'t>,
    findings: &'f mut Vec<Finding>,
}

// The place of a byte of the line, counted from 0.
fn place_in(number: u64, offset: usize) -> Place {
    Place {
        line: number,
        column: (offset as u64).saturating_add(1),
    }
}

// Whether a text is a whole number up to 4294967295.
fn is_whole(text: &str) -> bool {
    text.bytes().all(|byte| byte.is_ascii_digit()) && text.parse::<u32>().is_ok()
}

impl<'m, 't> Look<'m, 't, '_> {
    // The members of an object with this key.
    fn last_at(&self, object: usize, key: &str) -> Option<&'m Member<'t>> {
        self.members
            .all
            .iter()
            .rev()
            .find(|member| member.object == object && member.key == key)
    }

    // Each key of an object that stands there twice.
    fn look_for_doubles(&mut self, object: usize) -> Result<(), AllocError> {
        let all = &self.members.all;
        for member in all.iter() {
            let is_later = |other: &&Member<'_>| {
                other.object == object
                    && other.key == member.key
                    && member.key_begin < other.key_begin
            };
            if member.object != object {
                continue;
            }
            if let Some(other) = all.iter().find(is_later) {
                let key = member.key;
                let place = place_in(self.number, other.key_begin);
                let told = format_args!(
                    "the key {key} stands twice in one object; the last one counts"
                );
                fault(self.alloc, self.findings, place, told)?;
            }
        }
        Ok(())
    }

    // A name, or a text that is none.
    fn look_at_name(&mut self, key: &str, text: &str, begin: usize) -> Result<(), AllocError> {
        if is_name(self.alloc, text)? {
            return Ok(());
        }
        let place = place_in(self.number, begin);
        let told = format_args!(
            "BadName: \"{text}\" at {key} is no name: 1 to 64 bytes of A-Z a-z 0-9 _ - and the full stop"
        );
        fault(self.alloc, self.findings, place, told)
    }

    // The elements of an array of names.
    fn look_at_names(&mut self, member: &Member<'_>) -> Result<(), AllocError> {
        let all = &self.members.all;
        let elements = &self.members.elements;
        for element in elements.iter() {
            let is_own = all
                .get(element.member)
                .is_some_and(|other| other.key_begin == member.key_begin);
            if !is_own {
                continue;
            }
            match element.shown {
                Shown::Text(text) => self.look_at_name(member.key, text, element.begin)?,
                other => {
                    let key = member.key;
                    let found = other.words();
                    let place = place_in(self.number, element.begin);
                    let told = format_args!("WrongKind: {key} has {found}; a name is expected");
                    fault(self.alloc, self.findings, place, told)?;
                }
            }
        }
        Ok(())
    }

    // What stands at a key of a command, which is to be of a kind.
    fn look_at_value(&mut self, member: &Member<'_>, kind: Kind) -> Result<(), AllocError> {
        match (kind, member.shown) {
            (Kind::Text, Shown::Text(_)) => Ok(()),
            (Kind::Whole, Shown::Number(text)) if is_whole(text) => Ok(()),
            (Kind::Name, Shown::Text(text)) => self.look_at_name(
                member.key,
                text,
                member.value_begin,
            ),
            (Kind::Names, Shown::Array) => self.look_at_names(member),
            (kind, shown) => {
                let key = member.key;
                let found = shown.words();
                let expected = kind.words();
                let place = place_in(self.number, member.value_begin);
                let told = format_args!("WrongKind: {key} is {found}; {expected} is expected");
                fault(self.alloc, self.findings, place, told)
            }
        }
    }

    // A key that does not belong to an object.
    fn look_at_extra(&mut self, member: &Member<'_>, fields: &[Field]) -> Result<(), AllocError> {
        let mut keys: Vec<&str> = Vec::new(self.alloc);
        for field in fields {
            keys.push(field.0)?;
        }
        let key = member.key;
        let place = place_in(self.number, member.key_begin);
        match nearest(self.alloc, key, &keys)? {
            Some(known) => {
                let told = format_args!(
                    "ExtraField: {key} does not belong here; did you mean {known}?"
                );
                fault(self.alloc, self.findings, place, told)
            }
            None => {
                let told = format_args!("ExtraField: {key} does not belong here");
                fault(self.alloc, self.findings, place, told)
            }
        }
    }

    // A field that is missing.
    fn look_at_missing(&mut self, key: &str, begin: usize) -> Result<(), AllocError> {
        let place = place_in(self.number, begin);
        let told = format_args!("MissingField: the key {key} is missing");
        fault(self.alloc, self.findings, place, told)
    }

    // The keys that do not belong to an object.
    fn look_at_extras(&mut self, object: usize, fields: &[Field]) -> Result<(), AllocError> {
        let all = &self.members.all;
        for member in all.iter() {
            let is_known = fields.iter().any(|field| field.0 == member.key);
            if member.object == object && !is_known {
                self.look_at_extra(member, fields)?;
            }
        }
        Ok(())
    }

    // The fields of a command's object: what is missing, of another kind, or too much.
    fn look_at_fields(
        &mut self,
        object: usize,
        fields: &[Field],
        begin: usize,
    ) -> Result<(), AllocError> {
        for (key, kind) in fields {
            match self.last_at(object, key) {
                Some(member) => self.look_at_value(member, *kind)?,
                None => self.look_at_missing(key, begin)?,
            }
        }
        self.look_at_extras(object, fields)
    }

    // A word that stands for a kind of line or a command, and is not known.
    fn look_at_word(
        &mut self,
        member: &Member<'_>,
        word: &str,
        known: &[&str],
        what: &str,
    ) -> Result<(), AllocError> {
        let place = place_in(self.number, member.value_begin);
        match nearest(self.alloc, word, known)? {
            Some(other) => {
                let told = format_args!(
                    "UnknownWord: \"{word}\" is no {what}; did you mean {other}?"
                );
                fault(self.alloc, self.findings, place, told)
            }
            None => {
                let told = format_args!("UnknownWord: \"{word}\" is no {what}");
                fault(self.alloc, self.findings, place, told)
            }
        }
    }

    // The object of a command.
    fn look_at_command(&mut self, object: usize, begin: usize) -> Result<(), AllocError> {
        self.look_for_doubles(object)?;
        let Some(member) = self.last_at(object, "name") else {
            let place = place_in(self.number, begin);
            let told = "MissingField: the key name, the command's, is missing";
            return fault(self.alloc, self.findings, place, told);
        };
        let Shown::Text(word) = member.shown else {
            return self.look_at_value(member, Kind::Text);
        };
        match command_fields(word) {
            Some(fields) => self.look_at_fields(object, fields, begin),
            None => self.look_at_word(member, word, COMMANDS, "command"),
        }
    }

    // The objects of an array of commands.
    fn look_at_commands(&mut self, member: &Member<'_>) -> Result<(), AllocError> {
        let all = &self.members.all;
        let elements = &self.members.elements;
        for element in elements.iter() {
            let is_own = all
                .get(element.member)
                .is_some_and(|other| other.key_begin == member.key_begin);
            if let Shown::Object(object) = element.shown {
                if is_own || member.key_begin < element.begin {
                    self.look_at_command(object, element.begin)?;
                }
            }
        }
        Ok(())
    }

    // What stands at a key of a line, where commands may stand too.
    fn look_at_line_value(&mut self, member: &Member<'_>, kind: Kind) -> Result<(), AllocError> {
        match (kind, member.shown) {
            (Kind::Commands, Shown::Array) => self.look_at_commands(member),
            (Kind::Command, Shown::Object(object)) => self.look_at_command(
                object,
                member.value_begin,
            ),
            _ => self.look_at_value(member, kind),
        }
    }

    // The fields of a line: what is missing, of another kind, or too much.
    fn look_at_line_fields(&mut self, fields: &[Field]) -> Result<(), AllocError> {
        for (key, kind) in fields {
            match self.last_at(0, key) {
                Some(member) => self.look_at_line_value(member, *kind)?,
                None => self.look_at_missing(key, 0)?,
            }
        }
        self.look_at_extras(0, fields)
    }

    // A client line.
    fn look_at_client(&mut self) -> Result<(), AllocError> {
        if self.last_at(0, "do").is_some() {
            let place = place_in(self.number, 0);
            let told = "a line of a schedule, and no client line: read it without --serve";
            return fault(self.alloc, self.findings, place, told);
        }
        self.look_at_line_fields(CLIENT)
    }

    // A line of a schedule.
    fn look_at_schedule(&mut self) -> Result<(), AllocError> {
        let Some(member) = self.last_at(0, "do") else {
            let place = place_in(self.number, 0);
            let told = "MissingField: the key do is missing; a client line is read with --serve";
            return fault(self.alloc, self.findings, place, told);
        };
        let Shown::Text(word) = member.shown else {
            return self.look_at_value(member, Kind::Text);
        };
        match line_fields(word) {
            Some(fields) => self.look_at_line_fields(fields),
            None => self.look_at_word(member, word, WORDS, "word of a schedule"),
        }
    }
}

// What is wrong with a line that has these members.
fn look_among(
    alloc: Global,
    kind: LineKind,
    number: u64,
    members: &Members<'_>,
    findings: &mut Vec<Finding>,
) -> Result<(), AllocError> {
    let mut looking = Look {
        alloc,
        number,
        members,
        findings,
    };
    looking.look_for_doubles(0)?;
    match kind {
        LineKind::Client => looking.look_at_client(),
        LineKind::Schedule => looking.look_at_schedule(),
    }
}

// What is wrong with a line of JSON.
fn look_at_json(
    alloc: Global,
    kind: LineKind,
    number: u64,
    text: &str,
    findings: &mut Vec<Finding>,
) -> Result<(), AllocError> {
    let mut scratch = Scratch::new(alloc);
    let members = members_of(alloc, text, &mut scratch)?;
    look_among(alloc, kind, number, &members, findings)
}

// What is told of a fault, without the place that the reader tells.
fn without_place(told: &str) -> &str {
    match told.split_once(" at line ") {
        Some((front, _)) => front,
        None => told,
    }
}

// What is told of a line that is no JSON.
fn json_fault(alloc: Global, error: &Error) -> Result<String, AllocError> {
    let shown = format!(in alloc; "{error}")?;
    String::from_str(alloc, without_place(shown.as_str()))
}

// What is wrong with a line as a text.
fn look_at_text(
    alloc: Global,
    kind: LineKind,
    number: u64,
    line: &[u8],
    findings: &mut Vec<Finding>,
) -> Result<(), AllocError> {
    if MOST_BYTES < line.len() {
        let place = place_in(number, MOST_BYTES);
        return fault(
            alloc,
            findings,
            place,
            "TooLong: the line has more than 65536 bytes",
        );
    }
    if line.starts_with(MARK) {
        let place = place_in(number, 0);
        return fault(
            alloc,
            findings,
            place,
            "NotJson: the line begins with a byte order mark",
        );
    }
    let Ok(text) = std::str::from_utf8(line) else {
        let place = place_in(number, 0);
        return fault(alloc, findings, place, "NotJson: the line is no UTF-8");
    };
    match Value::from_str(alloc, text) {
        Ok(value) => {
            let is_object = value.is_object();
            drop(value);
            if is_object {
                return look_at_json(alloc, kind, number, text, findings);
            }
            let place = place_in(number, 0);
            fault(alloc, findings, place, "NotObject: the line is no object")
        }
        Err(error) if error.is_memory() => Err(AllocError),
        Err(error) => {
            let place = place_in(number, error.column().saturating_sub(1));
            let told = json_fault(alloc, &error)?;
            fault(
                alloc,
                findings,
                place,
                format_args!("NotJson: {}", told.as_str()),
            )
        }
    }
}

/// What is wrong with a line, which was read, or refused by this word. Something is found of each line that is refused.
pub(crate) fn lint_line(
    alloc: Global,
    kind: LineKind,
    number: u64,
    line: &[u8],
    refused: Option<LineRefusal>,
    findings: &mut Vec<Finding>,
) -> Result<(), AllocError>
    ensures { OnOk result (IsSome refused → findings.new.items ≢ []) }
{
    look_at_text(alloc, kind, number, line, findings)?;
    if let Some(refusal) = refused {
        let word = refusal.word();
        let place = place_in(number, 0);
        at_least(
            alloc,
            findings,
            place,
            format_args!("{word}: the line is refused"),
        )?;
    }
    Ok(())
}
