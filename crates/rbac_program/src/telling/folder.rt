//! A policy written into a folder, with its founding and the checksums of both: whole, or not at all.

use crate::fault::Fault;
use crate::telling::question::tell;
use crate::words::{Lines, Question};
use hex::encode;
use rbac_lines::RunFault;
use sha2::{Digest, Sha256};
use std::alloc::{AllocError, Global};
use std::fs::OpenFile;
use std::io::{ErrorKind, Read, Write};
use std::rt::Files;
use std::{fs, io};

/// The text of the sample founding.
const SAMPLE: &str = "\
version = 1
members = 1
operations = [\"approve\", \"pay\", \"read\"]
objects = [\"invoice\", \"ledger\"]
permissions = [[\"approve\", \"invoice\"], [\"pay\", \"invoice\"], [\"read\", \"ledger\"]]
";

/// The texts of the files of a folder.
#[derive(Drop)]
struct Texts {
    founding: Vec<u8>,
    commands: Vec<u8>,
    sums: Vec<u8>,
}

// A line of checksums, as sha256sum prints and reads it.
fn put_sum(sums: &mut Vec<u8>, alloc: Global, text: &[u8], name: &str) -> Result<(), AllocError> {
    let digest = Sha256::digest(text);
    let shown = encode(alloc, digest)?;
    sums.extend_from_slice(shown.as_bytes())?;
    sums.extend_from_slice(b"  ")?;
    sums.extend_from_slice(name.as_bytes())?;
    sums.extend_from_slice(b"\n")
}

// The checksums of the files.
fn sums_of(alloc: Global, founding: &[u8], commands: &[u8]) -> Result<Vec<u8>, AllocError> {
    let mut sums = Vec::new(alloc);
    put_sum(&mut sums, alloc, commands, "commands.jsonl")?;
    put_sum(&mut sums, alloc, founding, "founding.toml")?;
    Ok(sums)
}

// The text of a founding file that was read before.
fn founding_text<'w, T: Files + AllocGlobal>(rt: &T, path: &'w str) -> Result<Vec<u8>, Fault<'w>> {
    if path != "-" {
        return match fs::read(rt, path) {
            Ok(text) => Ok(text),
            Err(_) => Err(Fault::File(path)),
        };
    }
    match SAMPLE.as_bytes().to_vec(rt.alloc()) {
        Ok(text) => Ok(text),
        Err(_) => Err(Fault::Run(RunFault::NoMemory)),
    }
}

// A file of a folder, which is on the disk then.
fn write_file<T: Files + AllocGlobal>(
    rt: &T,
    folder: &str,
    name: &str,
    text: &[u8],
) -> io::Result<()> {
    let path = format!(in rt.alloc(); "{folder}/{name}")?;
    let mut file = fs::create(rt, path.as_str())?;
    file.write_all(text)?;
    file.sync_all()
}

// A folder with its files, which are on the disk then.
fn write_files<T: Files + AllocGlobal>(rt: &T, folder: &str, texts: &Texts) -> io::Result<()> {
    fs::create_dir(rt, folder)?;
    write_file(rt, folder, "founding.toml", &texts.founding)?;
    write_file(rt, folder, "commands.jsonl", &texts.commands)?;
    write_file(rt, folder, "SHA256SUMS", &texts.sums)?;
    fs::open(rt, folder)?.sync_all()
}

// The folder that another one lies in.
fn parent_of(folder: &str) -> &str {
    match folder.rsplit_once('/') {
        Some(("", _)) => "/",
        Some((parent, _)) => parent,
        None => ".",
    }
}

// The folder is written under another name, and gets its own once all of it is on the disk. What an earlier call left under that name,
// which was ended before, goes.
fn write_whole_folder<T: Files + AllocGlobal>(
    rt: &T,
    folder: &str,
    texts: &Texts,
) -> io::Result<()> {
    if fs::exists(rt, folder)? {
        return Err(io::Error::from(ErrorKind::AlreadyExists));
    }
    let partial = format!(in rt.alloc(); "{folder}.partial")?;
    let _ = fs::remove_dir_all(rt, partial.as_str());
    let written = write_files(rt, partial.as_str(), texts);
    let renamed = written.and_then(|()| fs::rename(rt, partial.as_str(), folder));
    if renamed.is_err() {
        let _ = fs::remove_dir_all(rt, partial.as_str());
    }
    renamed?;
    fs::open(rt, parent_of(folder))?.sync_all()
}

/// Writes the policy that lines leave into a new folder: founding.toml, commands.jsonl with the client lines that make it, and
/// SHA256SUMS with the checksums of both. Where that fails there is no such folder.
pub(crate) fn dump_to<'w, T: Files + AllocGlobal, R: Read + Drop, E: Write>(
    rt: &T,
    lines: Lines<'w>,
    folder: &'w str,
    reader: R,
    errors: &mut E,
) -> Result<(), Fault<'w>> {
    let mut commands = Vec::new(rt.alloc());
    tell(rt, lines, Question::Dump, reader, &mut commands, errors)?;
    let founding = founding_text(rt, lines.founding)?;
    let Ok(sums) = sums_of(rt.alloc(), &founding, &commands) else {
        return Err(Fault::Run(RunFault::NoMemory));
    };
    let texts = Texts {
        founding,
        commands,
        sums,
    };
    match write_whole_folder(rt, folder.trim_end_matches('/'), &texts) {
        Ok(()) => Ok(()),
        Err(_) => Err(Fault::File(folder)),
    }
}
