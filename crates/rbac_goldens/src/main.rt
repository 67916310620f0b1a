//! Plays the goldens: each file of its data is a schedule with the answers that it must get, or a founding file with its
//! refusal, under a sentence that says what it shows. To add one is to add a file.
#![tactic(auto)]

mod golden;

use anyhow::{Context, Result, bail, ensure};
use golden::Golden;
use rbac_lines::{Founding, read_founding, run, sample_founding, watch};
use rbac_world::World;
use std::alloc::Global;
use std::fs;
use std::path::Path;
use std::rt::Files;

// The sample founding as a file of version 2, with the hierarchy that version 1 has.
const SAMPLE_OF_VERSION_2: &[u8] = b"version = 2
hierarchy = \"general\"
members = 1
operations = [\"approve\", \"pay\", \"read\"]
objects = [\"invoice\", \"ledger\"]
permissions = [[\"approve\", \"invoice\"], [\"pay\", \"invoice\"], [\"read\", \"ledger\"]]
";

// The founding that a file stands for.
fn founding_of(alloc: Global, file: &[u8]) -> Result<Founding> {
    match read_founding(alloc, file) {
        Ok(founding) => Ok(founding),
        Err(refusal) => bail!("its founding is refused: {}", refusal.word()),
    }
}

// Fails where a founding file is taken, or is refused by another word than this one, which a line feed ends.
fn check_refused(alloc: Global, file: &[u8], wanted: &[u8]) -> Result<()> {
    match read_founding(alloc, file) {
        Ok(_) => bail!("its founding is taken"),
        Err(refusal) => {
            ensure!(
                wanted.strip_suffix(b"\n") == Some(refusal.word().as_bytes()),
                "its founding is refused: {}",
                refusal.word()
            );
            Ok(())
        }
    }
}

// The output of the schedule of a golden on a founding.
fn output_of(alloc: Global, golden: &Golden, founding: Founding) -> Result<Vec<u8>> {
    let Founding { group, vocabulary } = founding;
    let mut world = World::found(alloc, group, vocabulary)?;
    let mut output = Vec::new(alloc);
    let ended = run(
        alloc,
        &mut watch(golden.input.as_slice()),
        &mut watch(&mut output),
        &mut world,
    );
    ensure!(ended.is_ok(), "the run ended early");
    Ok(output)
}

// Plays a golden on a founding, and fails where its output is another one than it says.
fn play_on<R: AllocGlobal + Eprint>(rt: &R, golden: &Golden, founding: Founding) -> Result<()> {
    let alloc = rt.alloc();
    let output = output_of(alloc, golden, founding)?;
    if output != golden.output {
        eprintln!(rt; "{}", String::from_utf8_lossy(alloc, &output)?)?;
        bail!("another output");
    }
    Ok(())
}

// Plays the golden of a file on its founding, or tries that founding's refusal. One without a founding of its own is
// played on the sample, and on the sample in version 2, which gives the same.
fn play<R: Files + AllocGlobal + Eprint>(rt: &R, path: Path<'_>) -> Result<()> {
    let alloc = rt.alloc();
    let text = fs::read_to_string(rt, path)?;
    let golden = Golden::read(alloc, &text)?;
    if !golden.refusal.is_empty() {
        return check_refused(alloc, &golden.founding, &golden.refusal);
    }
    if !golden.founding.is_empty() {
        return play_on(rt, &golden, founding_of(alloc, &golden.founding)?);
    }
    play_on(rt, &golden, sample_founding(alloc)?)?;
    play_on(rt, &golden, founding_of(alloc, SAMPLE_OF_VERSION_2)?)
}

fn main(rt: HostRuntime) -> Result<()> {
    let mut played = 0u64;
    for entry in fs::read_dir(&rt, ".")? {
        let entry = entry?;
        if entry.file_name().ends_with(".golden") {
            play(&rt, entry.path()).context(format_args!("{}", entry.file_name()))?;
            played = played.saturating_add(1);
        }
    }
    ensure!(played > 0, "there is no golden");
    println!(rt; "all goldens pass")?;
    Ok(())
}
