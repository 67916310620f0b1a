//! What was found, and where.
ghost use Rattle.std.specs.Prelude.{◌≡◌, ◌≢◌, ◌+◌, ◌++◌, [], length, IsTrue, IfOk, IfSome, OnOk};
ghost use Rattle.std.specs.List.{flat_map};
ghost use Rattle.rbac_lint.specs.Findings.{AreWarnings, finding_text, front_text, weight_word};

use std::alloc::{AllocError, Global};
use std::fmt::Display;
use std::io::Write;

/// Where something stands: a line, and a byte of it, both counted from 1.
#[derive(Clone, Copy, Debug, PartialEq, Eq, Drop)]
pub struct Place {
    pub line: u64,
    pub column: u64,
}

/// Where a text begins.
pub(crate) const BEGIN: Place = Place { line: 1, column: 1 };

/// Something to look at: a fault, which is why a file or a line is refused, or a warning.
#[derive(Drop)]
pub struct Finding {
    pub place: Place,
    pub is_warning: bool,
    /// A sentence for people, with no line feed.
    pub text: Vec<u8>,
}

/// Puts a text behind what the buffer has.
pub(crate) fn put<D: Display + Drop>(text: &mut Vec<u8>, shown: D) -> Result<(), AllocError>
    ensures { OnOk result (IfSome (D.output shown) (λ own. text.new.items ≡ text.old.items ++ own)) }
{
    text.write_fmt(shown).map_err(|_| AllocError)
}

// One finding more.
fn add<D: Display + Drop>(
    alloc: Global,
    findings: &mut Vec<Finding>,
    place: Place,
    is_warning: bool,
    shown: D,
) -> Result<(), AllocError>
    ensures found { OnOk result (findings.new.items ≢ []) }
    ensures counted { OnOk result (length findings.new.items ≡ length findings.old.items + 1) }
    ensures warned { OnOk result (IsTrue is_warning → AreWarnings findings.old.items → AreWarnings findings.new.items) }
{
    let mut text = Vec::new(alloc);
    put(&mut text, shown)?;
    findings.push(Finding {
        place,
        is_warning,
        text,
    })?;
    Ok(())
}

/// A fault more.
pub(crate) fn fault<D: Display + Drop>(
    alloc: Global,
    findings: &mut Vec<Finding>,
    place: Place,
    shown: D,
) -> Result<(), AllocError>
    ensures { OnOk result (findings.new.items ≢ []) }
{
    add(alloc, findings, place, false, shown)
}

/// A warning more.
pub(crate) fn warn<D: Display + Drop>(
    alloc: Global,
    findings: &mut Vec<Finding>,
    place: Place,
    shown: D,
) -> Result<(), AllocError>
    ensures found { OnOk result (findings.new.items ≢ []) }
    ensures counted { OnOk result (length findings.new.items ≡ length findings.old.items + 1) }
    ensures warned { OnOk result (AreWarnings findings.old.items → AreWarnings findings.new.items) }
{
    add(alloc, findings, place, true, shown)
}

/// A fault, where nothing else was found.
pub(crate) fn at_least<D: Display + Drop>(
    alloc: Global,
    findings: &mut Vec<Finding>,
    place: Place,
    shown: D,
) -> Result<(), AllocError>
    ensures { OnOk result (findings.new.items ≢ []) }
{
    if findings.is_empty() {
        fault(alloc, findings, place, shown)?;
    }
    Ok(())
}

// How much a finding weighs.
fn weight_of(is_warning: bool) -> &'static str
    ensures { result.now ≡ weight_word is_warning }
{
    match is_warning {
        true => "warning",
        false => "fault",
    }
}

// Where a finding stands and how much it weighs, behind what the buffer has.
fn put_front(text: &mut Vec<u8>, path: &str, finding: &Finding) -> Result<(), AllocError>
    ensures { OnOk result (text.new.items ≡ text.old.items ++ front_text path.now finding.now) }
{
    let Place { line, column } = finding.place;
    let weight = weight_of(finding.is_warning);
    put(text, format_args!("{path}:{line}:{column}: {weight}: "))
}

// A finding's line, behind what the buffer has.
fn put_finding(text: &mut Vec<u8>, path: &str, finding: &Finding) -> Result<(), AllocError>
    ensures { OnOk result (text.new.items ≡ text.old.items ++ finding_text path.now finding.now) }
{
    put_front(text, path, finding)?;
    text.extend_from_slice(&finding.text)?;
    text.extend_from_slice(b"\n")
}

/// The lines of findings of a file, as compilers print them: its path, the line, the column, and the sentence.
///
/// # Errors
/// `AllocError` where there is no memory for it.
pub fn findings_text(alloc: Global, path: &str, findings: &[Finding]) -> Result<Vec<u8>, AllocError>
    ensures { IfOk result (λ text. text.items ≡ flat_map (finding_text path.now) findings.now) }
{
    let mut text = Vec::new(alloc);
    for finding in findings {
        put_finding(&mut text, path, finding)?;
    }
    Ok(text)
}
