//! What a policy lets pass that its maker may not have meant.
ghost use Rattle.std.specs.Prelude.{◌≡◌, ◌+◌, count_by, if◌then◌else◌, length, IfOk, OnOk};
ghost use Rattle.rbac_terms.specs.Separation.{is_broken};
ghost use Rattle.rbac_lint.specs.Findings.{AreWarnings};
ghost use Rattle.rbac_lint.specs.Passing.{passes_by, passing_count};

use crate::finding::{BEGIN, Finding, put, warn};
use rbac_decide::{Policy, RoleSet};
use rbac_reasons::juniors;
use rbac_terms::{Name, NameSet, Separation};
use std::alloc::{AllocError, Global};

// The roles of a set that are among these.
fn common(alloc: Global, set: &RoleSet, roles: &NameSet) -> Result<Vec<u8>, AllocError> {
    let mut text = Vec::new(alloc);
    for role in set.roles.names() {
        if roles.contains(role) {
            put(&mut text, " ")?;
            text.extend_from_slice(role.as_bytes())?;
        }
    }
    Ok(text)
}

// Whether as many roles of a set are among these as no session may have active.
fn has_too_many(set: &RoleSet, roles: &NameSet) -> bool
    ensures { result ≡ is_broken roles.now set.now }
{
    let count = set
        .roles
        .names()
        .iter()
        .filter(|role| roles.contains(role))
        .count();
    set.cardinality as usize <= count
}

// The bytes of a name as a text.
fn shown(name: &[u8]) -> &str {
    std::str::from_utf8(name).unwrap_or("")
}

// A role by which a session has what a dynamic set is to keep apart.
fn lint_role(
    alloc: Global,
    entry: &(Name, RoleSet),
    role: &Name,
    inherited: &NameSet,
    findings: &mut Vec<Finding>,
) -> Result<(), AllocError>
    ensures warned { OnOk result (AreWarnings findings.old.items → AreWarnings findings.new.items) }
    ensures counted { OnOk result (length findings.new.items ≡ length findings.old.items + (if is_broken inherited.now entry.now.1 then 1 else 0)) }
{
    if !has_too_many(&entry.1, inherited) {
        return Ok(());
    }
    let roles = common(alloc, &entry.1, inherited)?;
    let set = shown(entry.0.as_bytes());
    let senior = shown(role.as_bytes());
    let listed = shown(&roles);
    let told = format_args!(
        "dynamic set {set} counts active roles alone: a session in which {senior} is active may do what these of its roles may:{listed}"
    );
    warn(alloc, findings, BEGIN, told)
}

// The sets of these that a role passes by, which inherits these roles.
fn lint_sets(
    alloc: Global,
    entries: &[(Name, RoleSet)],
    role: &Name,
    inherited: &NameSet,
    findings: &mut Vec<Finding>,
) -> Result<(), AllocError>
    ensures warned { OnOk result (AreWarnings findings.old.items → AreWarnings findings.new.items) }
    ensures counted { OnOk result (length findings.new.items ≡ length findings.old.items + count_by (λ e. is_broken inherited.now e.1) entries.now) }
{
    for entry in entries {
        lint_role(alloc, entry, role, inherited, findings)?;
    }
    Ok(())
}

// The dynamic sets that a role passes by.
fn lint_dynamic_sets(
    alloc: Global,
    policy: &Policy,
    role: &Name,
    findings: &mut Vec<Finding>,
) -> Result<(), AllocError>
    ensures warned { OnOk result (AreWarnings findings.old.items → AreWarnings findings.new.items) }
    ensures counted { OnOk result (length findings.new.items ≡ length findings.old.items + count_by (passes_by policy.now role.now) policy.now.dynamic_sets) }
{
    let inherited = juniors(alloc, policy, role)?;
    let sets = policy.separation_sets(Separation::Dynamic);
    lint_sets(alloc, sets, role, &inherited, findings)
}

/// Warns of each dynamic set that a role passes by: it inherits as many of the set's roles as no session may have active, and a session
/// in which it is active, which counts as one role at most, may do what they may. There is one warning for each such role and set.
///
/// # Errors
/// `AllocError` where there is no memory for it.
pub fn lint_policy(alloc: Global, policy: &Policy) -> Result<Vec<Finding>, AllocError>
    ensures warned { IfOk result (λ findings. AreWarnings findings.items) }
    ensures counted { IfOk result (λ findings. length findings.items ≡ passing_count policy.now) }
{
    let mut findings = Vec::new(alloc);
    for role in policy.roles() {
        lint_dynamic_sets(alloc, policy, role, &mut findings)?;
    }
    Ok(findings)
}
