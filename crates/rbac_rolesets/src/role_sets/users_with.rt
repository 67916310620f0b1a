//! The users of one role: one walk over UA, in which a pair's user is looked for only where its role is the one.
ghost use Rattle.std.specs.Prelude.{◌≡◌, IfOk, filter};
ghost use Rattle.std.specs.List.Sorted.{IsStrictlySortedBy};
ghost use Rattle.std.specs.Ordering.{is_lt};
ghost use Rattle.sorted_keys.specs.Keys.{has};
ghost use Rattle.rbac_terms.specs.Name.{name_cmp, pair_cmp};
ghost use Rattle.rbac_terms.specs.Relations.{users_of};

use rbac_terms::Name;
use sorted_keys::Duplicate;
use std::alloc::{AllocError, Global};
use std::cmp::Ordering;

// What looking for a user among sorted ones came to.
#[derive(Drop)]
struct Sought<'a> {
    is_there: bool,
    // the users after it
    later: &'a [Name],
}

// Looks for a user, from the first one on.
fn seek<'a>(users: &'a [Name], user: &Name) -> Sought<'a>
    requires { IsStrictlySortedBy name_cmp users.now }
    ensures is_there { result.is_there ≡ has name_cmp user.now users.now }
    ensures later { result.later.now ≡ filter (λ other. is_lt (name_cmp user.now other)) users.now }
{
    for (at, other) in users.iter().enumerate() {
        match user.cmp(other) {
            Ordering::Less => {
                return Sought {
                    is_there: false,
                    later: &users[at..],
                };
            }
            Ordering::Equal => {
                return Sought {
                    is_there: true,
                    later: &users[at + 1..],
                };
            }
            Ordering::Greater => {}
        }
    }
    Sought {
        is_there: false,
        later: &users[users.len()..],
    }
}

/// Copies of the users of whom a pair has the role, in the same order.
pub(super) fn users_with(
    alloc: Global,
    users: &[Name],
    pairs: &[(Name, Name)],
    role: &Name,
) -> Result<Vec<Name>, AllocError>
    requires users { IsStrictlySortedBy name_cmp users.now }
    requires pairs { IsStrictlySortedBy pair_cmp pairs.now }
    ensures { IfOk result (λ found. found.items ≡ users_of role.now users.now pairs.now) }
{
    let mut found = Vec::with_capacity(alloc, users.len().min(pairs.len()))?;
    let mut ahead = users;
    for pair in pairs {
        if role.cmp(&pair.1).is_eq() {
            let sought = seek(ahead, &pair.0);
            ahead = sought.later;
            if sought.is_there {
                found.push(pair.0.duplicate()?)?;
            }
        }
    }
    found.shrink_to_fit();
    Ok(found)
}
