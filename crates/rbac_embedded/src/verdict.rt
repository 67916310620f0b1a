//! What a check tells.
ghost use Rattle.std.specs.Prelude.{◌≡◌, IsTrue};
ghost use Rattle.sorted_keys.specs.Keys.{has};
ghost use Rattle.rbac_terms.specs.Name.{pair_cmp};
ghost use Rattle.rbac_terms.specs.Reviews.{session_permissions};
ghost use Rattle.rbac_embedded.specs.Calls.{verdict};

use rbac_decide::Policy;
use rbac_terms::{Denial, LentName};

/// What a check of three texts tells.
#[derive(Clone, Copy, Debug, PartialEq, Eq, Drop)]
pub enum Verdict {
    /// The session may perform the operation on the object.
    Granted,
    /// It may not.
    Refused,
    /// There is no such session, operation or object.
    Denied(Denial),
    /// One of the texts is no name.
    BadName,
}

/// Whether by this policy the session of this name may perform the operation on the object. It takes no memory.
pub fn check(policy: &Policy, session: &[u8], operation: &[u8], object: &[u8]) -> Verdict
    ensures told { result ≡ verdict session.now operation.now object.now policy.now }
    ensures listed { result ≡ Verdict.Granted → IsTrue (has pair_cmp (operation.now, object.now) (session_permissions policy.now session.now)) }
{
    let Some(session) = LentName::read(session) else {
        return Verdict::BadName;
    };
    let Some(operation) = LentName::read(operation) else {
        return Verdict::BadName;
    };
    let Some(object) = LentName::read(object) else {
        return Verdict::BadName;
    };
    match policy.check(&session, &operation, &object) {
        Ok(true) => Verdict::Granted,
        Ok(false) => Verdict::Refused,
        Err(denial) => Verdict::Denied(denial),
    }
}
