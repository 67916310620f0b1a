//! The texts of what reviews list: names, and permissions.
ghost use Rattle.std.specs.Prelude.{◌≡◌, ◌++◌, ⊤, OnOk};
ghost use Rattle.rbac_text.specs.Pieces.{in_quotes};
ghost use Rattle.rbac_text.specs.AnswerText.{permission_text, names_text, permissions_text, subjects_text};

use crate::arrays::{Element, put_array};
use rbac_terms::Name;
use std::alloc::AllocError;

impl Element for Name {
    ghost shown = { in_quotes };

    ghost Fits = { λ _. ⊤ };

    fn put(&self, text: &mut Vec<u8>) -> Result<(), AllocError> {
        text.extend_from_slice(b"\"")?;
        text.extend_from_slice(self.as_bytes())?;
        text.extend_from_slice(b"\"")
    }
}

impl Element for (Name, Name) {
    ghost shown = { permission_text };

    ghost Fits = { λ _. ⊤ };

    fn put(&self, text: &mut Vec<u8>) -> Result<(), AllocError> {
        text.extend_from_slice(b"[\"")?;
        text.extend_from_slice(self.0.as_bytes())?;
        text.extend_from_slice(b"\",\"")?;
        text.extend_from_slice(self.1.as_bytes())?;
        text.extend_from_slice(b"\"]")
    }
}

pub(crate) fn put_names(text: &mut Vec<u8>, names: &[Name]) -> Result<(), AllocError>
    ensures { OnOk result (text.new.items ≡ text.old.items ++ names_text names.now) }
{
    put_array(text, "{\"names\":", names)?;
    text.extend_from_slice(b"}")
}

pub(crate) fn put_permissions(
    text: &mut Vec<u8>,
    permissions: &[(Name, Name)],
) -> Result<(), AllocError>
    ensures { OnOk result (text.new.items ≡ text.old.items ++ permissions_text permissions.now) }
{
    put_array(text, "{\"permissions\":", permissions)?;
    text.extend_from_slice(b"}")
}

/// Who may perform an operation on an object, without a line feed: the sessions, and the users.
///
/// # Errors
/// `AllocError` where there is no memory for it.
pub fn put_subjects(text: &mut Vec<u8>, sessions: &[Name], users: &[Name]) -> Result<(), AllocError>
    ensures { OnOk result (text.new.items ≡ text.old.items ++ subjects_text sessions.now users.now) }
{
    put_array(text, "{\"sessions\":", sessions)?;
    put_array(text, ",\"users\":", users)?;
    text.extend_from_slice(b"}")
}
