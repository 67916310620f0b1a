//! The pieces of a text: what stands as it is, and numbers.
ghost use Rattle.std.specs.Prelude.{◌≡◌, ◌++◌, decimal, OnOk};

use itoa::Buffer;
use std::alloc::AllocError;

/// A piece as it is.
///
/// # Errors
/// `AllocError` where there is no memory for it.
pub fn put_piece(text: &mut Vec<u8>, piece: &str) -> Result<(), AllocError>
    ensures { OnOk result (text.new.items ≡ text.old.items ++ piece.now) }
{
    text.extend_from_slice(piece.as_bytes())
}

/// A number behind its key.
///
/// # Errors
/// `AllocError` where there is no memory for it.
pub fn put_number(text: &mut Vec<u8>, key: &str, number: u64) -> Result<(), AllocError>
    ensures { OnOk result (text.new.items ≡ text.old.items ++ key.now ++ decimal number) }
{
    let mut digits = Buffer::new();
    put_piece(text, key)?;
    put_piece(text, digits.format(number))
}
