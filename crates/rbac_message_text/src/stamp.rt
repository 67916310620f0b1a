//! Stamps as texts.
ghost use Rattle.std.specs.Prelude.{◌≡◌, ◌++◌, OnOk};
ghost use Rattle.rbac_message_text.specs.StampText.{stamp_text};

use rbac_text::pieces::{put_number, put_piece};
use rbac_words::Stamp;
use std::alloc::AllocError;

/// A stamp behind its key. A place of 0 is left out.
///
/// # Errors
/// `AllocError` where there is no memory for it. The buffer may have a part of the text then.
pub fn put_stamp(text: &mut Vec<u8>, key: &str, stamp: Stamp) -> Result<(), AllocError>
    ensures { OnOk result (text.new.items ≡ text.old.items ++ key.now ++ stamp_text stamp) }
{
    put_piece(text, key)?;
    put_number(text, "[", stamp.clock)?;
    put_number(text, ",", u64::from(stamp.member))?;
    if stamp.place == 0 {
        return put_piece(text, "]");
    }
    put_number(text, ",", u64::from(stamp.place))?;
    put_piece(text, "]")
}
