//! Texts in a caller's buffer.
ghost use Rattle.std.specs.Prelude.{◌≡◌, length};
ghost use Rattle.rbac_embedded.specs.Holding.{room_status, with_text};

use crate::status::Status;

/// Puts a text at the front of a buffer that has room for it.
fn put_text(text: &[u8], out: &mut [u8]) -> Status
    ensures status { result ≡ room_status text.now out.old }
    ensures buffer { out.new ≡ with_text text.now out.old }
{
    if out.len() < text.len() {
        return Status::ShortBuffer;
    }
    out[..text.len()].copy_from_slice(text);
    Status::Done
}

/// Puts a text there, and writes its length in each case.
pub fn tell(text: &[u8], out: &mut [u8], written: &mut usize) -> Status
    ensures status { result ≡ room_status text.now out.old }
    ensures buffer { out.new ≡ with_text text.now out.old }
    ensures length { written.new ≡ length text.now }
{
    *written = text.len();
    put_text(text, out)
}
