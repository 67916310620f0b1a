//! Reading a founding file of a stream.
ghost use Rattle.std.specs.Prelude.{◌≡◌, ◌≢◌, ◌+◌, IfOk, IfSome, Ok, Err, take};
ghost use Rattle.rbac_founding.specs.FoundingFile.{founding_of, longest_file};
ghost use Rattle.rbac_founding.specs.declared.refusal.FoundingRefusal.{FoundingRefusal as Refusal};

use crate::founding::Founding;
use crate::limits::LONGEST_FILE;
use crate::reading::read_founding;
use crate::refusal::{FoundingRefusal, StreamRefusal};
use std::alloc::Global;
use std::io;
use std::io::Read;

// The bytes of a file. Of one that is too long it is enough to have one byte more than it may have: no more is read.
fn bytes_of<R: Read + Drop>(alloc: Global, reader: R) -> io::Result<Vec<u8>>
    ensures { IfOk result (λ bytes. IfSome (R.remaining reader) (λ file. bytes.items ≡ take (longest_file + 1) file)) }
{
    let mut bytes = Vec::new(alloc);
    reader
        .take(LONGEST_FILE as u64 + 1)
        .read_to_end(&mut bytes)?;
    Ok(bytes)
}

/// Reads a founding file of a stream, as `read_founding` reads its bytes. Of a file that is too long it takes one byte more than a
/// file may have.
///
/// # Errors
/// `Unread` where the stream fails; else the file's first refusal, and `NoMemory` where memory ends.
pub fn read_founding_from<R: Read + Drop>(
    alloc: Global,
    reader: R,
) -> Result<Founding, StreamRefusal>
    ensures founding_read { IfOk result (λ founding. IfSome (R.remaining reader) (λ file. founding_of file ≡ Ok founding)) }
    ensures first_refusal { (refusal : Refusal) → result ≡ Err (StreamRefusal.Founding refusal) → refusal ≢ Refusal.NoMemory
        → IfSome (R.remaining reader) (λ file. founding_of file ≡ Err refusal) }
{
    match bytes_of(alloc, reader) {
        Ok(bytes) => Ok(read_founding(alloc, &bytes)?),
        Err(error) => Err(StreamRefusal::from(error)),
    }
}
