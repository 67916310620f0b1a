//! The founding that the words name.
ghost use Rattle.std.specs.Prelude.{◌≡◌, IfOk, codes};
ghost use Rattle.rbac_founding.specs.declared.refusal.FoundingRefusal.{FoundingRefusal};
ghost use Rattle.rbac_founding.specs.Sample.{sample_group, sample_vocabulary};

use crate::fault::Fault;
use rbac_founding::{Founding, StreamRefusal, read_founding_from, sample_founding};
use std::fs;
use std::rt::Files;

// What it is that a file of this path is not read as a founding.
fn fault_of<'w>(path: &'w str, refusal: StreamRefusal) -> Fault<'w>
    ensures unread { refusal ≡ StreamRefusal.Unread → result ≡ Fault.File path.entry }
    ensures refused { (why : FoundingRefusal) → refusal ≡ StreamRefusal.Founding why → result ≡ Fault.Founding why }
{
    match refusal {
        StreamRefusal::Unread => Fault::File(path),
        StreamRefusal::Founding(why) => Fault::Founding(why),
    }
}

// The founding of a file.
fn read_file<T: Files + AllocGlobal>(rt: &T, path: &str) -> Result<Founding, StreamRefusal> {
    let file = fs::open(rt, path)?;
    read_founding_from(rt.alloc(), file)
}

/// The founding of this path, where `-` is the sample.
pub(crate) fn founding_of<'w, T: Files + AllocGlobal>(
    rt: &T,
    path: &'w str,
) -> Result<Founding, Fault<'w>>
    ensures sample_group { path.now ≡ codes "-" → IfOk result (λ founding. founding.group ≡ sample_group) }
    ensures sample_vocabulary { path.now ≡ codes "-" → IfOk result (λ founding. founding.vocabulary ≡ sample_vocabulary) }
{
    if path == "-" {
        return Ok(sample_founding(rt.alloc())?);
    }
    match read_file(rt, path) {
        Ok(founding) => Ok(founding),
        Err(refusal) => Err(fault_of(path, refusal)),
    }
}
