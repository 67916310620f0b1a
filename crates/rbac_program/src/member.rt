//! One member of a founding, by lines.
ghost use Rattle.std.specs.Prelude.{◌≡◌, false, IfSome, OnOk};
ghost use Rattle.std.specs.Io.KnownBytes.{Appends};
ghost use Rattle.line_engine.specs.Watched.{failed_of, inner_of};
ghost use Rattle.rbac_member_lines.specs.Output.{member_output};

use crate::fault::Fault;
use crate::founding_file::founding_of;
use crate::words::OneMember;
use rbac_founding::Founding;
use rbac_lines::{Watched, watch};
use rbac_member::Member;
use rbac_member_lines::run_member;
use std::alloc::Global;
use std::io::{Read, Write};
use std::rt::Files;

// The member of this number of a founding, with nothing sent, received or delivered.
fn found<'w>(alloc: Global, founding: Founding, number: &'w str) -> Result<Member, Fault<'w>> {
    let Founding { group, vocabulary } = founding;
    let Ok(place) = number.parse::<u32>() else {
        drop(vocabulary);
        return Err(Fault::NoMember(number));
    };
    match Member::found(alloc, group, place, vocabulary) {
        Ok(member) => Ok(member),
        Err(_) => Err(Fault::NoMember(number)),
    }
}

// Has the member take all lines of the reader.
fn take_lines<'w, R: Read + Drop, W: Write>(
    alloc: Global,
    mut member: Member,
    reader: R,
    writer: &mut Watched<W>,
) -> Result<(), Fault<'w>>
    requires { failed_of writer.old ≡ false }
    ensures { OnOk result (IfSome (R.remaining reader) (λ input. Appends (W.contents (inner_of writer.old)) (W.contents (inner_of writer.new)) (member_output input member))) }
{
    let ended = run_member(alloc, &mut watch(reader), writer, &mut member);
    drop(member);
    let _summary = ended?;
    Ok(())
}

/// Founds one member of a founding, where `-` is the sample, and answers the reader's lines by it, each right after it was taken.
pub(crate) fn be_member<'w, T: Files + AllocGlobal, R: Read + Drop, W: Write>(
    rt: &T,
    asked: OneMember<'w>,
    reader: R,
    writer: &mut Watched<W>,
) -> Result<(), Fault<'w>>
    requires { failed_of writer.old ≡ false }
{
    let founding = founding_of(rt, asked.founding)?;
    let member = found(rt.alloc(), founding, asked.number)?;
    take_lines(rt.alloc(), member, reader, writer)
}
