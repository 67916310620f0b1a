//! A whole input taken by a member.
ghost use Rattle.std.specs.Prelude.{◌≡◌, ◌≤◌, true, false, ℕ, List, length, IfOk, IfSome, OnOk, Err};
ghost use Rattle.std.specs.Io.KnownBytes.{Appends, Consumes, IsAtEnd};
ghost use Rattle.line_engine.specs.Lines.{lines, lines_read};
ghost use Rattle.line_engine.specs.Output.{OutputOutcome};
ghost use Rattle.line_engine.specs.Runs.{is_read_fault, is_write_fault};
ghost use Rattle.line_engine.specs.Watched.{ended_of, failed_of, inner_of, reads_of};
ghost use Rattle.rbac_words.specs.Keeping.Member.{IsMember};
ghost use Rattle.rbac_lines.specs.Output.{most_reads};
ghost use Rattle.rbac_member_lines.specs.Output.{member_after, member_output, refused_lines, serving};

use crate::answering::Answering;
use line_engine::{RunFault, Summary, Watched, output_of_run, run_lines};
use rbac_lines::MOST_READS;
use rbac_member::Member;
use std::alloc::Global;
use std::io::{Read, Write};

/// Has a member take all lines of the reader, and writes each line's text right after its step. On Ok the input was read to its end, and
/// exactly its output was written. A fault says why the run ended early; the clause `outcome` says which lines were taken and what was
/// written by then. However it ends, the member keeps what members keep.
///
/// # Errors
/// `Read` where the reader fails, `Write` where the writer does, `TooManyReads` where the input has not ended after 268,435,456
/// reads, `NoMemory` where memory ends.
pub fn run_member<R: Read, W: Write>(
    alloc: Global,
    reader: &mut Watched<R>,
    writer: &mut Watched<W>,
    member: &mut Member,
) -> Result<Summary, RunFault>
    requires reader_sound { failed_of reader.old ≡ false }
    requires unread { reads_of reader.old ≡ 0 }
    requires writer_sound { failed_of writer.old ≡ false }
    ensures read_to_end { OnOk result (IsAtEnd (R.remaining (inner_of reader.new))) }
    ensures written { OnOk result (IfSome (R.remaining (inner_of reader.old))
        (λ input. Appends (W.contents (inner_of writer.old)) (W.contents (inner_of writer.new)) (member_output input member.old))) }
    ensures taken { OnOk result (IfSome (R.remaining (inner_of reader.old)) (λ input. member.new ≡ member_after input member.old)) }
    ensures counted { IfOk result (λ summary. IfSome (R.remaining (inner_of reader.old))
        (λ input. (summary.lines ≡ length (lines input)) × (summary.refused ≡ refused_lines input member.old))) }

    ensures kept { IsMember member.new }

    // What was read, and what of it was taken and written, at Ok and at each fault.
    ensures outcome { (input : List ℕ) × Consumes (R.remaining (inner_of reader.old)) (R.remaining (inner_of reader.new)) input
        × OutputOutcome serving member.old (W.contents (inner_of writer.old)) (lines_read (ended_of reader.new) input) member.new (W.contents (inner_of writer.new)) result }
    ensures ended { OnOk result (ended_of reader.new ≡ true) }
    ensures read_fault { result ≡ Err RunFault.Read → ended_of reader.new ≡ false }
    ensures too_many_reads { result ≡ Err RunFault.TooManyReads → (ended_of reader.new ≡ false) × (reads_of reader.new ≡ most_reads) }
    ensures reads { reads_of reader.new ≤ most_reads }
    ensures reader_failed { failed_of reader.new ≡ is_read_fault result }
    ensures writer_failed { failed_of writer.new ≡ is_write_fault result }
{
    output_of_run::<Answering>();
    let ended = run_lines::<Answering, R, W>(alloc, reader, writer, member, MOST_READS);
    member.invariants();
    ended
}
