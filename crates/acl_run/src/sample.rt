//! `sample`: writes the lines of the sample document, and then its numbers as a note. It reads nothing.

ghost use Rattle.std.specs.Prelude.{◌≡◌, ◌≤◌, [], IsTrue};
ghost use Rattle.std.specs.Bool.{OnTrue};
ghost use Rattle.acl_outside.specs.Outside.{AreAllSettled};
ghost use Rattle.acl_outcome.specs.Ends.{Object, end_of, is_fault_of};
ghost use Rattle.acl_words.specs.Command.{Command};
ghost use Rattle.acl_run.specs.Objects.{LeavesSink};
ghost use Rattle.acl_run.specs.Steps.{Follows};
ghost use Rattle.acl_run.specs.WrittenTexts.{WritesText, WritesNote, WhereWhole, WhereDone, due_out, due_note};
ghost use Rattle.acl_run.specs.Work.{steps_of, may_end, precedes_output, precedes_note};

use crate::writing::{write_document, write_text};
use acl_outcome::Outcome;
use acl_outside::Sink;
use sample_maker::{hospital, sample_line};
use std::alloc::Global;

/// Makes the sample document with this number of folders, writes its lines, and then writes the note.
#[tactic(auto, using(crate::proofs::SampleSteps::steps))]
pub fn sample<W: Sink, N: Sink>(alloc: Global, size: u32, out: &mut W, note: &mut N) -> Outcome
    requires least { 1 ≤ size }
    requires most { size ≤ 20000 }
    ensures order { Follows (steps_of (Command.sample size) (Some []) (Some [])) result }
    ensures ends { IsTrue (may_end (Command.sample size) result) }
    ensures text { WritesText (end_of result) (W.written out.old) (W.written out.new)
        (due_out (Command.sample size) [] []) }
    ensures note_text { WritesNote (end_of result) (N.written note.old) (N.written note.new)
        (due_note (Command.sample size) [] []) }
    ensures settled { WhereWhole (end_of result)
        (AreAllSettled (W.settled out.new) (W.written out.new)) }
    ensures note_settled { WhereDone (end_of result)
        (AreAllSettled (N.settled note.new) (N.written note.new)) }
    ensures unwritten { OnTrue (precedes_output (Command.sample size) (end_of result))
        (out.new ≡ out.old) }
    ensures unnoted { OnTrue (precedes_note (Command.sample size) (end_of result))
        (note.new ≡ note.old) }
    ensures out { LeavesSink W.written W.missed W.settled W.faults
        (is_fault_of Object.out (end_of result)) out.old out.new }
    ensures note { LeavesSink N.written N.missed N.settled N.faults
        (is_fault_of Object.note (end_of result)) note.old note.new }
{
    let Ok(doc) = hospital(alloc, size) else {
        return Outcome::NoMemory;
    };
    let Ok(line) = sample_line(alloc, size, &doc) else {
        return Outcome::NoMemory;
    };
    if write_document(&doc, out).is_err() {
        return Outcome::SinkFault;
    }
    match write_text(line.as_slice(), note) {
        Ok(()) => Outcome::Done,
        Err(_) => Outcome::NoteFault,
    }
}
