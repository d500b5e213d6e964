//! `encode`: writes the file of a document under the document key, and then its root as a note. The keys are read and
//! checked first, and then the document. The whole file is in memory before its first byte is written.

ghost use Rattle.std.specs.Prelude.{◌≡◌, ◌+◌, IsTrue, IfSome, OnOk};
ghost use Rattle.std.specs.Bool.{OnTrue};
ghost use Rattle.std.specs.Io.KnownBytes.{IsAtEnd};
ghost use Rattle.acl_outside.specs.Outside.{AreAllSettled};
ghost use Rattle.acl_outside.specs.WrittenText.{Writes};
ghost use Rattle.esis_lines.specs.DocumentAnswers.{TakesUpTo};
ghost use Rattle.acl_outcome.specs.Ends.{Object, end_of, is_fault_of};
ghost use Rattle.acl_words.specs.Command.{Command};
ghost use Rattle.acl_run.specs.Encode.{root_line};
ghost use Rattle.acl_run.specs.Lengths.{WhereTooLong, WhereWithin, is_too_long};
ghost use Rattle.acl_run.specs.Objects.{LeavesSource, LeavesSink};
ghost use Rattle.acl_run.specs.Steps.{Follows};
ghost use Rattle.acl_run.specs.WrittenTexts.{WritesText, WritesNote, WhereWhole, WhereDone, due_out, due_note};
ghost use Rattle.acl_run.specs.Work.{steps_of, may_end, keys_limit, input_limit};
ghost use Rattle.acl_run.specs.Work.{is_after_keys, is_after_input};
ghost use Rattle.acl_run.specs.Work.{precedes_input, precedes_output, precedes_note};
ghost use Rattle.acl_run.specs.inside.WritingSteps.{EndsNoting};

use crate::readers::{make_file, read_document, read_keys};
use crate::writing::write_text;
use acl_outcome::Outcome;
use acl_outside::{Failed, Sink, Source, finish, write_pieces};
use skip_encode::Encoded;
use std::alloc::Global;

/// Writes the line of a root, and has the sink settle all of it. It allocates nothing.
#[tactic(auto, unfolding(crate::specs::Encode::root_line))]
fn write_root<N: Sink>(root: &[u8; 32], note: &mut N) -> Result<(), Failed>
    ensures written { Writes N.written N.missed N.settled N.faults result
        note.old note.new (root_line root.now) }
    ensures settled { OnOk result (AreAllSettled (N.settled note.new) (N.written note.new)) }
{
    let mut digits = [0; 64];
    hex::encode_to_slice(root.as_slice(), &mut digits).unwrap();
    write_pieces(note, &[b"root ", &digits, b"\n"])?;
    finish(note)
}

/// Writes a file, and then the line of its root.
#[tactic(auto, using(crate::proofs::WritingLaws::notings))]
fn write_file<W: Sink, N: Sink>(encoded: &Encoded, out: &mut W, note: &mut N) -> Outcome
    ensures { EndsNoting W.written W.missed W.settled W.faults
        N.written N.missed N.settled N.faults result
        out.old out.new encoded.now.bytes note.old note.new (root_line encoded.now.root) }
{
    if write_text(encoded.bytes.as_slice(), out).is_err() {
        return Outcome::SinkFault;
    }
    match write_root(&encoded.root, note) {
        Ok(()) => Outcome::Done,
        Err(_) => Outcome::NoteFault,
    }
}

/// Reads the keys and then the document, makes its file, writes it, and then writes the line of its root.
#[tactic(auto, using(crate::proofs::EncodeSteps::steps))]
pub fn encode<K: Source, Q: Source, W: Sink, N: Sink>(
    alloc: Global,
    keys: &mut K,
    input: &mut Q,
    out: &mut W,
    note: &mut N,
) -> Outcome
    ensures order { Follows
        (steps_of Command.encode (K.left keys.old) (Q.left input.old)) result }
    ensures ends { IsTrue (may_end Command.encode result) }
    ensures text { IfSome (K.left keys.old) (λ secret. IfSome (Q.left input.old) (λ lines.
        WritesText (end_of result) (W.written out.old) (W.written out.new)
        (due_out Command.encode secret lines))) }
    ensures note_text { IfSome (K.left keys.old) (λ secret. IfSome (Q.left input.old) (λ lines.
        WritesNote (end_of result) (N.written note.old) (N.written note.new)
        (due_note Command.encode secret lines))) }
    ensures settled { WhereWhole (end_of result)
        (AreAllSettled (W.settled out.new) (W.written out.new)) }
    ensures note_settled { WhereDone (end_of result)
        (AreAllSettled (N.settled note.new) (N.written note.new)) }
    ensures keys_end { WhereWhole (end_of result) (IsAtEnd (K.left keys.new)) }
    ensures input_end { WhereWhole (end_of result) (IsAtEnd (Q.left input.new)) }

    ensures keys_read { OnTrue (is_after_keys Command.encode (end_of result))
        (TakesUpTo (keys_limit Command.encode + 1) (K.left keys.old) (K.left keys.new)) }
    ensures input_read { OnTrue (is_after_input Command.encode (end_of result))
        (TakesUpTo (input_limit Command.encode + 1) (Q.left input.old) (Q.left input.new)) }
    ensures long_keys { WhereTooLong (keys_limit Command.encode) (K.left keys.old)
        ((input.new ≡ input.old) × (out.new ≡ out.old) × (note.new ≡ note.old)) }
    ensures long_input { WhereWithin (keys_limit Command.encode) (K.left keys.old)
        (OnTrue (is_too_long (end_of result)) (IsAtEnd (K.left keys.new)
        × TakesUpTo (input_limit Command.encode + 1) (Q.left input.old) (Q.left input.new))) }
    ensures unread { OnTrue (precedes_input Command.encode (end_of result))
        (input.new ≡ input.old) }
    ensures unwritten { OnTrue (precedes_output Command.encode (end_of result))
        (out.new ≡ out.old) }
    ensures unnoted { OnTrue (precedes_note Command.encode (end_of result))
        (note.new ≡ note.old) }
    ensures keys { LeavesSource K.left K.faults (is_fault_of Object.keys (end_of result))
        (keys_limit Command.encode) keys.old keys.new }
    ensures input { LeavesSource Q.left Q.faults (is_fault_of Object.input (end_of result))
        (input_limit Command.encode) input.old input.new }
    ensures out { LeavesSink W.written W.missed W.settled W.faults
        (is_fault_of Object.out (end_of result)) out.old out.new }
    ensures note { LeavesSink N.written N.missed N.settled N.faults
        (is_fault_of Object.note (end_of result)) note.old note.new }
{
    let secret = match read_keys(alloc, keys) {
        Ok(secret) => secret,
        Err(outcome) => return outcome,
    };
    let doc = match read_document(alloc, input) {
        Ok(doc) => doc,
        Err(outcome) => return outcome,
    };
    let encoded = match make_file(alloc, &doc, secret.document) {
        Ok(encoded) => encoded,
        Err(outcome) => return outcome,
    };
    write_file(&encoded, out, note)
}
