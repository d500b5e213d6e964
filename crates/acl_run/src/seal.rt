//! `seal`: makes a licence of a body and the seal key. The keys are read and checked before the body, and nothing is
//! written before the whole body was accepted.

ghost use Rattle.std.specs.Prelude.{◌≡◌, ◌+◌, IsTrue, IfSome};
ghost use Rattle.std.specs.Bool.{OnTrue};
ghost use Rattle.std.specs.Io.KnownBytes.{IsAtEnd};
ghost use Rattle.acl_outside.specs.Outside.{AreAllSettled};
ghost use Rattle.esis_lines.specs.DocumentAnswers.{TakesUpTo};
ghost use Rattle.acl_outcome.specs.Ends.{Object, end_of, is_fault_of};
ghost use Rattle.acl_words.specs.Command.{Command};
ghost use Rattle.acl_run.specs.Lengths.{WhereTooLong, WhereWithin, is_too_long};
ghost use Rattle.acl_run.specs.Objects.{LeavesSource, LeavesSink};
ghost use Rattle.acl_run.specs.Steps.{Follows};
ghost use Rattle.acl_run.specs.WrittenTexts.{WritesText, WhereWhole, due_out};
ghost use Rattle.acl_run.specs.Work.{steps_of, may_end, keys_limit, input_limit};
ghost use Rattle.acl_run.specs.Work.{is_after_keys, is_after_input, precedes_input, precedes_output};

use crate::readers::{read_keys, read_sealed};
use crate::writing::write_text;
use acl_outcome::Outcome;
use acl_outside::{Sink, Source};
use std::alloc::Global;

/// Reads the keys, then the body, and writes the licence: the seal and then the body.
#[tactic(auto, using(crate::proofs::SealSteps::steps))]
pub fn seal<K: Source, Q: Source, W: Sink>(
    alloc: Global,
    keys: &mut K,
    input: &mut Q,
    out: &mut W,
) -> Outcome
    ensures order { Follows
        (steps_of Command.seal (K.left keys.old) (Q.left input.old)) result }
    ensures ends { IsTrue (may_end Command.seal result) }
    ensures text { IfSome (K.left keys.old) (λ secret. IfSome (Q.left input.old) (λ body.
        WritesText (end_of result) (W.written out.old) (W.written out.new)
        (due_out Command.seal secret body))) }
    ensures settled { WhereWhole (end_of result)
        (AreAllSettled (W.settled out.new) (W.written out.new)) }
    ensures keys_end { WhereWhole (end_of result) (IsAtEnd (K.left keys.new)) }
    ensures input_end { WhereWhole (end_of result) (IsAtEnd (Q.left input.new)) }

    ensures keys_read { OnTrue (is_after_keys Command.seal (end_of result))
        (TakesUpTo (keys_limit Command.seal + 1) (K.left keys.old) (K.left keys.new)) }
    ensures input_read { OnTrue (is_after_input Command.seal (end_of result))
        (TakesUpTo (input_limit Command.seal + 1) (Q.left input.old) (Q.left input.new)) }
    ensures long_keys { WhereTooLong (keys_limit Command.seal) (K.left keys.old)
        ((input.new ≡ input.old) × (out.new ≡ out.old)) }
    ensures long_input { WhereWithin (keys_limit Command.seal) (K.left keys.old)
        (OnTrue (is_too_long (end_of result)) (IsAtEnd (K.left keys.new)
        × TakesUpTo (input_limit Command.seal + 1) (Q.left input.old) (Q.left input.new))) }
    ensures unread { OnTrue (precedes_input Command.seal (end_of result))
        (input.new ≡ input.old) }
    ensures unwritten { OnTrue (precedes_output Command.seal (end_of result))
        (out.new ≡ out.old) }
    ensures keys { LeavesSource K.left K.faults (is_fault_of Object.keys (end_of result))
        (keys_limit Command.seal) keys.old keys.new }
    ensures input { LeavesSource Q.left Q.faults (is_fault_of Object.input (end_of result))
        (input_limit Command.seal) input.old input.new }
    ensures out { LeavesSink W.written W.missed W.settled W.faults
        (is_fault_of Object.out (end_of result)) out.old out.new }
{
    let secret = match read_keys(alloc, keys) {
        Ok(secret) => secret,
        Err(outcome) => return outcome,
    };
    let text = match read_sealed(alloc, input, &secret.seal) {
        Ok(text) => text,
        Err(outcome) => return outcome,
    };
    match write_text(text.as_slice(), out) {
        Ok(()) => Outcome::Done,
        Err(_) => Outcome::SinkFault,
    }
}
