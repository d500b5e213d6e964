//! `view` and `explain`: the view, the answer of a query or the explanation, under a sealed licence, of the document
//! whose file is in a store. The keys are read and checked first, then the licence and its seal, then the query, and
//! then the whole file. Only then the first byte is written.

ghost use Rattle.std.specs.Prelude.{◌≡◌, ◌+◌, IsTrue, IfSome};
ghost use Rattle.std.specs.Bool.{OnTrue};
ghost use Rattle.std.specs.Io.KnownBytes.{Appends, IsAtEnd};
ghost use Rattle.acl_outside.specs.Outside.{AppendsPart, AreAllSettled};
ghost use Rattle.esis_lines.specs.DocumentAnswers.{TakesUpTo};
ghost use Rattle.fragment_open.specs.Checked.{AllFoldUnlessRefused};
ghost use Rattle.fragment_open.specs.Served.{IsRegular};
ghost use Rattle.fragment_open.specs.CallReads.{Told};
ghost use Rattle.acl_outcome.specs.Ends.{Object, end_of, is_fault_of};
ghost use Rattle.acl_words.specs.Command.{Command};
ghost use Rattle.acl_run.specs.Headline.{HasServedCause, HasStoreCause, IsUnrefusedEnd, IsRefusedAsServed, IsRefusedAsShown};
ghost use Rattle.acl_run.specs.Headline.{EndsWithoutDocument, WritesShown};
ghost use Rattle.acl_run.specs.Headline.{OfEachDueText, OfHeldText, OfOpened};
ghost use Rattle.acl_run.specs.Lengths.{WhereTooLong, WhereWithin, is_too_long};
ghost use Rattle.acl_run.specs.Objects.{LeavesSource, LeavesSink, LeavesStore};
ghost use Rattle.acl_run.specs.Outcomes.{is_bad_fragment_outcome};
ghost use Rattle.acl_words.specs.inside.Request.{meant_shown};
ghost use Rattle.acl_run.specs.Steps.{Follows};
ghost use Rattle.acl_run.specs.WrittenTexts.{WhereWhole};
ghost use Rattle.acl_run.specs.Work.{steps_of, may_end, keys_limit, input_limit};
ghost use Rattle.acl_run.specs.Work.{is_after_keys, is_after_input, precedes_input, precedes_output, precedes_store};

use crate::preview::{read_wanted, show};
use crate::readers::{read_keys, read_sealed_licence, read_store};
use acl_outcome::Outcome;
use acl_outside::{Sink, Source, Store};
use acl_words::Shown;
use std::alloc::Global;

/// Reads the keys, then the licence, then the query, then the document in the store's file. Then writes what is to be
/// shown of it.
#[tactic(auto, using(crate::proofs::ViewSteps::steps))]
pub fn view<K: Source, Q: Source, S: Store, W: Sink>(
    alloc: Global,
    shown: Shown<'_>,
    keys: &mut K,
    input: &mut Q,
    store: &mut S,
    out: &mut W,
) -> Outcome
    ensures order { Follows (steps_of (Command.view (meant_shown shown.entry))
        (K.left keys.old) (Q.left input.old)) result }
    ensures ends { IsTrue (may_end (Command.view (meant_shown shown.entry)) result) }

    // Whatever the store contains: take any document whose file under the document key has the licence's
    // root. `out` grew by a prefix of the text that is due of it, and by all of it on Done. The exception is
    // a collision: a string in the reads and a different one in that file with one SHA-256 digest.
    ensures prefix { IfSome (K.left keys.old) (λ secret. IfSome (Q.left input.old) (λ sealed.
        Told (S.served store.old) (S.served store.new) (λ reads.
        OfEachDueText (Command.view (meant_shown shown.entry)) secret sealed reads (λ text.
        AppendsPart (W.written out.old) (W.written out.new) text)))) }
    ensures whole { IfSome (K.left keys.old) (λ secret. IfSome (Q.left input.old) (λ sealed.
        Told (S.served store.old) (S.served store.new) (λ reads.
        OfEachDueText (Command.view (meant_shown shown.entry)) secret sealed reads (λ text.
        WhereWhole (end_of result) (Appends (W.written out.old) (W.written out.new) text))))) }
    // A store that contains the file of a document with the licence's root is not refused. The whole text is
    // written, unless an object fails or memory runs out.
    ensures honest { IfSome (K.left keys.old) (λ secret. IfSome (Q.left input.old) (λ sealed.
        OfHeldText (Command.view (meant_shown shown.entry)) secret sealed (S.holds store.old) (λ text.
        IsUnrefusedEnd (end_of result)
        × WhereWhole (end_of result) (Appends (W.written out.old) (W.written out.new) text)))) }
    ensures regular { Told (S.served store.old) (S.served store.new) IsRegular }
    ensures cause { IfSome (K.left keys.old) (λ secret. IfSome (Q.left input.old) (λ sealed.
        Told (S.served store.old) (S.served store.new) (λ reads.
        OfOpened (Command.view (meant_shown shown.entry)) secret sealed (λ keys licence wanted.
        HasStoreCause result licence.root keys.document reads)))) }
    ensures refused { IfSome (K.left keys.old) (λ secret. IfSome (Q.left input.old) (λ sealed.
        Told (S.served store.old) (S.served store.new) (λ reads.
        OfOpened (Command.view (meant_shown shown.entry)) secret sealed (λ keys licence wanted.
        IsRefusedAsShown result licence.root keys.document reads)))) }
    // On Done the reads show a document, and `out` grew by the text that is due of it. Where they show
    // a file of no document, the outcome is BadIndex or NoMemory.
    ensures read { IfSome (K.left keys.old) (λ secret. IfSome (Q.left input.old) (λ sealed.
        Told (S.served store.old) (S.served store.new) (λ reads.
        OfOpened (Command.view (meant_shown shown.entry)) secret sealed (λ keys licence wanted.
        WhereWhole (end_of result) (WritesShown keys licence wanted reads
        (W.written out.old) (W.written out.new)))))) }
    ensures no_document { IfSome (K.left keys.old) (λ secret. IfSome (Q.left input.old) (λ sealed.
        Told (S.served store.old) (S.served store.new) (λ reads.
        OfOpened (Command.view (meant_shown shown.entry)) secret sealed (λ keys licence wanted.
        EndsWithoutDocument result licence.root keys.document reads)))) }
    // The part of `cause` and `refused` that the reads show without root and key. It is also claimed where
    // the keys and the input don't tell their bytes.
    ensures served_cause { Told (S.served store.old) (S.served store.new)
        (HasServedCause result) }
    ensures refused_alone { Told (S.served store.old) (S.served store.new)
        (IsRefusedAsServed result) }
    // Whatever the outcome, each opened fragment but the newest led to the digest that was wanted. So did
    // the newest, if it was read completely and the outcome is not BadFragment.
    ensures checked { Told (S.served store.old) (S.served store.new)
        (AllFoldUnlessRefused (is_bad_fragment_outcome result)) }

    ensures settled { WhereWhole (end_of result)
        (AreAllSettled (W.settled out.new) (W.written out.new)) }
    ensures keys_end { WhereWhole (end_of result) (IsAtEnd (K.left keys.new)) }
    ensures input_end { WhereWhole (end_of result) (IsAtEnd (Q.left input.new)) }
    ensures keys_read { let c = Command.view (meant_shown shown.entry) in
        OnTrue (is_after_keys c (end_of result))
        (TakesUpTo (keys_limit c + 1) (K.left keys.old) (K.left keys.new)) }
    ensures input_read { let c = Command.view (meant_shown shown.entry) in
        OnTrue (is_after_input c (end_of result))
        (TakesUpTo (input_limit c + 1) (Q.left input.old) (Q.left input.new)) }
    ensures long_keys { let c = Command.view (meant_shown shown.entry) in
        WhereTooLong (keys_limit c) (K.left keys.old)
        ((input.new ≡ input.old) × (store.new ≡ store.old) × (out.new ≡ out.old)) }
    ensures long_input { let c = Command.view (meant_shown shown.entry) in
        WhereWithin (keys_limit c) (K.left keys.old)
        (OnTrue (is_too_long (end_of result)) (IsAtEnd (K.left keys.new)
        × TakesUpTo (input_limit c + 1) (Q.left input.old) (Q.left input.new))) }
    ensures unread { OnTrue
        (precedes_input (Command.view (meant_shown shown.entry)) (end_of result))
        (input.new ≡ input.old) }
    ensures unopened { OnTrue
        (precedes_store (Command.view (meant_shown shown.entry)) (end_of result))
        (store.new ≡ store.old) }
    ensures unwritten { OnTrue
        (precedes_output (Command.view (meant_shown shown.entry)) (end_of result))
        (out.new ≡ out.old) }
    ensures keys { LeavesSource K.left K.faults (is_fault_of Object.keys (end_of result))
        (keys_limit (Command.view (meant_shown shown.entry))) keys.old keys.new }
    ensures input { LeavesSource Q.left Q.faults (is_fault_of Object.input (end_of result))
        (input_limit (Command.view (meant_shown shown.entry))) input.old input.new }
    ensures store { LeavesStore S.holds S.served S.faults
        (is_fault_of Object.store (end_of result)) store.old store.new }
    ensures out { LeavesSink W.written W.missed W.settled W.faults
        (is_fault_of Object.out (end_of result)) out.old out.new }
{
    let secret = match read_keys(alloc, keys) {
        Ok(secret) => secret,
        Err(outcome) => return outcome,
    };
    let licence = match read_sealed_licence(alloc, input, &secret.seal) {
        Ok(licence) => licence,
        Err(outcome) => return outcome,
    };
    let wanted = match read_wanted(alloc, shown, licence.user.as_slice()) {
        Ok(wanted) => wanted,
        Err(outcome) => return outcome,
    };
    let doc = match read_store(alloc, store, licence.root, secret.document) {
        Ok(doc) => doc,
        Err(outcome) => return outcome,
    };
    show(alloc, &doc, licence.rules.as_slice(), wanted, out)
}
