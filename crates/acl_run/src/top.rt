//! The top call. The arguments say what is asked for, and the caller passes the files and streams as objects. The call
//! returns one outcome, by the order of work of the command (`specs/Work.antt`).
//!
//! An object *tells* its bytes where contracts can see them. Those in memory do, and files and streams don't. A text is
//! *due* where the run is to write it.

ghost use Rattle.std.specs.Prelude.{◌≡◌, ◌↔◌, ◌+◌, None, IsTrue, IfSome, IfNone, map, string_bytes};
ghost use Rattle.std.specs.Bool.{OnTrue, OnFalse};
ghost use Rattle.std.specs.Io.KnownBytes.{Appends, IsAtEnd};
ghost use Rattle.acl_outside.specs.Outside.{AppendsPart, AreAllSettled};
ghost use Rattle.esis_lines.specs.DocumentAnswers.{TakesUpTo};
ghost use Rattle.fragment_open.specs.Checked.{AllFoldUnlessRefused};
ghost use Rattle.fragment_open.specs.Served.{IsRegular};
ghost use Rattle.fragment_open.specs.CallReads.{Told};
ghost use Rattle.acl_outcome.specs.Ends.{Object, end_of, is_fault_of};
ghost use Rattle.acl_run.specs.Headline.{HasServedCause, HasStoreCause, IsUnrefusedEnd, IsRefusedAsServed, IsRefusedAsShown};
ghost use Rattle.acl_run.specs.Headline.{EndsWithoutDocument, WritesShown};
ghost use Rattle.acl_run.specs.Headline.{OfEachDueText, OfHeldText, OfOpened};
ghost use Rattle.acl_run.specs.Lengths.{WhereTooLong, WhereWithin, is_too_long};
ghost use Rattle.acl_run.specs.Objects.{LeavesSource, LeavesSink, LeavesStore};
ghost use Rattle.acl_run.specs.Outcomes.{is_bad_fragment_outcome};
ghost use Rattle.acl_run.specs.WrittenTexts.{WritesText, WritesNote, WhereWhole, WhereDone};
ghost use Rattle.acl_run.specs.WrittenTexts.{due_out, due_note};
ghost use Rattle.acl_words.specs.CommandLines.{words_of};
ghost use Rattle.acl_run.specs.Steps.{Follows};
ghost use Rattle.acl_run.specs.Work.{steps_of, may_end, uses, keys_for, input_for};
ghost use Rattle.acl_run.specs.Work.{is_after_keys, is_after_input, precedes_input};
ghost use Rattle.acl_run.specs.Work.{keys_limit, input_limit, precedes_output, precedes_note, precedes_store};

use crate::encode::encode;
use crate::preview::preview;
use crate::sample::sample;
use crate::seal::seal;
use crate::view::view;
use acl_outcome::Outcome;
use acl_outside::{Sink, Source, Store};
use acl_words::{Request, read_words};
use std::alloc::Global;

/// Does what the arguments of a command line ask for. `words` are these arguments, without the program's name.
///
/// - `preview RULES [--query P] [--explain]` reads a licence body from `keys`, and then a document from `input`. It
///   writes to `out` the authorised view, what the query P selects in it, or an explanation of the signs.
/// - `encode KEYS` reads keys from `keys`, and then a document from `input`. It writes the document's file to `out`,
///   and then the root of that file to `note`.
/// - `seal KEYS` reads keys from `keys`, and then a licence body from `input`. It writes the sealed licence to
///   `out`.
/// - `view KEYS STORE [--query P]` reads keys from `keys`, a sealed licence from `input`, and the whole file of a
///   document from `store`. It writes to `out` the authorised view, or what the query P selects in it.
/// - `explain KEYS STORE` reads the same, and writes an explanation of the signs.
/// - `sample N` writes the lines of the sample document with N folders to `out`, and then its numbers to `note`.
///
/// Keys, bodies and sealed licences have at most 131,072 bytes, and a document at most 33,554,432. A document that is
/// to be encoded has at most 256 names, and its dictionary and its tree have together at most 33,554,432 bytes.
///
/// What is read first is refused first, and everything is read and checked before the first byte is written.
#[tactic(auto, using(crate::proofs::TopSteps::tops))]
pub fn run<K: Source, Q: Source, S: Store, W: Sink, N: Sink>(
    alloc: Global,
    words: &[String],
    keys: &mut K,
    input: &mut Q,
    store: &mut S,
    out: &mut W,
    note: &mut N,
) -> Outcome
    // The outcome is Usage exactly where the arguments are no command line. No object changes then.
    ensures usage { (result ≡ Outcome.Usage) ↔ (words_of (map string_bytes words.now) ≡ None) }
    ensures untouched { IfNone (words_of (map string_bytes words.now)) ((keys.new ≡ keys.old)
        × (input.new ≡ input.old) × (store.new ≡ store.old) × (out.new ≡ out.old)
        × (note.new ≡ note.old)) }

    // The run does the steps of its command in order, and ends at the first that it does not pass. The
    // outcome is one that the command may have.
    ensures order { IfSome (words_of (map string_bytes words.now)) (λ c.
        Follows (steps_of c (K.left keys.old) (Q.left input.old)) result) }
    ensures ends { IfSome (words_of (map string_bytes words.now))
        (λ c. IsTrue (may_end c result)) }

    // What is written, as far as the objects tell their bytes. On Done the whole text that is due was
    // written to `out`, then the whole note to `note`, and neither sink holds anything back. If `out` failed,
    // a prefix of the text was written. If `note` failed, the whole text and a prefix of the note were
    // written. A run that ends before the writing of a sink leaves that sink unchanged. For `view` and
    // `explain` the clauses after these say which text it is.
    ensures text { IfSome (words_of (map string_bytes words.now)) (λ c.
        IfSome (keys_for c (K.left keys.old)) (λ rules.
        IfSome (input_for c (Q.left input.old)) (λ lines. WritesText (end_of result)
        (W.written out.old) (W.written out.new) (due_out c rules lines)))) }
    ensures note_text { IfSome (words_of (map string_bytes words.now)) (λ c.
        IfSome (keys_for c (K.left keys.old)) (λ rules.
        IfSome (input_for c (Q.left input.old)) (λ lines. WritesNote (end_of result)
        (N.written note.old) (N.written note.new) (due_note c rules lines)))) }
    ensures settled { WhereWhole (end_of result)
        (AreAllSettled (W.settled out.new) (W.written out.new)) }
    ensures unwritten { IfSome (words_of (map string_bytes words.now))
        (λ c. OnTrue (precedes_output c (end_of result)) (out.new ≡ out.old)) }
    ensures note_settled { IfSome (words_of (map string_bytes words.now)) (λ c.
        OnTrue (uses c Object.note) (WhereDone (end_of result)
        (AreAllSettled (N.settled note.new) (N.written note.new)))) }
    ensures unnoted { IfSome (words_of (map string_bytes words.now))
        (λ c. OnTrue (precedes_note c (end_of result)) (note.new ≡ note.old)) }

    // `view` and `explain` don't trust the store. Take any document whose file under the document key has
    // the licence's root. `out` grew by a prefix of the text that is due of it, and by all of it on Done.
    // The exception is a collision: at one position in the tree of digests, or as the root string, the
    // reads hash a string and that file has a different one with the same SHA-256 digest. A store that
    // contains the file is not refused: the run ends with the whole text, out of memory, or with a fault of
    // an object, without an exception. The reads are the first of those that the format of the file fixes.
    // Each refusal of the store has its cause in the reads. Where they show a reason to refuse the store,
    // the outcome is that refusal.
    ensures prefix { IfSome (words_of (map string_bytes words.now)) (λ c.
        IfSome (K.left keys.old) (λ secret. IfSome (Q.left input.old) (λ sealed.
        Told (S.served store.old) (S.served store.new) (λ reads.
        OfEachDueText c secret sealed reads (λ text.
        AppendsPart (W.written out.old) (W.written out.new) text))))) }
    ensures whole { IfSome (words_of (map string_bytes words.now)) (λ c.
        IfSome (K.left keys.old) (λ secret. IfSome (Q.left input.old) (λ sealed.
        Told (S.served store.old) (S.served store.new) (λ reads.
        OfEachDueText c secret sealed reads (λ text.
        WhereWhole (end_of result) (Appends (W.written out.old) (W.written out.new) text)))))) }
    ensures honest { IfSome (words_of (map string_bytes words.now)) (λ c.
        IfSome (K.left keys.old) (λ secret. IfSome (Q.left input.old) (λ sealed.
        OfHeldText c secret sealed (S.holds store.old) (λ text. IsUnrefusedEnd (end_of result)
        × WhereWhole (end_of result) (Appends (W.written out.old) (W.written out.new) text))))) }
    ensures regular { Told (S.served store.old) (S.served store.new) IsRegular }
    ensures store_cause { IfSome (words_of (map string_bytes words.now)) (λ c.
        IfSome (K.left keys.old) (λ secret. IfSome (Q.left input.old) (λ sealed.
        Told (S.served store.old) (S.served store.new) (λ reads.
        OfOpened c secret sealed (λ keys licence wanted.
        HasStoreCause result licence.root keys.document reads))))) }
    ensures refused { IfSome (words_of (map string_bytes words.now)) (λ c.
        IfSome (K.left keys.old) (λ secret. IfSome (Q.left input.old) (λ sealed.
        Told (S.served store.old) (S.served store.new) (λ reads.
        OfOpened c secret sealed (λ keys licence wanted.
        IsRefusedAsShown result licence.root keys.document reads))))) }
    // Whatever the root: on Done the reads show a whole checked file of a document, and `out` grew by the
    // text that is due of it. Where they show a file of no document, the outcome is BadIndex or NoMemory.
    ensures read { IfSome (words_of (map string_bytes words.now)) (λ c.
        IfSome (K.left keys.old) (λ secret. IfSome (Q.left input.old) (λ sealed.
        Told (S.served store.old) (S.served store.new) (λ reads.
        OfOpened c secret sealed (λ keys licence wanted.
        WhereWhole (end_of result) (WritesShown keys licence wanted reads
        (W.written out.old) (W.written out.new))))))) }
    ensures no_document { IfSome (words_of (map string_bytes words.now)) (λ c.
        IfSome (K.left keys.old) (λ secret. IfSome (Q.left input.old) (λ sealed.
        Told (S.served store.old) (S.served store.new) (λ reads.
        OfOpened c secret sealed (λ keys licence wanted.
        EndsWithoutDocument result licence.root keys.document reads))))) }
    // The part of `store_cause` and `refused` that the reads show without root and key. It is also claimed
    // where the keys and the input don't tell their bytes.
    ensures served_cause { Told (S.served store.old) (S.served store.new)
        (HasServedCause result) }
    ensures refused_alone { Told (S.served store.old) (S.served store.new)
        (IsRefusedAsServed result) }
    // Whatever the outcome, each opened fragment but the newest led to the digest that was wanted. So did
    // the newest, if it was read completely and the outcome is not BadFragment.
    ensures checked { Told (S.served store.old) (S.served store.new)
        (AllFoldUnlessRefused (is_bad_fragment_outcome result)) }

    // An outcome about the bytes of a source, or a later one, comes only after that source was read to its
    // end or one byte past its limit. On Done both are at their ends. Keys that are too long leave all
    // other objects unchanged. If the keys are within their limit and a length is refused, it is that of
    // the input, and all of the keys were read before. An end before the reading of the input or the
    // opening of the store leaves it unchanged.
    ensures keys_read { IfSome (words_of (map string_bytes words.now)) (λ c.
        OnTrue (is_after_keys c (end_of result))
        (TakesUpTo (keys_limit c + 1) (K.left keys.old) (K.left keys.new))) }
    ensures input_read { IfSome (words_of (map string_bytes words.now)) (λ c.
        OnTrue (is_after_input c (end_of result))
        (TakesUpTo (input_limit c + 1) (Q.left input.old) (Q.left input.new))) }
    ensures keys_end { IfSome (words_of (map string_bytes words.now)) (λ c.
        OnTrue (uses c Object.keys) (WhereWhole (end_of result) (IsAtEnd (K.left keys.new)))) }
    ensures input_end { IfSome (words_of (map string_bytes words.now)) (λ c.
        OnTrue (uses c Object.input) (WhereWhole (end_of result) (IsAtEnd (Q.left input.new)))) }
    ensures long_keys { IfSome (words_of (map string_bytes words.now)) (λ c.
        OnTrue (uses c Object.keys) (WhereTooLong (keys_limit c) (K.left keys.old)
        ((input.new ≡ input.old) × (store.new ≡ store.old) × (out.new ≡ out.old)
        × (note.new ≡ note.old)))) }
    ensures long_input { IfSome (words_of (map string_bytes words.now)) (λ c.
        WhereWithin (keys_limit c) (K.left keys.old)
        (OnTrue (is_too_long (end_of result)) (IsAtEnd (K.left keys.new)
        × TakesUpTo (input_limit c + 1) (Q.left input.old) (Q.left input.new)))) }
    ensures unread { IfSome (words_of (map string_bytes words.now))
        (λ c. OnTrue (precedes_input c (end_of result)) (input.new ≡ input.old)) }
    ensures unopened { IfSome (words_of (map string_bytes words.now))
        (λ c. OnTrue (precedes_store c (end_of result)) (store.new ≡ store.old)) }

    // Each object counted a fault exactly where the outcome is its fault (a full count stays full). An
    // object that the command does not use is unchanged.
    ensures keys { IfSome (words_of (map string_bytes words.now)) (λ c.
        LeavesSource K.left K.faults (is_fault_of Object.keys (end_of result)) (keys_limit c)
        keys.old keys.new) }
    ensures input { IfSome (words_of (map string_bytes words.now)) (λ c.
        LeavesSource Q.left Q.faults (is_fault_of Object.input (end_of result)) (input_limit c)
        input.old input.new) }
    ensures store { LeavesStore S.holds S.served S.faults
        (is_fault_of Object.store (end_of result)) store.old store.new }
    ensures out { LeavesSink W.written W.missed W.settled W.faults
        (is_fault_of Object.out (end_of result)) out.old out.new }
    ensures note { LeavesSink N.written N.missed N.settled N.faults
        (is_fault_of Object.note (end_of result)) note.old note.new }
    ensures unused_keys { IfSome (words_of (map string_bytes words.now))
        (λ c. OnFalse (uses c Object.keys) (keys.new ≡ keys.old)) }
    ensures unused_input { IfSome (words_of (map string_bytes words.now))
        (λ c. OnFalse (uses c Object.input) (input.new ≡ input.old)) }
    ensures unused_store { IfSome (words_of (map string_bytes words.now))
        (λ c. OnFalse (uses c Object.store) (store.new ≡ store.old)) }
    ensures unused_note { IfSome (words_of (map string_bytes words.now))
        (λ c. OnFalse (uses c Object.note) (note.new ≡ note.old)) }
{
    match read_words(words) {
        Some(Request::Preview(shown)) => preview(alloc, shown, keys, input, out),
        Some(Request::Encode) => encode(alloc, keys, input, out, note),
        Some(Request::Seal) => seal(alloc, keys, input, out),
        Some(Request::View(shown)) => view(alloc, shown, keys, input, store, out),
        Some(Request::Sample(size)) => sample(alloc, size, out, note),
        None => Outcome::Usage,
    }
}
