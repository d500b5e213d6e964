//! `preview`: the view of a document under the rules of a licence body, the answer of a query, or the explanation. No
//! file is encoded. The rules are read and checked first, then the query, and then the document. Only then the first
//! byte is written.

ghost use Rattle.std.specs.Prelude.{◌≡◌, ◌≤◌, ◌+◌, [], Some, None, IsTrue, IfSome, IfErr, OnOk, length};
ghost use Rattle.std.specs.Bool.{OnTrue};
ghost use Rattle.std.specs.Io.KnownBytes.{IsAtEnd};
ghost use Rattle.acl_model.specs.Explain.{explain_text};
ghost use Rattle.acl_model.specs.Text.{text_of_view};
ghost use Rattle.acl_model.specs.View as model;
ghost use Rattle.acl_outside.specs.Outside.{AreAllSettled};
ghost use Rattle.esis_lines.specs.DocumentAnswers.{TakesUpTo};
ghost use Rattle.licence.specs.BodyText.{most_rules};
ghost use Rattle.tree_meaning.specs.inside.Shows.{WritesView};
ghost use Rattle.acl_outcome.specs.Ends.{Object, end_of, is_fault_of};
ghost use Rattle.acl_words.specs.Command.{Command};
ghost use Rattle.acl_run.specs.Lengths.{WhereTooLong, WhereWithin, is_too_long};
ghost use Rattle.acl_run.specs.Objects.{LeavesSource, LeavesSink};
ghost use Rattle.acl_run.specs.Preview.{wanted_by, wanted_text};
ghost use Rattle.acl_run.specs.inside.SourceSteps.{AnswersAlone};
ghost use Rattle.acl_words.specs.inside.Request.{meant_shown};
ghost use Rattle.acl_run.specs.Steps.{Follows};
ghost use Rattle.acl_run.specs.WrittenTexts.{WritesText, WhereWhole, due_out};
ghost use Rattle.acl_run.specs.Work.{steps_of, ends_at_query, may_end, keys_limit, input_limit};
ghost use Rattle.acl_run.specs.Work.{is_after_keys, is_after_input, precedes_input, precedes_output};
ghost use Rattle.acl_run.specs.inside.WritingSteps.{EndsWriting};

use crate::readers::{read_document, read_query, read_rules};
use acl_model::{Bytes, Doc, Path, Rule, Sign};
use acl_outcome::Outcome;
use acl_outside::{Sink, Source, finish};
use acl_words::Shown;
use licence::Licence;
use std::alloc::Global;
use tree_meaning::{WriteViewFault, view_tree, write_explanation_of, write_view};

/// What is wanted of a document.
#[derive(Debug, Drop)]
pub(crate) enum Wanted {
    /// Its view.
    View,
    /// What the path of a query selects in its view.
    Answer(Path),
    /// The explanation: which rules decide the signs of its elements.
    Explanation,
}

/// Reads what a user wants: a query is read as a path for that user.
pub(crate) fn read_wanted(alloc: Global, shown: Shown<'_>, user: &[u8]) -> Result<Wanted, Outcome>
    ensures answer { AnswersAlone (wanted_by user.now (meant_shown shown.entry)) result }
    ensures ends { IfErr result
        (λ outcome. IsTrue (ends_at_query (meant_shown shown.entry) (end_of outcome))) }
{
    match shown {
        Shown::View => Ok(Wanted::View),
        Shown::Answer(query) => match read_query(alloc, query, user) {
            Ok(path) => Ok(Wanted::Answer(path)),
            Err(outcome) => Err(outcome),
        },
        Shown::Explanation => Ok(Wanted::Explanation),
    }
}

// ---- writing

/// Writes a view, and has the sink settle all of it.
fn write_settled_view<W: Sink>(
    alloc: Global,
    doc: &Doc,
    rules: &[Rule],
    out: &mut W,
) -> Result<(), WriteViewFault>
    ensures written { WritesView W.written W.missed W.settled W.faults result out.old out.new
        (text_of_view (model.view doc.now rules.now)) }
    ensures settled { OnOk result (AreAllSettled (W.settled out.new) (W.written out.new)) }
{
    write_view(alloc, doc, rules, out)?;
    match finish(out) {
        Ok(()) => Ok(()),
        Err(_) => Err(WriteViewFault::Failed),
    }
}

/// Writes an explanation, and has the sink settle all of it.
fn write_settled_explanation<W: Sink>(
    alloc: Global,
    doc: &Doc,
    rules: &[Rule],
    out: &mut W,
) -> Result<(), WriteViewFault>
    requires { length rules.now ≤ most_rules }
    ensures written { WritesView W.written W.missed W.settled W.faults result out.old out.new
        (explain_text doc.now rules.now) }
    ensures settled { OnOk result (AreAllSettled (W.settled out.new) (W.written out.new)) }
{
    write_explanation_of(alloc, doc, rules, out)?;
    match finish(out) {
        Ok(()) => Ok(()),
        Err(_) => Err(WriteViewFault::Failed),
    }
}

/// Writes the view of a document, and returns the outcome.
#[tactic(auto, using(crate::proofs::WritingLaws::writings))]
fn show_view<W: Sink>(alloc: Global, doc: &Doc, rules: &[Rule], out: &mut W) -> Outcome
    ensures { EndsWriting W.written W.missed W.settled W.faults result out.old out.new
        (text_of_view (model.view doc.now rules.now)) }
{
    match write_settled_view(alloc, doc, rules, out) {
        Ok(()) => Outcome::Done,
        Err(WriteViewFault::Failed) => Outcome::SinkFault,
        Err(WriteViewFault::NoMemory) => Outcome::NoMemory,
    }
}

/// Writes nothing, and has the sink settle all earlier bytes.
#[tactic(auto, using(crate::proofs::WritingLaws::writings))]
fn show_nothing<W: Sink>(out: &mut W) -> Outcome
    ensures { EndsWriting W.written W.missed W.settled W.faults result out.old out.new [] }
{
    match finish(out) {
        Ok(()) => Outcome::Done,
        Err(_) => Outcome::SinkFault,
    }
}

/// Writes the answer of a query: what its path selects in the view of the document. Its predicates are evaluated on the
/// view, not on the document.
#[tactic(auto, using(crate::proofs::WritingLaws::writings))]
fn show_answer<W: Sink>(
    alloc: Global,
    doc: &Doc,
    rules: &[Rule],
    path: Path,
    out: &mut W,
) -> Outcome
    ensures { EndsWriting W.written W.missed W.settled W.faults result out.old out.new
        (model.out doc.now rules.now (Some path)) }
{
    let query = [Rule {
        id: Bytes::new(alloc),
        sign: Sign::Grant,
        path,
    }];
    match view_tree(alloc, doc, rules) {
        Ok(Some(view)) => show_view(alloc, &view, &query, out),
        Ok(None) => show_nothing(out),
        Err(_) => Outcome::NoMemory,
    }
}

/// Writes the explanation of a document: which rules decide the signs of its elements.
#[tactic(auto, using(crate::proofs::WritingLaws::writings))]
fn show_explanation<W: Sink>(alloc: Global, doc: &Doc, rules: &[Rule], out: &mut W) -> Outcome
    requires { length rules.now ≤ most_rules }
    ensures { EndsWriting W.written W.missed W.settled W.faults result out.old out.new
        (explain_text doc.now rules.now) }
{
    match write_settled_explanation(alloc, doc, rules, out) {
        Ok(()) => Outcome::Done,
        Err(WriteViewFault::Failed) => Outcome::SinkFault,
        Err(WriteViewFault::NoMemory) => Outcome::NoMemory,
    }
}

/// Writes what is wanted of a document.
pub(crate) fn show<W: Sink>(
    alloc: Global,
    doc: &Doc,
    rules: &[Rule],
    wanted: Wanted,
    out: &mut W,
) -> Outcome
    requires { length rules.now ≤ most_rules }
    ensures { EndsWriting W.written W.missed W.settled W.faults result out.old out.new
        (wanted_text doc.now rules.now wanted) }
{
    match wanted {
        Wanted::View => show_view(alloc, doc, rules, out),
        Wanted::Answer(path) => show_answer(alloc, doc, rules, path, out),
        Wanted::Explanation => show_explanation(alloc, doc, rules, out),
    }
}

// ---- the command

/// Reads the rules, then the query, then the document, and writes what is to be shown of it.
#[tactic(auto, using(crate::proofs::PreviewSteps::steps))]
pub fn preview<K: Source, Q: Source, W: Sink>(
    alloc: Global,
    shown: Shown<'_>,
    keys: &mut K,
    input: &mut Q,
    out: &mut W,
) -> Outcome
    ensures order { Follows (steps_of (Command.preview (meant_shown shown.entry))
        (K.left keys.old) (Q.left input.old)) result }
    ensures ends { IsTrue (may_end (Command.preview (meant_shown shown.entry)) result) }
    ensures text { IfSome (K.left keys.old) (λ rules. IfSome (Q.left input.old) (λ lines.
        WritesText (end_of result) (W.written out.old) (W.written out.new)
        (due_out (Command.preview (meant_shown shown.entry)) rules lines))) }
    ensures settled { WhereWhole (end_of result)
        (AreAllSettled (W.settled out.new) (W.written out.new)) }
    ensures keys_end { WhereWhole (end_of result) (IsAtEnd (K.left keys.new)) }
    ensures input_end { WhereWhole (end_of result) (IsAtEnd (Q.left input.new)) }

    ensures keys_read { let c = Command.preview (meant_shown shown.entry) in
        OnTrue (is_after_keys c (end_of result))
        (TakesUpTo (keys_limit c + 1) (K.left keys.old) (K.left keys.new)) }
    ensures input_read { let c = Command.preview (meant_shown shown.entry) in
        OnTrue (is_after_input c (end_of result))
        (TakesUpTo (input_limit c + 1) (Q.left input.old) (Q.left input.new)) }
    ensures long_keys { let c = Command.preview (meant_shown shown.entry) in
        WhereTooLong (keys_limit c) (K.left keys.old)
        ((input.new ≡ input.old) × (out.new ≡ out.old)) }
    ensures long_input { let c = Command.preview (meant_shown shown.entry) in
        WhereWithin (keys_limit c) (K.left keys.old)
        (OnTrue (is_too_long (end_of result)) (IsAtEnd (K.left keys.new)
        × TakesUpTo (input_limit c + 1) (Q.left input.old) (Q.left input.new))) }
    ensures unread { OnTrue
        (precedes_input (Command.preview (meant_shown shown.entry)) (end_of result))
        (input.new ≡ input.old) }
    ensures unwritten { OnTrue
        (precedes_output (Command.preview (meant_shown shown.entry)) (end_of result))
        (out.new ≡ out.old) }
    ensures keys { LeavesSource K.left K.faults (is_fault_of Object.keys (end_of result))
        (keys_limit (Command.preview (meant_shown shown.entry))) keys.old keys.new }
    ensures input { LeavesSource Q.left Q.faults (is_fault_of Object.input (end_of result))
        (input_limit (Command.preview (meant_shown shown.entry))) input.old input.new }
    ensures out { LeavesSink W.written W.missed W.settled W.faults
        (is_fault_of Object.out (end_of result)) out.old out.new }
{
    let licence = match read_rules(alloc, keys) {
        Ok(licence) => licence,
        Err(outcome) => return outcome,
    };
    let wanted = match read_wanted(alloc, shown, licence.user.as_slice()) {
        Ok(wanted) => wanted,
        Err(outcome) => return outcome,
    };
    let doc = match read_document(alloc, input) {
        Ok(doc) => doc,
        Err(outcome) => return outcome,
    };
    show(alloc, &doc, licence.rules.as_slice(), wanted, out)
}
