//! Writes the line of an outcome piece by piece. No memory is allocated.

ghost use Rattle.std.specs.Prelude.{◌≡◌, [], ◌∷◌, ◌++◌, map, codes, IsOk};
ghost use Rattle.std.specs.List.{concat};
ghost use Rattle.acl_outside.specs.WrittenText.{Writes};
ghost use Rattle.acl_outcome.specs.Outcome.{name_of, fields_of, field_text, head_of, line_of, outcome_line};
ghost use Rattle.acl_outcome.specs.inside.Fields.{meant_field, meant_fields};
ghost use Rattle.acl_outcome.specs.Outcome as word;

use crate::outcome::{Outcome, status};
use acl_outside::{Failed, Sink, write_piece, write_pieces};
use itoa::Buffer;

/// The value of a field, which follows the field's name and `=`.
#[derive(Clone, Copy)]
enum Value<'a> {
    Number(u64),
    Digest(&'a [u8; 32]),
    Check(&'a [u8; 16]),
}

/// A field of an outcome: its name and its value.
#[derive(Clone, Copy)]
struct Field<'a> {
    name: &'static [u8],
    value: Value<'a>,
}

/// The fields of an outcome, in order. No outcome has more than three.
#[derive(Clone, Copy)]
enum Fields<'a> {
    Absent,
    One(Field<'a>),
    Two(Field<'a>, Field<'a>),
    Three(Field<'a>, Field<'a>, Field<'a>),
}

/// A field whose value is a number, to be written in decimal.
fn number(name: &'static [u8], value: u64) -> Field<'static>
    ensures { meant_field result ≡ word.number name.now value }
{
    Field {
        name,
        value: Value::Number(value),
    }
}

/// A field whose value is a digest, to be written in lower-case hexadecimal.
fn digest<'a>(name: &'static [u8], bytes: &'a [u8; 32]) -> Field<'a>
    ensures { meant_field result ≡ word.digest name.now bytes.now }
{
    Field {
        name,
        value: Value::Digest(bytes),
    }
}

/// A field whose value is a key check, to be written in lower-case hexadecimal.
fn check<'a>(name: &'static [u8], bytes: &'a [u8; 16]) -> Field<'a>
    ensures { meant_field result ≡ word.digest name.now bytes.now }
{
    Field {
        name,
        value: Value::Check(bytes),
    }
}

/// The name of an outcome, as it is in the outcome's line.
fn name(outcome: &Outcome) -> &'static [u8]
    ensures { result.now ≡ name_of outcome.now }
{
    match outcome {
        Outcome::Done => b"Done",
        Outcome::NoMemory => b"NoMemory",
        Outcome::Usage => b"Usage",
        Outcome::KeysFault => b"KeysFault",
        Outcome::NoteFault => b"NoteFault",
        Outcome::BadLine { .. } => b"BadLine",
        Outcome::Unsupported { .. } => b"Unsupported",
        Outcome::Unbalanced { .. } => b"Unbalanced",
        Outcome::NoRoot => b"NoRoot",
        Outcome::SecondRoot { .. } => b"SecondRoot",
        Outcome::TooDeep { .. } => b"TooDeep",
        Outcome::NameTooLong { .. } => b"NameTooLong",
        Outcome::InputTooLong { .. } => b"InputTooLong",
        Outcome::SourceFault => b"SourceFault",
        Outcome::TooManyAttributes { .. } => b"TooManyAttributes",
        Outcome::BadSeal { .. } => b"BadSeal",
        Outcome::BadRule { .. } => b"BadRule",
        Outcome::BadLicence { .. } => b"BadLicence",
        Outcome::TooManyRules => b"TooManyRules",
        Outcome::TooManyStates => b"TooManyStates",
        Outcome::BadKeys { .. } => b"BadKeys",
        Outcome::BadQuery { .. } => b"BadQuery",
        Outcome::BadHeader => b"BadHeader",
        Outcome::WrongRoot { .. } => b"WrongRoot",
        Outcome::WrongKey { .. } => b"WrongKey",
        Outcome::StoreShort { .. } => b"StoreShort",
        Outcome::StoreFault => b"StoreFault",
        Outcome::BadFragment { .. } => b"BadFragment",
        Outcome::TooManyTags => b"TooManyTags",
        Outcome::TooLarge => b"TooLarge",
        Outcome::BadIndex => b"BadIndex",
        Outcome::SinkFault => b"SinkFault",
        Outcome::Stopped { .. } => b"Stopped",
    }
}

/// The fields of an outcome, in order.
fn fields_in(outcome: &Outcome) -> Fields<'_>
    ensures { meant_fields result ≡ fields_of outcome.now }
{
    match outcome {
        Outcome::Done => Fields::Absent,
        Outcome::NoMemory => Fields::Absent,
        Outcome::Usage => Fields::Absent,
        Outcome::KeysFault => Fields::Absent,
        Outcome::NoteFault => Fields::Absent,
        Outcome::BadLine { line } => Fields::One(number(b"line", u64::from(*line))),
        Outcome::Unsupported { line, kind } => Fields::Two(
            number(b"line", u64::from(*line)),
            number(b"kind", u64::from(*kind)),
        ),
        Outcome::Unbalanced { line } => Fields::One(number(b"line", u64::from(*line))),
        Outcome::NoRoot => Fields::Absent,
        Outcome::SecondRoot { line } => Fields::One(number(b"line", u64::from(*line))),
        Outcome::TooDeep { line } => Fields::One(number(b"line", u64::from(*line))),
        Outcome::NameTooLong { line } => Fields::One(number(b"line", u64::from(*line))),
        Outcome::InputTooLong { limit } => Fields::One(number(b"limit", u64::from(*limit))),
        Outcome::SourceFault => Fields::Absent,
        Outcome::TooManyAttributes { line } => Fields::One(number(b"line", u64::from(*line))),
        Outcome::BadSeal { given, made } => Fields::Two(
            digest(b"given", given),
            digest(b"made", made),
        ),
        Outcome::BadRule { line, at } => Fields::Two(
            number(b"line", u64::from(*line)),
            number(b"at", u64::from(*at)),
        ),
        Outcome::BadLicence { line } => Fields::One(number(b"line", u64::from(*line))),
        Outcome::TooManyRules => Fields::Absent,
        Outcome::TooManyStates => Fields::Absent,
        Outcome::BadKeys { line } => Fields::One(number(b"line", u64::from(*line))),
        Outcome::BadQuery { at } => Fields::One(number(b"at", u64::from(*at))),
        Outcome::BadHeader => Fields::Absent,
        Outcome::WrongRoot { want, made } => Fields::Two(
            digest(b"want", want),
            digest(b"made", made),
        ),
        Outcome::WrongKey { want, made } => Fields::Two(check(b"want", want), check(b"made", made)),
        Outcome::StoreShort { at } => Fields::One(number(b"at", *at)),
        Outcome::StoreFault => Fields::Absent,
        Outcome::BadFragment { index, want, made } => Fields::Three(
            number(b"index", u64::from(*index)),
            digest(b"want", want),
            digest(b"made", made),
        ),
        Outcome::TooManyTags => Fields::Absent,
        Outcome::TooLarge => Fields::Absent,
        Outcome::BadIndex => Fields::Absent,
        Outcome::SinkFault => Fields::Absent,
        Outcome::Stopped { watcher, line } => Fields::Two(
            number(b"watcher", u64::from(*watcher)),
            number(b"line", *line),
        ),
    }
}

/// Writes a space, the name of a field, `=` and its text.
#[tactic(auto, unfolding(crate::specs::Outcome::field_text))]
fn write_named<K: Sink>(name: &[u8], text: &[u8], sink: &mut K) -> Result<(), Failed>
    ensures { Writes K.written K.missed K.settled K.faults result sink.old sink.new
        (field_text (record { name = name.now; text = text.now })) }
{
    write_pieces(sink, &[b" ", name, b"=", text])
}

/// Writes a field whose value is a digest.
fn write_digest<K: Sink>(name: &[u8], bytes: &[u8; 32], sink: &mut K) -> Result<(), Failed>
    ensures { Writes K.written K.missed K.settled K.faults result sink.old sink.new
        (field_text (word.digest name.now bytes.now)) }
{
    let mut digits = [0; 64];
    hex::encode_to_slice(bytes.as_slice(), &mut digits).unwrap();
    write_named(name, &digits, sink)
}

/// Writes a field whose value is a key check.
fn write_check<K: Sink>(name: &[u8], bytes: &[u8; 16], sink: &mut K) -> Result<(), Failed>
    ensures { Writes K.written K.missed K.settled K.faults result sink.old sink.new
        (field_text (word.digest name.now bytes.now)) }
{
    let mut digits = [0; 32];
    hex::encode_to_slice(bytes.as_slice(), &mut digits).unwrap();
    write_named(name, &digits, sink)
}

/// Writes a space, and a field with its value in decimal or hexadecimal.
fn write_field<K: Sink>(field: Field<'_>, sink: &mut K) -> Result<(), Failed>
    ensures { Writes K.written K.missed K.settled K.faults result sink.old sink.new
        (field_text (meant_field field.entry)) }
{
    match field.value {
        Value::Number(number) => {
            let mut digits = Buffer::new();
            write_named(field.name, digits.format(number).as_bytes(), sink)
        }
        Value::Digest(bytes) => write_digest(field.name, bytes, sink),
        Value::Check(bytes) => write_check(field.name, bytes, sink),
    }
}

/// Writes fields one after another.
fn write_each<K: Sink>(fields: &[Field<'_>], sink: &mut K) -> Result<(), Failed>
    ensures { Writes K.written K.missed K.settled K.faults result sink.old sink.new
        (concat (map (λ field. field_text (meant_field field)) fields.now)) }
{
    for field in fields {
        write_field(*field, sink)?;
    }
    Ok(())
}

/// Writes all fields of an outcome.
fn write_fields<K: Sink>(outcome: &Outcome, sink: &mut K) -> Result<(), Failed>
    ensures { Writes K.written K.missed K.settled K.faults result sink.old sink.new
        (concat (map field_text (fields_of outcome.now))) }
{
    match fields_in(outcome) {
        Fields::Absent => write_each(&[], sink),
        Fields::One(first) => write_each(&[first], sink),
        Fields::Two(first, second) => write_each(&[first, second], sink),
        Fields::Three(first, second, third) => write_each(&[first, second, third], sink),
    }
}

/// Writes the start of the line: `acl: `, the number, a space and the name.
#[tactic(auto, unfolding(crate::specs::Outcome::head_of))]
fn write_head<K: Sink>(outcome: &Outcome, sink: &mut K) -> Result<(), Failed>
    ensures { Writes K.written K.missed K.settled K.faults result sink.old sink.new
        (head_of outcome.now) }
{
    let mut number = Buffer::new();
    let number = number.format(status(outcome)).as_bytes();
    write_pieces(sink, &[b"acl: ", number, b" ", name(outcome)])
}

/// Writes the line of an outcome that is not `Done`.
fn write_line<K: Sink>(outcome: &Outcome, sink: &mut K) -> Result<(), Failed>
    ensures { Writes K.written K.missed K.settled K.faults result sink.old sink.new
        (line_of outcome.now) }
{
    write_head(outcome, sink)?;
    write_fields(outcome, sink)?;
    write_piece(sink, b"\n")
}

/// Writes the line of an outcome, with its line feed. `Done` has no line, and for it no call on the sink is made.
#[tactic(auto, using(crate::proofs::Lines::line_unless_done))]
pub fn outcome_text<K: Sink>(outcome: &Outcome, sink: &mut K) -> Result<(), Failed>
    ensures written { Writes K.written K.missed K.settled K.faults result sink.old sink.new
        (outcome_line outcome.now) }
    ensures done { outcome.now ≡ Outcome.Done → (sink.new ≡ sink.old) }
    ensures done_is_ok { outcome.now ≡ Outcome.Done → IsOk result }
{
    if *outcome == Outcome::Done {
        Ok(())
    } else {
        write_line(outcome, sink)
    }
}
