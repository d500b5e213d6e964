//! Writes the lines of an explanation. A line has the sign, the rule's id or `closed`, and the place. A place is a
//! slice of numbers, or is written number by number.

ghost use Rattle.std.specs.Prelude.{◌≡◌, decimal, map, ◌∷◌};
ghost use Rattle.std.specs.List.{concat};
ghost use Rattle.acl_model.specs.Ascii.{slash};
ghost use Rattle.acl_model.specs.Explain.{rule_word, place_text};
ghost use Rattle.acl_outside.specs.WrittenText.{Writes};
ghost use Rattle.line_writer.specs.Parts.{explanation_head, explained_line};

use crate::document_lines::end_line;
use acl_model::{Rule, Sign};
use acl_outside::{Failed, Sink, write_piece, write_pieces};
use itoa::Buffer;

/// Writes the line of the element with this place and sign. `word` is the id of the rule that decides, or `closed`.
pub fn write_explanation_line<K: Sink>(
    sign: Sign,
    word: &[u8],
    place: &[u64],
    sink: &mut K,
) -> Result<(), Failed>
    ensures written { Writes K.written K.missed K.settled K.faults result sink.old sink.new
        (explained_line sign word.now place.now) }
{
    write_explanation_head(sign, word, sink)?;
    write_place(place, sink)?;
    end_line(sink)
}

/// The id of the rule with this number, or `closed` where no rule decides.
pub fn rule_word(rules: &[Rule], number: Option<u16>) -> &[u8]
    ensures word { result.now ≡ rule_word rules.now number }
{
    match number {
        None => b"closed",
        Some(number) => match rules.get(usize::from(number)) {
            Some(rule) => rule.id.as_slice(),
            None => &[],
        },
    }
}

/// Writes the part of a line before the place.
pub fn write_explanation_head<K: Sink>(sign: Sign, word: &[u8], sink: &mut K) -> Result<(), Failed>
    ensures written { Writes K.written K.missed K.settled K.faults result sink.old sink.new
        (explanation_head sign word.now) }
{
    match sign {
        Sign::Grant => write_pieces(sink, &[b"+ ", word, b" "]),
        Sign::Deny => write_pieces(sink, &[b"- ", word, b" "]),
    }
}

/// Writes a place, from the root down. The place of the root is empty, and is written as `/`.
pub fn write_place<K: Sink>(place: &[u64], sink: &mut K) -> Result<(), Failed>
    ensures written { Writes K.written K.missed K.settled K.faults result sink.old sink.new
        (place_text place.now) }
{
    match place {
        [] => write_piece(sink, b"/"),
        [_, ..] => write_numbers(place, sink),
    }
}

/// Writes a place other than that of the root.
fn write_numbers<K: Sink>(numbers: &[u64], sink: &mut K) -> Result<(), Failed>
    ensures { Writes K.written K.missed K.settled K.faults result sink.old sink.new
        (concat (map (λ number. slash ∷ decimal number) numbers.now)) }
{
    for number in numbers {
        write_number(*number, sink)?;
    }
    Ok(())
}

/// Writes a number of a place: `/` and its decimal digits.
#[tactic(auto, using(acl_outside::proofs::Remaining::byte_chain))]
pub fn write_number<K: Sink>(number: u64, sink: &mut K) -> Result<(), Failed>
    ensures written { Writes K.written K.missed K.settled K.faults result sink.old sink.new
        (slash ∷ decimal number) }
{
    let mut digits = Buffer::new();
    write_pieces(sink, &[b"/", digits.format(number).as_bytes()])
}
