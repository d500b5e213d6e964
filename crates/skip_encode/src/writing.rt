//! The second pass: writes each byte of the tree section once, from the measures that the first pass made.

ghost use Rattle.std.specs.Prelude.{◌≡◌, ◌<◌, ◌≤◌, ◌^◌, ◌++◌, ◌+◌, true, OnOk, length, drop, map};
ghost use Rattle.std.specs.Int.{w16, to_be_bytes};
ghost use Rattle.std.specs.List.{concat};
ghost use Rattle.acl_model.specs.Names.{is_name};
ghost use Rattle.acl_model.specs.Document.{is_well_formed, item_well_formed};
ghost use Rattle.acl_model.specs.Stream.{measured_bytes, bytes_of_segments, part_segments, element_part, branch_of, part_of};
ghost use Rattle.skip_encode.specs.inside.Measures.{part_measures, BeginsWith, Fits, PartFits};
ghost use Rattle.skip_encode.specs.inside.Tallies.{prefix_size};

use crate::heads::{Parent, binary_length, write_head};
use crate::measures::Measures;
use acl_model::{Bytes, Element, Item};
use std::alloc::AllocError;
use tag_dictionary::Dictionary;

/// Writes an element and everything inside it. `names` is the dictionary with which it was measured. Only the contract
/// uses it.
#[cycle(tree)]
pub(crate) fn write_element(
    bytes: &mut Vec<u8>,
    measures: &mut Measures,
    names: &Dictionary,
    parent: &Parent,
    element: &Element,
) -> Result<(), AllocError>
    requires few { length names.now ≤ 256 }
    requires formed { is_well_formed is_name element.now ≡ true }
    requires measured { BeginsWith measures.old (part_measures (element_part
        (branch_of names.now element.now))) }
    requires fits { Fits parent.now.members parent.now.width (branch_of names.now element.now) }
    requires width { parent.now.width ≤ 32 }
    ensures written { OnOk result (bytes.new.items ≡ bytes.old.items ++ bytes_of_segments
        (part_segments parent.now.members parent.now.width (element_part (branch_of names.now element.now)))) }
    ensures left { OnOk result (measures.new
        ≡ drop (length (part_measures (element_part (branch_of names.now element.now)))) measures.old) }
{
    let measure = measures.pop();
    write_head(bytes, parent, &measure)?;
    let inside = Parent {
        members: measure.below,
        width: binary_length(measure.long),
    };
    write_attributes(bytes, element.attributes.as_slice())?;
    for item in element.items.as_slice() {
        write_item(bytes, measures, names, &inside, item)?;
    }
    Ok(())
}

/// Writes a text, or a child element.
#[cycle(tree)]
fn write_item(
    bytes: &mut Vec<u8>,
    measures: &mut Measures,
    names: &Dictionary,
    parent: &Parent,
    item: &Item,
) -> Result<(), AllocError>
    requires few { length names.now ≤ 256 }
    requires formed { item_well_formed is_name item.now ≡ true }
    requires measured { BeginsWith measures.old (part_measures (part_of names.now item.now)) }
    requires fits { PartFits parent.now.members parent.now.width (part_of names.now item.now) }
    requires width { parent.now.width ≤ 32 }
    ensures written { OnOk result (bytes.new.items ≡ bytes.old.items ++ bytes_of_segments
        (part_segments parent.now.members parent.now.width (part_of names.now item.now))) }
    ensures left { OnOk result (measures.new
        ≡ drop (length (part_measures (part_of names.now item.now))) measures.old) }
{
    match item {
        Item::Text(text) => write_measured(bytes, text.as_slice()),
        Item::Child(element) => write_element(bytes, measures, names, parent, element.get()),
    }
}

/// Writes the number of attributes in two bytes, and each attribute after its length in four.
fn write_attributes(bytes: &mut Vec<u8>, attributes: &[Bytes]) -> Result<(), AllocError>
    requires few { length attributes.now ≤ 65535 }
    requires small { prefix_size attributes.now ≤ 33554432 }
    ensures { OnOk result (bytes.new.items ≡ bytes.old.items
        ++ (to_be_bytes w16 (length attributes.now) ++ concat (map measured_bytes attributes.now))) }
{
    bytes.extend_from_slice(&(attributes.len() as u16).to_be_bytes())?;
    for raw in attributes {
        write_measured(bytes, raw.as_slice())?;
    }
    Ok(())
}

/// Writes a length in four bytes, and then the bytes.
fn write_measured(bytes: &mut Vec<u8>, piece: &[u8]) -> Result<(), AllocError>
    requires { length piece.now < 2 ^ 32 }
    ensures { OnOk result (bytes.new.items ≡ bytes.old.items ++ measured_bytes piece.now) }
{
    bytes.extend_from_slice(&(piece.len() as u32).to_be_bytes())?;
    bytes.extend_from_slice(piece)
}
