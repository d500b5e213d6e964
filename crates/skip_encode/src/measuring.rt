//! The first pass: measures contents from the leaves upwards, and from the last element to the first.

ghost use Rattle.std.specs.Prelude.{◌≡◌, ◌+◌, ◌<◌, ◌≤◌, ◌++◌, Err, IfOk, OnOk, length};
ghost use Rattle.acl_model.specs.Stream.{size, branch_of, part_of, element_part};
ghost use Rattle.skip_encode.specs.declared.measure_fault.MeasureFault.TheVariants as fault;
ghost use Rattle.skip_encode.specs.inside.Measures.{part_measures};
ghost use Rattle.skip_encode.specs.PlainStream.{tree_under};
ghost use Rattle.skip_encode.specs.inside.Tallies.{IsSmall, prefix_size, with_part};

use crate::measure_fault::MeasureFault;
use crate::measures::{Measure, Measures};
use crate::tally::{LIMIT, Tally, within_limit};
use acl_model::{Bytes, Element, Item};
use tag_dictionary::Dictionary;

/// Measures the elements of a document under its dictionary, whose section is given. Returns the length of the tree
/// section, or `TooLarge` where the two sections together are above the limit.
pub(crate) fn measure_tree(
    measures: &mut Measures,
    names: &Dictionary,
    section: &[u8],
    root: &Element,
) -> Result<u32, MeasureFault>
    requires { length names.now ≤ 256 }
    ensures measured { OnOk result (measures.new
        ≡ part_measures (element_part (branch_of names.now root.now)) ++ measures.old) }
    ensures length { IfOk result (λ tree. tree ≡ size (tree_under names.now root.now)) }
    ensures small { IfOk result (λ tree. length section.now + tree ≤ 33554432) }
    ensures large { result ≡ Err fault.TooLarge
        → 33554432 < length section.now + size (tree_under names.now root.now) }
{
    measure_element(measures, names, root)?;
    let mut tally = Tally::new(0);
    tally.add_element(measures.last())?;
    let tree = tally.length_within(names.names().len() as u16);
    if section.len() as u64 + tree > LIMIT {
        return Err(MeasureFault::TooLarge);
    }
    Ok(tree as u32)
}

/// Measures an element and those inside it. Answers `TooLarge` where its content alone is above the limit.
#[cycle(tree)]
pub(crate) fn measure_element(
    measures: &mut Measures,
    names: &Dictionary,
    element: &Element,
) -> Result<(), MeasureFault>
    requires { length names.now ≤ 256 }
    ensures measured { OnOk result (measures.new
        ≡ part_measures (element_part (branch_of names.now element.now)) ++ measures.old) }
    ensures small { OnOk result (size (branch_of names.now element.now).content ≤ 33554432) }
    ensures large { result ≡ Err fault.TooLarge
        → 33554432 < size (branch_of names.now element.now).content }
{
    let mut tally = Tally::new(prefix_size(element.attributes.as_slice())?);
    let mut items = element.items.as_slice();
    while let [before @ .., last] = items {
        measure_item(measures, names, last, &mut tally)?;
        items = before;
    }
    let long = tally.length()?;
    measures.push(Measure {
        tag: names.number(element.name.as_slice()).unwrap_or(0),
        below: tally.members,
        long,
    })?;
    Ok(())
}

/// Measures an item, and counts it among the parts of its parent's content.
#[cycle(tree)]
fn measure_item(
    measures: &mut Measures,
    names: &Dictionary,
    item: &Item,
    tally: &mut Tally,
) -> Result<(), MeasureFault>
    requires few { length names.now ≤ 256 }
    requires small { IsSmall tally.old }
    ensures measured { OnOk result (measures.new
        ≡ part_measures (part_of names.now item.now) ++ measures.old) }
    ensures counted { OnOk result (tally.new ≡ with_part (part_of names.now item.now) tally.old) }
    ensures small { OnOk result (IsSmall tally.new) }
    ensures large { result ≡ Err fault.TooLarge
        → 33554432 < (with_part (part_of names.now item.now) tally.old).plain }
{
    match item {
        Item::Text(bytes) => tally.add_text(bytes.as_slice()),
        Item::Child(element) => {
            measure_element(measures, names, element.get())?;
            tally.add_element(measures.last())
        }
    }
}

/// The size of what comes before an element's items: two bytes for the number of its attributes, and for each attribute
/// its bytes and four for its length.
fn prefix_size(attributes: &[Bytes]) -> Result<u64, MeasureFault>
    ensures size { IfOk result (λ bytes. bytes ≡ prefix_size attributes.now) }
    ensures small { IfOk result (λ bytes. bytes ≤ 33554432) }
    ensures large { result ≡ Err fault.TooLarge → 33554432 < prefix_size attributes.now }
{
    let mut bytes = 2;
    for raw in attributes {
        bytes = within_limit(bytes, raw.as_slice().len() as u64 + 4)?;
    }
    Ok(bytes)
}
