//! The sample line: how many elements and lines the sample has, and how many lines its view has.

ghost use Rattle.std.specs.Prelude.{◌≡◌, ◌^◌, ◌<◌, ◌≤◌, true, IfOk};
ghost use Rattle.acl_model.specs.Document.{is_document};
ghost use Rattle.sample_maker.specs.Hospital.{hospital};
ghost use Rattle.sample_maker.specs.inside.Counts.{line_count};
ghost use Rattle.sample_maker.specs.Sample as word;

use crate::counts::{elements_in, lines_in};
use crate::folders::joined;
use crate::rule::sample_rule;
use acl_model::{Bytes, Doc};
use acl_outside::NoMemory;
use itoa::Buffer;
use std::alloc::{AllocError, Global};
use tree_meaning::view_tree;

/// The number of lines of the document's view under the sample rule. It is 0 where the view shows nothing.
#[tactic(auto, using(crate::proofs::Numbers::numbers_by_counts))]
fn lines_of_view(alloc: Global, doc: &Doc) -> Result<u32, NoMemory>
    requires form { is_document doc.now ≡ true }
    requires few { line_count doc.now.root < 2 ^ 32 }
    ensures { IfOk result (λ number. number ≡ word.view_line_number doc.now) }
{
    let rule = sample_rule(alloc)?;
    match view_tree(alloc, doc, &[rule])? {
        Some(view) => Ok(lines_in(&view.root)),
        None => Ok(0),
    }
}

/// The sample line with these numbers.
#[tactic(auto, unfolding(crate::specs::Sample::line_of_numbers))]
fn line_of_numbers(alloc: Global, elements: u32, lines: u32, view: u32) -> Result<Bytes, AllocError>
    ensures { IfOk result (λ line. line ≡ word.line_of_numbers elements lines view) }
{
    let (mut first, mut second, mut third) = (Buffer::new(), Buffer::new(), Buffer::new());
    let parts: [&[u8]; 7] = [
        b"sample elements=",
        first.format(elements).as_bytes(),
        b" lines=",
        second.format(lines).as_bytes(),
        b" view=",
        third.format(view).as_bytes(),
        b"\n",
    ];
    joined(alloc, &parts)
}

/// The sample line of the hospital with n folders. The caller passes that hospital as `doc`.
#[tactic(auto, using(crate::proofs::Numbers::numbers_by_counts), unfolding(crate::specs::Sample::sample_line))]
pub fn sample_line(alloc: Global, n: u32, doc: &Doc) -> Result<Bytes, NoMemory>
    requires some { 1 ≤ n }
    requires few { n ≤ 20000 }
    requires made { doc.now ≡ hospital n }
    ensures exact { IfOk result (λ line. line ≡ word.sample_line n) }
{
    let view = lines_of_view(alloc, doc)?;
    let line = line_of_numbers(alloc, elements_in(&doc.root), lines_in(&doc.root), view)?;
    Ok(line)
}
