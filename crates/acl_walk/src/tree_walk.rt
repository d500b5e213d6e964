//! A walk over a tree. Each event is read from the tree, and no call is refused.

ghost use Rattle.std.specs.Prelude.{◌≡◌, ◌^◌, ◌<◌, ◌≤◌, true, length};
ghost use Rattle.acl_model.specs.Limits.{most_names};
ghost use Rattle.acl_model.specs.Document.{is_view_document};
ghost use Rattle.acl_model.specs.Dictionary.{are_distinct};
ghost use Rattle.acl_walk.specs.TreeEvents.{document_events};
ghost use Rattle.acl_walk.specs.TreeState.{knows};

use crate::event::Event;
use crate::levels::Levels;
use crate::tree_spot::TreeSpot;
use crate::tree_step::{Now, step};
use crate::walk::Walk;
use acl_model::{Doc, Name};
use acl_outside::{NoMemory, ReadFault};
use std::alloc::Global;
use std::marker::Model;

/// A walk over a document in memory. Its only origin is this document, and it is always sound.
#[derive(Debug, Drop)]
pub struct TreeWalk<'a> {
    doc: &'a Doc,
    names: &'a [Name],
    taken: u64,
}

impl<'a> Model for TreeWalk<'a> {
    ghost use Rattle.std.specs.Coded.{codes};
    ghost use Rattle.acl_model.specs.contracts.document.Item as item;
    ghost use Rattle.acl_model.specs.contracts.document.Element as element;
    ghost use Rattle.acl_walk.specs.TreeState.{TreeState, CanBeWalked};

    ghost Value = { TreeState };

    ghost coded = { Prim.hlevel (codes, item.the_row.coded, element.the_row.coded) };

    ghost view = { λ w. record {
      tree = record { doc = w.doc.now; names = w.names.now };
      taken = w.taken;
    } };

    ghost invariant = { λ w. CanBeWalked (record { doc = w.doc.now; names = w.names.now }) };
}

impl<'a> TreeWalk<'a> {
    /// A walk over the document. A tag is the number of a name among `names`. It takes no memory.
    pub fn new(doc: &'a Doc, names: &'a [Name]) -> TreeWalk<'a>
        requires document { is_view_document doc.now ≡ true }
        requires few { length names.now ≤ most_names }
        requires distinct { are_distinct names.now ≡ true }
        requires known { knows names.now doc.now ≡ true }
        requires short { length (document_events names.now doc.now) < 2 ^ 64 }
        ensures doc { result.tree.doc ≡ doc.now }
        ensures names { result.tree.names ≡ names.now }
        ensures taken { result.taken ≡ 0 }
    {
        TreeWalk {
            doc,
            names,
            taken: 0,
        }
    }
}

impl<'a> Walk for TreeWalk<'a> {
    ghost use Rattle.std.specs.Prelude.{◌≡◌, Some, None, true, length};
    ghost use Rattle.acl_walk.specs.TreeEvents.{document_events};
    ghost use Rattle.acl_walk.specs.TreeState.{Tree, TreeState};
    ghost use Rattle.acl_walk.specs.inside.TreeSpots.{IsSpotOf, spot_to_come, spot_place, spot_stage, tree_depth, tree_events};

    type Spot = TreeSpot<'a>;

    ghost Fixed = { Tree };

    ghost fixed = { λ w. w.tree };

    ghost names = { λ k. k.names };

    ghost deep = { tree_depth };

    ghost is_origin = { λ k d. d ≡ k.doc };

    ghost shown = { λ k d. Some k.doc };

    ghost events = { λ k d. tree_events k };

    ghost made = { IsSpotOf };

    ghost is_place = { λ k d s. Unit {0} };

    ghost place = { λ k d s. spot_place k s };

    ghost to_come = { λ k s. length (spot_to_come k s) };

    ghost stage = { λ k s. spot_stage s };

    ghost sound = { λ w d. true };

    ghost broken = { λ w. None };

    ghost count = { λ w. w.taken };

    ghost went = { λ w o ps v. v.tree ≡ w.tree };

    ghost straight = { λ w a v b. Unit {0} };

    fn new_spot(&self, alloc: Global) -> Result<TreeSpot<'a>, NoMemory> {
        let levels = Levels::new(alloc)?;
        Ok(TreeSpot {
            levels,
            now: Now::Root(&self.doc.root),
        })
    }

    fn next(&mut self, spot: &mut TreeSpot<'a>) -> Result<Event, ReadFault> {
        self.taken = self.taken.saturating_add(1);
        let (event, now) = step(&mut spot.levels, spot.now, self.names);
        spot.now = now;
        Ok(event)
    }

    fn pass(&self, spot: &mut TreeSpot<'a>) {
        if !spot.levels.is_empty() {
            spot.now = Now::Finish;
        }
    }

    fn copy_spot(&self, from: &TreeSpot<'a>, to: &mut TreeSpot<'a>) {
        to.levels.copy_from(&from.levels);
        to.now = from.now;
    }

    fn taken(&self) -> u64 {
        self.taken
    }

    fn refusal(&self) -> Option<ReadFault> {
        None
    }

    ghost use Rattle.acl_walk.specs.inside.TreeWalkLaws.{tree_listed, tree_within, tree_fresh, tree_open_tags, tree_few, tree_few_open, tree_shallow, tree_named, tree_going};

    ghost listed = { tree_listed };

    ghost within = { tree_within };

    ghost fresh = { tree_fresh };

    ghost open_tags = { tree_open_tags };

    ghost few = { tree_few };

    ghost few_open = { tree_few_open };

    ghost shallow = { tree_shallow };

    ghost named = { tree_named };

    ghost going = { tree_going };

    ghost going_straight = { record { nowhere = λ w a. tt; onward = λ u v w a b c h i. tt } };
}
