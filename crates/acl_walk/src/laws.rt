//! Laws about lists of events that spell documents. These functions do nothing: their contracts are the
//! laws.

ghost use Rattle.std.specs.Prelude.{◌≡◌, ℕ, ◌+◌, ◌≤◌, true, false, Some, List, [], length};
ghost use Rattle.acl_model.specs.Limits.{most_names};
ghost use Rattle.acl_model.specs.Document.{height, is_view_document};
ghost use Rattle.acl_model.specs.Text.{text};
ghost use Rattle.acl_model.specs.declared.document.Doc.{Doc};
ghost use Rattle.acl_walk.specs.EventText.{text_of_events};
ghost use Rattle.acl_walk.specs.Nesting.{Nest, at_start};
ghost use Rattle.acl_walk.specs.Pieces.{Joins, pieces};
ghost use Rattle.acl_walk.specs.Spelling.{Spells};
ghost use Rattle.acl_walk.specs.TreeEvents.{document_events};
ghost use Rattle.acl_walk.specs.TreeState.{knows};
ghost use Rattle.acl_walk.specs.declared.event.Event.{Event};

/// The events of a list that spells a view document nest, with at most as many open elements as the
/// document is high.
pub fn spelled_lists_nest()
    ensures { (names : List (List ℕ)) (d : Doc) (events : List Event)
        → Spells names (Some d) events → is_view_document d ≡ true
        → Nest (length names) (height d.root) [] at_start events }
{}

/// The lines that a list gives are the text of the document that it spells.
pub fn spelled_lists_tell_texts()
    ensures { (names : List (List ℕ)) (d : Doc) (events : List Event) (tag : ℕ)
        → length names ≤ most_names → Spells names (Some d) events
        → text_of_events names tag false events ≡ text d }
{}

/// The events that are read from a tree spell it, if each name in it is known.
pub fn trees_spell_documents()
    ensures pieces { (bytes : List ℕ) → Joins bytes (pieces bytes) }
    ensures document { (names : List (List ℕ)) (d : Doc) → knows names d ≡ true
        → Spells names (Some d) (document_events names d) }
{}

/// A document has at most one event more than its text has bytes. So if the text has fewer than 2^64 - 1
/// bytes, there are fewer than 2^64 events.
pub fn events_are_no_more_than_bytes()
    ensures { (names : List (List ℕ)) (d : Doc)
        → length (document_events names d) ≤ length (text d) + 1 }
{}
