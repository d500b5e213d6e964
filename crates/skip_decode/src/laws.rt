//! Two theorems: a stream is that of at most one document, and a list of events is that of at most one document.
//! These functions do nothing: their contracts are the theorems.

ghost use Rattle.std.specs.Prelude.{◌≡◌, ◌≤◌, ℕ, List, Option, true, length};
ghost use Rattle.acl_model.specs.declared.document.Doc.{Doc};
ghost use Rattle.acl_model.specs.Limits.{most_names};
ghost use Rattle.acl_model.specs.Document.{is_document};
ghost use Rattle.acl_model.specs.Dictionary.{dictionary, dictionary_section};
ghost use Rattle.acl_model.specs.Stream.{has_stream, plain, tree_section};
ghost use Rattle.acl_walk.specs.Spelling.{Spells};
ghost use Rattle.acl_walk.specs.declared.event.Event.{Event};
ghost use Rattle.merkle_chunks.specs.declared.header.Header.{Header};
ghost use Rattle.skip_decode.specs.Building.{built};
ghost use Rattle.skip_decode.specs.StreamOf.{IsStreamOf};

/// No two documents have the same stream and the same numbers. It is enough that the streams and the lengths of the two
/// sections are the same.
pub fn a_stream_is_of_one_document()
    ensures numbers { (d e : Doc) (stream : List ℕ) (header : Header)
        → IsStreamOf d stream header → IsStreamOf e stream header → d ≡ e }
    ensures lengths { (d e : Doc)
        → is_document d ≡ true → is_document e ≡ true → has_stream d ≡ true → has_stream e ≡ true
        → length (dictionary_section (dictionary d)) ≡ length (dictionary_section (dictionary e))
        → length (tree_section d) ≡ length (tree_section e)
        → plain d ≡ plain e → d ≡ e }
{}

/// A list of events that spells a document, or none, builds that. So a list spells at most one document.
pub fn events_build_their_document()
    ensures built { (names : List (List ℕ)) (shown : Option Doc) (events : List Event)
        → length names ≤ most_names → Spells names shown events → built names events ≡ shown }
    ensures one { (names : List (List ℕ)) (shown other : Option Doc) (events : List Event)
        → length names ≤ most_names → Spells names shown events → Spells names other events
        → shown ≡ other }
{}
