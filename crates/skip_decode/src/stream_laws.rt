//! Laws on the events that a document's stream is read as. These functions do nothing: their
//! contracts are the laws.

ghost use Rattle.std.specs.Prelude.{◌≡◌, ℕ, ◌+◌, ◌^◌, ◌<◌, ◌≤◌, true, Some, is_some, List, [], ◌∷◌};
ghost use Rattle.std.specs.Prelude.{◌++◌, length, take, drop, All};
ghost use Rattle.std.specs.List.{list_all};
ghost use Rattle.acl_bits.specs.Row.{IsRow, is_member};
ghost use Rattle.acl_model.specs.Dictionary.{dictionary, dictionary_section, is_dictionary};
ghost use Rattle.acl_model.specs.Document.{is_document, height};
ghost use Rattle.acl_model.specs.Limits.{most_stream_bytes};
ghost use Rattle.acl_model.specs.Names.{is_name};
ghost use Rattle.acl_model.specs.Stream.{has_stream, head_bits, plain, bytes_of_segments};
ghost use Rattle.acl_model.specs.Stream.{filled_fragments, depth};
ghost use Rattle.acl_model.specs.StreamBits.{bytes_of};
ghost use Rattle.acl_model.specs.declared.document.Doc.{Doc};
ghost use Rattle.acl_model.specs.declared.document.Element.{Element};
ghost use Rattle.acl_model.specs.inside.StreamExamples.{one_text, one_child, two_children};
ghost use Rattle.acl_walk.specs.SpotMoves.{place_after, StandsAt, PassesTo};
ghost use Rattle.acl_walk.specs.Listed.{AreNames};
ghost use Rattle.acl_walk.specs.Spelling.{Spells, SpellsElement};
ghost use Rattle.acl_walk.specs.declared.event.Event.{Event};
ghost use Rattle.acl_walk.specs.declared.event.Event.TheVariants.{End};
ghost use Rattle.merkle_chunks.specs.declared.header.Header.{Header};
ghost use Rattle.skip_decode.specs.ExactSets.{HaveExactSets};
ghost use Rattle.skip_decode.specs.FileWalk.{numbers_in};
ghost use Rattle.skip_decode.specs.Positions.{Numbers, Position, first_position, tags_of, passed};
ghost use Rattle.skip_decode.specs.StreamEvents.{numbers_of, stream_events, events_from};
ghost use Rattle.skip_decode.specs.StreamEvents.{StandsAtEvent, IsReadToEnd};
ghost use Rattle.skip_decode.specs.StreamHeads.{head_at};
ghost use Rattle.skip_decode.specs.StreamOf.{IsStreamOf};
ghost use Rattle.skip_decode.specs.StreamSteps.{Step, step_at, position_after};
ghost use Rattle.skip_decode.specs.inside.SmallStreams.{one_text_events, one_child_events};
ghost use Rattle.skip_decode.specs.inside.SmallStreams.{two_children_events};
ghost use Rattle.skip_decode.specs.declared.head.Head.{Head};
ghost use Rattle.skip_encode.specs.PlainStream.{tree_under};

/// The events that a document's stream is read as spell the document, and the set of each Begin is
/// exact.
pub fn streams_spell_documents()
    ensures spelled { (d : Doc) → is_document d ≡ true → has_stream d ≡ true
        → Spells (dictionary d) (Some d) (stream_events d) }
    ensures exact { (d : Doc) → is_document d ≡ true → has_stream d ≡ true
        → HaveExactSets (stream_events d) }
{}

/// A position that stands at an event of a document has a step. Its event is this one, and it leads
/// to the next event. A pass leads to the Finish of the innermost open element.
pub fn positions_move_along_the_events()
    ensures first { (d : Doc) → is_document d ≡ true → has_stream d ≡ true
        → StandsAtEvent d (first_position (numbers_of d)) 0 }
    ensures rest { (d : Doc) (position : Position) (i : ℕ)
        → is_document d ≡ true → has_stream d ≡ true → StandsAtEvent d position i
        → events_from (numbers_of d) (plain d) position ≡ drop i (stream_events d) }
    ensures some_step { (d : Doc) (position : Position) (i : ℕ)
        → is_document d ≡ true → has_stream d ≡ true → StandsAtEvent d position i
        → is_some (step_at (numbers_of d) (plain d) position) ≡ true }
    ensures step { (d : Doc) (position : Position) (i : ℕ) (step : Step)
        → is_document d ≡ true → has_stream d ≡ true → StandsAtEvent d position i
        → step_at (numbers_of d) (plain d) position ≡ Some step
        → StandsAt (stream_events d) i step.event (place_after step.event i)
        × StandsAtEvent d (position_after position step) (place_after step.event i) }
    ensures pass { (d : Doc) (position : Position) (i : ℕ)
        → is_document d ≡ true → has_stream d ≡ true → StandsAtEvent d position i
        → (j : ℕ) × StandsAtEvent d (passed position) j
        × PassesTo (tags_of position) (stream_events d) i j }
{}

/// A head that is read has exactly the bytes that the encoder writes for its tag, tag set and
/// length. The tag and the members of its tag set are members of the parent's tag set.
pub fn heads_have_one_spelling()
    ensures spelled { (members : List ℕ) (w left : ℕ) (bytes : List ℕ) (head : Head)
        → IsRow members → All (λ b. b < 256) bytes
        → head_at members w left bytes ≡ Some head
        → take head.bytes bytes
        ≡ bytes_of (head_bits members w head.tag head.below head.long) }
    ensures counted { (members : List ℕ) (w left : ℕ) (bytes : List ℕ) (head : Head)
        → IsRow members → All (λ b. b < 256) bytes
        → head_at members w left bytes ≡ Some head
        → head.bytes ≡ length (bytes_of (head_bits members w head.tag head.below head.long)) }
    ensures sizes { (members : List ℕ) (w left : ℕ) (bytes : List ℕ) (head : Head)
        → IsRow members → All (λ b. b < 256) bytes
        → head_at members w left bytes ≡ Some head
        → (head.bytes ≤ left) × (head.long < 2 ^ w) }
    ensures tag { (members : List ℕ) (w left : ℕ) (bytes : List ℕ) (head : Head)
        → IsRow members → All (λ b. b < 256) bytes
        → head_at members w left bytes ≡ Some head
        → is_member members head.tag ≡ true }
    ensures below { (members : List ℕ) (w left : ℕ) (bytes : List ℕ) (head : Head)
        → IsRow members → All (λ b. b < 256) bytes
        → head_at members w left bytes ≡ Some head
        → IsRow head.below × All (λ n. is_member members n ≡ true) head.below }
{}

/// A stream that is read to its end has, after the dictionary section, the bytes that the encoder
/// writes for a tree. The events spell this tree, and it is no higher than the header's depth.
pub fn trees_have_one_spelling()
    ensures spelled { (k : Numbers) (names : List (List ℕ)) (stream : List ℕ) (events : List Event)
        → AreNames names → list_all is_name names ≡ true → length names ≡ k.names
        → All (λ b. b < 256) stream → k.dictionary + k.tree ≤ length stream
        → k.tree ≤ most_stream_bytes → IsReadToEnd k stream events
        → (root : Element) × SpellsElement names root events
        × (bytes_of_segments (tree_under names root) ≡ take k.tree (drop k.dictionary stream))
        × (height root ≤ k.depth) }
{}

/// Let a stream consist of the section of a dictionary, a tree that is read to its end, and the
/// fill. Then its events spell a document. If this document is valid and has the dictionary and the
/// header's depth, the stream is the document's.
pub fn streams_have_one_spelling()
    ensures spelled { (header : Header) (names : List (List ℕ)) (stream : List ℕ)
        (events : List Event)
        → is_dictionary names ≡ true → length names ≡ header.tags → All (λ b. b < 256) stream
        → header.dictionary + header.tree ≤ length stream
        → header.dictionary + header.tree ≤ most_stream_bytes
        → take header.dictionary stream ≡ dictionary_section names
        → stream ≡ filled_fragments (take (header.dictionary + header.tree) stream)
        → IsReadToEnd (numbers_in header) stream events
        → (d : Doc) × Spells names (Some d) (events ++ (End ∷ []))
        × (is_document d ≡ true → dictionary d ≡ names → depth d ≡ header.depth
        → IsStreamOf d stream header) }
{}

/// The events of three small documents, worked out by hand.
pub fn small_streams_are_read()
    ensures one_text { stream_events one_text ≡ one_text_events }
    ensures one_child { stream_events one_child ≡ one_child_events }
    ensures two_children { stream_events two_children ≡ two_children_events }
{}
