//! Laws: tokens follow the tags of the open elements, and so the events of a walk. Tokens *stand
//! at* an index of a list where their levels are those after the events before it. These functions
//! do nothing: their contracts are the laws.

ghost use Rattle.std.specs.Prelude.{◌≡◌, ◌≤◌, ◌-◌, [], ◌∷◌, ◌++◌, ℕ, List, Option, Some, None, length, take, true, false};
ghost use Rattle.std.specs.List.{slice_get};
ghost use Rattle.std.specs.Option.{option_map_or};
ghost use Rattle.acl_bits.specs.Row.{row_of};
ghost use Rattle.acl_model.specs.Limits.{most_names};
ghost use Rattle.acl_model.specs.Chain.{Chain, chain_at};
ghost use Rattle.acl_model.specs.Dictionary.{are_distinct};
ghost use Rattle.acl_model.specs.Select.{select};
ghost use Rattle.acl_model.specs.declared.document.Doc.{Doc};
ghost use Rattle.acl_model.specs.declared.document.Element.{Element};
ghost use Rattle.acl_model.specs.declared.rule.Rule.{Rule};
ghost use Rattle.acl_walk.specs.Nesting.{tags_after};
ghost use Rattle.acl_walk.specs.Spelling.{Spells};
ghost use Rattle.acl_walk.specs.SpotMoves.{StandsAt, PassesTo};
ghost use Rattle.acl_walk.specs.declared.event.Event.{Event};
ghost use Rattle.rule_automata.specs.Compile.{automata_of, have_no_predicates, is_closed};
ghost use Rattle.rule_automata.specs.Meaning.{AreTagsOf, selecting_rules};
ghost use Rattle.rule_automata.specs.Run.{begun};
ghost use Rattle.rule_automata.specs.declared.state.State.{State};
ghost use Rattle.token_stack.specs.Entries.{entries_below, rules_of};
ghost use Rattle.token_stack.specs.Invariant.{Stands, row_at};
ghost use Rattle.acl_walk.specs.Open.{OpenPlace, open_at, tags_at};
ghost use Rattle.token_stack.specs.Stack.{TokenStack, entries_at, innermost, open_elements};
ghost use Rattle.token_stack.specs.Stand.{entries_from, levels_after, row_after};
ghost use Rattle.token_stack.specs.TokensStand.{StandsInDocument, TokensStandAt, fed};

/// New tokens have the levels after no tag. After `begin` and `finish` the levels are those after
/// the tags of the open elements, the innermost first.
pub fn levels_follow_tags()
    ensures new { (states : List State)
        → entries_from 0 (begun true states) ∷ [] ≡ levels_after states [] }
    ensures begin { (states : List State) (tags : List ℕ) (tag : ℕ) → is_closed false states ≡ true
        → levels_after states tags
        ++ (entries_below states tag None (innermost (levels_after states tags)) ∷ [])
        ≡ levels_after states (tag ∷ tags) }
    ensures finish { (states : List State) (tags : List ℕ) (tag : ℕ)
        → take (length (levels_after states (tag ∷ tags)) - 1) (levels_after states (tag ∷ tags))
        ≡ levels_after states tags }
{}

/// Where the levels of tokens are those after the tags of the open elements, each level has exactly
/// the rules whose paths select its element. `inner` are the tags of the open elements inside it.
pub fn rows_have_the_rules_that_select()
    ensures chain { (names : List (List ℕ)) (rules : List Rule) (inner : List ℕ) (tag : ℕ)
        (tags : List ℕ) (e : Element) (up : Chain) → are_distinct names ≡ true
        → length names ≤ most_names → have_no_predicates rules ≡ true
        → AreTagsOf names (tag ∷ tags) (e ∷ up)
        → row_after (automata_of names rules).states (inner ++ (tag ∷ tags)) (length (tag ∷ tags))
        ≡ selecting_rules rules (e ∷ up) }
    ensures place { (names : List (List ℕ)) (rules : List Rule) (inner : List ℕ) (tag : ℕ)
        (tags : List ℕ) (d : Doc) (place : List ℕ) (e : Element) (up : Chain)
        → are_distinct names ≡ true → length names ≤ most_names → have_no_predicates rules ≡ true
        → AreTagsOf names (tag ∷ tags) (e ∷ up) → chain_at d.root [] place ≡ Some (e ∷ up)
        → row_after (automata_of names rules).states (inner ++ (tag ∷ tags)) (length (tag ∷ tags))
        ≡ row_of (λ n. option_map_or (λ r. select d r.path place) (slice_get rules n) false) }
{}

/// New tokens stand before the first event of each list. Where tokens stand at an index of a list
/// that spells a document, or none, the call that takes the event there makes them stand at the
/// next index. The calls are `begin`, `attr`, `head_end`, `text` and `finish`; End needs none.
/// After a pass of the innermost open element they stand at the new index without a call.
pub fn tokens_follow_events()
    ensures new { (states : List State) (list : List Event) (depth : ℕ)
        → TokensStandAt states list 0 (record {
          states = length states;
          depth = depth;
          levels = entries_from 0 (begun true states) ∷ [];
        }) }
    ensures event { (names : List (List ℕ)) (shown : Option Doc) (list : List Event)
        (states : List State) (place : ℕ) (event : Event) (next : ℕ) (tokens : TokenStack)
        → length names ≤ most_names → Spells names shown list → is_closed false states ≡ true
        → TokensStandAt states list place tokens → StandsAt list place event next
        → TokensStandAt states list next (fed states event tokens) }
    ensures pass { (names : List (List ℕ)) (d : Doc) (list : List Event) (states : List State)
        (old new : ℕ) (tokens : TokenStack) → length names ≤ most_names → Spells names (Some d) list
        → TokensStandAt states list old tokens → PassesTo (tags_at list old) list old new
        → TokensStandAt states list new tokens }
    ensures tags { (list : List Event) (place : ℕ) (event : Event) (next : ℕ)
        → StandsAt list place event next
        → tags_at list next ≡ tags_after (tags_at list place) event }
{}

/// Each element that is open at an index of a list is in the document that the list spells, at the
/// place that is counted from the events. The tags of the open elements are those of its name and
/// of its ancestors' names.
pub fn open_elements_stand_in_the_document()
    ensures { (names : List (List ℕ)) (d : Doc) (list : List Event) (place : ℕ)
        (inner : List OpenPlace) (element : OpenPlace) (up : List OpenPlace)
        → length names ≤ most_names → Spells names (Some d) list
        → open_at list place ≡ inner ++ (element ∷ up)
        → StandsInDocument names d element up }
{}

/// Where tokens stand at an index of a list that spells a document, they have a level for each
/// element that is open there. The set of that level has exactly the rules whose paths select the
/// element's place in the document. `inner` are the open elements inside it.
pub fn standing_tokens_have_the_rules_that_select()
    ensures levels { (states : List State) (list : List Event) (place : ℕ) (tokens : TokenStack)
        → TokensStandAt states list place tokens
        → open_elements tokens ≡ length (open_at list place) }
    ensures rows { (names : List (List ℕ)) (rules : List Rule) (d : Doc) (list : List Event)
        (place : ℕ) (tokens : TokenStack) (inner : List OpenPlace) (element : OpenPlace)
        (up : List OpenPlace) → are_distinct names ≡ true → length names ≤ most_names
        → have_no_predicates rules ≡ true → Spells names (Some d) list
        → TokensStandAt (automata_of names rules).states list place tokens
        → open_at list place ≡ inner ++ (element ∷ up)
        → rules_of (entries_at tokens.levels (length (element ∷ up)))
        ≡ row_of (λ n. option_map_or (λ r. select d r.path element.place)
        (slice_get rules n) false) }
{}

/// Tokens that stand at an index of a list that spells a document are sure and complete: at each
/// open level the rules of their set select the element there, and each rule that selects it is in
/// the set.
pub fn standing_tokens_are_sure_and_complete()
    ensures { (names : List (List ℕ)) (rules : List Rule) (d : Doc) (list : List Event)
        (place : ℕ) (tokens : TokenStack) → are_distinct names ≡ true → length names ≤ most_names
        → length rules ≤ 256 → have_no_predicates rules ≡ true → Spells names (Some d) list
        → TokensStandAt (automata_of names rules).states list place tokens
        → Stands rules d (open_at list place) (row_at tokens) (row_at tokens) }
{}
