//! Laws: by what is known of the events of a list, predicates that are met and those that are not settled give
//! two bounds for the elements that a path selects. These functions do nothing: their contracts are the
//! laws.

ghost use Rattle.std.specs.Prelude.{◌≡◌, ◌≤◌, ◌<◌, ◌++◌, ◌∷◌, ◌&&◌, ◌||◌, [], ℕ, List, Some, true, false, length, not};
ghost use Rattle.std.specs.List.{list_all, slice_get};
ghost use Rattle.acl_bits.specs.Row.{is_member};
ghost use Rattle.acl_model.specs.Dictionary.{are_distinct};
ghost use Rattle.acl_model.specs.Limits.{most_names};
ghost use Rattle.acl_model.specs.Places.{at, prefixes};
ghost use Rattle.acl_model.specs.Predicates.{holds};
ghost use Rattle.acl_model.specs.RuleNumbers.{numbers_of};
ghost use Rattle.acl_model.specs.Select.{select};
ghost use Rattle.acl_model.specs.declared.document.Doc.{Doc};
ghost use Rattle.acl_model.specs.declared.document.Element.{Element};
ghost use Rattle.acl_model.specs.declared.path.Path.{Path};
ghost use Rattle.acl_model.specs.declared.path.Pred.{Pred};
ghost use Rattle.acl_model.specs.declared.rule.Rule.{Rule};
ghost use Rattle.acl_walk.specs.Begun.{finishes_at};
ghost use Rattle.acl_walk.specs.Open.{OpenPlace, open_at};
ghost use Rattle.acl_walk.specs.inside.CloseExamples.{nested, nested_events};
ghost use Rattle.acl_walk.specs.Spelling.{Spells};
ghost use Rattle.acl_walk.specs.declared.event.Event.{Event};
ghost use Rattle.rule_automata.specs.Compile.{automata_of, have_no_predicates, is_empty_of};
ghost use Rattle.token_stack.specs.Bounds.{PredicateTruth, Knowledge, first_events, KnowsNoLess, KnowsNoLessAt};
ghost use Rattle.token_stack.specs.Bounds.{model_truth, is_settled, sure_truth, may_truth};
ghost use Rattle.token_stack.specs.Bounds.{IsAtMost, selects_by, are_settled, learned};
ghost use Rattle.token_stack.specs.Bounds.{KnowsNoLessUpTo, AreRulesBeyond, rows_up_to};
ghost use Rattle.token_stack.specs.Bounds.{rules_by, sure_rules, may_rules, place_of_level, AreStillOpen, StandsBy};
ghost use Rattle.token_stack.specs.Invariant.{does_rule_select, Stands, row_at};
ghost use Rattle.token_stack.specs.SignRows.{IsInOrder};
ghost use Rattle.token_stack.specs.Stack.{TokenStack};
ghost use Rattle.token_stack.specs.inside.BoundExamples.{a_with_b};
ghost use Rattle.token_stack.specs.TokensStand.{TokensStandAt};

/// Where more predicates are taken as true, a path selects no less. Negation swaps two truths, of which
/// one is at most the other. By the truth of the model a path selects what it selects in the document.
/// Without predicates this is so by each truth.
pub fn selection_follows_predicates()
    ensures grows { (d : Doc) (low high : PredicateTruth) (path : Path) (place : List ℕ)
        → IsAtMost d low high → selects_by d low path place ≡ true
        → selects_by d high path place ≡ true }
    ensures negation { (d : Doc) (low high : PredicateTruth) → IsAtMost d low high
        → IsAtMost d (λ bearer pred. not (high bearer pred)) (λ bearer pred. not (low bearer pred)) }
    ensures model { (d : Doc) (path : Path) (place : List ℕ)
        → selects_by d (model_truth d) path place ≡ select d path place }
    ensures plain { (d : Doc) (truth : PredicateTruth) (path : Path) (place : List ℕ)
        → list_all (λ s. is_empty_of s.preds) path.steps ≡ true
        → selects_by d truth path place ≡ select d path place }
{}

/// When predicates are settled, in a list that spells a document. By what is known at its bearer, a predicate
/// is surely true exactly where it is settled and true, and it may be true exactly where it is not settled or
/// is true. After the Finish of its bearer a predicate is settled, and after all events each is.
pub fn predicates_are_settled()
    ensures sure { (names : List (List ℕ)) (d : Doc) (list : List Event) (known : Knowledge)
        (bearer : List ℕ) (e : Element) (pred : Pred) → length names ≤ most_names
        → Spells names (Some d) list → at d bearer ≡ Some e
        → sure_truth d list known bearer pred
        ≡ (is_settled d list (known bearer) bearer pred && holds pred e) }
    ensures may { (names : List (List ℕ)) (d : Doc) (list : List Event) (known : Knowledge)
        (bearer : List ℕ) (e : Element) (pred : Pred) → length names ≤ most_names
        → Spells names (Some d) list → at d bearer ≡ Some e
        → may_truth d list known bearer pred
        ≡ (not (is_settled d list (known bearer) bearer pred) || holds pred e) }
    ensures after_finish { (names : List (List ℕ)) (d : Doc) (list : List Event) (finish i : ℕ)
        (bearer : List ℕ) (e : Element) (pred : Pred) → length names ≤ most_names
        → Spells names (Some d) list → at d bearer ≡ Some e
        → finishes_at list bearer finish ≡ true → finish < i
        → is_settled d list i bearer pred ≡ true }
    ensures at_end { (names : List (List ℕ)) (d : Doc) (list : List Event) (bearer : List ℕ)
        (e : Element) (pred : Pred) → length names ≤ most_names → Spells names (Some d) list
        → at d bearer ≡ Some e → is_settled d list (length list) bearer pred ≡ true }
{}

/// In a list that spells a document, a predicate that is surely true by what is known is true, and one that is
/// true may be true. Where more is known no fewer are surely true, and no more may be.
pub fn predicates_lie_between_bounds()
    ensures sure { (names : List (List ℕ)) (d : Doc) (list : List Event) (known : Knowledge)
        → length names ≤ most_names → Spells names (Some d) list
        → IsAtMost d (sure_truth d list known) (model_truth d) }
    ensures may { (names : List (List ℕ)) (d : Doc) (list : List Event) (known : Knowledge)
        → length names ≤ most_names → Spells names (Some d) list
        → IsAtMost d (model_truth d) (may_truth d list known) }
    ensures sure_grows { (names : List (List ℕ)) (d : Doc) (list : List Event)
        (known more : Knowledge) → length names ≤ most_names → Spells names (Some d) list
        → KnowsNoLess known more → IsAtMost d (sure_truth d list known) (sure_truth d list more) }
    ensures may_shrinks { (names : List (List ℕ)) (d : Doc) (list : List Event)
        (known more : Knowledge) → length names ≤ most_names → Spells names (Some d) list
        → KnowsNoLess known more → IsAtMost d (may_truth d list more) (may_truth d list known) }
{}

/// So what a path surely selects it selects, and what it selects it may select. The first grows with what is
/// known and the second shrinks. Where each step's predicates are settled at those of an element and its
/// ancestors that pass the step's name test, the three are the same there.
pub fn selection_lies_between_bounds()
    ensures sure { (names : List (List ℕ)) (d : Doc) (list : List Event) (known : Knowledge)
        (path : Path) (place : List ℕ) → length names ≤ most_names → Spells names (Some d) list
        → selects_by d (sure_truth d list known) path place ≡ true
        → select d path place ≡ true }
    ensures may { (names : List (List ℕ)) (d : Doc) (list : List Event) (known : Knowledge)
        (path : Path) (place : List ℕ) → length names ≤ most_names → Spells names (Some d) list
        → select d path place ≡ true
        → selects_by d (may_truth d list known) path place ≡ true }
    ensures sure_grows { (names : List (List ℕ)) (d : Doc) (list : List Event)
        (known more : Knowledge) (path : Path) (place : List ℕ) → length names ≤ most_names
        → Spells names (Some d) list → KnowsNoLess known more
        → selects_by d (sure_truth d list known) path place ≡ true
        → selects_by d (sure_truth d list more) path place ≡ true }
    ensures may_shrinks { (names : List (List ℕ)) (d : Doc) (list : List Event)
        (known more : Knowledge) (path : Path) (place : List ℕ) → length names ≤ most_names
        → Spells names (Some d) list → KnowsNoLess known more
        → selects_by d (may_truth d list more) path place ≡ true
        → selects_by d (may_truth d list known) path place ≡ true }
    ensures settled_sure { (names : List (List ℕ)) (d : Doc) (list : List Event)
        (known : Knowledge) (path : Path) (place : List ℕ) → length names ≤ most_names
        → Spells names (Some d) list → are_settled d list known path place ≡ true
        → selects_by d (sure_truth d list known) path place ≡ select d path place }
    ensures settled_may { (names : List (List ℕ)) (d : Doc) (list : List Event)
        (known : Knowledge) (path : Path) (place : List ℕ) → length names ≤ most_names
        → Spells names (Some d) list → are_settled d list known path place ≡ true
        → selects_by d (may_truth d list known) path place ≡ select d path place }
{}

/// The same of the rules at a place: each that surely selects it selects it, and each that selects it may
/// select it. Where the predicates of a rule's path are settled, as above, a rule that may select does so
/// surely. Where no rule has a predicate, each truth of predicates gives the rules that select the place.
pub fn rules_lie_between_bounds()
    ensures sure { (names : List (List ℕ)) (rules : List Rule) (d : Doc) (list : List Event)
        (known : Knowledge) (place : List ℕ) (n : ℕ) → length names ≤ most_names
        → Spells names (Some d) list → is_member (sure_rules rules d list known place) n ≡ true
        → does_rule_select rules d n place ≡ true }
    ensures may { (names : List (List ℕ)) (rules : List Rule) (d : Doc) (list : List Event)
        (known : Knowledge) (place : List ℕ) (n : ℕ) → length names ≤ most_names
        → length rules ≤ 256 → Spells names (Some d) list
        → does_rule_select rules d n place ≡ true
        → is_member (may_rules rules d list known place) n ≡ true }
    ensures sure_grows { (names : List (List ℕ)) (rules : List Rule) (d : Doc) (list : List Event)
        (known more : Knowledge) (place : List ℕ) (n : ℕ) → length names ≤ most_names
        → Spells names (Some d) list → KnowsNoLess known more
        → is_member (sure_rules rules d list known place) n ≡ true
        → is_member (sure_rules rules d list more place) n ≡ true }
    ensures may_shrinks { (names : List (List ℕ)) (rules : List Rule) (d : Doc) (list : List Event)
        (known more : Knowledge) (place : List ℕ) (n : ℕ) → length names ≤ most_names
        → Spells names (Some d) list → KnowsNoLess known more
        → is_member (may_rules rules d list more place) n ≡ true
        → is_member (may_rules rules d list known place) n ≡ true }
    ensures settled { (names : List (List ℕ)) (rules : List Rule) (d : Doc) (list : List Event)
        (known : Knowledge) (place : List ℕ) (n : ℕ) (rule : Rule) → length names ≤ most_names
        → Spells names (Some d) list → slice_get rules n ≡ Some rule
        → are_settled d list known rule.path place ≡ true
        → is_member (may_rules rules d list known place) n ≡ true
        → is_member (sure_rules rules d list known place) n ≡ true }
    ensures plain { (rules : List Rule) (d : Doc) (truth : PredicateTruth) (place : List ℕ)
        → have_no_predicates rules ≡ true
        → rules_by rules d truth place ≡ numbers_of (λ r. select d r.path place) rules }
    ensures in_order { (rules : List Rule) (d : Doc) (truth : PredicateTruth) (place : List ℕ)
        → IsInOrder (rules_by rules d truth place) }
{}

/// Sets of rules that stand by what is known are right for the open elements. In them a rule whose predicates
/// are settled is in the sure set of a level if it is in the possible one.
pub fn standing_sets_are_right()
    ensures right { (names : List (List ℕ)) (rules : List Rule) (d : Doc) (list : List Event) (i : ℕ)
        (known : Knowledge) (surely possibly : ℕ → List ℕ) → length names ≤ most_names
        → length rules ≤ 256 → Spells names (Some d) list
        → StandsBy rules d list i known surely possibly
        → Stands rules d (open_at list i) surely possibly }
    ensures settled { (names : List (List ℕ)) (rules : List Rule) (d : Doc) (list : List Event) (i : ℕ)
        (known : Knowledge) (surely possibly : ℕ → List ℕ) (level : ℕ) (place : List ℕ) (n : ℕ)
        (rule : Rule) → length names ≤ most_names → Spells names (Some d) list
        → StandsBy rules d list i known surely possibly
        → place_of_level (open_at list i) level ≡ Some place → slice_get rules n ≡ Some rule
        → are_settled d list known rule.path place ≡ true
        → is_member (possibly level) n ≡ true → is_member (surely level) n ≡ true }
{}

/// After a look-ahead no less is known, so that the events before are known still. At the elements of the levels
/// that it tells of then no more is known than ahead, if it was so before. At such an element the rules that
/// surely select and those that may are those by what is known ahead, if that is no less at the element and its
/// ancestors. The elements of the levels up to one are still open ahead if at no index between fewer elements
/// are open.
pub fn a_look_ahead_tells_more()
    ensures more { (level : ℕ) (own ahead : Knowledge)
        → KnowsNoLess own (learned level own ahead) }
    ensures read { (level i : ℕ) (own ahead : Knowledge) (places : List (List ℕ))
        → KnowsNoLessAt places (first_events i) own
        → KnowsNoLessAt places (first_events i) (learned level own ahead) }
    ensures no_more { (list : List Event) (i level : ℕ) (own ahead : Knowledge)
        → KnowsNoLessUpTo list i level own ahead
        → KnowsNoLessUpTo list i level (learned level own ahead) ahead }
    ensures sure { (rules : List Rule) (d : Doc) (list : List Event) (level : ℕ)
        (own ahead : Knowledge) (place : List ℕ) → length place < level
        → KnowsNoLessAt (prefixes place) own ahead
        → sure_rules rules d list (learned level own ahead) place
        ≡ sure_rules rules d list ahead place }
    ensures may { (rules : List Rule) (d : Doc) (list : List Event) (level : ℕ)
        (own ahead : Knowledge) (place : List ℕ) → length place < level
        → KnowsNoLessAt (prefixes place) own ahead
        → may_rules rules d list (learned level own ahead) place
        ≡ may_rules rules d list ahead place }
    ensures still_open { (list : List Event) (i ahead level : ℕ) → i ≤ ahead
        → ((j : ℕ) → i ≤ j → j ≤ ahead → level ≤ length (open_at list j))
        → AreStillOpen list i ahead level }
{}

/// After a look-ahead, sets of rules stand by what is known then. The elements of the levels that it tells of
/// must still be open ahead, and no less must be known of them there. Up to this level the sets are those that
/// stand ahead. At deeper levels they are the rules by what is known after the look-ahead.
pub fn standing_sets_follow_a_look_ahead()
    ensures { (rules : List Rule) (d : Doc) (list : List Event) (i j level : ℕ)
        (own ahead : Knowledge) (surely possibly ahead_surely ahead_possibly : ℕ → List ℕ)
        (deeper_surely deeper_possibly : ℕ → List ℕ)
        → StandsBy rules d list i own surely possibly
        → StandsBy rules d list j ahead ahead_surely ahead_possibly
        → AreStillOpen list i j level → KnowsNoLessUpTo list i level own ahead
        → AreRulesBeyond rules d list i (learned level own ahead) level
        deeper_surely deeper_possibly
        → StandsBy rules d list i (learned level own ahead)
        (rows_up_to level ahead_surely deeper_surely)
        (rows_up_to level ahead_possibly deeper_possibly) }
{}

/// Where no rule has a predicate, the rows of tokens that stand at an index of a list are those of each
/// truth of predicates, and they stand by whatever is known.
pub fn standing_tokens_stand_by_what_is_known()
    ensures rows { (names : List (List ℕ)) (rules : List Rule) (d : Doc) (list : List Event) (i : ℕ)
        (tokens : TokenStack) (truth : PredicateTruth) (inner : List OpenPlace)
        (element : OpenPlace) (up : List OpenPlace) → are_distinct names ≡ true
        → length names ≤ most_names → have_no_predicates rules ≡ true → Spells names (Some d) list
        → TokensStandAt (automata_of names rules).states list i tokens
        → open_at list i ≡ inner ++ (element ∷ up)
        → row_at tokens (length (element ∷ up)) ≡ rules_by rules d truth element.place }
    ensures known { (names : List (List ℕ)) (rules : List Rule) (d : Doc) (list : List Event) (i : ℕ)
        (tokens : TokenStack) (known : Knowledge) → are_distinct names ≡ true
        → length names ≤ most_names → have_no_predicates rules ≡ true → Spells names (Some d) list
        → TokensStandAt (automata_of names rules).states list i tokens
        → ((place : List ℕ) → i ≤ known place)
        → StandsBy rules d list i known (row_at tokens) (row_at tokens) }
{}

/// What `//a[b]` surely selects and may select, worked out by hand. In a small document the first `a` has a
/// child `b`, which begins with event 4, and the second one has none and finishes with event 10.
pub fn bounds_of_a_small_document()
    ensures open_sure { selects_by nested (sure_truth nested nested_events (first_events 4)) a_with_b
        (1 ∷ []) ≡ false }
    ensures open_may { selects_by nested (may_truth nested nested_events (first_events 4)) a_with_b
        (1 ∷ []) ≡ true }
    ensures met_sure { selects_by nested (sure_truth nested nested_events (first_events 5)) a_with_b
        (1 ∷ []) ≡ true }
    ensures unmet_sure { selects_by nested (sure_truth nested nested_events (first_events 10))
        a_with_b (2 ∷ []) ≡ false }
    ensures unmet_may { selects_by nested (may_truth nested nested_events (first_events 10)) a_with_b
        (2 ∷ []) ≡ true }
    ensures failed_may { selects_by nested (may_truth nested nested_events (first_events 11))
        a_with_b (2 ∷ []) ≡ false }
{}
