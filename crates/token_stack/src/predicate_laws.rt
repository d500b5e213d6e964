//! Laws: what a list of events tells about predicates at the open elements, row by row, and which elements a path
//! selects by it. These functions do nothing: their contracts are the laws.

ghost use Rattle.std.specs.Prelude.{◌≡◌, ◌≤◌, ◌<◌, ◌+◌, ◌++◌, ◌∷◌, ◌&&◌, ◌||◌, [], ℕ, List, Some, None, true, false};
ghost use Rattle.std.specs.Prelude.{length, map, take, not, codes};
ghost use Rattle.std.specs.List.{slice_get};
ghost use Rattle.std.specs.Option.{option_map_or};
ghost use Rattle.acl_bits.specs.Row.{is_member, row_of};
ghost use Rattle.acl_bits.specs.declared.piece.Piece.{Piece};
ghost use Rattle.acl_model.specs.Limits.{most_names};
ghost use Rattle.acl_model.specs.NameTests.{passes};
ghost use Rattle.acl_model.specs.Places.{at, prefixes};
ghost use Rattle.acl_model.specs.Targets.{path_leads};
ghost use Rattle.acl_model.specs.Values.{string_value};
ghost use Rattle.acl_model.specs.declared.document.Doc.{Doc};
ghost use Rattle.acl_model.specs.declared.document.Element.{Element};
ghost use Rattle.acl_model.specs.declared.path.Path.{Path};
ghost use Rattle.acl_model.specs.declared.path.Pred.{Pred};
ghost use Rattle.acl_model.specs.declared.path.PredStep.{PredStep};
ghost use Rattle.acl_model.specs.declared.path.Step.{Step};
ghost use Rattle.acl_model.specs.declared.rule.Rule.{Rule};
ghost use Rattle.acl_walk.specs.Begun.{innermost_is_at, finishes_at};
ghost use Rattle.acl_walk.specs.Closes.{attributes_at, is_met_at};
ghost use Rattle.acl_walk.specs.Open.{open_at, places_of};
ghost use Rattle.acl_walk.specs.Spelling.{Spells};
ghost use Rattle.acl_walk.specs.declared.event.Event.{Event};
ghost use Rattle.acl_walk.specs.declared.event.Event.TheVariants.{Begin, Attr, Finish};
ghost use Rattle.token_stack.specs.Bounds.{PredicateTruth, Knowledge, first_events, sure_truth, may_truth, learned};
ghost use Rattle.token_stack.specs.Bounds.{KnowsNoLessAt, KnowsNoLessUpTo, knows_next};
ghost use Rattle.token_stack.specs.Bounds.{place_of_level, AreStillOpen, rows_up_to, StandsBy};
ghost use Rattle.token_stack.specs.Bounds.{is_settled, is_kept_by, selects_by, rules_by, sure_rules, may_rules};
ghost use Rattle.token_stack.specs.Hits.{open_with, hits, HitsInside};
ghost use Rattle.token_stack.specs.OpenPredicates.{is_open, have_open};
ghost use Rattle.token_stack.specs.PredicateLevels.{PredicateLevel, IsRowOf, TellsLevel, joined_level, settled_level};
ghost use Rattle.token_stack.specs.PredicateLevels.{TellLevels, TellNow, all_met, levels_after_event, settled_levels};
ghost use Rattle.token_stack.specs.PredicateLevels.{AreSuffixes, IsHitRow, names_at, AreNumbersOf};
ghost use Rattle.token_stack.specs.PredicateLevels.{are_all_met, may_all_be, StepTests, AreTestsOf, kept_rows};
ghost use Rattle.token_stack.specs.PredicateLevels.{learned_levels, outermost, rules_of_level};
ghost use Rattle.token_stack.specs.ReadValues.{texts_at, raw_at};
ghost use Rattle.token_stack.specs.RowExamples.{b_with_c, c_is_x, b_in_a_in_a, equal_to};
ghost use Rattle.token_stack.specs.RowExamples.{child_b, descendant_b, suffixes_of_b, preds_of_b};
ghost use Rattle.token_stack.specs.RowExamples.{levels_of_a, levels_with_b, levels_with_c, first_met};
ghost use Rattle.token_stack.specs.RowExamples.{steps_to_a, kept_inner, kept_root, kept_b, first_four, first_two, just};
ghost use Rattle.token_stack.specs.StateRows.{StateRow, SuffixStates, IsSuffix, empty_suffix, HasEmptyAlone};
ghost use Rattle.token_stack.specs.StateRows.{moved_row, risen, rising_rows};
ghost use Rattle.token_stack.specs.StateRows.{StepStates, ArePath, last_of_path, AreKeptRows, taken_row, AreWithin};
ghost use Rattle.token_stack.specs.WayNames.{led, names_from};

/// To an element inside its context node a predicate's path leads exactly where the names say so, from a
/// child of the context node down to the element.
pub fn ways_lead_by_names()
    ensures { (d : Doc) (way : List PredStep) (place more : List ℕ) (x : Element)
        → at d (place ++ more) ≡ Some x
        → path_leads d way place (place ++ more) ≡ led way (names_from d place more) }
{}

/// Rows from the innermost element outward, each from the row of the child and the child's name, say at each
/// element which suffixes of the predicates' paths lead to the innermost one. At the innermost itself only empty
/// suffixes are in the row.
pub fn rows_rise_as_ways_lead()
    ensures { (states : SuffixStates) (innermost : StateRow) (names : List (List ℕ))
        (way : List PredStep) (n : ℕ) → IsSuffix states n way → HasEmptyAlone innermost n way
        → risen states innermost names n ≡ (led way names && innermost (empty_suffix n way)) }
{}

/// Rows from the root inward, each from the row of the parent and the steps that keep the element by a truth of
/// predicates, say which paths select the element by that truth. Where more is kept at each element, more steps are
/// taken.
pub fn rows_of_steps_tell_what_paths_select()
    ensures selects { (d : Doc) (truth : PredicateTruth) (states : StepStates) (n : ℕ) (path : Path)
        (place : List ℕ) (rows : List StateRow) → ArePath states n path.steps
        → AreKeptRows d truth n path.steps (prefixes place) rows
        → taken_row states rows (last_of_path n path.steps) ≡ selects_by d truth path place }
    ensures rules { (rules : List Rule) (d : Doc) (truth : PredicateTruth) (states : StepStates)
        (begins : ℕ → ℕ) (place : List ℕ) (rows : List StateRow)
        → ((n : ℕ) (rule : Rule) → slice_get rules n ≡ Some rule
        → ArePath states (begins n) rule.path.steps)
        → ((n : ℕ) (rule : Rule) → slice_get rules n ≡ Some rule
        → AreKeptRows d truth (begins n) rule.path.steps (prefixes place) rows)
        → rules_by rules d truth place
        ≡ row_of (λ n. option_map_or (λ (rule : Rule). taken_row states rows
        (last_of_path (begins n) rule.path.steps)) (slice_get rules n) false) }
    ensures grows { (states : StepStates) (lows highs : List StateRow) → AreWithin lows highs
        → (n : ℕ) → taken_row states lows n ≡ true → taken_row states highs n ≡ true }
{}

/// An event meets a predicate at a context node, the bearer, exactly where the innermost element at the event is the
/// bearer or inside it, the names from a child of the bearer down to it lead there, and the event shows what the
/// predicate asks for.
pub fn events_meet_what_they_hit()
    ensures exact { (d : Doc) (list : List Event) (bearer : List ℕ) (pred : Pred) (i : ℕ)
        (event : Event) (more : List ℕ) (x : Element) → slice_get list i ≡ Some event
        → innermost_is_at (bearer ++ more) (open_with (open_at list i) event) ≡ true
        → at d (bearer ++ more) ≡ Some x
        → is_met_at d list bearer pred i
        ≡ (led pred.way (names_from d bearer more)
        && hits event (attributes_at list i) x pred.attribute pred.cmp) }
    ensures inside { (d : Doc) (list : List Event) (bearer : List ℕ) (pred : Pred) (i : ℕ)
        → is_met_at d list bearer pred i ≡ true → HitsInside d list bearer pred i }
{}

/// The row that has risen from the innermost element at an event to an element that is open with it has what the event
/// meets there. Each row follows from the child's.
pub fn rows_rise_from_the_innermost_element()
    ensures now { (preds : List Pred) (states : SuffixStates) (d : Doc) (list : List Event) (i : ℕ)
        (event : Event) (x : Element) (hit : StateRow) (bearer more : List ℕ)
        → slice_get list i ≡ Some event
        → innermost_is_at (bearer ++ more) (open_with (open_at list i) event) ≡ true
        → at d (bearer ++ more) ≡ Some x → AreSuffixes states preds
        → IsHitRow preds hit event (attributes_at list i) x
        → IsRowOf preds (risen states hit (names_from d bearer more))
        (λ pred. is_met_at d list bearer pred i) }
    ensures all { (preds : List Pred) (states : SuffixStates) (d : Doc) (list : List Event) (i : ℕ)
        (event : Event) (x : Element) (hit : StateRow) (place : List ℕ)
        → slice_get list i ≡ Some event
        → innermost_is_at place (open_with (open_at list i) event) ≡ true → at d place ≡ Some x
        → AreSuffixes states preds → IsHitRow preds hit event (attributes_at list i) x
        → TellNow preds d list i (places_of (open_with (open_at list i) event))
        (rising_rows states hit (names_at d (places_of (open_with (open_at list i) event)))) }
    ensures innermost { (states : SuffixStates) (hit : StateRow) (d : Doc) (place : List ℕ)
        → risen states hit (names_from d place []) ≡ hit }
    ensures outward { (states : SuffixStates) (hit : StateRow) (d : Doc) (place more : List ℕ)
        (k : ℕ) (c : Element) → at d (place ++ (k ∷ [])) ≡ Some c
        → risen states hit (names_from d place (k ∷ more))
        ≡ moved_row states.goes states.deep
        (risen states hit (names_from d (place ++ (k ∷ [])) more)) (λ n. states.lets n c.name) }
{}

/// In a list that spells a document, the levels of the open elements follow from event to event. At each of them at
/// least the events before are known, and after a look-ahead more are. The rows have what the event meets at each
/// element that is open with it. What a Finish tells can be known before its element is closed: there all predicates
/// that aren't met have failed. What an event meets changes nothing where the event is known.
pub fn levels_follow_events()
    ensures start { (preds : List Pred) (d : Doc) (list : List Event) (known : Knowledge)
        → TellLevels preds d list known (places_of (open_at list 0)) [] }
    ensures event { (names : List (List ℕ)) (d : Doc) (list : List Event) (preds : List Pred)
        (i : ℕ) (event : Event) (known : Knowledge) (rows : List StateRow)
        (levels : List PredicateLevel) → length names ≤ most_names → Spells names (Some d) list
        → slice_get list i ≡ Some event
        → TellNow preds d list i (places_of (open_with (open_at list i) event)) rows
        → KnowsNoLessAt (places_of (open_at list i)) (first_events i) known
        → TellLevels preds d list known (places_of (open_at list i)) levels
        → TellLevels preds d list (knows_next list i known) (places_of (open_at list (i + 1)))
        (levels_after_event event rows levels) }
    ensures settle { (preds : List Pred) (d : Doc) (list : List Event) (i tag : ℕ) (known : Knowledge)
        (rows : List StateRow) (levels : List PredicateLevel)
        → slice_get list i ≡ Some (Finish tag)
        → TellNow preds d list i (places_of (open_at list i)) rows
        → KnowsNoLessAt (places_of (open_at list i)) (first_events i) known
        → TellLevels preds d list known (places_of (open_at list i)) levels
        → TellLevels preds d list (knows_next list i known) (places_of (open_at list i))
        (settled_levels (all_met rows levels)) }
    ensures again { (preds : List Pred) (d : Doc) (list : List Event) (i : ℕ) (known : Knowledge)
        (places : List (List ℕ)) (rows : List StateRow) (levels : List PredicateLevel)
        → TellNow preds d list i places rows
        → KnowsNoLessAt places (first_events (i + 1)) known
        → TellLevels preds d list known places levels
        → TellLevels preds d list known places (all_met rows levels) }
{}

/// After an event it is known at each element, and at an element that was open before no less is known than then. So a
/// look-ahead that takes one more event still knows no less at the elements that stay open. Where exactly the events
/// before were known, exactly one more is known. Levels tell what is known at the places that they are of, whatever is
/// known elsewhere.
pub fn one_event_more_is_known()
    ensures read { (list : List Event) (i : ℕ) (known : Knowledge) (places : List (List ℕ))
        → KnowsNoLessAt places (first_events (i + 1)) (knows_next list i known) }
    ensures no_less { (list : List Event) (i : ℕ) (known : Knowledge) (level : ℕ) (place : List ℕ)
        → place_of_level (open_at list i) level ≡ Some place
        → known place ≤ knows_next list i known place }
    ensures onward { (list : List Event) (i j level : ℕ) (own ahead : Knowledge)
        → AreStillOpen list i j level → KnowsNoLessUpTo list i level own ahead
        → KnowsNoLessUpTo list i level own (knows_next list j ahead) }
    ensures exact { (list : List Event) (i : ℕ) (bearer : List ℕ)
        → knows_next list i (first_events i) bearer ≡ first_events (i + 1) bearer }
    ensures elsewhere { (preds : List Pred) (d : Doc) (list : List Event) (known more : Knowledge)
        (places : List (List ℕ)) (levels : List PredicateLevel)
        → KnowsNoLessAt places known more → KnowsNoLessAt places more known
        → TellLevels preds d list known places levels → TellLevels preds d list more places levels }
{}

/// A level that tells what is known at an element gives the bounds of each predicate there. It is surely true if it is
/// met, and may be true if it is met or the others have not failed. It is settled if it is met or the others have
/// failed.
pub fn levels_give_the_bounds()
    ensures sure { (d : Doc) (list : List Event) (preds : List Pred) (known : Knowledge)
        (place : List ℕ) (level : PredicateLevel) (n : ℕ) (pred : Pred)
        → TellsLevel preds d list (known place) place level → slice_get preds n ≡ Some pred
        → level.met n ≡ sure_truth d list known place pred }
    ensures may { (names : List (List ℕ)) (d : Doc) (list : List Event) (preds : List Pred)
        (known : Knowledge) (place : List ℕ) (e : Element) (level : PredicateLevel) (n : ℕ)
        (pred : Pred) → length names ≤ most_names → Spells names (Some d) list
        → at d place ≡ Some e → TellsLevel preds d list (known place) place level
        → slice_get preds n ≡ Some pred
        → (level.met n || not level.done) ≡ may_truth d list known place pred }
    ensures settled { (names : List (List ℕ)) (d : Doc) (list : List Event) (preds : List Pred)
        (known : Knowledge) (place : List ℕ) (e : Element) (level : PredicateLevel) (n : ℕ)
        (pred : Pred) → length names ≤ most_names → Spells names (Some d) list
        → at d place ≡ Some e → TellsLevel preds d list (known place) place level
        → slice_get preds n ≡ Some pred
        → (level.met n || level.done) ≡ is_settled d list (known place) place pred }
{}

/// So a level tells whether a step surely keeps its element, and whether it may: where the element's name passes the
/// step's name test, and each predicate of the step is met, or may still be.
pub fn levels_tell_what_steps_keep()
    ensures surely { (d : Doc) (list : List Event) (preds : List Pred) (known : Knowledge)
        (place : List ℕ) (e : Element) (level : PredicateLevel) (s : Step) (numbers : List ℕ)
        → at d place ≡ Some e → TellsLevel preds d list (known place) place level
        → AreNumbersOf preds numbers s.preds
        → (passes s.test e.name && are_all_met level numbers)
        ≡ is_kept_by (sure_truth d list known) s place (at d place) }
    ensures possibly { (names : List (List ℕ)) (d : Doc) (list : List Event) (preds : List Pred)
        (known : Knowledge) (place : List ℕ) (e : Element) (level : PredicateLevel) (s : Step)
        (numbers : List ℕ) → length names ≤ most_names → Spells names (Some d) list
        → at d place ≡ Some e → TellsLevel preds d list (known place) place level
        → AreNumbersOf preds numbers s.preds
        → (passes s.test e.name && may_all_be level numbers)
        ≡ is_kept_by (may_truth d list known) s place (at d place) }
{}

/// So the levels of an element and those around it give the rules that surely select it and those that may, by rows of
/// the steps that surely keep each of them and those that may.
pub fn levels_give_the_rules()
    ensures sure { (rules : List Rule) (d : Doc) (list : List Event) (preds : List Pred)
        (known : Knowledge) (states : StepStates) (tests : StepTests) (begins : ℕ → ℕ)
        (place : List ℕ) (e : Element) (levels : List PredicateLevel)
        → ((n : ℕ) (rule : Rule) → slice_get rules n ≡ Some rule
        → ArePath states (begins n) rule.path.steps
        × AreTestsOf preds tests (begins n) rule.path.steps)
        → at d place ≡ Some e → TellLevels preds d list known (prefixes place) levels
        → sure_rules rules d list known place
        ≡ row_of (λ n. option_map_or (λ (rule : Rule). taken_row states
        (kept_rows tests are_all_met (names_at d (prefixes place)) levels)
        (last_of_path (begins n) rule.path.steps)) (slice_get rules n) false) }
    ensures may { (names : List (List ℕ)) (rules : List Rule) (d : Doc) (list : List Event)
        (preds : List Pred) (known : Knowledge) (states : StepStates) (tests : StepTests)
        (begins : ℕ → ℕ) (place : List ℕ) (e : Element) (levels : List PredicateLevel)
        → length names ≤ most_names → Spells names (Some d) list
        → ((n : ℕ) (rule : Rule) → slice_get rules n ≡ Some rule
        → ArePath states (begins n) rule.path.steps
        × AreTestsOf preds tests (begins n) rule.path.steps)
        → at d place ≡ Some e → TellLevels preds d list known (prefixes place) levels
        → may_rules rules d list known place
        ≡ row_of (λ n. option_map_or (λ (rule : Rule). taken_row states
        (kept_rows tests may_all_be (names_at d (prefixes place)) levels)
        (last_of_path (begins n) rule.path.steps)) (slice_get rules n) false) }
{}

/// Two levels of an element, of which each tells what is known by the first events of a list, together tell what the
/// one tells that knows more. After a look-ahead they tell what is known then.
pub fn levels_join()
    ensures onward { (preds : List Pred) (d : Doc) (list : List Event) (place : List ℕ) (i j : ℕ)
        (one other : PredicateLevel) → i ≤ j → TellsLevel preds d list i place one
        → TellsLevel preds d list j place other
        → TellsLevel preds d list j place (joined_level one other) }
    ensures back { (preds : List Pred) (d : Doc) (list : List Event) (place : List ℕ) (i j : ℕ)
        (one other : PredicateLevel) → i ≤ j → TellsLevel preds d list j place one
        → TellsLevel preds d list i place other
        → TellsLevel preds d list j place (joined_level one other) }
    ensures learned { (preds : List Pred) (d : Doc) (list : List Event) (level : ℕ)
        (own ahead : Knowledge) (place : List ℕ) (one other : PredicateLevel) → length place < level
        → own place ≤ ahead place → TellsLevel preds d list (own place) place one
        → TellsLevel preds d list (ahead place) place other
        → TellsLevel preds d list (learned level own ahead place) place (joined_level one other) }
    ensures beyond { (preds : List Pred) (d : Doc) (list : List Event) (level : ℕ)
        (own ahead : Knowledge) (place : List ℕ) (one : PredicateLevel) → level ≤ length place
        → TellsLevel preds d list (own place) place one
        → TellsLevel preds d list (learned level own ahead place) place one }
{}

/// A predicate is open at an element exactly where the name passes the test of the step that has it and the predicate
/// isn't settled by what is known. So it isn't open at other elements, nor after `settled_level` or once the element's
/// Finish is known, nor once an event is known that meets it. By two levels of an element together it is open where it
/// is open by both.
pub fn open_predicates_are_not_settled()
    ensures test { (tests : StepTests) (step : ℕ) (s : Step) (name : List ℕ)
        (level : PredicateLevel) (n : ℕ)
        → ((other : List ℕ) → tests.lets step other ≡ passes s.test other)
        → is_open tests step name level n ≡ true → passes s.test name ≡ true }
    ensures exact { (names : List (List ℕ)) (d : Doc) (list : List Event) (preds : List Pred)
        (known : Knowledge) (tests : StepTests) (place : List ℕ) (e : Element)
        (level : PredicateLevel) (step : ℕ) (s : Step) (n : ℕ) (pred : Pred)
        → length names ≤ most_names → Spells names (Some d) list → at d place ≡ Some e
        → TellsLevel preds d list (known place) place level
        → ((name : List ℕ) → tests.lets step name ≡ passes s.test name)
        → slice_get preds n ≡ Some pred
        → is_open tests step e.name level n
        ≡ (passes s.test e.name && not (is_settled d list (known place) place pred)) }
    ensures settled { (tests : StepTests) (step : ℕ) (name : List ℕ) (level : PredicateLevel)
        (n : ℕ) → is_open tests step name (settled_level level) n ≡ false }
    ensures finished { (preds : List Pred) (d : Doc) (list : List Event) (tests : StepTests)
        (step : ℕ) (name : List ℕ) (level : PredicateLevel) (n k finish : ℕ) (place : List ℕ)
        → TellsLevel preds d list k place level → finishes_at list place finish ≡ true
        → finish < k → is_open tests step name level n ≡ false }
    ensures met_whole { (preds : List Pred) (d : Doc) (list : List Event) (tests : StepTests)
        (step : ℕ) (name : List ℕ) (level : PredicateLevel) (n k i : ℕ) (pred : Pred)
        (place : List ℕ) → TellsLevel preds d list k place level → slice_get preds n ≡ Some pred
        → is_met_at d list place pred i ≡ true → i < k
        → is_open tests step name level n ≡ false }
    ensures joined { (tests : StepTests) (step : ℕ) (name : List ℕ) (one other : PredicateLevel)
        (n : ℕ) → is_open tests step name (joined_level one other) n
        ≡ (is_open tests step name one n && is_open tests step name other n) }
{}

/// Sets of rules stand by what is known, and levels tell it. Then a rule that is in the possible set of an open element
/// and not in the sure one has a step with a predicate that is open at the element or at one around it.
pub fn undecided_rules_have_an_open_predicate()
    ensures { (names : List (List ℕ)) (rules : List Rule) (d : Doc) (list : List Event) (i : ℕ)
        (preds : List Pred) (known : Knowledge) (tests : StepTests) (begins : ℕ → ℕ)
        (surely possibly : ℕ → List ℕ) (levels : List PredicateLevel) (k : ℕ) (place : List ℕ)
        (n : ℕ) (rule : Rule) → length names ≤ most_names → Spells names (Some d) list
        → slice_get rules n ≡ Some rule → AreTestsOf preds tests (begins n) rule.path.steps
        → StandsBy rules d list i known surely possibly
        → TellLevels preds d list known (places_of (open_at list i)) levels
        → place_of_level (open_at list i) k ≡ Some place
        → is_member (possibly k) n ≡ true → is_member (surely k) n ≡ false
        → have_open tests (begins n) rule.path.steps
        (outermost k (names_at d (places_of (open_at list i)))) (outermost k levels) ≡ true }
{}

/// After a look-ahead, the levels of the open elements that are joined with those of the same number ahead, up to a
/// level, tell what is known then. These elements must still be open ahead. Numbers are counted from the root, so that
/// it doesn't matter how many elements inside them are open ahead. The sets that stand ahead up to this level, and
/// those that the joined levels give at deeper ones, stand after the look-ahead.
pub fn levels_follow_a_look_ahead()
    ensures tell { (preds : List Pred) (d : Doc) (list : List Event) (i j level : ℕ)
        (own ahead : Knowledge) (levels other : List PredicateLevel)
        → AreStillOpen list i j level
        → TellLevels preds d list own (places_of (open_at list i)) levels
        → TellLevels preds d list ahead (places_of (open_at list j)) other
        → TellLevels preds d list (learned level own ahead) (places_of (open_at list i))
        (learned_levels level levels other) }
    ensures stand { (names : List (List ℕ)) (rules : List Rule) (d : Doc) (list : List Event)
        (i j level : ℕ) (preds : List Pred) (own ahead : Knowledge) (states : StepStates)
        (tests : StepTests) (begins : ℕ → ℕ) (levels other : List PredicateLevel)
        (ahead_surely ahead_possibly : ℕ → List ℕ) → length names ≤ most_names
        → Spells names (Some d) list
        → ((n : ℕ) (rule : Rule) → slice_get rules n ≡ Some rule
        → ArePath states (begins n) rule.path.steps
        × AreTestsOf preds tests (begins n) rule.path.steps)
        → AreStillOpen list i j level → KnowsNoLessUpTo list i level own ahead
        → KnowsNoLessAt (places_of (open_at list i)) (first_events i) own
        → TellLevels preds d list own (places_of (open_at list i)) levels
        → TellLevels preds d list ahead (places_of (open_at list j)) other
        → StandsBy rules d list j ahead ahead_surely ahead_possibly
        → StandsBy rules d list i (learned level own ahead)
        (rows_up_to level ahead_surely (rules_of_level rules states tests begins are_all_met
        (names_at d (places_of (open_at list i))) (learned_levels level levels other)))
        (rows_up_to level ahead_possibly (rules_of_level rules states tests begins may_all_be
        (names_at d (places_of (open_at list i))) (learned_levels level levels other))) }
{}

/// In a list that spells a document, the levels of the open elements give sets of rules that stand by what is known.
/// The levels of an element and of those around it are the outermost ones, and so are their names.
pub fn levels_give_the_standing_sets()
    ensures outermost { (d : Doc) (list : List Event) (i : ℕ) (preds : List Pred)
        (known : Knowledge) (levels : List PredicateLevel) (k : ℕ) (place : List ℕ)
        → TellLevels preds d list known (places_of (open_at list i)) levels
        → place_of_level (open_at list i) k ≡ Some place
        → TellLevels preds d list known (prefixes place) (outermost k levels) }
    ensures names { (d : Doc) (list : List Event) (i k : ℕ) (place : List ℕ)
        → place_of_level (open_at list i) k ≡ Some place
        → outermost k (names_at d (places_of (open_at list i))) ≡ names_at d (prefixes place) }
    ensures stand { (names : List (List ℕ)) (rules : List Rule) (d : Doc) (list : List Event) (i : ℕ)
        (preds : List Pred) (known : Knowledge) (states : StepStates) (tests : StepTests)
        (begins : ℕ → ℕ) (levels : List PredicateLevel) → length names ≤ most_names
        → Spells names (Some d) list
        → ((n : ℕ) (rule : Rule) → slice_get rules n ≡ Some rule
        → ArePath states (begins n) rule.path.steps
        × AreTestsOf preds tests (begins n) rule.path.steps)
        → KnowsNoLessAt (places_of (open_at list i)) (first_events i) known
        → TellLevels preds d list known (places_of (open_at list i)) levels
        → StandsBy rules d list i known
        (rules_of_level rules states tests begins are_all_met
        (names_at d (places_of (open_at list i))) levels)
        (rules_of_level rules states tests begins may_all_be
        (names_at d (places_of (open_at list i))) levels) }
{}

/// In a list that spells a document, values are read in pieces. One text is read for each open element. At the
/// element's Finish it is the string-value. At the last piece of an attribute, what was read of it and this piece are
/// the attribute.
pub fn values_are_read_whole()
    ensures texts { (list : List Event) (i : ℕ)
        → length (texts_at list i) ≡ length (open_at list i) }
    ensures value { (names : List (List ℕ)) (d : Doc) (list : List Event) (place : List ℕ)
        (e : Element) (i : ℕ) → length names ≤ most_names → Spells names (Some d) list
        → at d place ≡ Some e → finishes_at list place i ≡ true
        → take 1 (texts_at list i) ≡ string_value e ∷ [] }
    ensures attribute { (names : List (List ℕ)) (d : Doc) (list : List Event) (place : List ℕ)
        (x : Element) (i : ℕ) (piece : Piece) → length names ≤ most_names
        → Spells names (Some d) list → slice_get list i ≡ Some (Attr piece) → piece.last ≡ true
        → innermost_is_at place (open_at list i) ≡ true → at d place ≡ Some x
        → slice_get x.attributes (attributes_at list i)
        ≡ Some (raw_at list i ++ piece.bytes.items) }
{}

/// The rows of the predicates of `//a[b]` and `/a[.//b/@c = 'x']` where an `a` has a child `a`, and that a child `b`
/// whose attribute `c` is `x`, worked out by hand. At the Begin of `b` the first predicate is met at the inner `a`
/// alone, and with the attribute the second one is met at both. Then the first rule selects the inner `a`, and the
/// second one the root. The predicates are numbered with their suffixes. What a look-ahead up to the attribute tells of
/// both `a`, or of the root alone, is joined from the root inward.
pub fn rows_of_a_small_document()
    ensures numbered { IsSuffix suffixes_of_b 1 child_b × IsSuffix suffixes_of_b 3 descendant_b }
    ensures near { (led child_b (codes "b" ∷ []) ≡ true)
        × (led child_b (codes "a" ∷ codes "b" ∷ []) ≡ false) }
    ensures far { (led descendant_b (codes "a" ∷ codes "b" ∷ []) ≡ true)
        × (led descendant_b (codes "b" ∷ codes "a" ∷ []) ≡ false) }
    ensures begin { (hits (Begin 1 []) 0 b_with_c None None ≡ true)
        × (hits (Begin 1 []) 0 b_with_c (Some (codes "c")) (Some (equal_to (codes "x"))) ≡ false) }
    ensures attribute { (hits c_is_x 0 b_with_c (Some (codes "c")) (Some (equal_to (codes "x"))) ≡ true)
        × (hits c_is_x 0 b_with_c (Some (codes "c")) (Some (equal_to (codes "y"))) ≡ false)
        × (hits c_is_x 0 b_with_c None None ≡ false) }
    ensures at_begin { map first_four (rising_rows suffixes_of_b (just 0) b_in_a_in_a)
        ≡ (true ∷ false ∷ false ∷ false ∷ []) ∷ (false ∷ true ∷ false ∷ false ∷ [])
        ∷ (false ∷ false ∷ false ∷ false ∷ []) ∷ [] }
    ensures at_attribute { map first_four (rising_rows suffixes_of_b (just 2) b_in_a_in_a)
        ≡ (false ∷ false ∷ true ∷ false ∷ []) ∷ (false ∷ false ∷ false ∷ true ∷ [])
        ∷ (false ∷ false ∷ false ∷ true ∷ []) ∷ [] }
    ensures suffixes { AreSuffixes suffixes_of_b preds_of_b }
    ensures hit_at_begin { IsHitRow preds_of_b (just 0) (Begin 1 []) 0 b_with_c }
    ensures hit_at_attribute { IsHitRow preds_of_b (just 2) c_is_x 0 b_with_c }
    ensures levels_at_begin { map first_met levels_with_b
        ≡ (true ∷ false ∷ false ∷ false ∷ []) ∷ (false ∷ true ∷ false ∷ false ∷ [])
        ∷ (false ∷ false ∷ false ∷ false ∷ []) ∷ [] }
    ensures levels_at_attribute { map first_met levels_with_c
        ≡ (true ∷ false ∷ true ∷ false ∷ []) ∷ (false ∷ true ∷ false ∷ true ∷ [])
        ∷ (false ∷ false ∷ false ∷ true ∷ []) ∷ [] }
    ensures learned { map first_met (learned_levels 2 levels_of_a levels_with_c)
        ≡ (false ∷ true ∷ false ∷ true ∷ []) ∷ (false ∷ false ∷ false ∷ true ∷ []) ∷ [] }
    ensures learned_root { map first_met (learned_levels 1 levels_of_a levels_with_c)
        ≡ (false ∷ false ∷ false ∷ false ∷ []) ∷ (false ∷ false ∷ false ∷ true ∷ []) ∷ [] }
    ensures root { first_two (taken_row steps_to_a (kept_root ∷ [])) ≡ false ∷ true ∷ [] }
    ensures inner { first_two (taken_row steps_to_a (kept_inner ∷ kept_root ∷ []))
        ≡ true ∷ false ∷ [] }
    ensures none { first_two (taken_row steps_to_a (kept_b ∷ kept_inner ∷ kept_root ∷ []))
        ≡ false ∷ false ∷ [] }
{}
