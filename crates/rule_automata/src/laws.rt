//! Laws: the states of tables select what the paths of the rules select. These functions do nothing:
//! their contracts are the laws.

ghost use Rattle.std.specs.Prelude.{◌≡◌, ◌≤◌, ◌<◌, ◌+◌, [], ◌∷◌, ℕ, List, Some, length, drop, true, false};
ghost use Rattle.std.specs.List.{slice_get};
ghost use Rattle.std.specs.Option.{option_map_or};
ghost use Rattle.acl_model.specs.Limits.{most_names};
ghost use Rattle.acl_model.specs.Chain.{Chain, selects, chain_at};
ghost use Rattle.acl_model.specs.Dictionary.{are_distinct};
ghost use Rattle.acl_model.specs.NameTests.{passes};
ghost use Rattle.acl_model.specs.Select.{select};
ghost use Rattle.acl_model.specs.declared.document.Doc.{Doc};
ghost use Rattle.acl_model.specs.declared.document.Element.{Element};
ghost use Rattle.acl_model.specs.declared.path.Pred.{Pred};
ghost use Rattle.acl_model.specs.declared.path.Step.{Step};
ghost use Rattle.acl_model.specs.declared.path.Test.{Test};
ghost use Rattle.acl_model.specs.declared.rule.Rule.{Rule};
ghost use Rattle.rule_automata.specs.Compile.{automata_of, have_no_predicates, is_closed, steps_in};
ghost use Rattle.rule_automata.specs.Compile.{tag_test, ends_after, preds_in, pred_steps_in};
ghost use Rattle.rule_automata.specs.Meaning.{AreTagsOf, tag_name};
ghost use Rattle.rule_automata.specs.ReadBack.{state_number, bearing_number, HavePred, IsOfPred};
ghost use Rattle.rule_automata.specs.Run.{is_selected_by, passes_tag};

/// After the tags of an element and its ancestors, the states select exactly the rules whose paths
/// select the element. `chain` says so of an element with its ancestors, `place` of a place in a
/// document.
pub fn states_take_the_rules_that_select()
    ensures chain { (names : List (List ℕ)) (rules : List Rule) (tags : List ℕ) (e : Element)
        (up : Chain) (rule : ℕ) → are_distinct names ≡ true → length names ≤ most_names
        → have_no_predicates rules ≡ true → AreTagsOf names tags (e ∷ up)
        → is_selected_by (automata_of names rules).states tags rule
        ≡ option_map_or (λ r. selects r.path (e ∷ up)) (slice_get rules rule) false }
    ensures place { (names : List (List ℕ)) (rules : List Rule) (tags : List ℕ) (d : Doc)
        (place : List ℕ) (e : Element) (up : Chain) (rule : ℕ) → are_distinct names ≡ true
        → length names ≤ most_names → have_no_predicates rules ≡ true
        → AreTagsOf names tags (e ∷ up)
        → chain_at d.root [] place ≡ Some (e ∷ up)
        → is_selected_by (automata_of names rules).states tags rule
        ≡ option_map_or (λ r. select d r.path place) (slice_get rules rule) false }
{}

/// Tables have one state for each step of their rules, and each rule ends with one of its states. The state of a step
/// is found by how many steps come before it. It has the step's axis and its test of tags, and ends the rule where the
/// step is the path's last.
pub fn a_step_has_a_state()
    ensures count { (names : List (List ℕ)) (rules : List Rule)
        → length (automata_of names rules).states ≡ steps_in rules }
    ensures closed { (names : List (List ℕ)) (rules : List Rule)
        → is_closed false (automata_of names rules).states ≡ true }
    ensures found { (names : List (List ℕ)) (rules : List Rule) (r : ℕ) (rule : Rule) (s : ℕ)
        (step : Step) → slice_get rules r ≡ Some rule → slice_get rule.path.steps s ≡ Some step
        → slice_get (automata_of names rules).states (state_number rules r s)
        ≡ Some (record {
          axis = step.axis;
          test = tag_test names step.test;
          ends = ends_after r (drop (s + 1) rule.path.steps);
        }) }
{}

/// Tables have one bearing for each predicate of their rules, and one suffix more for each than its path has steps. The
/// bearing of a predicate is found by how many predicates come before it. It has the number of the step's state, the
/// suffixes of the predicate's path, and what the predicate asks for. Each bearing is of such a predicate.
pub fn a_predicate_has_a_bearing()
    ensures bearings { (names : List (List ℕ)) (rules : List Rule)
        → length (automata_of names rules).bearings ≡ preds_in rules }
    ensures suffixes { (names : List (List ℕ)) (rules : List Rule)
        → length (automata_of names rules).suffixes ≡ pred_steps_in rules + preds_in rules }
    ensures found { (names : List (List ℕ)) (rules : List Rule) (r : ℕ) (rule : Rule) (s : ℕ)
        (step : Step) (p : ℕ) (pred : Pred) → slice_get rules r ≡ Some rule
        → slice_get rule.path.steps s ≡ Some step → slice_get step.preds p ≡ Some pred
        → HavePred names (automata_of names rules)
        (bearing_number rules r rule.path.steps s p) (state_number rules r s) pred }
    ensures each { (rules : List Rule) (n : ℕ) → n < preds_in rules → IsOfPred rules n }
{}

/// A tag passes the test of tags of a step exactly where the name of the tag passes the step's test.
pub fn tags_pass_as_names_do()
    ensures { (names : List (List ℕ)) (test : Test) (tag : ℕ) (name : List ℕ)
        → are_distinct names ≡ true → length names ≤ most_names → tag_name names tag ≡ Some name
        → passes_tag (tag_test names test) tag ≡ passes test name }
{}
