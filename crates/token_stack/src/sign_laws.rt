//! Laws: the sets of rules of the open elements give the sign of the innermost one. These functions
//! do nothing: their contracts are the laws.

ghost use Rattle.std.specs.Prelude.{◌≡◌, ℕ, List, Some, None, Any, length};
ghost use Rattle.acl_model.specs.Decide.{sign};
ghost use Rattle.acl_model.specs.Explain.{explanation_of};
ghost use Rattle.acl_model.specs.RuleNumbers.{numbers_of_sign};
ghost use Rattle.acl_model.specs.declared.document.Doc.{Doc};
ghost use Rattle.acl_model.specs.declared.rule.Rule.{Rule};
ghost use Rattle.acl_model.specs.declared.rule.Sign.{Sign};
ghost use Rattle.acl_model.specs.declared.rule.Sign.TheVariants.{Grant, Deny};
ghost use Rattle.acl_walk.specs.Open.{OpenPlace, open_at};
ghost use Rattle.acl_walk.specs.declared.event.Event.{Event};
ghost use Rattle.rule_automata.specs.Compile.{automata_of};
ghost use Rattle.sign_stack.specs.SignLevels.{rule_of_levels, sign_of_levels};
ghost use Rattle.sign_stack.specs.RuleRows.{settled_levels, IsSettledToDecider, IsUnsettled};
ghost use Rattle.token_stack.specs.SignRows.{RowsStandInside, StandInside, level_rows, open_rows};
ghost use Rattle.token_stack.specs.Stack.{TokenStack};

/// Where tokens of compiled rules stand inside an element of a document, the sets of the open
/// levels are those of the rules that select the element and its ancestors. So they give the sign
/// of the element, and the rule that an explanation names.
pub fn standing_tokens_give_signs()
    ensures levels { (names : List (List ℕ)) (rules : List Rule) (d : Doc) (list : List Event)
        (place : ℕ) (tokens : TokenStack) (element : OpenPlace)
        → StandInside names rules d list place tokens element
        → open_rows tokens ≡ settled_levels d rules element.place }
    ensures sign { (names : List (List ℕ)) (rules : List Rule) (d : Doc) (list : List Event)
        (place : ℕ) (tokens : TokenStack) (element : OpenPlace)
        → StandInside names rules d list place tokens element
        → sign_of_levels (automata_of names rules).grants (automata_of names rules).denies
        (open_rows tokens) ≡ Some (sign d rules element.place) }
    ensures rule { (names : List (List ℕ)) (rules : List Rule) (d : Doc) (list : List Event)
        (place : ℕ) (tokens : TokenStack) (element : OpenPlace)
        → StandInside names rules d list place tokens element
        → rule_of_levels (automata_of names rules).grants (automata_of names rules).denies
        (open_rows tokens) ≡ (explanation_of d rules element.place).rule }
{}

/// Sets of sure and of possible rules of the open elements can give the sign of the innermost one
/// before all are settled. A sign that they give is the element's. They give it, and the rule that
/// an explanation names, once the levels from the innermost to the first at which a rule may select
/// are settled. Where they give none, at some level a rule may select and doesn't surely.
pub fn standing_rows_give_signs()
    ensures holds { (rules : List Rule) (d : Doc) (list : List Event) (place : ℕ)
        (surely possibly : ℕ → List ℕ) (element : OpenPlace) (s : Sign)
        → RowsStandInside rules d list place surely possibly element
        → sign_of_levels (numbers_of_sign Grant rules) (numbers_of_sign Deny rules)
        (level_rows surely possibly (length (open_at list place))) ≡ Some s
        → s ≡ sign d rules element.place }
    ensures sign { (rules : List Rule) (d : Doc) (list : List Event) (place : ℕ)
        (surely possibly : ℕ → List ℕ) (element : OpenPlace)
        → RowsStandInside rules d list place surely possibly element
        → IsSettledToDecider (numbers_of_sign Grant rules) (numbers_of_sign Deny rules)
        (level_rows surely possibly (length (open_at list place)))
        → sign_of_levels (numbers_of_sign Grant rules) (numbers_of_sign Deny rules)
        (level_rows surely possibly (length (open_at list place)))
        ≡ Some (sign d rules element.place) }
    ensures rule { (rules : List Rule) (d : Doc) (list : List Event) (place : ℕ)
        (surely possibly : ℕ → List ℕ) (element : OpenPlace)
        → RowsStandInside rules d list place surely possibly element
        → IsSettledToDecider (numbers_of_sign Grant rules) (numbers_of_sign Deny rules)
        (level_rows surely possibly (length (open_at list place)))
        → rule_of_levels (numbers_of_sign Grant rules) (numbers_of_sign Deny rules)
        (level_rows surely possibly (length (open_at list place)))
        ≡ (explanation_of d rules element.place).rule }
    ensures none { (rules : List Rule) (surely possibly : ℕ → List ℕ) (levels : ℕ)
        → sign_of_levels (numbers_of_sign Grant rules) (numbers_of_sign Deny rules)
        (level_rows surely possibly levels) ≡ None
        → Any IsUnsettled (level_rows surely possibly levels) }
{}
