//! Laws: sets of rules give the signs of a document's elements and the rules that decide them. These
//! functions do nothing: their contracts are the laws.

ghost use Rattle.std.specs.Prelude.{◌≡◌, ◌≤◌, ℕ, List, Some, None, is_some, true, Any, length, map};
ghost use Rattle.acl_model.specs.Decide.{sign};
ghost use Rattle.acl_model.specs.Explain.{explanation_of};
ghost use Rattle.acl_model.specs.RuleNumbers.{numbers_of_sign};
ghost use Rattle.acl_model.specs.declared.document.Doc.{Doc};
ghost use Rattle.acl_model.specs.declared.rule.Rule.{Rule};
ghost use Rattle.acl_model.specs.declared.rule.Sign.{Sign};
ghost use Rattle.acl_model.specs.declared.rule.Sign.TheVariants.{Grant, Deny};
ghost use Rattle.sign_stack.specs.declared.level.Level.{Level};
ghost use Rattle.sign_stack.specs.SignLevels.{sign_of_levels, rule_of_levels};
ghost use Rattle.sign_stack.specs.RuleRows.{settled_level, settled_levels, AreOutcomes, AreSettledToDecider, IsUndecided, IsSettledToDecider, IsUnsettled};

/// The sets of the rules that select an element and its ancestors give its sign, and the rule that an
/// explanation names.
pub fn rows_give_signs()
    ensures sign { (d : Doc) (rules : List Rule) (place : List ℕ) → length rules ≤ 256
        → sign_of_levels (numbers_of_sign Grant rules) (numbers_of_sign Deny rules)
        (settled_levels d rules place) ≡ Some (sign d rules place) }
    ensures rule { (d : Doc) (rules : List Rule) (place : List ℕ) → length rules ≤ 256
        → rule_of_levels (numbers_of_sign Grant rules) (numbers_of_sign Deny rules)
        (settled_levels d rules place) ≡ (explanation_of d rules place).rule }
{}

/// A sign that is given before all levels are settled stays right, whatever they settle to. No sign is
/// given only where some rule may select, and doesn't surely, at the innermost level at which a rule
/// may select. A sign is given where the levels up to the decider are settled, and the rule is then
/// right.
pub fn unsettled_rows_are_told()
    ensures sign { (grants denies : List ℕ) (levels : List Level) (rows : List (List ℕ)) (s : Sign)
        → AreOutcomes levels rows → sign_of_levels grants denies levels ≡ Some s
        → sign_of_levels grants denies (map settled_level rows) ≡ Some s }
    ensures none { (grants denies : List ℕ) (levels : List Level)
        → sign_of_levels grants denies levels ≡ None → Any IsUnsettled levels }
    ensures held_up { (grants denies : List ℕ) (levels : List Level)
        → sign_of_levels grants denies levels ≡ None → IsUndecided grants denies levels }
    ensures given { (grants denies : List ℕ) (levels : List Level)
        → IsSettledToDecider grants denies levels
        → is_some (sign_of_levels grants denies levels) ≡ true }
    ensures rule { (grants denies : List ℕ) (levels : List Level) (rows : List (List ℕ))
        → AreSettledToDecider grants denies levels rows
        → rule_of_levels grants denies levels
        ≡ rule_of_levels grants denies (map settled_level rows) }
{}
