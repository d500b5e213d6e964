//! Laws of values that come in pieces. The functions do nothing: their contracts are the laws.

ghost use Rattle.std.specs.Prelude.{◌≡◌, ℕ, true, List, ◌++◌};
ghost use Rattle.acl_model.specs.Comparisons.{satisfies};
ghost use Rattle.acl_model.specs.declared.path.Cmp.{Cmp};
ghost use Rattle.acl_model.specs.declared.path.Operand.{Operand};
ghost use Rattle.value_scan.specs.Progress.{begun, fed, is_satisfied, is_settled};
ghost use Rattle.value_scan.specs.declared.progress.Progress.{Progress};

/// A value may be cut into pieces anywhere: feeding two pieces has the same result as feeding both at once. After the
/// last byte, `is_satisfied` says whether the value satisfies the comparison. A settled progress never changes.
pub fn values_may_come_in_pieces()
    ensures pieces { (operand : Operand) (progress : Progress) (first second : List ℕ)
        → fed operand progress (first ++ second)
        ≡ fed operand (fed operand progress first) second }
    ensures whole { (cmp : Cmp) (value : List ℕ)
        → is_satisfied cmp (fed cmp.operand begun value) ≡ satisfies cmp.op cmp.operand value }
    ensures settled { (operand : Operand) (progress : Progress) (bytes : List ℕ)
        → is_settled progress ≡ true → fed operand progress bytes ≡ progress }
{}
