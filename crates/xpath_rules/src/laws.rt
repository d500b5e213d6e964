//! The laws of reading and writing. The machine reads what the grammar spells. The offset of a fault
//! follows from whole texts of the grammar. What is written is read again. These functions do nothing:
//! their contracts are the laws.

ghost use Rattle.std.specs.Prelude.{◌≡◌, ℕ, ◌+◌, ◌<◌, ◌≤◌, List, length, take};
ghost use Rattle.acl_model.specs.Limits.{most_path_bytes};
ghost use Rattle.acl_model.specs.declared.path.Path.{Path};
ghost use Rattle.xpath_rules.specs.PathReading.{Spells, IsBegun, IsPlace};
ghost use Rattle.xpath_rules.specs.PathMachine.{read_path_of};
ghost use Rattle.xpath_rules.specs.Canonical.{canonical_text};
ghost use Rattle.xpath_rules.specs.PathAnswers.{IsNoPath};

/// Bytes that spell a path are read as that path, where there are at most 1,024.
pub fn what_is_spelled_is_read()
    ensures { (user bytes : List ℕ) (path : Path)
        → Spells user bytes path → length bytes ≤ most_path_bytes → read_path_of bytes user ≡ Ok path }
{}

/// Bytes that are read as a path spell that path, and there are at most 1,024.
pub fn what_is_read_is_spelled()
    ensures spelled { (user bytes : List ℕ) (path : Path)
        → read_path_of bytes user ≡ Ok path → Spells user bytes path }
    ensures within { (user bytes : List ℕ) (path : Path)
        → read_path_of bytes user ≡ Ok path → length bytes ≤ most_path_bytes }
{}

/// No text spells two paths for one user.
pub fn a_text_spells_one_path()
    ensures { (user bytes : List ℕ) (path other : Path)
        → Spells user bytes path → Spells user bytes other → path ≡ other }
{}

/// Bytes that are refused are no path, and the offset of the fault is the one that `IsPlace` defines.
pub fn what_is_refused_is_no_path()
    ensures refused { (user bytes : List ℕ) (at : ℕ)
        → read_path_of bytes user ≡ Err at → IsNoPath user bytes }
    ensures place { (user bytes : List ℕ) (at : ℕ)
        → read_path_of bytes user ≡ Err at → IsPlace bytes at }
{}

/// Bytes have one offset of a fault. It doesn't depend on the user.
pub fn a_place_is_one()
    ensures { (bytes : List ℕ) (at other : ℕ)
        → IsPlace bytes at → IsPlace bytes other → at ≡ other }
{}

/// Some text of the grammar begins with the bytes before the offset. No text begins with one byte
/// more, where there is one and the offset is below 1,024.
pub fn a_place_is_of_whole_texts()
    ensures begun { (bytes : List ℕ) (at : ℕ) → IsPlace bytes at → IsBegun (take at bytes) }
    ensures longest { (bytes : List ℕ) (at : ℕ) → IsPlace bytes at
        → at < most_path_bytes → at < length bytes → IsBegun (take (at + 1) bytes) → ⊥ }
    ensures within { (bytes : List ℕ) (at : ℕ) → IsPlace bytes at → at ≤ length bytes }
    ensures capped { (bytes : List ℕ) (at : ℕ) → IsPlace bytes at → at ≤ most_path_bytes }
{}

/// For each path that some bytes spell, the canonical spelling spells it, and no spelling is shorter.
/// For the same user it is read as that path again.
pub fn the_canonical_spelling_is_shortest()
    ensures spelled { (user bytes : List ℕ) (path : Path)
        → Spells user bytes path → Spells user (canonical_text path) path }
    ensures shortest { (user bytes : List ℕ) (path : Path)
        → Spells user bytes path → length (canonical_text path) ≤ length bytes }
    ensures read_again { (user bytes : List ℕ) (path : Path)
        → read_path_of bytes user ≡ Ok path → read_path_of (canonical_text path) user ≡ Ok path }
{}
