//! The bytes of a dictionary determine it. The function here does nothing: its contract is the law.

ghost use Rattle.std.specs.Prelude.{◌≡◌, ℕ, List, true};
ghost use Rattle.acl_model.specs.Dictionary.{is_dictionary, dictionary_section};

/// No two dictionaries have the same bytes.
pub fn a_section_is_of_one_dictionary()
    ensures { (one other : List (List ℕ)) → is_dictionary one ≡ true → is_dictionary other ≡ true
        → dictionary_section one ≡ dictionary_section other → one ≡ other }
{}
