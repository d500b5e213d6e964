//! Laws of the definitions. Paths and signs are defined twice, by the places of a document and by an element with its
//! ancestors, and both forms are equivalent. Other laws are about views, places, texts, widths and small streams. These
//! functions do nothing: their contracts are the laws.

ghost use Rattle.std.specs.Prelude.{◌≡◌, ℕ, ◌^◌, ◌<◌, ◌≤◌, List, [], ◌∷◌, Some, true, is_some, if◌then◌else◌};
ghost use Rattle.std.specs.List.{Contains};
ghost use Rattle.acl_model.specs.Ascii.{are_bytes};
ghost use Rattle.acl_model.specs.Document.{is_document, is_view_document};
ghost use Rattle.acl_model.specs.Text.{text};
ghost use Rattle.acl_model.specs.Places.{below, at, places, times};
ghost use Rattle.acl_model.specs.Predicates.{targets};
ghost use Rattle.acl_model.specs.Select.{select};
ghost use Rattle.acl_model.specs.Targets.{path_leads};
ghost use Rattle.acl_model.specs.Decide.{sign};
ghost use Rattle.acl_model.specs.View.{Signs, filter_of, view};
ghost use Rattle.acl_model.specs.Chain.{selects, on_chain, chain_at, chain_signs};
ghost use Rattle.acl_model.specs.Dictionary.{dictionary, dictionary_section};
ghost use Rattle.acl_model.specs.Width.{least_width, binary_length, IsLeastWidth};
ghost use Rattle.acl_model.specs.Stream.{tree_section};
ghost use Rattle.acl_model.specs.inside.StreamExamples.{one_text, one_child, two_children};
ghost use Rattle.acl_model.specs.declared.document.Doc.{Doc};
ghost use Rattle.acl_model.specs.declared.document.Element.{Element};
ghost use Rattle.acl_model.specs.declared.path.Path.{Path};
ghost use Rattle.acl_model.specs.declared.path.PredStep.{PredStep};
ghost use Rattle.acl_model.specs.declared.rule.Rule.{Rule};
ghost use Rattle.acl_model.specs.declared.rule.Sign.TheVariants.{Grant};

/// A path selects a place exactly where it selects the element there by the element's ancestors.
pub fn paths_select_by_ancestors()
    ensures { (d : Doc) (path : Path) (place : List ℕ)
        → select d path place ≡ on_chain (selects path) (chain_at d.root [] place) }
{}

/// The targets of a predicate are exactly the elements that its path selects from the context node. Here the steps of
/// that path are applied to sets of places, as those of a rule's path are.
pub fn targets_are_where_paths_lead()
    ensures reached { (d : Doc) (start : List ℕ) (e x : Element) (way : List PredStep)
        → at d start ≡ Some e → Contains (targets way e) x
        → (place : List ℕ) × (path_leads d way start place ≡ true) × (at d place ≡ Some x) }
    ensures all { (d : Doc) (start place : List ℕ) (e x : Element) (way : List PredStep)
        → at d start ≡ Some e → path_leads d way start place ≡ true → at d place ≡ Some x
        → Contains (targets way e) x }
{}

/// The sign of a place is that of the nearest selected element among the element there and its ancestors.
pub fn signs_follow_ancestors()
    ensures { (d : Doc) (rules : List Rule) (place : List ℕ)
        → sign d rules place ≡ chain_signs rules d.root [] place }
{}

/// An element is shown in a view exactly where it, or a place inside it, is granted.
pub fn elements_show_where_granted()
    ensures { (e : Element) (signs : Signs)
        → is_some ((filter_of e).view signs) ≡ (filter_of e).has_grant signs }
{}

/// `has_grant` is true of an element exactly where the element, or one inside it, is granted. So a dummy is shown
/// exactly for a denied element with a granted descendant.
pub fn grants_are_of_places()
    ensures found { (e : Element) (signs : Signs) → (filter_of e).has_grant signs ≡ true
        → (place : List ℕ) × (x : Element) × (below e place ≡ Some x) × (signs place ≡ Grant) }
    ensures had { (e x : Element) (signs : Signs) (place : List ℕ)
        → below e place ≡ Some x → signs place ≡ Grant → (filter_of e).has_grant signs ≡ true }
{}

/// The text of a document or a view consists of bytes: each number in a name, an attribute or a text is below 256.
pub fn texts_are_bytes()
    ensures document { (d : Doc) → is_document d ≡ true → are_bytes (text d) ≡ true }
    ensures view { (d : Doc) → is_view_document d ≡ true → are_bytes (text d) ≡ true }
{}

/// `places` lists exactly the places at which there is an element, each of them once.
pub fn places_are_of_elements()
    ensures { (d : Doc) (place : List ℕ)
        → times place (places d) ≡ (if is_some (at d place) then 1 else 0) }
{}

/// A document is a view document.
pub fn documents_are_view_documents()
    ensures { (d : Doc) → is_document d ≡ true → is_view_document d ≡ true }
{}

/// The view of a view document is a view document. So the view of a document is a view document, and so is the view of
/// this view, which is the answer of a query.
pub fn views_are_view_documents()
    ensures { (d v : Doc) (rules : List Rule)
        → is_view_document d ≡ true → view d rules ≡ Some v → is_view_document v ≡ true }
{}

/// Where a width up to 32 fits, `least_width` is the least one, and there is only one least width. Where the size never
/// falls as the width grows, the least width is the number of binary digits of the size, so a reader can compute it.
pub fn least_widths_are_found()
    ensures found { (size : ℕ → ℕ) (w : ℕ) → w ≤ 32 → size w < 2 ^ w
        → IsLeastWidth size (least_width size) }
    ensures one { (size : ℕ → ℕ) (v w : ℕ)
        → IsLeastWidth size v → IsLeastWidth size w → v ≡ w }
    ensures digits { (size : ℕ → ℕ) (w : ℕ) → ((v : ℕ) → v ≤ w → size v ≤ size w)
        → w ≤ 32 → IsLeastWidth size w → binary_length (size w) ≡ w }
{}

/// The dictionary sections and the tree sections of three small documents, worked out by hand.
pub fn streams_of_small_documents()
    ensures text_names { dictionary_section (dictionary one_text) ≡ 0x00 ∷ 0x01 ∷ 0x01 ∷ 0x61 ∷ [] }
    ensures text { tree_section one_text
        ≡ 0xa0 ∷ 0x00 ∷ 0x00 ∷ 0x00 ∷ 0x00 ∷ 0x00 ∷ 0x02 ∷ 0x68 ∷ 0x69 ∷ [] }
    ensures child_names { dictionary_section (dictionary one_child)
        ≡ 0x00 ∷ 0x02 ∷ 0x01 ∷ 0x61 ∷ 0x01 ∷ 0x62 ∷ [] }
    ensures child { tree_section one_child ≡ 0xad ∷ 0x00 ∷ 0x00 ∷ 0x90 ∷ 0x00 ∷ 0x00 ∷ [] }
    ensures children_names { dictionary_section (dictionary two_children)
        ≡ 0x00 ∷ 0x03 ∷ 0x01 ∷ 0x61 ∷ 0x01 ∷ 0x62 ∷ 0x01 ∷ 0x63 ∷ [] }
    ensures children { tree_section two_children
        ≡ 0x97 ∷ 0xb0 ∷ 0x00 ∷ 0x01 ∷ 0x00 ∷ 0x00 ∷ 0x00 ∷ 0x0a ∷ 0x49 ∷ 0x64 ∷ 0x20 ∷ 0x43 ∷ 0x44 ∷ 0x41 ∷ 0x54
        ∷ 0x41 ∷ 0x20 ∷ 0x78 ∷ 0x87 ∷ 0x00 ∷ 0x00 ∷ 0x00 ∷ 0x00 ∷ 0x00 ∷ 0x01 ∷ 0x31 ∷ 0xc2 ∷ 0x00 ∷ 0x00 ∷ [] }
{}
