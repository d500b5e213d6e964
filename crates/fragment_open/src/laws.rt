//! Laws of the definitions: of reads, of clashes (collisions of two strings with one name and one digest), of good
//! reads under a document's root, and of the documents for which an opener is sound. The functions do nothing; their
//! contracts are the laws.
ghost use Rattle.std.specs.Prelude.{◌≡◌, ◌↔◌, ℕ, List, [], ◌∷◌, ◌++◌, Option, None, Some, IfSome, true, false, slice_index_or};
ghost use Rattle.std.specs.List.{list_any};
ghost use Rattle.acl_model.specs.Document.{is_document};
ghost use Rattle.acl_model.specs.Stream.{has_stream, plain};
ghost use Rattle.acl_model.specs.declared.document.Doc.{Doc};
ghost use Rattle.aes_block.specs.Aes.{AreBytes};
ghost use Rattle.acl_outside.specs.Outside.{StoreRead};
ghost use Rattle.merkle_chunks.specs.HeaderBytes.{IsInRange, header_bytes};
ghost use Rattle.merkle_chunks.specs.File.{HasRoot, cipher_fragments, document_header, file, file_root};
ghost use Rattle.merkle_chunks.specs.Strings.{StringName};
ghost use Rattle.merkle_chunks.specs.Table.{fragments};
ghost use Rattle.merkle_chunks.specs.declared.header.Header.{Header};
ghost use Rattle.fragment_open.specs.declared.kept.Kept.{Kept};
ghost use Rattle.fragment_open.specs.CallReads.{Told};
ghost use Rattle.fragment_open.specs.Openings.{Opening, index_of, openings};
ghost use Rattle.fragment_open.specs.Asks.{opening_asks};
ghost use Rattle.fragment_open.specs.Served.{IsRegular, header_in, header_served, top_served};
ghost use Rattle.fragment_open.specs.Clash.{IsClash, has_clash, reads_clash};
ghost use Rattle.fragment_open.specs.Settled.{AreHeld, IsFetched, Settled, is_start, root_by, since};
ghost use Rattle.fragment_open.specs.Sound.{IsOrigin, sound_for};
ghost use Rattle.fragment_open.specs.Starting.{HoldsDocument};
ghost use Rattle.fragment_open.specs.Checked.{AreVerifiedUnder, AreReadsOf};

/// The header in bytes is the header with exactly these bytes, where there is one.
pub fn a_header_served_has_the_bytes()
    ensures { (bytes : List ℕ) (h : Header)
        → header_in bytes ≡ Some h ↔ IsInRange h × (header_bytes h ≡ bytes) }
{}

/// What the openings of fragments 40, 36 and 31 of 41, in that order, ask for. The first goes up to the top, and two of
/// its siblings are on the table. The second is in the same chunk and goes up only to the chunk. The third is in the
/// chunk before and goes up to the top.
pub fn three_openings_of_forty_one()
    ensures { opening_asks 41 (31 ∷ 36 ∷ 40 ∷ [])
        ≡ (10304, 256) ∷ (13024, 32) ∷ (13184, 32)
        ∷ (9280, 256) ∷ (11744, 32) ∷ (12480, 32) ∷ (12800, 32) ∷ (13056, 32)
        ∷ (8000, 256) ∷ (11520, 32) ∷ (12320, 32) ∷ (12736, 32) ∷ (12960, 32) ∷ (13088, 32) ∷ (13216, 32) ∷ [] }
{}

/// Two lists of named strings clash exactly where a test over the lists says so.
pub fn a_clash_is_found_by_its_test()
    ensures { (hash : List ℕ → List ℕ) (ours theirs : List (StringName × List ℕ))
        → has_clash hash ours theirs ≡ true ↔ IsClash hash ours theirs }
{}

/// The reads of an opener begin with its first read of a header: earlier reads don't count, and later ones are added.
pub fn reads_of_an_opener_begin_with_its_start()
    ensures start { (before : List StoreRead) (first : StoreRead) (more : List StoreRead)
        → is_start first ≡ true → list_any is_start more ≡ false
        → since (before ++ (first ∷ more)) ≡ first ∷ more }
    ensures more { (before more : List StoreRead) → list_any is_start more ≡ false
        → since (before ++ more) ≡ since before ++ more }
{}

/// Good reads under the root of a document's file served its header, and the newest opening read the file's fragment,
/// unless there is a clash. Then some name has one string in what the reads hash and another one in the file, with one
/// digest.
pub fn good_reads_are_of_the_file_or_clash()
    ensures header { (d : Doc) (key root : List ℕ) (h : Header) (top : List ℕ)
        (reads : List StoreRead)
        → is_document d ≡ true → AreBytes 16 key → HasRoot d key root → AreVerifiedUnder root h top reads
        → reads_clash reads d key ≡ false → h ≡ document_header d key }
    ensures fragment { (d : Doc) (key root : List ℕ) (h : Header) (top : List ℕ)
        (reads : List StoreRead)
        (newest : Opening) (before : List Opening)
        → is_document d ≡ true → AreBytes 16 key → HasRoot d key root → AreVerifiedUnder root h top reads
        → openings reads ≡ newest ∷ before → reads_clash reads d key ≡ false
        → newest.leaf.bytes ≡ slice_index_or (cipher_fragments d key) (index_of newest) [] }
{}

/// Regular reads that each gave the bytes of a document's file from their offset on give no clash with that document.
pub fn a_store_that_holds_the_file_gives_no_clash()
    ensures { (d : Doc) (key : List ℕ) (reads : List StoreRead)
        → is_document d ≡ true → has_stream d ≡ true → AreBytes 16 key
        → IsRegular reads → AreReadsOf (file d key) reads → reads_clash reads d key ≡ false }
{}

/// Longer reads of an opener have the clashes of shorter ones. So an opener that is sound for a document after a call
/// was sound for it before.
pub fn a_sound_opener_was_sound_before()
    ensures reads { (h : Header) (top : List ℕ) (before more : List StoreRead)
        (d : Doc) (key : List ℕ)
        → header_served before ≡ Some h → top_served before ≡ Some top
        → reads_clash (before ++ more) d key ≡ false → reads_clash before d key ≡ false }
    ensures opener { (h : Header) (top : List ℕ) (kept : Option Kept)
        (before after : Option (List StoreRead)) (held : Option (List ℕ))
        (d : Doc) (key : List ℕ)
        → Settled before h top kept None
        → Told before after (λ more. list_any is_start more ≡ false)
        → sound_for after held d key ≡ true → sound_for before held d key ≡ true }
{}

/// While an opener that has refused nothing is sound for a document with its root, the document is an origin: its file
/// has the header that the opener started with.
pub fn a_sound_document_with_the_root_is_an_origin()
    ensures { (h : Header) (top key : List ℕ) (kept : Option Kept)
        (served : Option (List StoreRead)) (held : Option (List ℕ)) (d : Doc)
        → IsInRange h → AreBytes 16 key
        → Settled served h top kept None → AreHeld held h top key kept
        → is_document d ≡ true → HasRoot d key (root_by h top) → sound_for served held d key ≡ true
        → IsOrigin h top key d }
{}

/// A fragment that was fetched is that of each document with the root for which the opener is sound after the call.
pub fn a_fetched_fragment_is_of_each_sound_document()
    ensures { (h : Header) (top key bytes : List ℕ) (index : ℕ)
        (served : Option (List StoreRead)) (held : Option (List ℕ)) (d : Doc)
        → AreBytes 16 key
        → IfSome served (λ all. IsFetched index h top key bytes (since all))
        → ((e : Doc) → HoldsDocument held e key → file_root e key ≡ root_by h top
        → bytes ≡ slice_index_or (fragments (plain e)) index [])
        → is_document d ≡ true → HasRoot d key (root_by h top) → sound_for served held d key ≡ true
        → bytes ≡ slice_index_or (fragments (plain d)) index [] }
{}
