//! Laws of the definitions: of headers, of counts and levels, and of the parts of a document's file. The functions do
//! nothing; their contracts are the laws.

ghost use Rattle.std.specs.Prelude.{◌≡◌, ℕ, suc, ◌+◌, ◌-◌, ◌*◌, ◌/◌, ◌^◌, ◌<◌, ◌≤◌, List, [], ◌∷◌, ◌++◌, Some, true, length, take, drop, slice_index_or};
ghost use Rattle.std.specs.List.{slice_get};
ghost use Rattle.sha2.specs.Sha256.{sha256};
ghost use Rattle.acl_model.specs.Ascii.{are_bytes};
ghost use Rattle.acl_model.specs.Document.{is_document};
ghost use Rattle.acl_model.specs.Stream.{has_stream, plain};
ghost use Rattle.acl_model.specs.declared.document.Doc.{Doc};
ghost use Rattle.aes_block.specs.Aes.{AreBytes};
ghost use Rattle.position_cipher.specs.Fragments.{locked_fragment, unlocked_fragment};
ghost use Rattle.merkle_chunks.specs.Layout.{header_len, digest_len, most_fragments, most_top_level, fragment_len};
ghost use Rattle.merkle_chunks.specs.HeaderBytes.{IsInRange, fragment_count, header_bytes};
ghost use Rattle.merkle_chunks.specs.Strings.{StringName, absent_child, leaf, leaf_string, node_string, root, root_string, spot};
ghost use Rattle.merkle_chunks.specs.Table.{IsNode, IsTopLevel, count_below, digest_count, digests_at, each_level, fragments, level_count, node_of, node_place, strings_at, table_bytes, table_levels, top_digest, top_level};
ghost use Rattle.merkle_chunks.specs.inside.LevelBytes.{levels_above, levels_in};
ghost use Rattle.merkle_chunks.specs.File.{cipher_fragments, cipher_stream, document_header, file, file_root, file_strings};
ghost use Rattle.merkle_chunks.specs.declared.header.Header.{Header};

/// No two headers have the same bytes. So a header that was written is read as itself.
pub fn a_header_has_its_own_bytes()
    ensures { (one other : Header) → IsInRange one → IsInRange other
        → header_bytes one ≡ header_bytes other → one ≡ other }
{}

/// The numbers of a document's header are in their ranges, whatever the key, where the document has a stream.
pub fn headers_of_documents_are_in_range()
    ensures { (d : Doc) (key : List ℕ) → is_document d ≡ true → has_stream d ≡ true
        → IsInRange (document_header d key) }
{}

/// The number of digests on a level is the number of fragments divided by a power of two, rounded up.
pub fn levels_have_powers_of_two()
    ensures { (n level : ℕ) → level_count n level ≡ (n + 2 ^ level - 1) / 2 ^ level }
{}

/// The top level is the first one with a single digest. Over at most 131,072 fragments its number is at most 17.
pub fn the_top_has_the_first_single_digest()
    ensures first { (n : ℕ) → 1 ≤ n → IsTopLevel n (top_level n) }
    ensures one { (n k l : ℕ) → IsTopLevel n k → IsTopLevel n l → k ≡ l }
    ensures low { (n : ℕ) → n ≤ most_fragments → top_level n ≤ most_top_level }
{}

/// Cutting the bytes of a table, with digests of 32 bytes, gives its levels again. These are the digests of the leaves
/// and the levels above them.
pub fn tables_are_cut_into_their_levels()
    ensures cut { (hash : List ℕ → List ℕ) (fragments : List (List ℕ))
        → ((string : List ℕ) → length (hash string) ≡ digest_len)
        → levels_in (length fragments) (table_bytes (table_levels hash fragments))
        ≡ table_levels hash fragments }
    ensures above { (hash : List ℕ → List ℕ) (fragments : List (List ℕ))
        → let leaves = digests_at hash fragments 0 in
        table_levels hash fragments
        ≡ leaves ∷ levels_above hash (top_level (length fragments)) leaves }
{}

/// The counts of the table over 41 fragments, computed by hand.
pub fn forty_one_fragments_have_85_digests()
    ensures levels { each_level 41 (level_count 41)
        ≡ 41 ∷ 21 ∷ 11 ∷ 6 ∷ 3 ∷ 2 ∷ 1 ∷ [] }
    ensures digests { digest_count 41 ≡ 85 }
{}

/// The offsets of the parts of a document's file: its header, each fragment, and each node of its table. So the root of
/// the file is the digest of the root string made of the bytes at the offsets of the header and the top digest.
pub fn parts_are_at_their_offsets()
    ensures header { (d : Doc) (key : List ℕ)
        → take header_len (file d key) ≡ header_bytes (document_header d key) }
    ensures fragment { (d : Doc) (key : List ℕ) (index : ℕ)
        → index < length (cipher_fragments d key)
        → take fragment_len (drop (header_len + fragment_len * index) (file d key))
        ≡ slice_index_or (cipher_fragments d key) index [] }
    ensures node { (d : Doc) (key : List ℕ) (level index : ℕ)
        → let n = length (cipher_fragments d key) in IsNode n level index
        → node_of (table_levels sha256 (cipher_fragments d key)) level index
        ≡ Some (take digest_len (drop (node_place n level index) (file d key))) }
    ensures size { (d : Doc) (key : List ℕ)
        → let n = length (cipher_fragments d key) in
        length (file d key)
        ≡ header_len + fragment_len * n + digest_len * digest_count n }
    ensures root { (d : Doc) (key : List ℕ)
        → let n = length (cipher_fragments d key) in 1 ≤ n → file_root d key
        ≡ sha256 (root_string (take header_len (file d key))
        (take digest_len (drop (node_place n (top_level n) 0) (file d key)))) }
{}

/// The plain stream of a document consists of bytes.
pub fn streams_are_bytes()
    ensures { (d : Doc) → is_document d ≡ true → are_bytes (plain d) ≡ true }
{}

/// Under a key of 16 bytes a document's file has as many fragments as its header says. Each is the fragment of the
/// plain stream, enciphered at its index, and deciphering it gives that fragment again.
pub fn fragments_are_enciphered_one_by_one()
    ensures count { (d : Doc) (key : List ℕ) → AreBytes 16 key
        → length (cipher_fragments d key) ≡ fragment_count (document_header d key) }
    ensures locked { (d : Doc) (key : List ℕ) (index : ℕ) → AreBytes 16 key
        → index < length (cipher_fragments d key)
        → slice_index_or (cipher_fragments d key) index []
        ≡ locked_fragment key index (slice_index_or (fragments (plain d)) index []) }
    ensures unlocked { (d : Doc) (key : List ℕ) (index : ℕ) → is_document d ≡ true
        → AreBytes 16 key → index < length (cipher_fragments d key)
        → unlocked_fragment key index (slice_index_or (cipher_fragments d key) index [])
        ≡ slice_index_or (fragments (plain d)) index [] }
{}

/// Under a key of 16 bytes a document's file is the header, the enciphered stream and the table over that stream. Bytes
/// as long as the plain stream are the enciphered one where each fragment of them is the plain fragment, enciphered at
/// its index.
pub fn files_are_made_by_their_parts()
    ensures cipher { (d : Doc) (key cipher : List ℕ) → AreBytes 16 key
        → length cipher ≡ length (plain d)
        → ((index : ℕ) → index < length (fragments (plain d))
        → slice_index_or (fragments cipher) index []
        ≡ locked_fragment key index (slice_index_or (fragments (plain d)) index []))
        → cipher ≡ cipher_stream d key }
    ensures whole { (d : Doc) (key : List ℕ) → AreBytes 16 key
        → let levels = table_levels sha256 (cipher_fragments d key) in file d key
        ≡ header_bytes (document_header d key) ++ (cipher_stream d key ++ table_bytes levels) }
{}

/// The string of a node above the leaves contains the two digests below it, or one of them and an absent child.
pub fn nodes_have_two_digests()
    ensures { (hash : List ℕ → List ℕ) (fragments : List (List ℕ)) (level index : ℕ)
        → IsNode (length fragments) (suc level) index
        → slice_index_or (strings_at hash fragments (suc level)) index []
        ≡ node_string (slice_index_or (digests_at hash fragments level) (2 * index) [])
        (slice_index_or (digests_at hash fragments level) (2 * index + 1) absent_child) }
{}

/// The strings of a file are the root string, the leaf string of each fragment and the string of each node above; and
/// no two of them have the same name.
pub fn each_string_has_its_own_name()
    ensures one { (d : Doc) (key : List ℕ) (i j : ℕ) (s t : StringName × List ℕ)
        → slice_get (file_strings d key) i ≡ Some s → slice_get (file_strings d key) j ≡ Some t
        → s.0 ≡ t.0 → i ≡ j }
    ensures root { (d : Doc) (key : List ℕ)
        → slice_get (file_strings d key) 0 ≡ Some (
          root,
          root_string (header_bytes (document_header d key))
              (top_digest sha256 (cipher_fragments d key)),
        ) }
    ensures leaf { (d : Doc) (key : List ℕ) (index : ℕ)
        → index < length (cipher_fragments d key)
        → slice_get (file_strings d key) (1 + index) ≡ Some (
          leaf index,
          leaf_string index (slice_index_or (cipher_fragments d key) index []),
        ) }
    ensures node { (d : Doc) (key : List ℕ) (level index : ℕ)
        → let n = length (cipher_fragments d key) in IsNode n level index
        → slice_get (file_strings d key) (1 + (count_below n level + index))
        ≡ Some (
          spot level index,
          slice_index_or (strings_at sha256 (cipher_fragments d key) level) index [],
        ) }
{}
