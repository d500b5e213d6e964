//! The file of a document: its header, the digests over its enciphered fragments, and the table of these digests (a
//! Merkle tree).
#![tactic(auto)]

mod counts;
mod digests;
mod header;
mod laws;
pub mod layout;
mod table;
mod tree;

pub use counts::{table_len, top_level};
pub use digests::{Digest, key_check, leaf_digest, node_digest, root_of};
pub use header::{BadHeader, Header};
pub use laws::{
    a_header_has_its_own_bytes, each_string_has_its_own_name, files_are_made_by_their_parts,
    forty_one_fragments_have_85_digests, fragments_are_enciphered_one_by_one,
    headers_of_documents_are_in_range, levels_have_powers_of_two, nodes_have_two_digests,
    parts_are_at_their_offsets, streams_are_bytes, tables_are_cut_into_their_levels,
    the_top_has_the_first_single_digest,
};
pub use table::write_table;
pub use tree::Tree;

#[cfg(test)]
mod tests;
