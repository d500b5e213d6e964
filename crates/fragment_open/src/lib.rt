//! Reads fragments of a file from an untrusted store. Each fragment is checked against a root digest and then
//! deciphered.
#![tactic(auto)]

mod climb;
mod head;
mod kept;
mod last;
mod laws;
mod opened;
mod opener;
mod reading;

pub use head::{Head, begin};
pub use laws::{
    a_clash_is_found_by_its_test, a_fetched_fragment_is_of_each_sound_document,
    a_header_served_has_the_bytes, a_sound_document_with_the_root_is_an_origin,
    a_sound_opener_was_sound_before, a_store_that_holds_the_file_gives_no_clash,
    good_reads_are_of_the_file_or_clash, reads_of_an_opener_begin_with_its_start,
    three_openings_of_forty_one,
};
pub use opener::Opener;

#[cfg(test)]
mod tests;
