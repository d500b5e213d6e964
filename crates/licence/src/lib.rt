//! Reads and seals licences, and reads keys. A licence has the root digest of a file, a user, access rules, and a seal.
#![tactic(auto)]

mod body;
mod fault;
mod forms;
mod head;
mod keys;
mod laws;
mod limits;
mod rule_line;
mod rules;
mod sealed;
mod terms;

pub use body::read_body;
pub use fault::LicenceFault;
pub use keys::{Keys, KeysError, read_keys};
pub use laws::{
    a_body_is_no_bad_seal, no_text_is_out_of_memory, sealed_is_read, what_has_a_cause_is_refused,
    what_is_read_is_said, what_is_refused_has_a_cause, what_is_said_is_read, written_is_read,
};
pub use sealed::{read_licence, seal_text};
pub use terms::Licence;
