//! The sign of the innermost open element and the rule that the sign comes from, computed from the
//! rules that select the element and its ancestors.
#![tactic(auto)]

mod laws;
mod level;
mod signs;

pub use laws::{rows_give_signs, unsettled_rows_are_told};
pub use level::Level;
pub use signs::Signs;

#[cfg(test)]
mod tests;
