//! Decides whether a value satisfies a comparison. The value may be whole or come in pieces.
#![tactic(auto)]

mod attributes;
mod comparison;
mod laws;
mod numeral;
mod progress;

pub use attributes::{is_any_attribute_enough, is_attribute_enough};
pub use comparison::{does_satisfy, is_enough};
pub use laws::values_may_come_in_pieces;
pub use numeral::Numeral;
pub use progress::{Progress, begun, feed, is_satisfied, is_settled};

#[cfg(test)]
mod tests;
