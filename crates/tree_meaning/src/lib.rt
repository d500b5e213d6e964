//! Evaluates paths and rules on a whole document: what a path selects, where each sign comes from, and the authorised
//! view. Each takes one walk over the tree, after a walk that finds which predicates hold where.
#![tactic(auto)]

mod decided;
mod explain;
mod explanation_writer;
mod known;
mod lines;
mod marks;
mod preds;
mod shows;
mod sign;
mod view;
mod view_writer;

pub use explain::{Told, explain_tree, selected};
pub use explanation_writer::write_explanation_of;
pub use lines::write_explanation;
pub use sign::sign_at;
pub use view::view_tree;
pub use view_writer::{WriteViewFault, write_view};
