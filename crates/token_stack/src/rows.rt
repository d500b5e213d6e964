//! The rules that entries name, as a set.

ghost use Rattle.std.specs.Prelude.{◌≡◌, ◌≤◌, length};
ghost use Rattle.std.specs.List.{slice_range};
ghost use Rattle.token_stack.specs.Entries.{rules_of};

use crate::entry::Entry;
use acl_bits::Row;

/// The rules that select an element, from its entries, which are stored among others.
pub fn rules_between(entries: &[Entry], from: usize, to: usize) -> Row
    requires order { from ≤ to }
    requires within { to ≤ length entries.now }
    ensures { result ≡ rules_of (slice_range entries.now from to) }
{
    rules_in(&entries[from..to])
}

/// The rules that select an element, from its entries.
#[tactic(auto, using(crate::proofs::RowLaws::row_steps))]
fn rules_in(entries: &[Entry]) -> Row
    ensures { result ≡ rules_of entries.now }
{
    let mut row = Row::none();
    for entry in entries {
        match entry.selects {
            Some(rule) => row.put(u16::from(rule)),
            None => {}
        }
    }
    row
}
