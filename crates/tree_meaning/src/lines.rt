//! Writes explanations, a line for each, without allocating.

ghost use Rattle.acl_model.specs.Explain.{explanation_lines};
ghost use Rattle.acl_outside.specs.WrittenText.{Writes};
ghost use Rattle.tree_meaning.specs.inside.ExplainWalk.{explanations_in};

use crate::explain::Told;
use acl_model::Rule;
use acl_outside::{Failed, Sink};
use line_writer::{rule_word, write_explanation_line};

/// Writes the line of each explanation. If they are what `explain_tree` returned under the same rules, the text is
/// `explain_text`. If the sink fails, a prefix was written, and nothing after the failure.
pub fn write_explanation<K: Sink>(told: &[Told], rules: &[Rule], sink: &mut K) -> Result<(), Failed>
    ensures written { Writes K.written K.missed K.settled K.faults result sink.old sink.new
        (explanation_lines rules.now (explanations_in told.now)) }
{
    for one in told {
        write_explanation_line(
            one.sign,
            rule_word(rules, one.rule),
            one.place.as_slice(),
            sink,
        )?;
    }
    Ok(())
}
