//! Reads a document from its stream in memory: the events of the walk build it.

ghost use Rattle.std.specs.Prelude.{◌≡◌, ◌≤◌, ◌%◌, None, Some, Err, List, ℕ, IfOk, IfSome, length};
ghost use Rattle.std.specs.Option.{option_map};
ghost use Rattle.acl_model.specs.Limits.{most_names, most_open_elements, most_stream_bytes};
ghost use Rattle.acl_walk.specs.SpotMoves.{Falls};
ghost use Rattle.skip_decode.specs.Positions.{tree_end};
ghost use Rattle.skip_decode.specs.Spots.{IsSpot};
ghost use Rattle.skip_decode.specs.StreamEvents.{after_step, events_left};
ghost use Rattle.skip_decode.specs.StreamSteps.{Step, step_at};
ghost use Rattle.skip_decode.specs.inside.Reading.{document_read};
ghost use Rattle.skip_decode.specs.inside.Windows.{IsHeld};

use crate::building::{Builder, is_end};
use crate::memory::Memory;
use crate::position::Numbers;
use crate::spot::SkipSpot;
use crate::stepping::checked_step;
use crate::window::Window;
use acl_model::Doc;
use acl_walk::Event;
use std::alloc::Global;
use tag_dictionary::{DictFault, Dictionary};

/// Makes a step and returns its event, or `None` where there is no step. Memory refuses no fetch, so an error says the
/// latter.
fn next_event(
    window: &mut Window<Memory<'_>>,
    numbers: &Numbers,
    spot: &mut SkipSpot,
) -> Option<Event>
    requires names { numbers.now.names ≤ most_names }
    requires deep { numbers.now.depth ≤ most_open_elements }
    requires spot { IsSpot numbers.now spot.old }
    requires within { tree_end numbers.now ≤ length window.old.source.bytes.now }
    requires held { IsHeld (λ (stream : List ℕ). stream ≡ window.old.source.bytes.now)
        window.old.held window.old.at }
    ensures source { window.new.source ≡ window.old.source }
    ensures held { IsHeld (λ (stream : List ℕ). stream ≡ window.new.source.bytes.now)
        window.new.held window.new.at }
    ensures event { result
        ≡ option_map (λ (step : Step). step.event) (step_at numbers.now window.old.source.bytes.now spot.old) }
    ensures moved { spot.new
        ≡ after_step spot.old (step_at numbers.now window.old.source.bytes.now spot.old) }
    ensures spot { IfSome result (λ event. IsSpot numbers.now spot.new) }
    ensures falls { IfSome result (λ event.
        Falls event (events_left numbers.now spot.old) (events_left numbers.now spot.new)) }
{
    match checked_step(window, numbers, &*spot) {
        Ok(step) => Some(spot.apply(step)),
        Err(_) => None,
    }
}

/// Reads the document that the events of these bytes build. `BadIndex` comes only where they build none.
pub(crate) fn read_events(
    alloc: Global,
    names: &Dictionary,
    numbers: &Numbers,
    stream: &[u8],
) -> Result<Doc, DictFault>
    requires names { numbers.now.names ≤ most_names }
    requires deep { numbers.now.depth ≤ most_open_elements }
    requires whole { length stream.now % 256 ≡ 0 }
    requires few { length stream.now ≤ most_stream_bytes }
    requires within { tree_end numbers.now ≤ length stream.now }
    ensures document { IfOk result (λ d. document_read names.now numbers.now stream.now ≡ Some d) }
    ensures bad { result ≡ Err DictFault.BadIndex
        → document_read names.now numbers.now stream.now ≡ None }
{
    let mut window = Window::over(Memory::new(stream));
    let mut spot = SkipSpot::new(alloc, numbers.dictionary)?;
    let mut builder = Builder::new(alloc);
    while let Some(event) = next_event(&mut window, numbers, &mut spot) {
        if is_end(&event) {
            return builder.finish();
        }
        builder.feed(alloc, names, &event)?;
    }
    Err(DictFault::BadIndex)
}
