//! The comparison of a trace with the trace of a run of a world over its events.

ghost use Rattle.std.specs.Prelude.{◌≡◌, ◌≢◌, ◌≤◌, Err, IfOk, false, length};
ghost use Rattle.inputs.specs.Reads.{AreRead, Contents, Text};
ghost use Rattle.text.specs.EventTexts.{most_events};
ghost use Rattle.showing.specs.Comparisons.{Compares, OfRun};

use crate::comparing_sink::ComparingSink;
use inputs::Inputs;
use kernel::{RunError, Summary, run_read};
use proctable::SlabTable;
use std::alloc::{AllocError, Global};

/// Returns true if a run did not begin because memory ran out.
fn lacks_memory(done: &Result<Summary, RunError>) -> bool
    ensures { result ≡ false → done.now ≢ Err RunError.Memory }
{
    matches!(done, Err(RunError::Memory))
}

/// Returns the number of the first line in which a trace differs from the trace of a run of a world over its events, or
/// `None` if they are the same. Fails if there is no memory for the world.
pub fn first_difference(
    alloc: Global,
    trace: &[u8],
    inputs: &Inputs,
) -> Result<Option<u64>, AllocError>
    requires { length inputs.now.events ≤ most_events }
    ensures { IfOk result (λ number. (contents : Contents) (names : Text × Text) → AreRead contents names inputs.now.world inputs.now.events → OfRun contents names (λ printed. Compares trace.now printed number)) }
{
    let mut sink = ComparingSink::new(trace);
    let done = run_read::<SlabTable, _>(alloc, &inputs.world, &inputs.events, &mut sink);
    if lacks_memory(&done) {
        return Err(AllocError);
    }
    Ok(sink.difference())
}
