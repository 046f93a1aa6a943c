//! The command `explain TRACE WORLD EVENTS`. It compares a trace with the trace of a run of the world. If they are the
//! same, it explains what each event did, and reports probable mistakes in the world.

ghost use Rattle.std.specs.Prelude.{◌≡◌, ◌≤◌, IfOk, MatchResult, length};
ghost use Rattle.inputs.specs.Failures.{status_of as status_of_failure};
ghost use Rattle.inputs.specs.Statuses.{status_of};
ghost use Rattle.text.specs.EventTexts.{most_events};
ghost use Rattle.showing.specs.Comparing.{IsTraceBeside, IsUnread, Means, said};
ghost use Rattle.showing.specs.Explanations.{Explains};

use crate::comparison::first_difference;
use crate::lines::explain_text;
use crate::run_explainer::RunExplainer;
use inputs::{FileFailure, InputFault, Inputs, ReadFiles, read_inputs, tell};
use std::alloc::Global;
use trace::{Sink, put_all};
use warning::put_warnings;
use wording::{Listing, Prose};

/// The names of the files with the trace, the world and its events.
#[derive(Clone, Copy)]
pub struct Named<'a> {
    pub trace: &'a str,
    pub world: &'a str,
    pub events: &'a str,
}

/// The contents of the three files, and the result of the comparison.
#[derive(Drop)]
struct Compared {
    trace: Vec<u8>,
    inputs: Inputs,
    /// The number of the first line in which the trace differs from the trace of a run, or `None` if they are the same.
    other: Option<u64>,
}

/// Reads the three files, and compares the trace with the trace of a run of the world over the events.
fn compare<'a, F: ReadFiles>(
    alloc: Global,
    files: &F,
    named: Named<'a>,
) -> Result<Compared, InputFault<'a>>
    ensures compared { MatchResult result (λ c. IsTraceBeside (F.contents files.now) (said named.entry) c.trace.items c.other) (IsUnread (F.contents files.now) (said named.entry)) }
    ensures within { IfOk result (λ c. length c.inputs.events ≤ most_events) }
{
    let trace = files.read_file(named.trace).map_err(InputFault::Unread)?;
    let inputs = read_inputs(alloc, files, named.world, named.events)?;
    match first_difference(alloc, trace.as_slice(), &inputs) {
        Ok(other) => Ok(Compared {
            trace,
            inputs,
            other,
        }),
        Err(_) => Err(InputFault::Memory),
    }
}

/// Puts a trace. After the first line of each event it puts what the event did in a run of the world.
fn explain_run<'a, O: Sink>(
    alloc: Global,
    inputs: &Inputs,
    trace: &[u8],
    out: &mut O,
) -> Result<(), FileFailure<'a>>
    requires { length inputs.now.events ≤ most_events }
    ensures { Explains (O.seen out.old) (O.seen out.new) trace.now result }
{
    let listing = Listing::new(alloc, inputs.world_text.as_slice())?;
    let mut run = RunExplainer::new(alloc, &listing, &inputs.world, &inputs.events)?;
    let done = explain_text(alloc, &mut run, trace, out);
    drop(run);
    done
}

/// Puts the trace as [`explain_run`] does, and then reports probable mistakes in the world. Puts nothing if there is no
/// memory for the report, because the report is made first.
fn serve_same<'a, O: Sink, E: Sink>(
    alloc: Global,
    inputs: &Inputs,
    trace: &[u8],
    out: &mut O,
    err: &mut E,
) -> Result<(), FileFailure<'a>>
    requires { length inputs.now.events ≤ most_events }
    ensures { Explains (O.seen out.old) (O.seen out.new) trace.now result }
{
    let mut warnings = Prose::new(alloc);
    put_warnings(
        alloc,
        &inputs.world,
        inputs.world_text.as_slice(),
        &mut warnings,
    )?;
    let told = warnings.as_bytes()?;
    explain_run(alloc, inputs, trace, out)?;
    let _ = put_all(err, told);
    Ok(())
}

/// Reports a failure to read the inputs, and returns the exit status for it.
fn ended<E: Sink>(why: InputFault<'_>, err: &mut E) -> u8
    ensures { result ≡ status_of why.entry }
{
    why.tell(err);
    why.status()
}

/// Compares a trace with the trace of a run of a world over its events. If they are the same, puts the trace with what
/// each event did, and reports probable mistakes in the world to `err`.
///
/// Returns the exit status: 0 on success, 1 if the traces differ or an input is rejected, 3 if a file cannot be read,
/// `out` fails or memory runs out. A failure of `err` does not change the status.
pub fn serve_beside<'a, F: ReadFiles, O: Sink, E: Sink>(
    alloc: Global,
    named: Named<'a>,
    files: &F,
    out: &mut O,
    err: &mut E,
) -> u8
    ensures most { result ≤ 3 }
    ensures meaning { Means (F.contents files.now) (said named.entry) out.old out.new (O.seen out.old) (O.seen out.new) result }
{
    let read = match compare(alloc, files, named) {
        Ok(read) => read,
        Err(why) => return ended(why, err),
    };
    if let Some(number) = read.other {
        tell(
            format_args!(
                "jobk: line {number}: differs from the trace of this world and these events"
            ),
            err,
        );
        return 1;
    }
    match serve_same(alloc, &read.inputs, read.trace.as_slice(), out, err) {
        Ok(()) => 0,
        Err(failure) => failure.end(b"", err),
    }
}
