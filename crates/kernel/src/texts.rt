//! A run, from two inputs to a printed trace.

ghost use Rattle.std.specs.Prelude.{◌≡◌, ◌+◌, ◌≤◌, ℕ, List, Ok, IfOk, length};
ghost use Rattle.posix.specs.Common.{World as WorldValue, boot as boot_of};
ghost use Rattle.text.specs.EventTexts.{event_text, most_events};
ghost use Rattle.text.specs.Reading.{unless_memory};
ghost use Rattle.text.specs.WorldTexts.{world_text};
ghost use Rattle.kernel.specs.Headline.{Headline};
ghost use Rattle.kernel.specs.Accounts.{Accounts};

use crate::kernel_on::KernelOn;
use crate::progress::write_trace;
use crate::summary::Summary;
use proctable::{ProcessTable, SlabTable};
use std::alloc::Global;
use text::{EventList, TextFault, read_events, read_world};
use thiserror::Error;
use trace::Sink;
use umach::World;

/// Why a run failed.
#[derive(Clone, Copy, Debug, PartialEq, Eq, Error)]
pub enum RunError {
    /// The world input is rejected; nothing was put.
    #[error("world: {0}")]
    World(TextFault),
    /// The event input is rejected; nothing was put.
    #[error("events: {0}")]
    Events(TextFault),
    /// There was no memory to read the inputs and to boot; nothing was put.
    #[error("out of memory")]
    Memory,
    /// The sink failed. It took the beginning of the trace.
    #[error("cannot write")]
    Write,
}

/// Returns the error of a run whose world input is rejected. Lack of memory is no fault of the input.
fn world_error(fault: TextFault) -> RunError
    ensures { result ≡ unless_memory fault.reason (RunError.World fault) RunError.Memory }
{
    fault.unless_memory(RunError::World(fault), RunError::Memory)
}

/// Returns the error of a run whose event input is rejected. Lack of memory is no fault of the input.
fn events_error(fault: TextFault) -> RunError
    ensures { result ≡ unless_memory fault.reason (RunError.Events fault) RunError.Memory }
{
    fault.unless_memory(RunError::Events(fault), RunError::Memory)
}

/// Applies all events to a kernel that has had none, and puts the printed trace into a sink. For inputs that mean the
/// kernel's world and these events, its contract is that of [`run_on`].
fn run_kernel<K: ProcessTable, S: Sink>(
    kernel: &mut KernelOn<K>,
    events: &EventList,
    out: &mut S,
) -> Result<Summary, RunError>
    requires few { kernel.old.events + length events.now ≤ most_events }
    ensures { (world_bytes event_bytes : List ℕ) (world : WorldValue) → world_text world_bytes ≡ Ok world → event_text world.consoles event_bytes ≡ Ok events.now → kernel.old.state ≡ boot_of world → kernel.old.events ≡ 0 → Headline world_bytes event_bytes out.old out.new (S.seen out.old) (S.seen out.new) result }
{
    match write_trace(kernel, events, out) {
        Ok(ends) => Ok(kernel.summary(ends)),
        Err(_) => Err(RunError::Write),
    }
}

/// Runs events in a world, as [`run_on`] does, once both have been read.
///
/// Makes the kernel and lends it to `run_kernel`, which does the work. In one function, each exit would write out the
/// drop of all the kernel's parts.
pub fn run_read<K: ProcessTable, S: Sink>(
    alloc: Global,
    world: &World,
    events: &EventList,
    out: &mut S,
) -> Result<Summary, RunError>
    requires few { length events.now ≤ most_events }
    ensures headline { (world_bytes event_bytes : List ℕ) → world_text world_bytes ≡ Ok world.now → event_text world.now.consoles event_bytes ≡ Ok events.now → Headline world_bytes event_bytes out.old out.new (S.seen out.old) (S.seen out.new) result }
    ensures least { IfOk result (λ summary. 1 ≤ world.now.pidmax) }
{
    let mut kernel = KernelOn::<K>::boot(alloc, world).map_err(|_| RunError::Memory)?;
    let done = run_kernel(&mut kernel, events, out);
    // Drops what is large by its name, by one function whose proof is short.
    drop(kernel);
    done
}

/// Runs the events of one input in the world of another, on a table of processes, and puts the printed trace into a
/// sink.
///
/// Reads both inputs whole before the first byte is put, the world input first. Puts lines in pieces of 8 KiB or more,
/// except for the last piece. After a put that failed, nothing is put.
///
/// At `Ok`, this holds of the run whose printed trace was put. Each line has its form, and the lines keep the laws of a
/// trace (`laws::traces_keep_laws`). The births of the summary are its living, zombies, reported and dropped.
pub fn run_on<K: ProcessTable, S: Sink>(
    alloc: Global,
    world: &[u8],
    events: &[u8],
    out: &mut S,
) -> Result<Summary, RunError>
    ensures headline { Headline world.now events.now out.old out.new (S.seen out.old) (S.seen out.new) result }
    ensures accounts { IfOk result (Accounts world.now events.now (S.seen out.old) (S.seen out.new)) }
{
    let world = read_world(alloc, world).map_err(world_error)?;
    let events = read_events(alloc, world.consoles(), events).map_err(events_error)?;
    world.range_holds();
    events.range_holds();
    let done = run_read::<K, S>(alloc, &world, &events, out);
    drop(world);
    done
}

/// Runs the events of one input in the world of another, as [`run_on`] does, on the table that the program uses.
pub fn run<S: Sink>(
    alloc: Global,
    world: &[u8],
    events: &[u8],
    out: &mut S,
) -> Result<Summary, RunError>
    ensures headline { Headline world.now events.now out.old out.new (S.seen out.old) (S.seen out.new) result }
    ensures accounts { IfOk result (Accounts world.now events.now (S.seen out.old) (S.seen out.new)) }
{
    run_on::<SlabTable, S>(alloc, world, events, out)
}
