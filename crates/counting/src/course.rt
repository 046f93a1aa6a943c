//! Runs a list of events in a world.

ghost use Rattle.std.specs.Prelude.{◌≡◌, ◌+◌, ◌<◌, ◌≤◌, ◌++◌, [], ◌∷◌, ⊤, length, IfOk, OnOk, false};
ghost use Rattle.std.specs.List.{list_any};
ghost use Rattle.posix.specs.Common.{numbered, IsRegular, IsSettled};
ghost use Rattle.text.specs.EventTexts.{most_events};
ghost use Rattle.kernel.specs.Steps.{noted_lines};
ghost use Rattle.counting.specs.AddLaws.{added_none, added_then};
ghost use Rattle.counting.specs.Courses.{Adds, AddsGranted, IsCourse, denies_memory as denies, one_denies_memory};
ghost use Rattle.counting.specs.Endings.{ending_of as ending_in};

use crate::ending::Ending;
use crate::lines::{Line, denies_memory};
use kernel::{Kernel, Observer, drive, drive_to};
use life::Note;
use posix::{Entry, Event, Pid};
use std::alloc::{AllocError, Global};
use text::{EventList, World};

/// Returns how a run ends that leaves the machine in this state.
fn ending_of(kernel: &Kernel) -> Ending
    ensures { result ≡ ending_in kernel.now.state }
{
    if kernel.is_halted() {
        Ending::Halted
    } else if kernel.current().is_some() {
        Ending::Going
    } else if kernel.has_alarms() {
        Ending::AwaitsAlarm
    } else {
        Ending::AtRest
    }
}

/// Adds the notes of a process as lines.
fn add_notes(lines: &mut Vec<Line>, pid: Pid, notes: &[Note]) -> Result<(), AllocError>
    ensures { OnOk result (lines.new.items ≡ lines.old.items ++ noted_lines pid notes.now) }
{
    for note in notes {
        let entry = Entry::Noted {
            pid,
            value: note.value,
        };
        lines.push(Line::new(note.step, entry))?;
    }
    Ok(())
}

/// Returns true if one of the entries says that the host had no memory for a call.
fn deny_memory(entries: &[Entry]) -> bool
    ensures { result ≡ list_any denies entries.now }
{
    entries.iter().any(denies_memory)
}

/// Adds the entries of an event as lines. Fails if one of them says that the host had no memory for a call.
fn add_entries(lines: &mut Vec<Line>, event: u64, entries: &[Entry]) -> Result<(), AllocError>
    ensures lines { OnOk result (lines.new.items ≡ lines.old.items ++ numbered event entries.now) }
    ensures granted { OnOk result (one_denies_memory (numbered event entries.now) ≡ false) }
{
    if deny_memory(entries) {
        return Err(AllocError);
    }
    for entry in entries {
        lines.push(Line::new(event, *entry))?;
    }
    Ok(())
}

/// An observer that adds the lines of a run to others. Fails if one says that the host had no memory for a call.
#[derive(Drop)]
struct Collector;

impl Observer<Vec<Line>> for Collector {
    type Fault = AllocError;

    ghost Hears = { λ _ before _ after shows. AddsGranted before.items after.items shows };

    ghost Fails = { λ _ _ _ _. ⊤ };

    ghost hears_none = { λ _ lines. added_none lines.items };

    ghost hears_then = { λ _ _ _ s t u ls ms. added_then s.items t.items u.items ls ms };

    ghost fails_then = { λ _ _ _ _ _ _ _ _ _. tt };

    fn hear(
        &mut self,
        pid: Pid,
        notes: &[Note],
        event: u64,
        entries: &[Entry],
        lines: &mut Vec<Line>,
    ) -> Result<(), AllocError> {
        add_notes(lines, pid, notes)?;
        add_entries(lines, event, entries)
    }
}

/// Runs one event, and adds what it shows. Fails if memory runs out, also for a call of a process.
pub fn run_one(kernel: &mut Kernel, event: Event, lines: &mut Vec<Line>) -> Result<(), AllocError>
    requires { kernel.old.events < most_events }
    ensures adds { OnOk result (Adds (kernel.old.events + 1) kernel.old.state (event ∷ []) kernel.new.state lines.old.items lines.new.items) }
    ensures events { kernel.new.events ≡ kernel.old.events + 1 }
    ensures regular { IsRegular kernel.new.state }
    ensures settled { IsSettled kernel.new.state }
{
    let last = kernel.events() + 1;
    let done = drive_to(kernel, event, last, &mut Collector, lines);
    kernel.regular_holds();
    done
}

/// Runs all events of a list, adds what they show to the empty `lines`, and returns how the run ends. Fails if memory
/// runs out, also for a call of a process.
pub fn run_all(
    kernel: &mut Kernel,
    events: &EventList,
    lines: &mut Vec<Line>,
) -> Result<Ending, AllocError>
    requires few { kernel.old.events + length events.now ≤ most_events }
    requires none { lines.old.items ≡ [] }
    ensures adds { OnOk result (Adds (kernel.old.events + 1) kernel.old.state events.now kernel.new.state [] lines.new.items) }
    ensures ending { IfOk result (λ ending. ending ≡ ending_in kernel.new.state) }
    ensures few { kernel.new.events ≤ kernel.old.events + length events.now }
    ensures regular { IsRegular kernel.new.state }
    ensures settled { IsSettled kernel.new.state }
{
    let done = drive(kernel, events, &mut Collector, lines);
    kernel.regular_holds();
    done?;
    Ok(ending_of(kernel))
}

/// Runs a list of events in a world from its start, and returns how the run ends; `lines` then has its trace. Fails if
/// memory runs out, also for a call of a process.
pub fn run_list(
    alloc: Global,
    world: &World,
    events: &EventList,
    lines: &mut Vec<Line>,
) -> Result<Ending, AllocError>
    requires { length events.now ≤ most_events }
    ensures { IfOk result (λ ending. IsCourse world.now events.now lines.new.items ending) }
{
    lines.clear();
    let mut kernel = Kernel::boot(alloc, world)?;
    let ending = run_all(&mut kernel, events, lines);
    // A kernel is dropped explicitly, by one function whose proof is short.
    drop(kernel);
    ending
}
