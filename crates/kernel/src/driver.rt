//! Events, one after another, and an observer of what they show.

ghost use Rattle.std.specs.Prelude.{◌≡◌, ◌+◌, ◌-◌, ◌<◌, ◌≤◌, ◌++◌, List, [], length, OnOk, OnErr, replicate};
ghost use Rattle.posix.specs.Common.{Line, numbered};
ghost use Rattle.text.specs.EventTexts.{most_events};
ghost use Rattle.kernel.specs.Progress.{Breaks, Shows};
ghost use Rattle.kernel.specs.Steps.{noted_lines};

use crate::kernel_on::KernelOn;
use arrayvec::ArrayVec;
use life::Note;
use posix::{Entry, Event, Pid};
use proctable::ProcessTable;
use text::EventList;

/// An observer of what events show, which hands it on.
pub trait Observer<T> {
    /// The error of an observer that stops.
    type Fault;

    // From one time to a later one it observed these lines.
    ghost Hears: { Self → T → Self → T → List Line → Type 0 };

    // It failed as it observed these lines.
    ghost Fails: { Self → T → T → List Line → Type 0 };

    /// Observes the notes of a process, and what the event with this number, the last one, shows besides.
    fn hear(
        &mut self,
        pid: Pid,
        notes: &[Note],
        event: u64,
        entries: &[Entry],
        to: &mut T,
    ) -> Result<(), Self::Fault>
        ensures ok { OnOk result (Hears self.old to.old self.new to.new (noted_lines pid notes.now ++ numbered event entries.now)) }
        ensures err { OnErr result (Fails self.old to.old to.new (noted_lines pid notes.now ++ numbered event entries.now)) };

    // If no time passes, it observed nothing.
    ghost hears_none: { (a : Self) (s : T) → Hears a s a s [] };

    // What it observed in two periods, one after the other, it observed in both together.
    ghost hears_then: { (a b c : Self) (s t u : T) (ls ms : List Line) → Hears a s b t ls → Hears b t c u ms → Hears a s c u (ls ++ ms) };

    // If it observed some lines, and then failed at the rest, it failed at all of them.
    ghost fails_then: { (a b : Self) (s t u : T) (ls ms : List Line) → Hears a s b t ls → Fails b t u ms → Fails a s u (ls ++ ms) };
}

/// Applies one event repeatedly, up to the event with number `last`, or until the observer fails.
pub fn drive_to<K: ProcessTable, T, O: Observer<T>>(
    kernel: &mut KernelOn<K>,
    event: Event,
    last: u64,
    observer: &mut O,
    to: &mut T,
) -> Result<(), O::Fault>
    requires few { last ≤ most_events }
    requires from { kernel.old.events ≤ last }
    ensures ok { OnOk result (Shows (kernel.old.events + 1) kernel.old.state (replicate (last - kernel.old.events) event) kernel.new.state (O.Hears observer.old to.old observer.new to.new)) }
    ensures err { OnErr result (Breaks (kernel.old.events + 1) kernel.old.state (replicate (last - kernel.old.events) event) kernel.new.state (O.Fails observer.old to.old to.new)) }
    ensures events { OnOk result (kernel.new.events ≡ last) }
    ensures some { kernel.old.events < last → kernel.old.events < kernel.new.events }
    ensures within { kernel.new.events ≤ last }
{
    let mut notes = ArrayVec::new();
    let mut entries = ArrayVec::new();
    while kernel.events() < last {
        notes.clear();
        entries.clear();
        let pid = kernel.repeat(event, last, &mut notes, &mut entries);
        observer.hear(
            pid,
            notes.as_slice(),
            kernel.events(),
            entries.as_slice(),
            to,
        )?;
    }
    Ok(())
}

/// Applies all events of a list. If the observer fails, the rest is not applied.
pub fn drive<K: ProcessTable, T, O: Observer<T>>(
    kernel: &mut KernelOn<K>,
    events: &EventList,
    observer: &mut O,
    to: &mut T,
) -> Result<(), O::Fault>
    requires { kernel.old.events + length events.now ≤ most_events }
    ensures ok { OnOk result (Shows (kernel.old.events + 1) kernel.old.state events.now kernel.new.state (O.Hears observer.old to.old observer.new to.new)) }
    ensures err { OnErr result (Breaks (kernel.old.events + 1) kernel.old.state events.now kernel.new.state (O.Fails observer.old to.old to.new)) }
    ensures events { OnOk result (kernel.new.events ≡ kernel.old.events + length events.now) }
    ensures within { kernel.new.events ≤ kernel.old.events + length events.now }
{
    for run in events.runs() {
        let last = kernel.events() + run.count();
        drive_to(kernel, run.event(), last, observer, to)?;
    }
    Ok(())
}
