//! A run up to one of its events, event by event. It also records since when each process is blocked, stopped or a
//! zombie.

ghost use Rattle.std.specs.Prelude.{◌≡◌, ◌+◌, ◌<◌, ◌≤◌, List, IfOk, OnErr, OnOk, length, max, min};
ghost use Rattle.posix.specs.declared.event.Event.{Event as EventValue};
ghost use Rattle.posix.specs.Common.{World as WorldValue};
ghost use Rattle.text.specs.EventTexts.{most_events};
ghost use Rattle.showing.specs.Pasts.{AreGiven, IsReached, IsSame};

use kernel::Kernel;
use posix::{Entry, Event, Pid};
use std::alloc::{AllocError, Global};
use std::mem;
use telling::Since;
use text::EventList;
use umach::World;

/// A kernel after some events, with the times of the last changes of each process.
#[derive(Drop)]
pub struct Replay {
    pub kernel: Kernel,
    pub since: Since,
}

/// Returns true if a process is blocked in a call.
fn is_blocked(kernel: &mut Kernel, pid: Pid) -> bool
    ensures { IsSame kernel.old kernel.new }
{
    match kernel.snapshot(pid) {
        Some(it) => it.blocked.is_some(),
        None => false,
    }
}

impl Replay {
    /// Returns a world before its first event. Fails if there is no memory for it.
    fn boot(alloc: Global, world: &World) -> Result<Replay, AllocError>
        ensures reached { (events : List EventValue) → IfOk result (λ replay. IsReached world.now events replay.kernel) }
        ensures events { IfOk result (λ replay. replay.kernel.events ≡ 0) }
    {
        Ok(Replay {
            kernel: Kernel::boot(alloc, world)?,
            since: Since::new(alloc),
        })
    }

    /// Goes back to the start of the world. Fails if there is no memory for it; the run is unchanged then.
    pub fn restart(&mut self, alloc: Global, world: &World) -> Result<(), AllocError>
        ensures reached { (events : List EventValue) → OnOk result (IsReached world.now events self.new.kernel) }
        ensures events { OnOk result (self.new.kernel.events ≡ 0) }
        ensures same { OnErr result (self.new ≡ self.old) }
    {
        // `drop` is called by name, so that one proof about it covers all drops of a kernel.
        drop(mem::replace(self, Replay::boot(alloc, world)?));
        Ok(())
    }

    /// Returns the process that runs next, or `None` if there is none or it is already blocked in a call.
    fn acting(&mut self) -> Option<Pid>
        ensures { IsSame self.old.kernel self.new.kernel }
    {
        match self.kernel.current() {
            Some(pid) if !is_blocked(&mut self.kernel, pid) => Some(pid),
            _ => None,
        }
    }

    /// Records the stops and terminations in the entries of the last event. Also records that the process that acted is
    /// blocked since this event, if it is blocked.
    fn note(&mut self, entries: &[Entry], acting: Option<Pid>) -> Result<(), AllocError>
        ensures { IsSame self.old.kernel self.new.kernel }
    {
        let event = self.kernel.events();
        self.since.note(event, entries)?;
        match acting {
            Some(pid) if is_blocked(&mut self.kernel, pid) => self.since.note_wait(event, pid),
            _ => Ok(()),
        }
    }
}

/// An observer of a run, called before and after each event. It does not change the run.
pub trait Observer {
    /// Called before an event.
    fn before(&mut self, replay: &mut Replay, event: Event) -> Result<(), AllocError>
        ensures { IsSame replay.old.kernel replay.new.kernel };

    /// Called after an event, with its entries in the trace.
    fn after(
        &mut self,
        replay: &mut Replay,
        event: Event,
        entries: &[Entry],
    ) -> Result<(), AllocError>
        ensures { IsSame replay.old.kernel replay.new.kernel };
}

/// An observer that does nothing.
#[derive(Drop)]
pub struct Silent;

impl Observer for Silent {
    fn before(&mut self, _past: &mut Replay, _event: Event) -> Result<(), AllocError> {
        Ok(())
    }

    fn after(
        &mut self,
        _past: &mut Replay,
        _event: Event,
        _entries: &[Entry],
    ) -> Result<(), AllocError> {
        Ok(())
    }
}

/// Runs an event. Fails if there is no memory for a call of a process, to record the changes, or for the observer.
fn give<H: Observer>(replay: &mut Replay, event: Event, observer: &mut H) -> Result<(), AllocError>
    requires few { replay.old.kernel.events < most_events }
    ensures given { AreGiven event replay.old.kernel replay.new.kernel }
    ensures within { replay.new.kernel.events ≤ replay.old.kernel.events + 1 }
    ensures at { OnOk result (replay.new.kernel.events ≡ replay.old.kernel.events + 1) }
{
    observer.before(replay, event)?;
    let acting = replay.acting();
    let entries = replay.kernel.event(event);
    let mut shown = entries.iter();
    if shown.any(|entry| matches!(entry, Entry::NoMemory { .. })) {
        return Err(AllocError);
    }
    replay.note(entries.as_slice(), acting)?;
    observer.after(replay, event, entries.as_slice())
}

/// Runs the event again and again, until the number of events is `last`.
fn give_many<H: Observer>(
    replay: &mut Replay,
    event: Event,
    last: u64,
    observer: &mut H,
) -> Result<(), AllocError>
    requires few { last ≤ most_events }
    requires from { replay.old.kernel.events ≤ last }
    ensures given { AreGiven event replay.old.kernel replay.new.kernel }
    ensures within { replay.new.kernel.events ≤ last }
    ensures at { OnOk result (replay.new.kernel.events ≡ last) }
{
    for _ in replay.kernel.events()..last {
        give(replay, event, observer)?;
    }
    Ok(())
}

/// Runs the next events, up to the event with number `last`, or to the last event. If the state was that of a run of
/// the first events, so is the new state. Fails if memory runs out.
///
/// It is a separate loop, because `show` reads the machine before and after each event. `drive` takes many steps at
/// once, and passes only their entries to its observer.
pub fn run_to<H: Observer>(
    replay: &mut Replay,
    events: &EventList,
    last: u64,
    observer: &mut H,
) -> Result<(), AllocError>
    requires { length events.now ≤ most_events }
    ensures reached { (world : WorldValue) → IsReached world events.now replay.old.kernel → IsReached world events.now replay.new.kernel }
    ensures at { OnOk result (replay.new.kernel.events ≡ max replay.old.kernel.events (min last (length events.now))) }
{
    let mut end = 0;
    for run in events.runs() {
        end += run.count();
        let stop = end.min(last);
        if replay.kernel.events() < stop {
            give_many(replay, run.event(), stop, observer)?;
        }
    }
    Ok(())
}

/// Returns a world after the event with number `last`, or after the last event. Fails if memory runs out.
pub fn past_at(
    alloc: Global,
    world: &World,
    events: &EventList,
    last: u64,
) -> Result<Replay, AllocError>
    requires { length events.now ≤ most_events }
    ensures reached { IfOk result (λ replay. IsReached world.now events.now replay.kernel) }
    ensures at { IfOk result (λ replay. replay.kernel.events ≡ min last (length events.now)) }
{
    let mut replay = Replay::boot(alloc, world)?;
    match run_to(&mut replay, events, last, &mut Silent) {
        Ok(()) => Ok(replay),
        Err(e) => {
            drop(replay);
            Err(e)
        }
    }
}
