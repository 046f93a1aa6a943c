//! An observer that describes each event of a run.

ghost use Rattle.showing.specs.Pasts.{IsSame};

use crate::replay::{Observer, Replay};
use crate::state::{processes, turns};
use kernel::Kernel;
use posix::{Entry, Event, Pid};
use std::alloc::{AllocError, Global};
use telling::{Actor, Reading, Sent, Teller};

/// An observer that describes events.
#[derive(Drop)]
pub struct Telling<'l, 't> {
    pub teller: Teller<'l, 't>,
    /// The target of the console's signals at the current event: the foreground process group for a key, the session
    /// leader for a hangup. It is 0 if there is no target.
    told: Pid,
}

impl<'l, 't> Telling<'l, 't> {
    /// Returns an observer that has seen no event.
    pub fn new(teller: Teller<'l, 't>) -> Self {
        Telling {
            teller,
            told: Pid::NONE,
        }
    }
}

/// Reads the state of these processes, and notes which of them no longer exist. `sent` is the signal that the last
/// event sent, or `None` before an event.
fn read(
    kernel: &mut Kernel,
    pids: &[Pid],
    sent: Option<&Sent>,
    reading: &mut Reading,
) -> Result<(), AllocError>
    ensures { IsSame kernel.old kernel.new }
{
    for pid in pids {
        match kernel.snapshot(*pid) {
            Some(it) => reading.add(it, kernel.look(*pid), sent)?,
            None => reading.gone.push(*pid)?,
        }
    }
    Ok(())
}

/// Reads all processes before an event. Their changes are found by comparison with these rows.
fn learn(teller: &mut Teller<'_, '_>, kernel: &mut Kernel) -> Result<(), AllocError>
    ensures { IsSame kernel.old kernel.new }
{
    let alloc = teller.view.alloc;
    let mut all = Reading::new(alloc, turns(alloc, kernel)?);
    let pids = processes(alloc, kernel)?;
    read(kernel, pids.as_slice(), None, &mut all)?;
    teller.rows.set(kernel.events(), all);
    Ok(())
}

/// Returns what the current process is about to do, or `None` if no process is runnable.
fn actor_of(kernel: &mut Kernel) -> Option<Actor>
    ensures { IsSame kernel.old kernel.new }
{
    if kernel.is_halted() {
        return None;
    }
    let pid = kernel.current()?;
    let it = kernel.snapshot(pid)?;
    Some(Actor::new(it, kernel.look(pid)))
}

/// Returns the target of the console's signals at the next event: the foreground process group for a key, the session
/// leader for a hangup. Returns 0 for any other event, and if the console has hung up.
fn told_of(kernel: &Kernel, event: Event) -> Pid {
    let number = match event {
        Event::Key { console, .. } | Event::Hangup { console } => console,
        Event::Step | Event::Tick => return Pid::NONE,
    };
    match kernel.console(usize::from(number).saturating_sub(1)) {
        Some(console) if !console.is_hung_up() => match event {
            Event::Hangup { .. } => console.session(),
            _ => console.foreground(),
        },
        _ => Pid::NONE,
    }
}

impl Observer for Telling<'_, '_> {
    fn before(&mut self, replay: &mut Replay, event: Event) -> Result<(), AllocError> {
        if !self.teller.rows.are_after(replay.kernel.events()) {
            learn(&mut self.teller, &mut replay.kernel)?;
        }
        self.teller.actor = match event {
            Event::Step => actor_of(&mut replay.kernel),
            Event::Tick | Event::Key { .. } | Event::Hangup { .. } => None,
        };
        self.told = told_of(&replay.kernel, event);
        Ok(())
    }

    fn after(
        &mut self,
        replay: &mut Replay,
        event: Event,
        entries: &[Entry],
    ) -> Result<(), AllocError> {
        let (alloc, kernel) = (self.teller.view.alloc, &mut replay.kernel);
        let sent = self.teller.sent(event, entries, self.told, kernel.ticks());
        let mut reading = Reading::new(alloc, turns(alloc, kernel)?);
        let pids = self.teller.concerned(entries, sent, &reading)?;
        read(kernel, pids.as_slice(), sent.as_ref(), &mut reading)?;
        let number = kernel.events();
        self.teller
            .tell(number, event, entries, &reading, sent.as_ref())?;
        self.teller.rows.keep(number, reading)
    }
}
