//! The state of a world after an event, in words.

ghost use Rattle.showing.specs.Pasts.{IsSame};

use crate::replay::Replay;
use kernel::Kernel;
use posix::{Life, Pid};
use proctable::Snapshot;
use std::alloc::{AllocError, Global};
use telling::{Around, Terminal, Times, View, put_console, put_counted, put_process, put_turns};
use wording::Prose;

/// A limit above the number of processes, for loops over all processes.
const MOST_NUMBERS: u32 = 4_194_305;

/// Returns the run queue: the runnable processes, in the order in which they will act.
pub fn turns(alloc: Global, kernel: &Kernel) -> Result<Vec<Pid>, AllocError> {
    let mut turns = Vec::new(alloc);
    let mut next = kernel.current();
    for _ in 0..MOST_NUMBERS {
        let Some(pid) = next else {
            return Ok(turns);
        };
        turns.push(pid)?;
        next = kernel.behind(pid);
    }
    Ok(turns)
}

/// Returns the processes, in the order of their numbers.
pub fn processes(alloc: Global, kernel: &mut Kernel) -> Result<Vec<Pid>, AllocError>
    ensures { IsSame kernel.old kernel.new }
{
    let mut pids = Vec::new(alloc);
    let mut last = Pid::NONE;
    for _ in 0..MOST_NUMBERS {
        let Some(pid) = kernel.next_process(last) else {
            return Ok(pids);
        };
        pids.push(pid)?;
        last = pid;
    }
    Ok(pids)
}

/// Returns the number of the console that is the controlling terminal of a session, from 1, or `None` if it has none.
fn console_of(kernel: &Kernel, session: Pid) -> Option<usize> {
    for index in 0..usize::from(kernel.consoles()) {
        if kernel.console(index)?.session() == session {
            return Some(index.saturating_add(1));
        }
    }
    None
}

/// A set of processes, such as a process group.
#[derive(Clone, Copy)]
enum Members {
    /// The members of a process group.
    OfGroup(Pid),
    /// The members of the session that this process leads, except the leader.
    LedBy(Pid),
}

impl Members {
    /// Returns true if a process is one of them.
    fn has(self, it: &Snapshot) -> bool {
        match self {
            Members::OfGroup(group) => it.group == group,
            Members::LedBy(leader) => it.session == leader && it.pid != leader,
        }
    }
}

/// Returns true if any of the members is not a zombie.
fn has_living(kernel: &mut Kernel, members: Members) -> bool
    ensures { IsSame kernel.old kernel.new }
{
    let mut last = Pid::NONE;
    for _ in 0..MOST_NUMBERS {
        let Some(pid) = kernel.next_process(last) else {
            return false;
        };
        let Some(it) = kernel.snapshot(pid) else {
            return false;
        };
        if members.has(&it) && !matches!(it.life, Life::Zombie(_)) {
            return true;
        }
        last = pid;
    }
    false
}

/// Returns the controlling terminal of a process, or `None` if it has none.
fn terminal_of(kernel: &mut Kernel, it: &Snapshot) -> Option<Terminal>
    ensures { IsSame kernel.old kernel.new }
{
    let number = console_of(kernel, it.session)?;
    Some(Terminal {
        number,
        is_shared: it.session != it.pid || has_living(kernel, Members::LedBy(it.pid)),
    })
}

/// Writes the lines of a process. Writes nothing if it does not exist.
fn put_if_there(
    view: View<'_, '_>,
    text: &mut Prose,
    kernel: &mut Kernel,
    times: Times,
    turns: &[Pid],
    pid: Pid,
)
    ensures { IsSame kernel.old kernel.new }
{
    let Some(it) = kernel.snapshot(pid) else {
        return;
    };
    let around = Around {
        times,
        sleeps: !kernel.is_halted() && !turns.contains(&pid),
        terminal: terminal_of(kernel, &it),
        ticks: kernel.ticks(),
    };
    put_process(view, text, it, around, kernel.look(pid));
}

/// Writes the lines of the processes that are shown.
fn put_processes(
    view: View<'_, '_>,
    text: &mut Prose,
    replay: &mut Replay,
    turns: &[Pid],
) -> Result<(), AllocError>
    ensures { IsSame replay.old.kernel replay.new.kernel }
{
    for pid in processes(view.alloc, &mut replay.kernel)?.as_slice() {
        if view.has(*pid) {
            let times = replay.since.of(*pid);
            put_if_there(view, text, &mut replay.kernel, times, turns, *pid);
        }
    }
    Ok(())
}

/// Writes a line for each requested process that does not exist.
fn put_missing(view: View<'_, '_>, text: &mut Prose, replay: &mut Replay)
    ensures { IsSame replay.old.kernel replay.new.kernel }
{
    for pid in view.only {
        if replay.kernel.snapshot(*pid).is_none() {
            text.push_number(pid.number());
            text.push_str(": no such process\n");
        }
    }
}

/// Writes a line for each console.
fn put_consoles(text: &mut Prose, kernel: &mut Kernel)
    ensures { IsSame kernel.old kernel.new }
{
    for index in 0..usize::from(kernel.consoles()) {
        let Some(console) = kernel.console(index) else {
            return;
        };
        let foreground = console.foreground();
        let is_living = has_living(kernel, Members::OfGroup(foreground));
        if let Some(console) = kernel.console(index) {
            put_console(text, index.saturating_add(1), console, is_living);
        }
    }
}

/// Writes the number of the last event, and which process runs next.
pub fn put_head(text: &mut Prose, kernel: &Kernel, events: u64) {
    match kernel.events() {
        0 => {
            put_counted(text, "before the first of ", events, "event");
            text.push_str(": ");
        }
        event => {
            text.push_with("after event ", event);
            text.push_with(" of ", events);
            text.push_str(": ");
        }
    }
    match kernel.current() {
        _ if kernel.is_halted() => text.push_str("the machine has halted\n"),
        Some(pid) => {
            text.push_with("process ", pid.number());
            text.push_str(" runs next\n");
        }
        None => text.push_str("no process is runnable\n"),
    }
}

/// Writes the state: which process runs next, each process, the run queue, and the consoles.
pub fn put_state(
    view: View<'_, '_>,
    text: &mut Prose,
    replay: &mut Replay,
) -> Result<(), AllocError>
    ensures { IsSame replay.old.kernel replay.new.kernel }
{
    put_head(text, &replay.kernel, view.events);
    let turns = turns(view.alloc, &replay.kernel)?;
    put_processes(view, text, replay, turns.as_slice())?;
    put_missing(view, text, replay);
    if !replay.kernel.is_halted() {
        put_turns(text, turns.as_slice());
    }
    put_consoles(text, &mut replay.kernel);
    Ok(())
}
