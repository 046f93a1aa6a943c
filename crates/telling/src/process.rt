//! The description of a process after an event.

use crate::console::put_counted;
use crate::sending::MOST_QUEUED;
use crate::since::Times;
use crate::view::View;
use crate::wakers::{Terminal, put_wakers};
use bitflags::Flags;
use posix::{Action, Blocked, Handler, Life, News, Pid, Sig, SigSet};
use proctable::{OwnPart, Snapshot};
use signal::Creds;
use wording::{
    Arguments, Listing, Prose, Source, put_address, put_call, put_flags, put_place, put_set,
    put_set_or_none, put_signal, put_status,
};

/// An existing process, in its current state.
#[derive(Drop)]
struct Shown<'l, 't> {
    snapshot: Snapshot,
    times: Times,
    source: Option<&'l Source<'t>>,
}

/// Ends a cell that begins at index `start` of the text. Writes blanks up to the width of its column, but at least two.
pub fn end_cell(text: &mut Prose, start: usize, width: usize) {
    text.push_str("  ");
    text.pad_to(start.saturating_add(width), b' ');
}

/// Writes the cell with the number of a process and the name of its program.
pub fn put_name(text: &mut Prose, pid: Pid, source: Option<&Source<'_>>) {
    let start = text.len();
    let name = match source {
        Some(source) => source.name,
        None => "-",
    };
    text.push_number(pid.number());
    text.push_str(" ");
    text.push_str(name);
    end_cell(text, start, 13);
}

/// Writes the cell of a set of signals.
fn put_set_cell(text: &mut Prose, name: &str, set: SigSet, width: usize) {
    let start = text.len();
    text.push_str(name);
    put_set_or_none(text, set);
    end_cell(text, start, width);
}

/// Writes the call in which a process is blocked. Only `pause` is written without arguments.
fn put_wait(
    text: &mut Prose,
    shown: &Shown<'_, '_>,
    own: &OwnPart,
    blocked: Blocked,
    listing: &Listing<'_>,
) {
    match blocked {
        Blocked::Pause => text.push_str("pause"),
        _ => put_call(
            text,
            blocked.call(),
            Arguments::of(&own.cpu),
            shown.source,
            listing,
        ),
    }
}

/// Writes that a process is stopped: by which signal, since which event, whether the stop is unreported, and in which
/// call.
fn put_stop(text: &mut Prose, shown: &Shown<'_, '_>, own: &OwnPart, listing: &Listing<'_>) {
    text.push_str("stopped");
    if let Some(sig) = Sig::new(shown.times.stopped_by) {
        text.push_str(" by ");
        put_signal(text, sig);
    }
    text.push_with(" since ", shown.times.stop);
    if let News::StoppedBy(_) = shown.snapshot.news {
        text.push_str(", not reported yet");
    }
    if let Some(blocked) = shown.snapshot.blocked {
        text.push_str(", in ");
        put_wait(text, shown, own, blocked, listing);
    }
}

/// Writes what a process does, and where it is in its program.
fn put_doing(text: &mut Prose, shown: &Shown<'_, '_>, own: &OwnPart, listing: &Listing<'_>) {
    match (shown.snapshot.life, shown.snapshot.blocked) {
        (Life::Zombie(status), _) => {
            text.push_with("zombie since ", shown.times.end);
            text.push_str(", ");
            return put_status(text, status);
        }
        (Life::Stopped, _) => put_stop(text, shown, own, listing),
        (Life::Running, Some(blocked)) => {
            text.push_str("blocked in ");
            put_wait(text, shown, own, blocked, listing);
            text.push_with(" since ", shown.times.wait);
        }
        (Life::Running, None) => text.push_str("runs"),
    }
    text.push_str(", ");
    put_place(text, shown.source, own.cpu.frame(SigSet::EMPTY).pc);
    if let News::Continued = shown.snapshot.news {
        text.push_str(", continued, not reported yet");
    }
}

/// Writes the first line of a process. A zombie has neither a mask nor pending signals.
fn put_row(text: &mut Prose, shown: &Shown<'_, '_>, own: &OwnPart, listing: &Listing<'_>) {
    let snapshot = &shown.snapshot;
    let is_zombie = matches!(snapshot.life, Life::Zombie(_));
    put_name(
        text,
        snapshot.pid,
        if is_zombie { None } else { shown.source },
    );
    let start = text.len();
    put_doing(text, shown, own, listing);
    end_cell(text, start, 45);
    if is_zombie {
        let start = text.len();
        end_cell(text, start, 38);
    } else {
        put_set_cell(text, "mask ", own.signals.mask(), 18);
        put_set_cell(text, "pending ", own.signals.pending(), 20);
    }
    text.push_with("parent ", snapshot.parent.number());
    text.push_with("  group ", snapshot.group.number());
    text.push_with("  session ", snapshot.session.number());
    text.push_str("\n");
}

/// Writes a signal that is caught: its handler, and its mask and flags, if there are any.
fn put_caught(
    text: &mut Prose,
    source: Option<&Source<'_>>,
    sig: Sig,
    action: Action,
    address: i64,
) {
    text.push_str("    catches ");
    put_signal(text, sig);
    text.push_str(" at ");
    put_address(text, source, address);
    if !action.mask.is_empty() {
        text.push_str(", mask ");
        put_set(text, action.mask);
    }
    if action.flags.bits() != 0 {
        text.push_str(", ");
        put_flags(text, &action.flags);
    }
    text.push_str("\n");
}

/// Writes the signals that a process catches, and those whose action is SIG_IGN.
fn put_actions(text: &mut Prose, source: Option<&Source<'_>>, own: &OwnPart) {
    let mut ignored = SigSet::EMPTY;
    for sig in (1..65u8).filter_map(Sig::new) {
        let action = own.signals.action(sig);
        match action.handler {
            Handler::At(address) => put_caught(text, source, sig, action, address),
            Handler::Ignore => ignored = ignored.union(SigSet::just(sig)),
            Handler::Default => {}
        }
    }
    if !ignored.is_empty() {
        text.push_str("    ignores ");
        put_set(text, ignored);
        text.push_str("\n");
    }
}

/// Writes the value and the sender of a signal.
pub fn put_carried(text: &mut Prose, value: i64, sender: Pid) {
    text.push_with(", value ", value);
    text.push_with(", from ", sender.number());
}

/// Writes the queued real-time signals, each with its value and sender.
fn put_queue(text: &mut Prose, own: &OwnPart) {
    for place in 0..MOST_QUEUED {
        let Some(signal) = own.signals.queued(place) else {
            return;
        };
        text.push_str("    queued ");
        put_signal(text, signal.sig);
        let (value, sender) = (signal.carried.value, signal.carried.sender);
        put_carried(text, value, sender);
        text.push_str("\n");
    }
}

/// Writes the user and group IDs of a process, unless all are 0.
fn put_ids(text: &mut Prose, creds: Creds) {
    if creds == Creds::root() {
        return;
    }
    let (user, group) = (creds.user(), creds.group());
    text.push_with("    user ", user.real.number());
    text.push_with(", effective ", user.effective.number());
    text.push_with(", saved ", user.saved.number());
    text.push_with("; group ", group.real.number());
    text.push_with(", effective ", group.effective.number());
    text.push_with(", saved ", group.saved.number());
    text.push_str("\n");
}

/// Writes the registers of a process.
fn put_registers(text: &mut Prose, own: &OwnPart) {
    text.push_str("   ");
    let registers = own.cpu.frame(SigSet::EMPTY).registers;
    for (number, value) in registers.iter().enumerate() {
        text.push_with(" r", number);
        text.push_with(" ", *value);
    }
    text.push_str("\n");
}

/// Writes the words of its memory that are not 0, each after its address.
fn put_memory(text: &mut Prose, own: &OwnPart) {
    let mut mark = "    memory ";
    for address in 0..=u8::MAX {
        let word = own.cpu.word(address);
        if word != 0 {
            text.push_with(mark, address);
            text.push_with(": ", word);
            mark = ", ";
        }
    }
    if mark == ", " {
        text.push_str("\n");
    }
}

/// What the description of a process needs besides its own fields.
#[derive(Drop)]
pub struct Around {
    pub times: Times,
    /// True if it is not in the run queue, and the machine has not halted.
    pub sleeps: bool,
    pub terminal: Option<Terminal>,
    pub ticks: u64,
}

/// Writes the lines of an existing process.
pub fn put_process(
    view: View<'_, '_>,
    text: &mut Prose,
    snapshot: Snapshot,
    around: Around,
    own: &OwnPart,
) {
    let source = view.listing.program(usize::from(snapshot.program));
    let times = around.times;
    put_row(
        text,
        &Shown {
            snapshot,
            times,
            source,
        },
        own,
        view.listing,
    );
    if matches!(snapshot.life, Life::Zombie(_)) {
        return;
    }
    if around.sleeps {
        put_wakers(text, &snapshot, own, around.terminal);
    }
    put_actions(text, source, own);
    put_queue(text, own);
    let handlers = own.signals.handlers();
    if handlers != 0 {
        text.push_with("    handlers that haven't returned: ", handlers);
        text.push_str("\n");
    }
    if let Some(due) = snapshot.alarm {
        let left = due.saturating_sub(around.ticks);
        put_counted(text, "    alarm in ", left, "tick");
        text.push_str("\n");
    }
    put_ids(text, snapshot.creds);
    if snapshot.is_subreaper {
        text.push_str("    is a child subreaper\n");
    }
    if !view.only.is_empty() {
        put_registers(text, own);
        put_memory(text, own);
    }
}
