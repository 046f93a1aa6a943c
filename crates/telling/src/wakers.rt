//! The description of what can wake a sleeping process.

use bitflags::Flags;
use posix::{Asked, Blocked, Life, Pid, Target, WaitCall, WaitidOptions};
use proctable::{OwnPart, Snapshot};
use wording::{Arguments, Prose};

/// The controlling terminal of a process.
#[derive(Clone, Copy)]
pub struct Terminal {
    pub number: usize,
    /// True if another living process has it.
    pub is_shared: bool,
}

/// Returns the process group in which a wait selects children, if it selects by group.
fn group_of(snapshot: &Snapshot, asked: &Asked) -> Option<Pid> {
    match asked.target {
        Target::OwnGroup => Some(snapshot.group),
        Target::Group(group) => Some(group),
        Target::All | Target::Process(_) | Target::Nobody => None,
    }
}

/// Writes the children that a wait selects.
fn put_children(text: &mut Prose, snapshot: &Snapshot, asked: &Asked) {
    if let Target::Process(pid) = asked.target {
        return text.push_with("by child ", pid.number());
    }
    text.push_str("by a child");
    if let Some(group) = group_of(snapshot, asked) {
        text.push_with(" in group ", group.number());
    }
}

/// Returns, for each change of a child, whether it can wake the wait, and its description. If `drops`, terminated
/// children don't become zombies. Then a termination can wake only a wait for that one child, which has no child left.
fn doings(snapshot: &Snapshot, asked: &Asked, drops: bool) -> [(bool, &'static str); 5] {
    let is_for_one = matches!(asked.target, Target::Process(_));
    let is_for_group = matches!(asked.target, Target::OwnGroup | Target::Group(_));
    let ends = if drops {
        is_for_one
    } else {
        asked.options.contains(WaitidOptions::WEXITED)
    };
    let stops = asked.options.contains(WaitidOptions::WSTOPPED);
    let continues = asked.options.contains(WaitidOptions::WCONTINUED);
    let gets_orphans = !is_for_one && (snapshot.pid == Pid::INIT || snapshot.is_subreaper);
    let (comes, words) = if stops || continues {
        (gets_orphans, "is reparented to it after such a change")
    } else {
        (gets_orphans && ends, "is reparented to it as a zombie")
    };
    [
        (ends, "terminates"),
        (stops, "is stopped"),
        (continues, "is continued"),
        (comes, words),
        (
            continues && is_for_group,
            "joins the group after being continued",
        ),
    ]
}

/// Writes the changes of a child that can wake a wait, if there are any.
fn put_doings(text: &mut Prose, snapshot: &Snapshot, asked: &Asked, drops: bool) {
    let start = text.len();
    for (does, words) in doings(snapshot, asked, drops) {
        if does {
            if text.len() == start {
                put_children(text, snapshot, asked);
                text.push_str(" that ");
            } else {
                text.push_str(" or ");
            }
            text.push_str(words);
        }
    }
    if text.len() != start {
        text.push_str(", ");
    }
}

/// Writes what else can wake a wait: it has no child left, or its caller is moved to another process group.
fn put_losses(text: &mut Prose, snapshot: &Snapshot, asked: &Asked, drops: bool) {
    if let Some(group) = group_of(snapshot, asked) {
        text.push_with("once it has no child left in group ", group.number());
        text.push_str(", ");
    } else if drops && matches!(asked.target, Target::All) {
        text.push_str("once it has no child left, ");
    }
    if matches!(asked.target, Target::OwnGroup)
        && snapshot.session != snapshot.pid
        && !snapshot.ran_exec
    {
        text.push_str("once it is moved to another group, ");
    }
}

/// Writes what can wake a wait for children, besides signals. Writes nothing for invalid arguments: that wait has
/// failed.
fn put_waiting(text: &mut Prose, snapshot: &Snapshot, own: &OwnPart, call: WaitCall) {
    let Some(asked) = Arguments::of(&own.cpu).asked(call) else {
        return;
    };
    let drops = own.signals.drops_children();
    put_doings(text, snapshot, &asked, drops);
    put_losses(text, snapshot, &asked, drops);
}

/// Writes what can wake a read, besides signals.
fn put_reading(text: &mut Prose, snapshot: &Snapshot, terminal: Option<Terminal>) {
    let Some(terminal) = terminal else {
        return;
    };
    text.push_with(
        "by a finished line or a hangup of console ",
        terminal.number,
    );
    text.push_str(", ");
    if terminal.is_shared {
        text.push_str("once it is in the background, ");
    }
    if snapshot.session != snapshot.pid {
        text.push_str("once the console is released, ");
    }
}

/// Writes what can wake a sleeping process.
pub fn put_wakers(
    text: &mut Prose,
    snapshot: &Snapshot,
    own: &OwnPart,
    terminal: Option<Terminal>,
) {
    if matches!(snapshot.life, Life::Stopped) {
        return text.push_str("    is continued by SIGCONT, and killed by SIGKILL\n");
    }
    let Some(blocked) = snapshot.blocked else {
        return;
    };
    text.push_str("    is woken ");
    let start = text.len();
    match blocked {
        Blocked::Wait(call) => put_waiting(text, snapshot, own, call),
        Blocked::Read => put_reading(text, snapshot, terminal),
        Blocked::Pause | Blocked::Sigsuspend(_) => {}
    }
    if text.len() != start {
        text.push_str("or ");
    }
    text.push_str(if snapshot.pid == Pid::INIT {
        "by a signal that it catches and doesn't block: process 1 gets no other\n"
    } else {
        "by a signal that it neither blocks nor ignores\n"
    });
}
