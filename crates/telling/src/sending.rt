//! The signal that an event sends, its targets, and what each target does with it.

use posix::{Call, DefaultAction, Entry, Handler, Life, Pid, Sig, SigSet, Target};
use proctable::{OwnPart, Snapshot};
use signal::Signals;

/// The largest number of real-time signals queued for a process.
pub(crate) const MOST_QUEUED: usize = 32;

/// What happens to a signal that is sent to a process.
#[derive(Clone, Copy)]
pub enum Fate {
    /// It becomes pending, is queued, or is pending already.
    Kept,
    /// It is discarded, because the process ignores it.
    Ignored,
    /// It is discarded, because process 1 has no handler for it.
    NotCaught,
}

/// Returns what happens to a signal that is sent to a process.
fn fate_of(pid: Pid, signals: &Signals, sig: Sig) -> Fate {
    match signals.action(sig).handler {
        Handler::At(_) => Fate::Kept,
        _ if pid == Pid::INIT => Fate::NotCaught,
        _ if signals.mask().contains(sig) => Fate::Kept,
        Handler::Ignore => Fate::Ignored,
        Handler::Default => match sig.default_action() {
            DefaultAction::Ignore | DefaultAction::Continue => Fate::Ignored,
            _ => Fate::Kept,
        },
    }
}

/// Returns the number of queued real-time signals, and the last one.
fn queue_of(signals: &Signals) -> (usize, Option<Sig>) {
    let mut last = None;
    for place in 0..MOST_QUEUED {
        let Some(signal) = signals.queued(place) else {
            return (place, last);
        };
        last = Some(signal.sig);
    }
    (MOST_QUEUED, last)
}

/// The state of a process that is compared before and after an event.
#[derive(Clone, Copy)]
pub struct Row {
    pub snapshot: Snapshot,
    pub pending: SigSet,
    /// The number of queued real-time signals, and the last one.
    pub queued: usize,
    pub last_queued: Option<Sig>,
    pub can_act: bool,
    /// What happens to the signal that the event may have sent.
    pub fate: Fate,
    /// Whether it is sent SIGCHLD if a child terminates, and if a child stops or continues.
    pub hears_ends: bool,
    pub hears_changes: bool,
}

impl Row {
    /// Returns the row of a process. `sent` is the signal that the last event sent, or `None` before an event.
    pub fn new(snapshot: Snapshot, own: &OwnPart, can_act: bool, sent: Option<&Sent>) -> Row {
        let signals = &own.signals;
        let (queued, last_queued): (usize, Option<Sig>) = queue_of(signals);
        let fate = sent.map_or(Fate::Kept, |sent| fate_of(snapshot.pid, signals, sent.sig));
        Row {
            snapshot,
            pending: signals.pending(),
            queued,
            last_queued,
            can_act,
            fate,
            hears_ends: !signals.ignores_children(),
            hears_changes: !signals.ignores_stops(),
        }
    }

    /// Returns true if the event made a standard signal pending, or queued a real-time signal as the last one.
    fn has_new(&self, old: &Row, sig: Sig) -> bool {
        if sig.is_realtime() {
            self.queued > old.queued && self.last_queued == Some(sig)
        } else {
            self.pending.contains(sig) && !old.pending.contains(sig)
        }
    }
}

/// The targets of a signal.
#[derive(Clone, Copy)]
pub enum Whom {
    /// The processes that a caller names, except those that it must not signal.
    Named(Snapshot, Target),
    Group(Pid),
    /// The leader of a session whose terminal hangs up.
    Leader(Pid),
    /// The processes whose alarms ring after this number of ticks.
    Ringing(u64),
}

/// A signal that an event sends, and its targets.
#[derive(Clone, Copy)]
pub struct Sent {
    pub sig: Sig,
    pub whom: Whom,
}

/// Returns true if the target that a caller names includes a process.
fn is_named(caller: &Snapshot, target: &Target, snapshot: &Snapshot) -> bool {
    match *target {
        Target::Process(pid) => snapshot.pid == pid,
        Target::OwnGroup => snapshot.group == caller.group,
        Target::Group(group) => snapshot.group == group,
        Target::All => snapshot.pid != caller.pid && snapshot.pid != Pid::INIT,
        Target::Nobody => false,
    }
}

impl Sent {
    /// Returns the target if it is given as one process, or 0 if there may be several.
    pub fn target(&self) -> Pid {
        match &self.whom {
            Whom::Named(_, Target::Process(pid)) | Whom::Leader(pid) => *pid,
            _ => Pid::NONE,
        }
    }

    /// Returns true if the signal is sent to a process. `old` is its row before the event.
    pub fn is_to(&self, old: &Row) -> bool {
        let snapshot = &old.snapshot;
        match &self.whom {
            Whom::Named(caller, target) => {
                let same_session = caller.session == snapshot.session;
                is_named(caller, target, snapshot)
                    && caller
                        .creds
                        .may_signal(&snapshot.creds, Some(self.sig), same_session)
            }
            Whom::Group(group) => snapshot.group == *group,
            Whom::Leader(pid) => snapshot.pid == *pid,
            Whom::Ringing(ticks) => snapshot.alarm == Some(*ticks),
        }
    }
}

/// Returns true if the entries have a successful `kill` or `sigqueue`.
pub fn has_sent(entries: &[Entry]) -> bool {
    entries.iter().any(|entry| {
        matches!(
            entry,
            Entry::Called {
                call: Call::Kill | Call::Sigqueue,
                result: 0,
                ..
            }
        )
    })
}

/// Returns true if the entries show that a process acted on a signal.
pub fn is_taken(entries: &[Entry], taker: Pid, signal: Sig) -> bool {
    entries.iter().any(|entry| match *entry {
        Entry::Handled { pid, sig, .. }
        | Entry::Discarded { pid, sig }
        | Entry::Stopped { pid, sig } => pid == taker && sig == signal,
        _ => false,
    })
}

/// Returns what is written after a signal that was sent to a process, or `None` if the signal is not written. `hears`:
/// a change of a child generated SIGCHLD for the process. `is_sent`: the event sent it this signal.
pub fn fate_words(
    old: &Row,
    new: &Row,
    hears: bool,
    is_sent: bool,
    sig: Sig,
) -> Option<&'static str> {
    if new.has_new(old, sig) {
        return Some("");
    }
    if hears && sig == Sig::CHLD {
        return Some(", already pending");
    }
    let continues = sig == Sig::CONT && matches!(old.snapshot.life, Life::Stopped);
    if !is_sent || continues || matches!(new.snapshot.life, Life::Zombie(_)) {
        return None;
    }
    match new.fate {
        Fate::Kept => Some(", already pending"),
        Fate::Ignored => Some(", which ignores it"),
        Fate::NotCaught => Some(", which doesn't catch it"),
    }
}
