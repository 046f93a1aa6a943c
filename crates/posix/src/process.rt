//! The parts of a process's record.

ghost use Rattle.std.specs.Prelude.{◌≡◌};
ghost use Rattle.posix.specs.Delivery.{call_of};

use crate::call::Call;
use crate::pid::Pid;
use crate::sa_flags::SaFlags;
use crate::sig::Sig;
use crate::sig_set::SigSet;
use crate::status::Status;
use crate::waits::WaitCall;

/// The value and the sender of a signal; the sender is 0 if the kernel generated the signal.
#[derive(Clone, Copy, PartialEq, Eq)]
pub struct Carried {
    pub value: i64,
    pub sender: Pid,
}

impl Carried {
    /// The value and the sender of a signal that the kernel generates.
    pub const FROM_KERNEL: Carried = Carried {
        value: 0,
        sender: Pid::NONE,
    };
}

/// A pending signal with its value and sender.
#[derive(Clone, Copy, PartialEq, Eq)]
pub struct PendingSignal {
    pub sig: Sig,
    pub carried: Carried,
}

/// The disposition of a signal: the default, ignore, or a handler (XSH 2.4.3 Signal Actions).
#[derive(Clone, Copy, PartialEq, Eq)]
pub enum Handler {
    /// The signal's default action (signal(7)).
    Default,
    /// The signal is ignored.
    Ignore,
    /// The handler at this code address is entered.
    At(i64),
}

/// The action for one signal: its handler, the signals that are blocked in addition while the handler runs, and flags
/// (XSH sigaction).
#[derive(Clone, Copy)]
pub struct Action {
    pub handler: Handler,
    pub mask: SigSet,
    pub flags: SaFlags,
}

/// The state that is restored when a handler returns.
#[derive(Clone, Copy)]
pub struct Frame {
    pub pc: i64,
    pub registers: [i64; 8],
    pub mask: SigSet,
}

/// The state of a process: running, stopped or zombie. Running and stopped processes are living.
#[derive(Clone, Copy, PartialEq, Eq)]
pub enum Life {
    /// The process runs, or is blocked in a call.
    Running,
    /// A signal stopped the process.
    Stopped,
    /// The process terminated with this wait status, and has not been reaped.
    Zombie(Status),
}

/// The stop or continue of a process that no wait has consumed yet.
#[derive(Clone, Copy, PartialEq, Eq)]
pub enum News {
    /// There is none.
    Nothing,
    /// This signal stopped the process.
    StoppedBy(Sig),
    /// The process was continued.
    Continued,
}

/// The call that a process is blocked in; for sigsuspend, with the signal mask to restore.
#[derive(Clone, Copy, PartialEq, Eq)]
pub enum Blocked {
    Wait(WaitCall),
    Read,
    Pause,
    Sigsuspend(SigSet),
}

impl Blocked {
    /// Returns the call that the process is blocked in.
    pub fn call(self) -> Call
        ensures { result ≡ call_of self }
    {
        match self {
            Blocked::Wait(call) => call.call(),
            Blocked::Read => Call::Read,
            Blocked::Pause => Call::Pause,
            Blocked::Sigsuspend(_) => Call::Sigsuspend,
        }
    }
}

/// The immediate effect of a generated signal on its process, besides becoming pending (XSH 2.4.3).
#[derive(Clone, Copy)]
pub enum Effect {
    /// There is none.
    Nothing,
    /// The stopped process is continued.
    Continued,
}

/// The result of sending a signal (XSH kill, XSH sigqueue).
#[derive(Clone, Copy, PartialEq, Eq, PartialOrd, Ord)]
pub enum Sending {
    /// No process is selected.
    NobodyFound,
    /// None of the selected processes may be signalled.
    NobodyPermitted,
    /// At least one selected process may be signalled.
    Permitted,
    /// The signal would be queued for a process whose queue is full.
    QueueFull,
    /// The host has no memory for the queues.
    NoMemory,
}

/// What a wait has to report of the children that it selects (XSH waitpid, XSH waitid).
#[derive(Clone, Copy)]
pub enum Report {
    /// No child is selected.
    NoChild,
    /// No selected child has a requested status change.
    Nothing,
    /// A child terminated, with this wait status.
    End(Pid, Status),
    /// A child stopped or continued, with this wait status.
    Change(Pid, Status),
}
