//! Entries of a trace.

ghost use Rattle.std.specs.Prelude.{◌≡◌};
ghost use Rattle.posix.specs.Entries.{process_of};

use crate::bytes::Bytes;
use crate::call::Call;
use crate::pid::Pid;
use crate::sig::Sig;
use crate::status::Status;
use crate::waits::WaitCall;

/// A trace entry of an event, without the event's number (own).
#[derive(Clone, Copy, Default)]
pub enum Entry {
    /// A process noted the value of a register.
    Noted {
        pid: Pid,
        value: i64,
    },
    /// A call returned a result; if it failed, the negated [`Errno`](crate::Errno).
    Called {
        pid: Pid,
        call: Call,
        result: i64,
    },
    /// A read or a write by a process moved at least one byte.
    Moved {
        pid: Pid,
        call: Call,
        bytes: Bytes,
    },
    /// A wait by a process reported a child's wait status, and consumed the status change.
    Reported {
        pid: Pid,
        call: WaitCall,
        child: Pid,
        status: Status,
    },
    /// A waitid by a process reported a child's wait status, and left the status change to be reported again (WNOWAIT).
    Looked {
        pid: Pid,
        child: Pid,
        status: Status,
    },
    /// A call failed with EAGAIN, because the host had no memory for it.
    NoMemory {
        pid: Pid,
        call: Call,
    },
    /// A process became a child subreaper, or is no longer one.
    Marked {
        pid: Pid,
        mark: bool,
    },
    /// A process entered the handler of a signal, with the signal's value and sender.
    Handled {
        pid: Pid,
        sig: Sig,
        value: i64,
        sender: Pid,
    },
    /// A signal was delivered to a process, without effect.
    Discarded {
        pid: Pid,
        sig: Sig,
    },
    /// A signal stopped a process.
    Stopped {
        pid: Pid,
        sig: Sig,
    },
    /// The newest handler of a process returned.
    Returned {
        pid: Pid,
    },
    /// A process terminated.
    Ended {
        pid: Pid,
        status: Status,
    },
    /// The machine halted, because process 1 terminated.
    #[default]
    Halted,
}

impl Entry {
    /// Returns the process of the entry, or `None` for a halt.
    pub fn process(&self) -> Option<Pid>
        ensures { result ≡ process_of self.now }
    {
        match *self {
            Entry::Noted { pid, .. }
            | Entry::Called { pid, .. }
            | Entry::Moved { pid, .. }
            | Entry::Reported { pid, .. }
            | Entry::Looked { pid, .. }
            | Entry::NoMemory { pid, .. }
            | Entry::Marked { pid, .. }
            | Entry::Handled { pid, .. }
            | Entry::Discarded { pid, .. }
            | Entry::Stopped { pid, .. }
            | Entry::Returned { pid }
            | Entry::Ended { pid, .. } => Some(pid),
            Entry::Halted => None,
        }
    }
}
