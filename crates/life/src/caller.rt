//! The caller of a system call.

ghost use Rattle.std.specs.Prelude.{◌≡◌, ◌≤◌, ◌+◌, IfOk, IfSome};
ghost use Rattle.posix.specs.Common.{process, target_in, span_in, asked_by};
ghost use Rattle.proctable.specs.Records.{process_of};
ghost use Rattle.life.specs.Callers.{caller_of, process_like};
ghost use Rattle.life.specs.Machines.{Finds, IsThere};

use crate::machine::Machine;
use posix::{Asked, Errno, Pid, Register, Span, Target, WaitCall};
use proctable::{ProcessTable, Record};
use signal::Creds;

/// What a call that concerns other processes reads of its caller.
#[derive(Clone, Copy)]
pub struct Caller {
    /// Its process ID.
    pub pid: Pid,
    /// Its process group ID (XBD 3 Process Group ID).
    pub group: Pid,
    /// Its session, by the process ID of the session leader (XBD 3 Session).
    pub session: Pid,
    /// Its user and group IDs (credentials(7)).
    pub creds: Creds,
    /// The first argument of the call.
    pub r1: i64,
    /// The second argument of the call.
    pub r2: i64,
    /// The third argument of the call.
    pub r3: i64,
}

impl Caller {
    /// Returns the processes that the first argument selects (XSH kill, waitpid).
    pub fn target(&self) -> Target
        ensures { result ≡ target_in self.now.r1 }
    {
        Target::from_word(self.r1)
    }

    /// Returns what the caller asks in a wait, or `None` if the wait fails with EINVAL.
    pub fn asked(&self, call: WaitCall) -> Option<Asked>
        ensures { result ≡ asked_by call (process_like self.now) }
    {
        call.asks(self.r1, self.r2, self.r3)
    }

    /// Returns the words that the caller names in a read or a write. Fails with EINVAL if the count is not 0 to 16;
    /// with EFAULT if a word is outside the memory of the process.
    pub fn span(&self) -> Result<Span, Errno>
        ensures value { result ≡ span_in self.now.r1 self.now.r2 }
        ensures range { IfOk result (λ s. (s.count ≤ 16) × (s.address + s.count ≤ 256)) }
    {
        Span::from_words(self.r1, self.r2)
    }
}

impl<K: ProcessTable> Machine<K> {
    /// Returns an existing process as the caller of a call. Changes nothing.
    #[inline(always)]
    pub fn caller(&mut self, pid: Pid) -> Caller
        requires { IsThere pid self.old }
        ensures pid { result.pid ≡ pid }
        ensures finds { Finds 1 self.old self.new (IfSome (process self.old.state pid) (λ me. result ≡ caller_of me)) }
    {
        caller_in(pid, self.table.look(pid))
    }
}

/// Returns the process with this ID and record as a caller. Only this function reads what a wait, a read or a write
/// asks from registers.
pub(crate) fn caller_in(pid: Pid, fields: &Record) -> Caller
    ensures { result ≡ caller_of (process_of pid 0 fields.now) }
{
    Caller {
        pid,
        group: fields.group,
        session: fields.session,
        creds: fields.own.creds,
        r1: fields.own.cpu.register(Register::FIRST_ARGUMENT),
        r2: fields.own.cpu.register(Register::SECOND_ARGUMENT),
        r3: fields.own.cpu.register(Register::THIRD_ARGUMENT),
    }
}
