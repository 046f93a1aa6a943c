//! System calls and their names.

ghost use Rattle.std.specs.Prelude.{◌≡◌, ◌≤◌, length};

/// A system call.
#[derive(Clone, Copy)]
pub enum Call {
    /// Terminates the caller with the exit code in r1 (XSH _exit).
    Exit,
    /// Creates a child, a copy of the caller (XSH fork).
    Fork,
    /// Waits for a child that r1 selects, with the options in r2 (XSH waitpid).
    Waitpid,
    /// Waits for a child that r1 and r2 select, with the options in r3 (XSH waitid).
    Waitid,
    /// Waits for a signal (XSH pause).
    Pause,
    /// Moves the caller to the end of the run queue (XSH sched_yield).
    SchedYield,
    /// Returns the caller's process ID (XSH getpid).
    Getpid,
    /// Returns the process ID of the caller's parent, 0 for process 1 (XSH getppid).
    Getppid,
    /// Returns the caller's real user ID (XSH getuid).
    Getuid,
    /// Returns the caller's effective user ID (XSH geteuid).
    Geteuid,
    /// Returns the caller's real group ID (XSH getgid).
    Getgid,
    /// Returns the caller's effective group ID (XSH getegid).
    Getegid,
    /// Sets the user IDs to r1, or only the effective one if the caller isn't privileged (XSH setuid).
    Setuid,
    /// Sets the effective user ID to r1 (XSH seteuid).
    Seteuid,
    /// Sets the group IDs to r1, or only the effective one if the caller isn't privileged (XSH setgid).
    Setgid,
    /// Sets the effective group ID to r1 (XSH setegid).
    Setegid,
    /// Sends the signal in r2, or none if r2 is 0, to the processes that r1 selects (XSH kill).
    Kill,
    /// Sends the signal in r2, or none if r2 is 0, with the value in r3 to the process in r1 (XSH sigqueue).
    Sigqueue,
    /// Sets the action for the signal in r1 to the handler in r2 with the mask in r3 and the flags in r4, and returns
    /// the old ones (XSH sigaction).
    Sigaction,
    /// Changes the signal mask by the set in r2, as r1 says, and returns the old mask (XSH sigprocmask).
    Sigprocmask,
    /// Returns the set of pending signals (XSH sigpending).
    Sigpending,
    /// Waits for a signal with the signal mask in r1 (XSH sigsuspend).
    Sigsuspend,
    /// Returns from the newest handler (sigreturn(2)).
    Sigreturn,
    /// Sets the caller's alarm to r1 ticks from now, or clears it if r1 is 0, and returns the ticks
    /// that were left (XSH alarm).
    Alarm,
    /// Runs the program in r1 in place of the caller's own, with r2 and r3 as its arguments (XSH exec).
    Exec,
    /// Returns the process group of the process that r1 names; 0 is the caller (XSH getpgid).
    Getpgid,
    /// Returns the session of the process that r1 names; 0 is the caller (XSH getsid).
    Getsid,
    /// Moves the process in r1 into the process group in r2, or into a new one with its own ID (XSH setpgid).
    Setpgid,
    /// Makes the caller the leader of a new session and a new process group (XSH setsid).
    Setsid,
    /// Makes the console in r1 the controlling terminal of the session that the caller leads (own;
    /// as TIOCSCTTY in ioctl_tty(2)).
    Setctty,
    /// Returns the foreground process group of the caller's terminal (XSH tcgetpgrp).
    Tcgetpgrp,
    /// Makes the process group in r1 the foreground one of the caller's terminal (XSH tcsetpgrp).
    Tcsetpgrp,
    /// Sets TOSTOP of the caller's terminal if r1 isn't 0, and otherwise clears it (own; as XSH tcsetattr).
    Settostop,
    /// Reads at most r2 bytes of a line of the caller's terminal into the words from address r1 on (XSH read).
    Read,
    /// Writes r2 words, from address r1 on, to the caller's terminal, as bytes (XSH write).
    Write,
    /// Makes the caller a child subreaper if r1 isn't 0, and otherwise no longer one (prctl(2)).
    Subreaper,
}

impl Call {
    ghost use Rattle.posix.specs.Calls.{call_named, call_text};

    /// All calls.
    pub const ALL: [Call; 36] = [
        Call::Exit,
        Call::Fork,
        Call::Waitpid,
        Call::Waitid,
        Call::Pause,
        Call::SchedYield,
        Call::Getpid,
        Call::Getppid,
        Call::Getuid,
        Call::Geteuid,
        Call::Getgid,
        Call::Getegid,
        Call::Setuid,
        Call::Seteuid,
        Call::Setgid,
        Call::Setegid,
        Call::Kill,
        Call::Sigqueue,
        Call::Sigaction,
        Call::Sigprocmask,
        Call::Sigpending,
        Call::Sigsuspend,
        Call::Sigreturn,
        Call::Alarm,
        Call::Exec,
        Call::Getpgid,
        Call::Getsid,
        Call::Setpgid,
        Call::Setsid,
        Call::Setctty,
        Call::Tcgetpgrp,
        Call::Tcsetpgrp,
        Call::Settostop,
        Call::Read,
        Call::Write,
        Call::Subreaper,
    ];

    /// Returns the name of the call, in world files and in traces: at most 16 bytes.
    pub fn name(self) -> &'static [u8]
        ensures text { result.now ≡ call_text self }
        ensures len { length result.now ≤ 16 }
    {
        match self {
            Call::Exit => b"exit",
            Call::Fork => b"fork",
            Call::Waitpid => b"waitpid",
            Call::Waitid => b"waitid",
            Call::Pause => b"pause",
            Call::SchedYield => b"sched_yield",
            Call::Getpid => b"getpid",
            Call::Getppid => b"getppid",
            Call::Getuid => b"getuid",
            Call::Geteuid => b"geteuid",
            Call::Getgid => b"getgid",
            Call::Getegid => b"getegid",
            Call::Setuid => b"setuid",
            Call::Seteuid => b"seteuid",
            Call::Setgid => b"setgid",
            Call::Setegid => b"setegid",
            Call::Kill => b"kill",
            Call::Sigqueue => b"sigqueue",
            Call::Sigaction => b"sigaction",
            Call::Sigprocmask => b"sigprocmask",
            Call::Sigpending => b"sigpending",
            Call::Sigsuspend => b"sigsuspend",
            Call::Sigreturn => b"sigreturn",
            Call::Alarm => b"alarm",
            Call::Exec => b"exec",
            Call::Getpgid => b"getpgid",
            Call::Getsid => b"getsid",
            Call::Setpgid => b"setpgid",
            Call::Setsid => b"setsid",
            Call::Setctty => b"setctty",
            Call::Tcgetpgrp => b"tcgetpgrp",
            Call::Tcsetpgrp => b"tcsetpgrp",
            Call::Settostop => b"settostop",
            Call::Read => b"read",
            Call::Write => b"write",
            Call::Subreaper => b"subreaper",
        }
    }

    /// Returns the call with this name, if any.
    pub fn named(word: &[u8]) -> Option<Call>
        ensures { result ≡ call_named word.now }
    {
        Call::ALL.iter().copied().find(|call| word == call.name())
    }
}
