//! The table of names and their numbers.

ghost use Rattle.std.specs.Prelude.{◌≡◌, map, option_map};
ghost use Rattle.wording.specs.Names.{called_among as first_called, is_called as is_called_of, named_among as first_named, named_as, number_named as number_named_of, realtime as realtime_of, said, up_to_30 as small_number, without_sig as without_sig_of};

/// The kind of a name.
#[derive(Clone, Copy, PartialEq, Eq)]
pub enum Kind {
    Signal,
    Errno,
    /// An option of waitpid or waitid.
    WaitOption,
    /// An ID type of waitid, which selects children.
    Children,
    Handler,
    /// A flag of sigaction.
    Flag,
    /// An operation of sigprocmask.
    How,
}

/// The names, by kind. If a number has several names, reports show the first.
pub static NAMES: [(Kind, &str, i64); 66] = [
    // signal(7), x86
    (Kind::Signal, "SIGHUP", 1),
    (Kind::Signal, "SIGINT", 2),
    (Kind::Signal, "SIGQUIT", 3),
    (Kind::Signal, "SIGILL", 4),
    (Kind::Signal, "SIGTRAP", 5),
    (Kind::Signal, "SIGABRT", 6),
    (Kind::Signal, "SIGIOT", 6),
    (Kind::Signal, "SIGBUS", 7),
    (Kind::Signal, "SIGFPE", 8),
    (Kind::Signal, "SIGKILL", 9),
    (Kind::Signal, "SIGUSR1", 10),
    (Kind::Signal, "SIGSEGV", 11),
    (Kind::Signal, "SIGUSR2", 12),
    (Kind::Signal, "SIGPIPE", 13),
    (Kind::Signal, "SIGALRM", 14),
    (Kind::Signal, "SIGTERM", 15),
    (Kind::Signal, "SIGSTKFLT", 16),
    (Kind::Signal, "SIGCHLD", 17),
    (Kind::Signal, "SIGCONT", 18),
    (Kind::Signal, "SIGSTOP", 19),
    (Kind::Signal, "SIGTSTP", 20),
    (Kind::Signal, "SIGTTIN", 21),
    (Kind::Signal, "SIGTTOU", 22),
    (Kind::Signal, "SIGURG", 23),
    (Kind::Signal, "SIGXCPU", 24),
    (Kind::Signal, "SIGXFSZ", 25),
    (Kind::Signal, "SIGVTALRM", 26),
    (Kind::Signal, "SIGPROF", 27),
    (Kind::Signal, "SIGWINCH", 28),
    (Kind::Signal, "SIGIO", 29),
    (Kind::Signal, "SIGPOLL", 29),
    (Kind::Signal, "SIGPWR", 30),
    (Kind::Signal, "SIGSYS", 31),
    (Kind::Signal, "SIGRTMIN", 34),
    (Kind::Signal, "SIGRTMAX", 64),
    // errno(3), x86
    (Kind::Errno, "EPERM", 1),
    (Kind::Errno, "ENOENT", 2),
    (Kind::Errno, "ESRCH", 3),
    (Kind::Errno, "EINTR", 4),
    (Kind::Errno, "EIO", 5),
    (Kind::Errno, "ECHILD", 10),
    (Kind::Errno, "EAGAIN", 11),
    (Kind::Errno, "EACCES", 13),
    (Kind::Errno, "EFAULT", 14),
    (Kind::Errno, "EINVAL", 22),
    (Kind::Errno, "ENOTTY", 25),
    // waitpid(2)
    (Kind::WaitOption, "WNOHANG", 1),
    (Kind::WaitOption, "WUNTRACED", 2),
    (Kind::WaitOption, "WSTOPPED", 2),
    (Kind::WaitOption, "WEXITED", 4),
    (Kind::WaitOption, "WCONTINUED", 8),
    (Kind::WaitOption, "WNOWAIT", 0x100_0000),
    (Kind::Children, "P_ALL", 0),
    (Kind::Children, "P_PID", 1),
    (Kind::Children, "P_PGID", 2),
    // sigaction(2)
    (Kind::Handler, "SIG_DFL", 0),
    (Kind::Handler, "SIG_IGN", 1),
    (Kind::Flag, "SA_NOCLDSTOP", 0x1),
    (Kind::Flag, "SA_NOCLDWAIT", 0x2),
    (Kind::Flag, "SA_SIGINFO", 0x4),
    (Kind::Flag, "SA_RESTART", 0x1000_0000),
    (Kind::Flag, "SA_NODEFER", 0x4000_0000),
    (Kind::Flag, "SA_RESETHAND", 0x8000_0000),
    // sigprocmask(2)
    (Kind::How, "SIG_BLOCK", 0),
    (Kind::How, "SIG_UNBLOCK", 1),
    (Kind::How, "SIG_SETMASK", 2),
];

/// The first real-time signal.
pub const SIGRTMIN: u8 = 34;

/// Returns the kind and the number of a name; `None` if the word is not in the table.
pub fn named(word: &[u8]) -> Option<(Kind, i64)>
    ensures { result ≡ named_as word.now }
{
    named_among(&NAMES, word)
}

/// Returns the kind and the number of the first entry with this name.
fn named_among(entries: &[(Kind, &str, i64)], word: &[u8]) -> Option<(Kind, i64)>
    ensures { result ≡ first_named (map said entries.now) word.now }
{
    for (kind, name, number) in entries {
        if name.as_bytes() == word {
            return Some((*kind, *number));
        }
    }
    None
}

/// Returns the name that reports show for a number of a kind; `None` if it has no name.
pub fn name_of(kind: Kind, number: i64) -> Option<&'static str> {
    let (_, name, _) = NAMES
        .iter()
        .find(|(of, _, known)| *of == kind && *known == number)?;
    Some(*name)
}

/// Returns a name without its `SIG`, if it has one.
fn without_sig(word: &[u8]) -> &[u8]
    ensures { result.now ≡ without_sig_of word.now }
{
    match word {
        [b'S', b'I', b'G', name @ ..] => name,
        _ => word,
    }
}

/// Returns true if a word is this name of a signal or an error. The `SIG` of a signal name may be left out.
fn is_called(kind: Kind, name: &str, word: &[u8]) -> bool
    ensures { result ≡ is_called_of word.now kind name.now }
{
    match kind {
        Kind::Signal => without_sig(name.as_bytes()) == without_sig(word),
        Kind::Errno => name.as_bytes() == word,
        _ => false,
    }
}

/// Returns a number of at most 30 that is written without a leading zero.
fn up_to_30(digits: &[u8]) -> Option<u8>
    ensures { result ≡ small_number digits.now }
{
    match digits {
        [digit @ b'0'..=b'9'] => Some(*digit - b'0'),
        [tens @ b'1'..=b'2', digit @ b'0'..=b'9'] => Some((*tens - b'0') * 10 + (*digit - b'0')),
        [b'3', b'0'] => Some(30),
        _ => None,
    }
}

/// Returns the number of a real-time signal by its name without `SIG`, `RTMIN+0` to `RTMIN+30`.
#[tactic(auto, unfolding(crate::specs::Names::realtime))]
pub fn realtime(name: &[u8]) -> Option<i64>
    ensures { result ≡ realtime_of name.now }
{
    let distance = up_to_30(name.strip_prefix(b"RTMIN+")?)?;
    Some(i64::from(SIGRTMIN) + i64::from(distance))
}

/// Returns the kind and the number of the first entry of a table that a word names.
fn called_among(entries: &[(Kind, &str, i64)], word: &[u8]) -> Option<(Kind, i64)>
    ensures { result ≡ first_called (map said entries.now) word.now }
{
    for (kind, name, number) in entries {
        if is_called(*kind, name, word) {
            return Some((*kind, *number));
        }
    }
    None
}

/// Returns the real-time signal that a word names, with or without `SIG`.
fn realtime_named(word: &[u8]) -> Option<(Kind, i64)>
    ensures { result ≡ option_map (λ n. (Kind.Signal, n)) (realtime_of (without_sig_of word.now)) }
{
    Some((Kind::Signal, realtime(without_sig(word))?))
}

/// Returns the kind and the number of a signal or an error by its name. The `SIG` of a signal name may be left out.
pub fn number_named(word: &[u8]) -> Option<(Kind, i64)>
    ensures { result ≡ number_named_of word.now }
{
    called_among(&NAMES, word).or(realtime_named(word))
}
