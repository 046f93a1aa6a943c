//! The small fields of a process.

use posix::{Blocked, Life, News, Pid, Sig};
use signal::Creds;

/// The fields of a process that a reader gets by value.
#[derive(Clone, Copy)]
pub struct Snapshot {
    /// Its process ID.
    pub pid: Pid,
    /// Its parent's ID; 0 for process 1.
    pub parent: Pid,
    /// Its process group (XBD 3 Process Group ID).
    pub group: Pid,
    /// Its session, by the ID of the leader (XBD 3 Session).
    pub session: Pid,
    /// Its user and group IDs (credentials(7)).
    pub creds: Creds,
    /// The signal that is delivered to it next (XSH 2.4.1).
    pub chosen: Option<Sig>,
    /// Whether it is running, stopped or a zombie.
    pub life: Life,
    /// The status change that no wait has reported yet (XSH waitpid).
    pub news: News,
    /// The tick at which its alarm is due (XSH alarm).
    pub alarm: Option<u64>,
    /// Whether it has run exec since its fork (XSH setpgid).
    pub ran_exec: bool,
    /// Whether it is a child subreaper (prctl(2)).
    pub is_subreaper: bool,
    /// The call that it is blocked in.
    pub blocked: Option<Blocked>,
    /// Its index among the programs of the world.
    pub program: u8,
}
