//! The processes that kill and waits select by a number.

ghost use Rattle.std.specs.Prelude.{◌≡◌};
ghost use Rattle.posix.specs.Targets.{numbered_group, process_in, target_in, target_of_kind};

use crate::pid::Pid;

/// The processes that kill or a wait selects by a number (XSH kill, XSH waitpid, XSH waitid).
#[derive(Clone, Copy)]
pub enum Target {
    /// The process with this ID.
    Process(Pid),
    /// The process group of the caller.
    OwnGroup,
    /// The process group with this ID.
    Group(Pid),
    /// For kill, all processes but the caller and process 1; for a wait, all children of the caller.
    All,
    /// No process: no process and no process group can have that ID.
    Nobody,
}

impl Target {
    /// Returns the target that a register selects: above 0 the process with this ID, 0 the caller's process group, -1
    /// all, and below -1 the process group whose ID is the absolute value. The target has no process if no [`Pid`]
    /// has that number.
    pub fn from_word(word: i64) -> Target
        ensures { result ≡ target_in word }
    {
        match word {
            0 => return Target::OwnGroup,
            -1 => return Target::All,
            _ => {}
        }
        let Ok(number) = u32::try_from(word.unsigned_abs()) else {
            return Target::Nobody;
        };
        match Pid::new(number) {
            None => Target::Nobody,
            Some(pid) if word > 0 => Target::Process(pid),
            Some(group) => Target::Group(group),
        }
    }

    /// Returns the process group that a register selects; 0 is the caller's. Returns `None` below 0. The target has
    /// no process if no process group can have that ID.
    fn group_from_word(word: i64) -> Option<Target>
        ensures { result ≡ numbered_group word }
    {
        if word == 0 {
            return Some(Target::OwnGroup);
        }
        if word < 0 {
            return None;
        }
        match Target::from_word(word) {
            Target::Process(pid) => Some(Target::Group(pid)),
            _ => Some(Target::Nobody),
        }
    }

    /// Returns the children that waitid selects by a kind and an ID: with kind 0 any child, with 1 the process with
    /// this ID, with 2 the process group with this ID, where 0 is the caller's. Returns `None` for any other kind,
    /// for a process ID below 1, and for a process group ID below 0 (own).
    pub fn from_kind(kind: i64, word: i64) -> Option<Target>
        ensures { result ≡ target_of_kind kind word }
    {
        match kind {
            0 => Some(Target::All),
            1 if word > 0 => Some(Target::from_word(word)),
            2 => Target::group_from_word(word),
            _ => None,
        }
    }

    /// Returns the one process that a register selects (XSH sigqueue). The target has no process if
    /// no process can have that ID.
    pub fn process_from_word(word: i64) -> Target
        ensures { result ≡ process_in word }
    {
        match Target::from_word(word) {
            Target::Process(pid) => Target::Process(pid),
            _ => Target::Nobody,
        }
    }
}
