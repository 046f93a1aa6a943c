//! How a signal mask changes.

ghost use Rattle.std.specs.Prelude.{◌≡◌};
ghost use Rattle.posix.specs.SignalCalls.{how_in};

/// How a set of signals changes a signal mask (XSH sigprocmask).
#[derive(Clone, Copy)]
pub enum How {
    /// SIG_BLOCK: the set is added to the mask.
    Block,
    /// SIG_UNBLOCK: the set is removed from the mask.
    Unblock,
    /// SIG_SETMASK: the set replaces the mask.
    Set,
}

impl How {
    /// Returns the change that a register selects: 0 for `Block`, 1 for `Unblock`, 2 for `Set`, otherwise `None`.
    pub fn from_word(word: i64) -> Option<How>
        ensures { result ≡ how_in word }
    {
        match word {
            0 => Some(How::Block),
            1 => Some(How::Unblock),
            2 => Some(How::Set),
            _ => None,
        }
    }
}
