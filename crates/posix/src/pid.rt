//! Process IDs.

ghost use Rattle.std.specs.Prelude.{◌≡◌, ◌≤◌, ◌↔◌, IsSome, IfSome};

use std::marker::Model;

/// The ID of a process, a process group or a session: 0 to 2,147,483,647 (`pid_t`).
///
/// ID 0 is no process. It is the parent of process 1 and the sender of the kernel's own signals, and means no session
/// and no foreground process group.
#[derive(Clone, Copy, PartialEq, Eq, PartialOrd, Ord)]
pub struct Pid {
    number: u32,
}

impl Model for Pid {
    ghost use Rattle.std.specs.Prelude.{ℕ, ◌≤◌};

    ghost Value = { ℕ };

    ghost view = { λ p. p.number };

    ghost invariant = { λ p. p.number ≤ 2147483647 };

    ghost inverse = { λ n. record { number = n } };
}

impl Pid {
    /// ID 0, which is no process.
    pub const NONE: Pid = Pid { number: 0 };

    /// Process 1, which runs the first program of a world. The machine halts when process 1 terminates.
    pub const INIT: Pid = Pid { number: 1 };

    /// The largest process ID.
    pub const MAX: u32 = 2_147_483_647;

    /// Returns the process ID `number`, or `None` above [`Pid::MAX`].
    pub fn new(number: u32) -> Option<Pid>
        ensures some { IsSome result ↔ (number ≤ 2147483647) }
        ensures value { IfSome result (λ p. p ≡ number) }
    {
        if number <= Pid::MAX {
            Some(Pid { number })
        } else {
            None
        }
    }

    /// Returns the process ID's number.
    pub fn number(self) -> u32
        ensures value { result ≡ self }
        ensures range { result ≤ 2147483647 }
    {
        self.number
    }
}
