//! User and group IDs.

ghost use Rattle.std.specs.Prelude.{◌≡◌, ◌≤◌, ◌↔◌, IsSome, IfSome};

use std::marker::Model;

/// A user ID: 0 to 2,147,483,647. A process with effective user ID 0 is privileged.
#[derive(Clone, Copy, PartialEq, Eq)]
pub struct Uid {
    number: u32,
}

impl Model for Uid {
    ghost use Rattle.std.specs.Prelude.{ℕ, ◌≤◌};

    ghost Value = { ℕ };

    ghost view = { λ u. u.number };

    ghost invariant = { λ u. u.number ≤ 2147483647 };

    ghost inverse = { λ n. record { number = n } };
}

impl Uid {
    /// The privileged user.
    pub const ROOT: Uid = Uid { number: 0 };

    /// The largest user ID.
    pub const MAX: u32 = 2_147_483_647;

    /// Returns the user ID `number`, or `None` above [`Uid::MAX`].
    pub fn new(number: u32) -> Option<Uid>
        ensures some { IsSome result ↔ (number ≤ 2147483647) }
        ensures value { IfSome result (λ u. u ≡ number) }
    {
        if number <= Uid::MAX {
            Some(Uid { number })
        } else {
            None
        }
    }

    /// Returns the user ID's number.
    pub fn number(self) -> u32
        ensures value { result ≡ self }
        ensures range { result ≤ 2147483647 }
    {
        self.number
    }
}

/// A group ID: 0 to 2,147,483,647.
#[derive(Clone, Copy, PartialEq, Eq)]
pub struct Gid {
    number: u32,
}

impl Model for Gid {
    ghost use Rattle.std.specs.Prelude.{ℕ, ◌≤◌};

    ghost Value = { ℕ };

    ghost view = { λ g. g.number };

    ghost invariant = { λ g. g.number ≤ 2147483647 };

    ghost inverse = { λ n. record { number = n } };
}

impl Gid {
    /// The group of the privileged user.
    pub const ROOT: Gid = Gid { number: 0 };

    /// The largest group ID.
    pub const MAX: u32 = 2_147_483_647;

    /// Returns the group ID `number`, or `None` above [`Gid::MAX`].
    pub fn new(number: u32) -> Option<Gid>
        ensures some { IsSome result ↔ (number ≤ 2147483647) }
        ensures value { IfSome result (λ g. g ≡ number) }
    {
        if number <= Gid::MAX {
            Some(Gid { number })
        } else {
            None
        }
    }

    /// Returns the group ID's number.
    pub fn number(self) -> u32
        ensures value { result ≡ self }
        ensures range { result ≤ 2147483647 }
    {
        self.number
    }
}

/// The real, effective and saved IDs of a process (credentials(7)).
#[derive(Clone, Copy, PartialEq, Eq)]
pub struct Ids<T> {
    pub real: T,
    pub effective: T,
    pub saved: T,
}
