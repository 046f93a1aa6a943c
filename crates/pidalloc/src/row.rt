//! How many processes use one ID.

ghost use Rattle.std.specs.Prelude.{◌≡◌, ◌<◌, ◌≤◌};
ghost use Rattle.pidalloc.specs.Rows.{is_free_row, count_of, one_more, one_less};

/// The role of an ID that a process uses: its process ID, its process group ID or its session ID (XBD 3 Process ID,
/// Process Group ID, Session).
#[derive(Clone, Copy)]
pub enum Role {
    Process,
    Group,
    Session,
}

/// How many processes use an ID in each role.
#[derive(Clone, Copy)]
pub struct Row {
    pub process: u32,
    pub group: u32,
    pub session: u32,
}

impl Row {
    /// The row of an ID that is not in use.
    pub const UNBORNE: Row = Row {
        process: 0,
        group: 0,
        session: 0,
    };

    /// Returns true if the ID is not in use.
    pub fn is_free(self) -> bool
        ensures { result ≡ is_free_row self }
    {
        self.process == 0 && self.group == 0 && self.session == 0
    }

    /// Adds a use of the ID in this role.
    pub fn bear(&mut self, role: Role)
        requires { count_of role self.old < 4294967295 }
        ensures { self.new ≡ one_more role self.old }
    {
        match role {
            Role::Process => self.process += 1,
            Role::Group => self.group += 1,
            Role::Session => self.session += 1,
        }
    }

    /// Removes a use of the ID in this role.
    pub fn give_up(&mut self, role: Role)
        requires { 1 ≤ count_of role self.old }
        ensures { self.new ≡ one_less role self.old }
    {
        match role {
            Role::Process => self.process -= 1,
            Role::Group => self.group -= 1,
            Role::Session => self.session -= 1,
        }
    }
}
