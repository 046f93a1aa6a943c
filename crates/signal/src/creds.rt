//! The user and group IDs of one process.

ghost use Rattle.std.specs.Prelude.{◌≡◌, true, OnOk, OnErr, IfErr, Ok, Err};
ghost use Rattle.posix.specs.Common.{root as root_credentials, is_privileged as is_privileged_by, id_in, may_signal as may_signal_by, setuid as setuid_of, seteuid as seteuid_of, setgid as setgid_of, setegid as setegid_of, on_exec as on_exec_of};

use posix::{Errno, Gid, Ids, Sig, Uid};
use std::marker::Model;

/// The real, effective and saved user and group IDs of a process (credentials(7)). A process with effective user ID 0
/// is privileged.
#[derive(Clone, Copy, PartialEq, Eq)]
pub struct Creds {
    user: Ids<Uid>,
    group: Ids<Gid>,
}

impl Model for Creds {
    ghost use Rattle.posix.specs.Processes.{Credentials};

    ghost Value = { Credentials };

    ghost view = { λ c. record { user = c.user; group = c.group } };

    ghost inverse = { λ c. record { user = c.user; group = c.group } };
}

impl Creds {
    /// Returns the IDs of process 1 at boot: all are 0.
    pub fn root() -> Creds
        ensures { result ≡ root_credentials }
    {
        Creds {
            user: Ids {
                real: Uid::ROOT,
                effective: Uid::ROOT,
                saved: Uid::ROOT,
            },
            group: Ids {
                real: Gid::ROOT,
                effective: Gid::ROOT,
                saved: Gid::ROOT,
            },
        }
    }

    /// Returns the user IDs.
    pub fn user(&self) -> Ids<Uid>
        ensures { result ≡ self.now.user }
    {
        self.user
    }

    /// Returns the group IDs.
    pub fn group(&self) -> Ids<Gid>
        ensures { result ≡ self.now.group }
    {
        self.group
    }

    /// Returns true if the effective user ID is 0.
    pub fn is_privileged(&self) -> bool
        ensures { result ≡ is_privileged_by self.now }
    {
        self.user.effective == Uid::ROOT
    }

    /// Returns true if a process with these IDs may send a signal to one with the target's. Its real or effective user
    /// ID must equal the target's real or saved one, or it must be privileged, or the signal must be SIGCONT within one
    /// session. `None` is signal 0, which only checks (XSH kill).
    pub fn may_signal(&self, target: &Creds, sig: Option<Sig>, same_session: bool) -> bool
        ensures { result ≡ may_signal_by self.now target.now sig same_session }
    {
        let to = &target.user;
        self.user.real == to.real
            || self.user.real == to.saved
            || self.user.effective == to.real
            || self.user.effective == to.saved
            || self.is_privileged()
            || (sig == Some(Sig::CONT) && same_session)
    }

    /// Sets the user IDs: all three if the process is privileged, otherwise the effective one, to the real or the saved
    /// one. Fails with EINVAL outside 0 to 2,147,483,647, and with EPERM without permission; then nothing changes (XSH
    /// setuid).
    #[tactic(auto, unfolding(posix::specs::Credentials::setuid))]
    pub fn setuid(&mut self, id: i64) -> Result<(), Errno>
        ensures ok { OnOk result (setuid_of self.old id ≡ Ok self.new) }
        ensures err { IfErr result (λ why. setuid_of self.old id ≡ Err why) }
        ensures same { OnErr result (self.new ≡ self.old) }
    {
        let Some(id) = uid_in(id) else {
            return Err(Errno::EINVAL);
        };
        if self.is_privileged() {
            self.user = Ids {
                real: id,
                effective: id,
                saved: id,
            };
            return Ok(());
        }
        if self.user.real != id && self.user.saved != id {
            return Err(Errno::EPERM);
        }
        self.user.effective = id;
        Ok(())
    }

    /// Sets the effective user ID: to any if the process is privileged, otherwise to the real or the saved one. Fails
    /// with EINVAL outside 0 to 2,147,483,647, and with EPERM without permission; then nothing changes (XSH seteuid).
    #[tactic(auto, unfolding(posix::specs::Credentials::seteuid))]
    pub fn seteuid(&mut self, id: i64) -> Result<(), Errno>
        ensures ok { OnOk result (seteuid_of self.old id ≡ Ok self.new) }
        ensures err { IfErr result (λ why. seteuid_of self.old id ≡ Err why) }
        ensures same { OnErr result (self.new ≡ self.old) }
    {
        let Some(id) = uid_in(id) else {
            return Err(Errno::EINVAL);
        };
        if !self.is_privileged() && self.user.real != id && self.user.saved != id {
            return Err(Errno::EPERM);
        }
        self.user.effective = id;
        Ok(())
    }

    /// Sets the group IDs as [`Creds::setuid`] sets the user IDs, with the same privilege (XSH setgid).
    #[tactic(auto, unfolding(posix::specs::Credentials::setgid))]
    pub fn setgid(&mut self, id: i64) -> Result<(), Errno>
        ensures ok { OnOk result (setgid_of self.old id ≡ Ok self.new) }
        ensures err { IfErr result (λ why. setgid_of self.old id ≡ Err why) }
        ensures same { OnErr result (self.new ≡ self.old) }
    {
        let Some(id) = gid_in(id) else {
            return Err(Errno::EINVAL);
        };
        if self.is_privileged() {
            self.group = Ids {
                real: id,
                effective: id,
                saved: id,
            };
            return Ok(());
        }
        if self.group.real != id && self.group.saved != id {
            return Err(Errno::EPERM);
        }
        self.group.effective = id;
        Ok(())
    }

    /// Sets the effective group ID as [`Creds::seteuid`] sets the user ID, with the same privilege (XSH setegid).
    #[tactic(auto, unfolding(posix::specs::Credentials::setegid))]
    pub fn setegid(&mut self, id: i64) -> Result<(), Errno>
        ensures ok { OnOk result (setegid_of self.old id ≡ Ok self.new) }
        ensures err { IfErr result (λ why. setegid_of self.old id ≡ Err why) }
        ensures same { OnErr result (self.new ≡ self.old) }
    {
        let Some(id) = gid_in(id) else {
            return Err(Errno::EINVAL);
        };
        if !self.is_privileged() && self.group.real != id && self.group.saved != id {
            return Err(Errno::EPERM);
        }
        self.group.effective = id;
        Ok(())
    }

    /// Sets the IDs for a new program, which may set the effective IDs. Then the effective IDs are saved (XSH exec).
    pub fn on_exec(&mut self, user: Option<Uid>, group: Option<Gid>)
        ensures { self.new ≡ on_exec_of user group self.old }
    {
        self.user.effective = user.unwrap_or(self.user.effective);
        self.user.saved = self.user.effective;
        self.group.effective = group.unwrap_or(self.group.effective);
        self.group.saved = self.group.effective;
    }
}

/// Returns the user ID in a register, if it is in range.
fn uid_in(id: i64) -> Option<Uid>
    ensures { result ≡ id_in id }
{
    Uid::new(u32::try_from(id).ok()?)
}

/// Returns the group ID in a register, if it is in range.
fn gid_in(id: i64) -> Option<Gid>
    ensures { result ≡ id_in id }
{
    Gid::new(u32::try_from(id).ok()?)
}
