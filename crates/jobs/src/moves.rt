//! The rules for joining a process group and for leading a session (XSH setpgid, setsid).

ghost use Rattle.std.specs.Prelude.{◌≡◌, ◌==◌, ◌&&◌, ◌||◌, not, if◌then◌else◌, Option, Some, None, IsSome, IfSome, IfErr, ◌<◌, is_ok, option_map};
ghost use Rattle.posix.specs.declared.errno.Errno.TheVariants.{EPERM};
ghost use Rattle.posix.specs.Common.{Process, lookup, is_group_of, group_meant as group_meant_by, can_join as can_join_by, can_move as can_move_by, move_to, is_group_of_others as is_group_of_others_by, AreGrouped};
ghost use Rattle.proctable.specs.Records.{snapshot_of};
ghost use Rattle.jobs.specs.IndexedTables.{Looks, Finds};

use crate::indexed_table::IndexedTable;
use posix::{Errno, Pid};
use proctable::{ProcessTable, Snapshot};

/// Returns the process group that a number selects: 0 selects the one with the ID of the process itself.
fn group_meant(it: &Snapshot, group: u64) -> u64
    ensures { (r : Process) → it.now ≡ snapshot_of r → result ≡ group_meant_by r group }
{
    if group == 0 {
        u64::from(it.pid.number())
    } else {
        group
    }
}

/// Returns a number as the ID of a process group, or `None` if it is above the largest ID.
fn group_number(group: u64) -> Option<Pid>
    ensures some { IfSome result (λ g. g ≡ group) }
    ensures none { result ≡ None → 2147483647 < group }
{
    Pid::new(u32::try_from(group).ok()?)
}

impl<K: ProcessTable> IndexedTable<K> {
    /// Returns the process group of a process, if it has this ID and is in this session.
    fn group_at(&mut self, pid: Pid, session: Pid, group: u64) -> Option<Pid>
        ensures { Finds 1 self.old self.new ((it : Process) → lookup pid self.old.processes ≡ Some it → result ≡ (if it.session == session && it.group == group then Some group else None)) }
    {
        let snapshot = self.get(pid)?;
        if snapshot.session == session && u64::from(snapshot.group.number()) == group {
            Some(snapshot.group)
        } else {
            None
        }
    }

    /// Returns the process group with this ID, if it is in this session. Zombies are members. The first member decides,
    /// because all members are in one session.
    #[tactic(auto, using(crate::proofs::MoveLemmas::group_rules))]
    pub fn group_of(&mut self, session: Pid, group: u64) -> Option<Pid>
        requires { AreGrouped self.old.processes }
        ensures { Finds 1 self.old self.new (result ≡ (if is_group_of session group self.old.processes then Some group else None)) }
    {
        let _ = &self.table;
        let number = group_number(group)?;
        let first = self.first_member(number)?;
        self.group_at(first, session, group)
    }

    /// Returns the process group that a process would join for a caller in this session: that of its own ID, or one in
    /// the session. Fails with EPERM if the process leads its session or is in another, or for any other group.
    fn can_join(&mut self, session: Pid, it: &Snapshot, group: u64) -> Result<Pid, Errno>
        requires { AreGrouped self.old.processes }
        ensures { Finds 1 self.old self.new ((caller r : Process) → session ≡ caller.session → it.now ≡ snapshot_of r → result ≡ can_join_by caller r group self.old.processes) }
    {
        let _ = &self.table;
        if it.session != session || it.session == it.pid {
            return Err(Errno::EPERM);
        }
        if u64::from(it.pid.number()) == group {
            return Ok(it.pid);
        }
        self.group_of(session, group).ok_or(Errno::EPERM)
    }

    /// Returns the process group that a process would move to for a caller. The caller may move itself, and a child in
    /// its session that has not run exec since its fork.
    fn can_move(&mut self, me: Pid, session: Pid, it: &Snapshot, group: u64) -> Result<Pid, Errno>
        requires { AreGrouped self.old.processes }
        ensures { Finds 1 self.old self.new ((caller r : Process) → me ≡ caller.pid → session ≡ caller.session → it.now ≡ snapshot_of r → result ≡ can_move_by caller r group self.old.processes) }
    {
        let _ = &self.table;
        if it.pid != me {
            if it.parent != me {
                return Err(Errno::ESRCH);
            }
            if it.session != session {
                return Err(Errno::EPERM);
            }
            if it.ran_exec {
                return Err(Errno::EACCES);
            }
        }
        self.can_join(session, it, group)
    }

    /// Returns the process group that the process named by a caller in this session would move to. `target` is `None`
    /// if no process has the ID, and `group` 0 means the ID of the process itself.
    ///
    /// Fails with EINVAL if the group is negative; with ESRCH if the process doesn't exist, or is neither the caller
    /// nor its child; with EPERM if the child is in another session, the process leads its session, or the group is
    /// neither its own nor in that session; with EACCES if the child has run exec (XSH setpgid).
    pub fn group_to_join(
        &mut self,
        me: Pid,
        session: Pid,
        target: &Option<Snapshot>,
        group: i64,
    ) -> Result<Pid, Errno>
        requires { AreGrouped self.old.processes }
        ensures { Finds 1 self.old self.new ((caller : Process) (named : Option Process) → me ≡ caller.pid → session ≡ caller.session → target.now ≡ option_map snapshot_of named → result ≡ move_to caller named group self.old.processes) }
    {
        let _ = &self.table;
        let Ok(group) = u64::try_from(group) else {
            return Err(Errno::EINVAL);
        };
        match target {
            Some(it) => {
                let group = group_meant(it, group);
                self.can_move(me, session, it, group)
            }
            None => Err(Errno::ESRCH),
        }
    }

    /// Returns true if another process is in the process group with the ID of this one, zombies included. Reads no
    /// slot.
    fn is_group_of_others(&self, pid: Pid) -> bool
        ensures { (it : Process) → lookup pid self.now.processes ≡ Some it → result ≡ is_group_of_others_by it self.now.processes }
    {
        let _ = &self.table;
        let Some(first) = self.first_member(pid) else {
            return false;
        };
        first != pid || self.next_member(pid, pid).is_some()
    }

    /// Checks that an existing process may lead a new session. Fails with EPERM if it leads a process group, or if
    /// another process is in a process group with its ID (XSH setsid).
    #[tactic(auto, using(crate::proofs::MoveLemmas::lead_rules))]
    pub fn can_lead(&mut self, me: Pid) -> Result<(), Errno>
        requires { IsSome (lookup me self.old.processes) }
        ensures test { (caller : Process) → lookup me self.old.processes ≡ Some caller → is_ok result ≡ not (caller.group == caller.pid || is_group_of_others_by caller self.old.processes) }
        ensures why { IfErr result (λ why. why ≡ EPERM) }
        ensures looks { Looks 1 self.old self.new }
    {
        let Some(caller) = self.get(me) else {
            unreachable!()
        };
        if caller.group == me || self.is_group_of_others(me) {
            return Err(Errno::EPERM);
        }
        Ok(())
    }
}
