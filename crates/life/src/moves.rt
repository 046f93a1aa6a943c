//! Moves from one process group to another, and new sessions (XSH setpgid, setsid).

ghost use Rattle.std.specs.Prelude.{◌≡◌, ◌==◌, ◌||◌, ◌+◌, ◌*◌, length, Some, Ok, Err, true, false, IfOk, OnErr, OnOk};
ghost use Rattle.posix.specs.declared.errno.Errno.TheVariants.{EPERM};
ghost use Rattle.posix.specs.Common.{Process, process, change, children_in, IsPlaced, named as named_by, move_to, in_group, in_session, is_group_of_others};
ghost use Rattle.life.specs.Callers.{caller_of};
ghost use Rattle.life.specs.Rechecks.{rechecks_changed};
ghost use Rattle.life.specs.Machines.{Costs, AreSame, IfThere};

use crate::caller::Caller;
use crate::machine::Machine;
use posix::{Errno, Pid};
use proctable::ProcessTable;

impl<K: ProcessTable> Machine<K> {
    /// Moves the process whose ID is in the caller's r1 to the process group whose ID is in r2; 0 in r1 selects the
    /// caller, and 0 in r2 means the ID of the process itself. Returns the process group ID. Puts the process on the
    /// recheck list, and also its parent if the parent is not in the run queue, because either may wait for the members
    /// of a group.
    ///
    /// Fails, and changes nothing, with EINVAL if r2 is negative; with ESRCH if no process has the ID in r1, or it is
    /// neither the caller nor its child; with EPERM if the child is in another session, the process leads its session,
    /// or the group is neither its own nor in that session; with EACCES if the child has run exec (XSH setpgid).
    pub fn move_group(&mut self, me: &Caller) -> Result<Pid, Errno>
        requires there { IsPlaced self.old.state.processes me.now.pid }
        requires caller { IfThere me.now.pid self.old (λ it. me.now ≡ caller_of it) }
        ensures value { IfThere me.now.pid self.old (λ it. result ≡ move_to it (named_by it me.now.r1 self.old.state.processes) me.now.r2 self.old.state.processes) }
        ensures err { OnErr result (AreSame self.old self.new) }
        ensures ok { IfOk result (λ g. (it r : Process) → process self.old.state me.now.pid ≡ Some it → named_by it me.now.r1 self.old.state.processes ≡ Some r → self.new.state ≡ change self.old.state r.pid (in_group g)) }
        ensures to_recheck { OnOk result ((it r : Process) → process self.old.state me.now.pid ≡ Some it → named_by it me.now.r1 self.old.state.processes ≡ Some r → self.new.to_recheck ≡ rechecks_changed r self.old) }
        ensures costs { IfOk result (λ g. (it r : Process) → process self.old.state me.now.pid ≡ Some it → named_by it me.now.r1 self.old.state.processes ≡ Some r → Costs (5 + 2 * length (children_in r.pid self.old.state.processes)) self.old self.new) }
        ensures refused { OnErr result (Costs 2 self.old self.new) }
    {
        let target = self.named(me.pid, me.r1);
        let group = self
            .table
            .group_to_join(me.pid, me.session, &target, me.r2)?;
        let Some(it) = target else { unreachable!() };
        self.change_seen(it.pid, |fields| fields.group = group);
        Ok(group)
    }

    /// Makes a process the leader of a new session and of a new process group. Puts the process on the recheck list,
    /// and also its parent if the parent is not in the run queue, because either may wait for the members of a group.
    /// Fails with EPERM, and changes nothing, if the process leads a process group, or if another process is in a group
    /// with its ID (XSH setsid).
    pub fn new_session(&mut self, pid: Pid) -> Result<(), Errno>
        requires there { IsPlaced self.old.state.processes pid }
        ensures refused { IfThere pid self.old (λ me. (me.group == me.pid || is_group_of_others me self.old.state.processes) ≡ true → (result ≡ Err EPERM) × AreSame self.old self.new) }
        ensures leads { IfThere pid self.old (λ me. (me.group == me.pid || is_group_of_others me self.old.state.processes) ≡ false → (result ≡ Ok tt) × (self.new.state ≡ change self.old.state pid in_session)) }
        ensures to_recheck { OnOk result (IfThere pid self.old (λ me. self.new.to_recheck ≡ rechecks_changed me self.old)) }
        ensures costs { Costs (4 + 2 * length (children_in pid self.old.state.processes)) self.old self.new }
    {
        self.table.can_lead(pid)?;
        self.change_seen(pid, |fields| {
            fields.session = pid;
            fields.group = pid;
        });
        Ok(())
    }
}
