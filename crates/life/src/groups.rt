//! Process groups: their members, one after another, and whether they are orphaned (XBD 3).

ghost use Rattle.std.specs.Prelude.{◌≡◌, not, false};
ghost use Rattle.std.specs.Option.{option_map_or};
ghost use Rattle.posix.specs.Common.{process, first_pid, above, is_member as is_member_of, members_in, is_orphaned as is_orphaned_of, has_stopped as has_stopped_of, some_stopped, IsRegular};

use crate::machine::Machine;
use posix::Pid;
use proctable::ProcessTable;

impl<K: ProcessTable> Machine<K> {
    /// Returns the member of a process group with the lowest ID above `after`, zombies included (XBD 3 Process Group).
    /// Reads no slot.
    pub(crate) fn next_member(&self, group: Pid, after: Pid) -> Option<Pid>
        ensures value { result ≡ first_pid (above after (members_in group self.now.state.processes)) }
        ensures regular { IsRegular self.now.state }
    {
        self.table.next_member(group, after)
    }

    /// Returns true if a process exists and is a member of a process group. Reads no slot.
    pub(crate) fn is_member(&self, group: Pid, pid: Pid) -> bool
        ensures { result ≡ option_map_or (is_member_of group) (process self.now.state pid) false }
    {
        self.table.is_member(group, pid)
    }

    /// Returns true if a process group is orphaned: no live member of it has a parent in another group of the same
    /// session (XBD 3 Orphaned Process Group). Reads no slot.
    pub fn is_orphaned(&self, group: Pid) -> bool
        ensures { result ≡ is_orphaned_of group self.now.state.processes }
    {
        self.table.is_orphaned(group)
    }

    /// Returns true if no process is stopped.
    pub(crate) fn nobody_stopped(&self) -> bool
        ensures { result ≡ not (some_stopped self.now.state.processes) }
    {
        self.table.nobody_stopped()
    }

    /// Returns true if a member of a process group is stopped. Reads no slot.
    pub(crate) fn has_stopped(&self, group: Pid) -> bool
        ensures { result ≡ has_stopped_of group self.now.state.processes }
    {
        self.table.has_stopped(group)
    }
}
