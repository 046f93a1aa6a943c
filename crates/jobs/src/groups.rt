//! Process groups: their members, in rising order; how many members are stopped; and how many keep the group from being
//! orphaned (XBD 3).

ghost use Rattle.std.specs.Prelude.{◌≡◌, false};
ghost use Rattle.std.specs.Option.{option_map_or};
ghost use Rattle.posix.specs.Common.{IsRising, lookup, first_pid, above, is_member as is_member_of, members_in, is_orphaned as is_orphaned_of, has_stopped as has_stopped_of};
ghost use Rattle.pidset.specs.Indexes.{anchor_key, key_of};
ghost use Rattle.jobs.specs.GroupCounts.{anchors_in, stopped_in as stopped_members};
ghost use Rattle.jobs.specs.IndexedTables.{AreNumbers};

use crate::indexed_table::IndexedTable;
use crate::indexes::key;
use posix::Pid;
use proctable::ProcessTable;

impl<K: ProcessTable> IndexedTable<K> {
    /// Returns the member of a process group with the lowest ID above `after`, zombies included (XBD 3 Process Group).
    /// Reads no slot.
    #[tactic(auto, using(crate::proofs::IndexLemmas::next_in_group))]
    #[inline]
    pub fn next_member(&self, group: Pid, after: Pid) -> Option<Pid>
        ensures { result ≡ first_pid (above after (members_in group self.now.processes)) }
    {
        self.indexes.members.next(group, after)
    }

    /// Returns true if a process exists and is a member of a process group. Reads no slot.
    #[inline]
    pub fn is_member(&self, group: Pid, pid: Pid) -> bool
        ensures { result ≡ option_map_or (is_member_of group) (lookup pid self.now.processes) false }
    {
        self.indexes.members.list(pid) == Some(group)
    }

    /// Returns the member of a process group with the lowest ID. Reads no slot.
    #[tactic(auto, using(crate::proofs::GroupLemmas::passing_above), unfolding(posix::specs::Tables::members_in))]
    #[inline]
    pub(crate) fn first_member(&self, group: Pid) -> Option<Pid>
        ensures first { result ≡ first_pid (members_in group self.now.processes) }
        ensures rising { IsRising self.now.processes }
        ensures numbers { AreNumbers self.now.processes }
    {
        let _ = &self.table;
        self.next_member(group, Pid::NONE)
    }

    /// Returns the process group that a process keeps from being orphaned. Such a process is alive, and its parent is
    /// in another group of the same session. Reads no slot.
    pub fn group_kept(&self, pid: Pid) -> Option<Pid>
        ensures { result ≡ key_of (anchor_key self.now.processes) pid self.now.processes }
    {
        self.indexes.anchors.list(pid)
    }

    /// Returns true if a process group is orphaned: no living member has a parent in another group of the same session
    /// (XBD 3 Orphaned Process Group). Reads no slot.
    #[tactic(auto, using(crate::proofs::GroupLemmas::some_anchor), unfolding(posix::specs::Groups::is_orphaned))]
    pub fn is_orphaned(&self, group: Pid) -> bool
        ensures { result ≡ is_orphaned_of group self.now.processes }
    {
        self.indexes.anchors.next(group, Pid::NONE).is_none()
    }

    /// Returns true if a member of a process group is stopped. Reads no slot.
    #[tactic(auto, using(crate::proofs::GroupLemmas::some_stopped), unfolding(posix::specs::Groups::has_stopped))]
    pub fn has_stopped(&self, group: Pid) -> bool
        ensures { result ≡ has_stopped_of group self.now.processes }
    {
        self.indexes.stopped.next(key(group), Pid::NONE).is_some()
    }

    /// Returns how many members keep a process group from being orphaned. Each of them is alive, and its parent is in
    /// another group of the same session (XBD 3 Orphaned Process Group). Reads no slot.
    pub fn anchors(&self, group: Pid) -> usize
        ensures { result ≡ anchors_in group self.now.processes }
    {
        let mut count = 0;
        let mut next = self.indexes.anchors.next(group, Pid::NONE);
        while let Some(pid) = next {
            count += 1;
            next = self.indexes.anchors.next(group, pid);
        }
        count
    }

    /// Returns how many members of a process group are stopped (XSH 2.4.3). Reads no slot.
    pub fn stopped_in(&self, group: Pid) -> usize
        ensures { result ≡ stopped_members group self.now.processes }
    {
        let under = key(group);
        let mut count = 0;
        let mut next = self.indexes.stopped.next(under, Pid::NONE);
        while let Some(pid) = next {
            count += 1;
            next = self.indexes.stopped.next(under, pid);
        }
        count
    }
}
