//! Child subreapers, and the new parent of a terminating process's children (prctl(2)).

ghost use Rattle.std.specs.Prelude.{◌≡◌, ◌≤◌, ◌+◌, not};
ghost use Rattle.std.specs.List.{list_any};
ghost use Rattle.posix.specs.Common.{change, heir_in, marked_as};
ghost use Rattle.jobs.specs.Indexes.{is_living_subreaper};
ghost use Rattle.life.specs.Ends.{slots_of_heir};
ghost use Rattle.life.specs.Rechecks.{rechecks};
ghost use Rattle.life.specs.Machines.{AreSame, Changes, IsThere};

use crate::machine::Machine;
use crate::rechecks::recheck_later;
use posix::{Life, Pid};
use proctable::ProcessTable;

impl<K: ProcessTable> Machine<K> {
    /// Makes an existing process a child subreaper, or no longer one; its call returns 0. Puts the process on the
    /// recheck list if it is not in the run queue, and no other process: new parents matter to none before a
    /// termination.
    pub fn mark(&mut self, pid: Pid, mark: bool)
        requires { IsThere pid self.old }
        ensures { Changes 1 self.old self.new (change self.old.state pid (marked_as mark)) (rechecks pid self.old) }
    {
        recheck_later(&mut self.to_recheck, &self.order, pid);
        self.table
            .change_seen(pid, |fields| fields.finish_marked(mark));
    }

    /// Returns true if no live process is a child subreaper. Reads no slot.
    fn nobody_marked(&self) -> bool
        ensures { result ≡ not (list_any is_living_subreaper self.now.state.processes) }
    {
        self.table.nobody_marked()
    }

    /// Returns the new parent of a process's children: its nearest ancestor that is a child subreaper, otherwise
    /// process 1. Reads no slot if no live process is a child subreaper. Otherwise reads one for the process, and one
    /// for each ancestor up to the new parent, but none for process 1. There are no more ancestors than process IDs.
    pub fn heir(&mut self, pid: Pid) -> Pid
        ensures heir { result ≡ heir_in self.old.state.processes pid }
        ensures same { AreSame self.old self.new }
        ensures visits { self.new.visits ≤ self.old.visits + slots_of_heir self.old.state.processes pid }
        ensures no_fewer { self.old.visits ≤ self.new.visits }
    {
        if pid == Pid::INIT || self.nobody_marked() {
            return Pid::INIT;
        }
        let mut forebear = pid;
        let mut left = Pid::MAX;
        while left != 0 && forebear != Pid::INIT {
            let Some(it) = self.snapshot(forebear) else {
                return Pid::INIT;
            };
            if let Life::Zombie(_) = it.life {
                return Pid::INIT;
            }
            if it.is_subreaper && forebear != pid {
                return forebear;
            }
            forebear = it.parent;
            left -= 1;
        }
        Pid::INIT
    }
}
