//! Walks over processes, from the lowest ID up. Code that goes over several processes uses these, or goes from member
//! to member of a process group.

ghost use Rattle.std.specs.Prelude.{◌≡◌, slice_get};
ghost use Rattle.posix.specs.Common.{IsNext, first_pid, above, next_above, children_in, IsRegular, wakes, wanted_in};
ghost use Rattle.life.specs.Machines.{Finds, IsThere};
ghost use Rattle.pidset.specs.Numbers.{Rises};

use crate::machine::Machine;
use posix::{Pid, WaitidOptions};
use proctable::ProcessTable;

impl<K: ProcessTable> Machine<K> {
    /// Returns the process with the lowest ID above `pid`.
    pub fn next_after(&mut self, pid: Pid) -> Option<Pid>
        ensures { Finds 1 self.old self.new (result ≡ next_above pid self.old.state.processes) }
    {
        self.table.next_after(pid)
    }

    /// Returns the child of an existing process with the lowest ID above `after`, zombies included. Reads no slot.
    pub(crate) fn next_child(&self, parent: Pid, after: Pid) -> Option<Pid>
        requires { IsThere parent self.now }
        ensures value { result ≡ first_pid (above after (children_in parent self.now.state.processes)) }
        ensures regular { IsRegular self.now.state }
    {
        self.table.next_child(parent, after)
    }

    /// Returns the child with the lowest ID above `after` that has a status change which a wait with these options
    /// requests. Reads no slot.
    pub(crate) fn next_wanted(&self, parent: Pid, options: WaitidOptions, after: Pid) -> Option<Pid>
        ensures value { result ≡ first_pid (above after (wanted_in options.0 parent self.now.state.processes)) }
        ensures regular { IsRegular self.now.state }
    {
        self.table.next_wanted(parent, options, after)
    }

    /// Returns the first process on the recheck list. No process with a lower ID has to enter the run queue; if the
    /// list is empty, none has to.
    pub fn first_to_recheck(&self) -> Option<Pid>
        ensures next { IsNext (wakes self.now.state) 0 self.now.state.processes result }
        ensures is { result ≡ slice_get self.now.to_recheck 0 }
        ensures rising { Rises self.now.to_recheck }
        ensures regular { IsRegular self.now.state }
    {
        self.to_recheck.first()
    }

    /// Returns the process after the first one on the recheck list.
    pub fn second_to_recheck(&self, first: Pid) -> Option<Pid>
        requires { slice_get self.now.to_recheck 0 ≡ Some first }
        ensures { result ≡ slice_get self.now.to_recheck 1 }
    {
        self.to_recheck.next_above(first)
    }
}
