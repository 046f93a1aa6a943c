//! Replacement of a process's program by another (XSH exec).

ghost use Rattle.std.specs.Prelude.{◌≡◌, Some, None, true, false, if◌then◌else◌, slice_get};
ghost use Rattle.posix.specs.Common.{Program, change, executed};
ghost use Rattle.life.specs.Rechecks.{rechecks};
ghost use Rattle.life.specs.Machines.{Costs, IsThere};

use crate::machine::Machine;
use crate::rechecks::recheck_later;
use posix::Pid;
use proctable::ProcessTable;

impl<K: ProcessTable> Machine<K> {
    /// Replaces the program of an existing process by the one with this number, and returns true. Returns false, and
    /// changes nothing, if there is no such program (XSH exec).
    pub fn exec(&mut self, pid: Pid, number: u8) -> bool
        requires { IsThere pid self.old }
        ensures done { (program : Program) → slice_get self.old.state.world.programs number ≡ Some program → (result ≡ true) × (self.new.state ≡ change self.old.state pid (executed number program)) }
        ensures none { slice_get self.old.state.world.programs number ≡ None → (result ≡ false) × (self.new.state ≡ self.old.state) }
        ensures to_recheck { self.new.to_recheck ≡ (if result then rechecks pid self.old else self.old.to_recheck) }
        ensures costs { Costs 1 self.old self.new }
    {
        match self.world.programs().get(usize::from(number)) {
            Some(program) => {
                recheck_later(&mut self.to_recheck, &self.order, pid);
                self.table
                    .own(pid)
                    .exec(number, program.setuid(), program.setgid());
                true
            }
            None => false,
        }
    }
}
