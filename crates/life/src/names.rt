//! What a register selects for a call: a process or a program.

ghost use Rattle.std.specs.Prelude.{◌≡◌, ℕ, pos, true, false, if◌then◌else◌, Some, None, option_map, slice_get};
ghost use Rattle.posix.specs.Common.{Program, change, named as named_by, executed};
ghost use Rattle.proctable.specs.Records.{snapshot_of};
ghost use Rattle.life.specs.Rechecks.{rechecks};
ghost use Rattle.life.specs.Machines.{Costs, Finds, IsThere, IfThere};

use crate::machine::Machine;
use posix::Pid;
use proctable::{ProcessTable, Snapshot};

impl<K: ProcessTable> Machine<K> {
    /// Returns the small fields of the process whose ID is `word`, an argument of an existing caller; 0 selects the
    /// caller itself. Returns `None` if no process has that ID, even if it is negative (XSH getpgid, getsid). Changes
    /// nothing.
    #[inline(always)]
    pub fn named(&mut self, me: Pid, word: i64) -> Option<Snapshot>
        requires { IsThere me self.old }
        ensures { Finds 1 self.old self.new (IfThere me self.old (λ it. result ≡ option_map snapshot_of (named_by it word self.old.state.processes))) }
    {
        if word == 0 {
            return self.snapshot(me);
        }
        if word < 0 || word > i64::from(self.world.pidmax()) {
            return None;
        }
        self.snapshot(Pid::new(word as u32)?)
    }

    /// Replaces the program of an existing process by the one with number `word`, and returns true. Returns false, and
    /// changes nothing, if there is no such program (XSH exec).
    pub fn exec_named(&mut self, pid: Pid, word: i64) -> bool
        requires { IsThere pid self.old }
        ensures done { (n : ℕ) (program : Program) → word ≡ pos n → slice_get self.old.state.world.programs n ≡ Some program → (result ≡ true) × (self.new.state ≡ change self.old.state pid (executed n program)) }
        ensures none { ((n : ℕ) → word ≡ pos n → slice_get self.old.state.world.programs n ≡ None) → (result ≡ false) × (self.new.state ≡ self.old.state) }
        ensures to_recheck { self.new.to_recheck ≡ (if result then rechecks pid self.old else self.old.to_recheck) }
        ensures costs { Costs 1 self.old self.new }
    {
        if word < 0 || word >= self.world.programs().len() as i64 {
            return false;
        }
        self.exec(pid, word as u8)
    }
}
