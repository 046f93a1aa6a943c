//! The numbers of live processes and zombies.

ghost use Rattle.std.specs.Prelude.{◌≡◌, ◌+◌, ◌*◌, ◌<◌, ◌^◌, length};
ghost use Rattle.posix.specs.Common.{is_zombie as is_zombie_of};
ghost use Rattle.life.specs.Censuses.{census_of};
ghost use Rattle.life.specs.Machines.{Finds, IfThere};

use crate::machine::Machine;
use posix::{Life, Pid};
use proctable::ProcessTable;

/// The processes of a machine, in numbers.
#[derive(Clone, Copy)]
pub struct Census {
    /// The processes that were created, process 1 included.
    pub births: u64,
    /// The live processes.
    pub living: u64,
    /// The zombies, which no wait has reaped.
    pub zombies: u64,
    /// The zombies that were dropped without a wait, because their parent ignores SIGCHLD or has set SA_NOCLDWAIT (XSH
    /// _exit).
    pub dropped: u64,
    /// True if the machine has halted.
    pub halted: bool,
}

impl<K: ProcessTable> Machine<K> {
    /// Counts the processes. Changes nothing.
    pub fn census(&mut self) -> Census
        ensures { Finds (1 + 2 * length self.old.state.processes) self.old self.new (result ≡ census_of self.old.state) }
    {
        let mut living = 0;
        let mut zombies = 0;
        let mut next = self.next_after(Pid::NONE);
        while let Some(pid) = next {
            if self.is_zombie(pid) {
                zombies += 1;
            } else {
                living += 1;
            }
            next = self.next_after(pid);
        }
        Census {
            births: self.births(),
            living,
            zombies,
            dropped: self.dropped(),
            halted: self.is_halted(),
        }
    }

    /// Returns true if a process is a zombie.
    fn is_zombie(&mut self, pid: Pid) -> bool
        ensures finds { Finds 1 self.old self.new (IfThere pid self.old (λ it. result ≡ is_zombie_of it.life)) }
        ensures size { length self.old.state.processes < 2 ^ 63 }
    {
        let Some(snapshot) = self.table.get(pid) else {
            return false;
        };
        matches!(snapshot.life, Life::Zombie(_))
    }
}
