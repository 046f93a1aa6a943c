//! A run in numbers.

ghost use Rattle.std.specs.Prelude.{◌≡◌, ◌≤◌, List};
ghost use Rattle.posix.specs.Common.{Line, reported as reported_of};
ghost use Rattle.kernel.specs.Summaries.{summary_of};

use crate::kernel_on::KernelOn;
use proctable::ProcessTable;

/// A run in numbers, counted from its events, its trace and the last state of the machine.
#[derive(Clone, Copy, PartialEq, Eq)]
pub struct Summary {
    /// The events, including those after a halt.
    pub events: u64,
    /// The processes that were created, process 1 included.
    pub births: u64,
    /// The processes that are live at the end.
    pub living: u64,
    /// The zombies, which no wait has reaped.
    pub zombies: u64,
    /// The terminations that waits reported.
    pub reported: u64,
    /// The zombies that were dropped without a wait, because their parent ignores SIGCHLD or has set SA_NOCLDWAIT (XSH
    /// _exit).
    pub dropped: u64,
    /// True if the machine halted.
    pub halted: bool,
}

impl<K: ProcessTable> KernelOn<K> {
    /// Returns the numbers of the run so far, whose trace reported `reported` terminations.
    pub fn summary(&mut self, reported: u64) -> Summary
        ensures value { (lines : List Line) → reported_of lines ≡ reported → result ≡ summary_of self.old.events lines self.old.state }
        ensures same { (self.new.state ≡ self.old.state) × (self.new.events ≡ self.old.events) }
        ensures no_fewer { self.old.visits ≤ self.new.visits }
    {
        let census = self.census();
        Summary {
            events: self.events(),
            births: census.births,
            living: census.living,
            zombies: census.zombies,
            reported,
            dropped: census.dropped,
            halted: census.halted,
        }
    }
}
