//! Stops and continues.
ghost use Rattle.posix.specs.Common.{continued, changed, process, without, IsPlaced, resumed, stopped_by, told_of_change, stop_process as stopping};
ghost use Rattle.life.specs.Rechecks.{rechecking_told};
ghost use Rattle.life.specs.Machines.{Changes, IfThere, with_processes};

use crate::machine::Machine;
use posix::{Life, News, Pid, Sig, Status};
use proctable::ProcessTable;

impl<K: ProcessTable> Machine<K> {
    /// Stops a live process by a signal. The process leaves the run queue, its stop is to be reported by a wait, and
    /// its parent is notified. If it is blocked in a call, it stays so (XSH 2.4.3).
    pub fn stop_process(&mut self, pid: Pid, sig: Sig)
        requires { IsPlaced self.old.state.processes pid }
        ensures { IfThere pid self.old (λ me. Changes 2 self.old self.new (stopping self.old.state me sig).state (rechecking_told (stopped_by sig me) (process self.new.state me.parent) (without pid self.old.state.order) self.old.to_recheck)) }
    {
        self.lose_place(pid);
        self.change_life(
            pid,
            Life::Stopped,
            News::StoppedBy(sig),
            Status::stopped(sig),
        );
    }

    /// Continues a live process. The continue is to be reported by a wait, and its parent is notified (XSH 2.4.3).
    pub(crate) fn continue_process(&mut self, pid: Pid)
        requires { IsPlaced self.old.state.processes pid }
        ensures { IfThere pid self.old (λ me. Changes 2 self.old self.new (with_processes self.old.state (told_of_change continued me (changed pid resumed self.old.state.processes))) (rechecking_told (resumed me) (process self.new.state me.parent) self.old.state.order self.old.to_recheck)) }
    {
        self.change_life(pid, Life::Running, News::Continued, Status::continued());
    }
}
