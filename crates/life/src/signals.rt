//! Generation of signals for a process, and for each member of a process group.

ghost use Rattle.std.specs.Prelude.{◌≡◌, ◌+◌, ◌*◌, ◌≤◌, ◌==◌, ◌∷◌, [], Some, true, false, if◌then◌else◌, length};
ghost use Rattle.posix.specs.Common.{is_realtime, process, members_in, from_kernel, generated_for, signalled_group, signalled_members, queuers};
ghost use Rattle.life.specs.Queues.{HaveRoom};
ghost use Rattle.life.specs.Rechecks.{rechecking_generated, rechecking_members, slots_of_signal};
ghost use Rattle.life.specs.Machines.{Changes, IsThere, IfThere, with_processes};

use crate::machine::Machine;
use posix::{Carried, Effect, PendingSignal, Pid, Sig};
use proctable::{Pools, ProcessTable};

impl<K: ProcessTable> Machine<K> {
    /// Generates a standard signal for an existing process. SIGCONT continues a stopped process, whose parent is
    /// notified (XSH 2.4.1, 2.4.3).
    #[inline(always)]
    fn signal(&mut self, pid: Pid, signal: PendingSignal)
        requires there { IsThere pid self.old }
        requires standard { is_realtime signal.sig ≡ false }
        ensures { Changes (slots_of_signal signal.sig) self.old self.new (with_processes self.old.state (generated_for signal (process self.old.state pid) self.old.state.processes)) (rechecking_generated signal (process self.old.state pid) self.old.state.processes self.old.state.order self.old.to_recheck) }
    {
        match self.change(pid, |fields| fields.signal(pid, signal)) {
            Effect::Nothing => {}
            Effect::Continued => self.continue_process(pid),
        }
    }

    /// Generates a real-time signal for an existing process. If the process keeps the signal, it is queued: the queue
    /// must not be full, and `pools` must have a pool, which is taken if the process has none (XSH 2.4.2).
    #[inline(never)]
    fn queue<S: Pools>(&mut self, pid: Pid, signal: PendingSignal, pools: &mut S)
        requires there { IsThere pid self.old }
        requires realtime { is_realtime signal.sig ≡ true }
        requires room { IfThere pid self.old (λ q. HaveRoom (S.pools pools.old) (queuers (Some signal.sig) (q ∷ []))) }
        ensures changes { Changes (slots_of_signal signal.sig) self.old self.new (with_processes self.old.state (generated_for signal (process self.old.state pid) self.old.state.processes)) (rechecking_generated signal (process self.old.state pid) self.old.state.processes self.old.state.order self.old.to_recheck) }
        ensures pools { IfThere pid self.old (λ q. S.pools pools.old ≤ S.pools pools.new + length (queuers (Some signal.sig) (q ∷ []))) }
    {
        let pool = pools.take();
        let left = self.change(pid, |fields| fields.queue(pid, signal, pool));
        pools.put(left);
    }

    /// Generates a signal for an existing process. If it would be queued, the queue must not be full, and `pools` must
    /// have a pool for it (XSH 2.4.1).
    pub(crate) fn generate<S: Pools>(&mut self, pid: Pid, signal: PendingSignal, pools: &mut S)
        requires there { IsThere pid self.old }
        requires room { IfThere pid self.old (λ q. HaveRoom (S.pools pools.old) (queuers (Some signal.sig) (q ∷ []))) }
        ensures changes { Changes (slots_of_signal signal.sig) self.old self.new (with_processes self.old.state (generated_for signal (process self.old.state pid) self.old.state.processes)) (rechecking_generated signal (process self.old.state pid) self.old.state.processes self.old.state.order self.old.to_recheck) }
        ensures pools { IfThere pid self.old (λ q. S.pools pools.old ≤ S.pools pools.new + length (queuers (Some signal.sig) (q ∷ []))) }
    {
        if signal.sig.is_realtime() {
            self.queue(pid, signal, pools);
        } else {
            self.signal(pid, signal);
        }
    }

    /// Generates a standard signal of the kernel for the process with this ID. Does nothing if there is no such
    /// process.
    pub(crate) fn signal_process(&mut self, pid: Pid, sig: Sig)
        requires { is_realtime sig ≡ false }
        ensures { Changes (1 + slots_of_signal sig) self.old self.new (with_processes self.old.state (generated_for (record { sig = sig; carried = from_kernel }) (process self.old.state pid) self.old.state.processes)) (rechecking_generated (record { sig = sig; carried = from_kernel }) (process self.old.state pid) self.old.state.processes self.old.state.order self.old.to_recheck) }
    {
        if self.snapshot(pid).is_some() {
            let signal = PendingSignal {
                sig,
                carried: Carried::FROM_KERNEL,
            };
            self.signal(pid, signal);
        }
    }

    /// Generates a standard signal of the kernel for each member of a process group, zombies included, in rising order
    /// of process ID.
    pub(crate) fn signal_members(&mut self, group: Pid, sig: Sig)
        requires { is_realtime sig ≡ false }
        ensures { Changes (slots_of_signal sig * length (members_in group self.old.state.processes)) self.old self.new (with_processes self.old.state (signalled_members (record { sig = sig; carried = from_kernel }) group self.old.state.processes)) (rechecking_members sig group self.old.state.processes self.old.state.order self.old.to_recheck) }
    {
        let mut next = self.next_member(group, Pid::NONE);
        while let Some(pid) = next {
            let signal = PendingSignal {
                sig,
                carried: Carried::FROM_KERNEL,
            };
            self.signal(pid, signal);
            next = self.next_member(group, pid);
        }
    }

    /// Generates a standard signal for a process group, as [`Machine::signal_members`] does. Does nothing for number 0,
    /// which is no process group's ID.
    pub fn signal_group(&mut self, group: Pid, sig: Sig)
        requires { is_realtime sig ≡ false }
        ensures { Changes (slots_of_signal sig * length (members_in group self.old.state.processes)) self.old self.new (with_processes self.old.state (signalled_group sig group self.old.state.processes)) (if group == 0 then self.old.to_recheck else rechecking_members sig group self.old.state.processes self.old.state.order self.old.to_recheck) }
    {
        let _ = &self.table;
        if group != Pid::NONE {
            self.signal_members(group, sig);
        }
    }
}
