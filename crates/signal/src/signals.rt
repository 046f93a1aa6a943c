//! The signals of one process.

ghost use Rattle.std.specs.Prelude.{◌≡◌, ◌⊎◌, ◌<◌, ◌&&◌, [], true, false, not, nat_le, length, slice_get, None, Some, Ok, Err, OnOk, OnErr, IfOk, IfErr, IfSome, IsSome};
ghost use Rattle.posix.specs.Common.{is_realtime, initial_signals, nothing_pending, forgotten, drops_children as drops_children_of, ignores_children as ignores_children_of, ignores_stops as ignores_stops_of, action as action_of, is_pending as is_pending_of, with_pending, without_stops, after_discards, gets_no_signals as gets_no_signals_of, keeps as keeps_of, generated, effect_of, chosen, least_ready as least_ready_of, carried_by, discarded, taken, most_queued, is_full as is_full_of, handler_mask as handler_mask_of, entered, at_handler, after_entry as after_entry_of, handler_arguments, newest_frame, left, restore, set_action as set_action_of, set_mask as set_mask_of, give_mask, signals_on_exec, pending_set};

use crate::actions::{does_nothing, is_caught, is_stop_signal};
use crate::realtime_pool::RealtimePool;
use crate::tables::{FramesFull, LazyTables, NoFrame};
use arena::Arena;
use bitflags::Flags;
use posix::{
    Action, Carried, Effect, Errno, Handler, How, Life, PendingSignal, Pid, Register, SaFlags, Sig,
    SigSet,
};
use std::alloc::{AllocError, Global};
use std::marker::Model;
use umach::Cpu;

/// The signals of one process (XSH 2.4).
#[derive(Drop)]
pub struct Signals {
    /// The blocked signals.
    mask: SigSet,
    /// The pending signals.
    pending: SigSet,
    /// The actions, what the pending signals carry, the queued signals, and the frames of handlers.
    tables: LazyTables,
}

impl Model for Signals {
    ghost use Rattle.std.specs.Prelude.{◌≡◌, ◌<◌, ◌^◌, length};
    ghost use Rattle.posix.specs.Processes.{Signals as SignalsOf};
    ghost use Rattle.signal.specs.SignalTables.{MarksQueued, signals_of};

    ghost Value = { SignalsOf };

    ghost view = { λ s. signals_of s.mask s.pending s.tables };

    ghost invariant = { λ s. (s.pending < 2 ^ 64) × (length s.tables.carried ≡ 31) × MarksQueued s.pending s.tables.queue };
}

impl Signals {
    /// Creates the signals of process 1 at boot: none is blocked or pending, and the actions are the defaults. Fails if
    /// the host has no memory for them.
    pub fn initial(alloc: Global, frames: Arena) -> Result<Signals, AllocError>
        ensures { IfOk result (λ s. s ≡ initial_signals) }
    {
        Ok(Signals {
            mask: SigSet::EMPTY,
            pending: SigSet::EMPTY,
            tables: LazyTables::new(alloc, frames)?,
        })
    }

    /// Returns the signals of a new child: a copy, but with none pending (XSH fork). The tables reuse the memory of
    /// `spare`, if there is one. Otherwise this fails if the host has no memory for them.
    pub fn fork(&self, spare: Option<LazyTables>) -> Result<Signals, AllocError>
        ensures { IfOk result (λ s. s ≡ record self.now { standard = nothing_pending; queue = [] }) }
    {
        Ok(Signals {
            mask: self.mask,
            pending: SigSet::EMPTY,
            tables: self.tables.fork(spare)?,
        })
    }

    /// Returns true if two processes have the same signal mask, pending signals, actions and frames.
    pub fn is_same(&self, other: &Signals) -> bool
        ensures { result ≡ true → self.now ≡ other.now }
    {
        self.mask == other.mask
            && self.pending == other.pending
            && self.tables.has_same_carried(&other.tables, self.pending)
            && self.tables.is_same_but_carried(&other.tables)
    }

    /// Returns the tables of signals that are no longer needed.
    pub fn into_tables(self) -> LazyTables {
        self.tables
    }

    /// Discards pending signals and frames, because the process has terminated. The rest is unchanged.
    pub fn forget(&mut self)
        ensures { self.new ≡ forgotten self.old }
    {
        self.pending = SigSet::EMPTY;
        self.tables.forget();
    }

    // ---- queries

    /// Returns the signal mask: the signals that are blocked.
    pub fn mask(&self) -> SigSet
        ensures { result ≡ self.now.mask }
    {
        self.mask
    }

    /// Returns the set of pending signals (XSH sigpending).
    pub fn pending(&self) -> SigSet
        ensures { result ≡ pending_set self.now }
    {
        self.pending
    }

    /// Returns the real-time signal at a place of the queue, the first at 0 (XSH 2.4.2).
    pub fn queued(&self, place: usize) -> Option<PendingSignal>
        ensures { result ≡ slice_get self.now.queue place }
    {
        self.tables.queue().get(place).copied()
    }

    /// Returns how many handlers have been entered and haven't returned.
    pub fn handlers(&self) -> usize
        ensures { result ≡ length self.now.frames }
    {
        self.tables.frames()
    }

    /// Returns the action for a signal.
    pub fn action(&self, sig: Sig) -> Action
        ensures { result ≡ action_of self.now sig }
    {
        self.tables.action(sig)
    }

    /// Returns true if the process ignores SIGCHLD, and so is sent none for its children.
    pub fn ignores_children(&self) -> bool
        ensures { result ≡ ignores_children_of self.now }
    {
        matches!(self.action(Sig::CHLD).handler, Handler::Ignore)
    }

    /// Returns true if children of the process don't become zombies when they terminate: it ignores SIGCHLD or has
    /// SA_NOCLDWAIT (XSH _exit).
    pub fn drops_children(&self) -> bool
        ensures { result ≡ drops_children_of self.now }
    {
        self.ignores_children() || self.action(Sig::CHLD).flags.contains(SaFlags::SA_NOCLDWAIT)
    }

    /// Returns true if the process is sent no SIGCHLD when a child stops or continues: it ignores SIGCHLD or has
    /// SA_NOCLDSTOP (XSH sigaction).
    pub fn ignores_stops(&self) -> bool
        ensures { result ≡ ignores_stops_of self.now }
    {
        self.ignores_children() || self.action(Sig::CHLD).flags.contains(SaFlags::SA_NOCLDSTOP)
    }

    // ---- pending signals

    /// Returns true if a signal is pending.
    fn is_pending(&self, sig: Sig) -> bool
        ensures { result ≡ is_pending_of self.now sig }
    {
        self.pending.contains(sig)
    }

    /// Returns what a standard signal carries, or value 0 and sender 0 if it isn't pending.
    fn carried(&self, sig: Sig) -> Carried
        requires { is_realtime sig ≡ false }
        ensures { result ≡ carried_by sig self.now }
    {
        if self.is_pending(sig) {
            self.tables.carried(sig)
        } else {
            Carried::FROM_KERNEL
        }
    }

    /// Makes a standard signal pending, with what it carries.
    fn insert(&mut self, sig: Sig, carried: Carried)
        requires { is_realtime sig ≡ false }
        ensures { self.new ≡ with_pending sig (Some carried) self.old }
    {
        self.tables.set_carried(sig, carried);
        self.pending = self.pending.union(SigSet::just(sig));
    }

    /// Makes a standard signal no longer pending.
    fn remove(&mut self, sig: Sig)
        requires { is_realtime sig ≡ false }
        ensures { self.new ≡ with_pending sig None self.old }
    {
        self.pending = self.pending.except(SigSet::just(sig));
    }

    /// Discards all pending signals with this number.
    #[tactic(auto, unfolding(posix::specs::Choice::discarded))]
    fn discard(&mut self, sig: Sig)
        ensures { self.new ≡ discarded sig self.old }
    {
        if sig.is_realtime() {
            self.tables.discard_queued(sig);
            self.pending = self.pending.except(SigSet::just(sig));
        } else {
            self.remove(sig);
        }
    }

    /// Removes the first queued real-time signal with this number. Returns what it carries, or value 0 and sender 0 if
    /// there is none.
    #[tactic(auto, unfolding(posix::specs::Choice::taken))]
    fn take_queued(&mut self, sig: Sig) -> Carried
        requires { is_realtime sig ≡ true }
        ensures value { result ≡ carried_by sig self.old }
        ensures state { self.new ≡ taken sig self.old }
    {
        let carried = self.tables.take_queued(sig);
        if !self.tables.is_queued(sig) {
            self.pending = self.pending.except(SigSet::just(sig));
        }
        carried.unwrap_or(Carried::FROM_KERNEL)
    }

    // ---- generation and choice

    /// Returns true if no signal is generated: for a zombie, and for process 1 if it has no handler (kill(2)).
    fn gets_no_signals(&self, pid: Pid, life: Life, sig: Sig) -> bool
        ensures { result ≡ gets_no_signals_of pid life self.now sig }
    {
        matches!(life, Life::Zombie(_))
            || (pid == Pid::INIT && !is_caught(self.action(sig).handler))
    }

    /// Returns true if a signal is kept: it is blocked, or its action does something.
    #[inline(always)]
    fn keeps(&self, sig: Sig) -> bool
        ensures { result ≡ keeps_of self.now sig }
    {
        self.mask.contains(sig) || !does_nothing(self.action(sig).handler, sig)
    }

    /// Discards all pending stop signals.
    #[tactic(auto, unfolding(posix::specs::Generation::without_stops))]
    fn discard_stops(&mut self)
        ensures { self.new ≡ without_stops self.old }
    {
        self.remove(Sig::TTOU);
        self.remove(Sig::TTIN);
        self.remove(Sig::TSTP);
        self.remove(Sig::STOP);
    }

    /// Discards the pending signals that a new signal cancels: SIGCONT cancels stop signals, and a stop signal cancels
    /// SIGCONT, whether or not they are blocked or ignored (XSH 2.4.1).
    fn discard_for(&mut self, sig: Sig)
        ensures { self.new ≡ after_discards sig self.old }
    {
        if sig == Sig::CONT {
            self.discard_stops();
        } else if is_stop_signal(sig) {
            self.remove(Sig::CONT);
        }
    }

    /// Generates a standard signal for the process, which has this ID and life, and returns what the signal does at
    /// once.
    ///
    /// For a zombie, and for process 1 if it has no handler for the signal, nothing is generated. Otherwise SIGCONT
    /// discards pending stop signals, and a stop signal a pending SIGCONT, whether or not they are blocked or ignored.
    /// The signal itself is discarded if it isn't blocked and its action does nothing; otherwise it becomes pending. A
    /// signal that was pending already keeps what it carries (XSH 2.4.1). SIGCONT continues a stopped process at once,
    /// whether or not it is blocked or ignored (XSH 2.4.3).
    #[tactic(auto, unfolding(posix::specs::Generation::generated, posix::specs::Generation::effect_of))]
    pub fn generate(&mut self, pid: Pid, life: Life, signal: PendingSignal) -> Effect
        requires standard { is_realtime signal.sig ≡ false }
        ensures state { self.new ≡ generated pid life signal self.old }
        ensures effect { result ≡ effect_of pid life signal self.old }
    {
        let sig = signal.sig;
        let continues = sig == Sig::CONT && matches!(life, Life::Stopped);
        if self.gets_no_signals(pid, life, sig) {
            return Effect::Nothing;
        }
        let is_kept = self.keeps(sig);
        self.discard_for(sig);
        if is_kept && !self.is_pending(sig) {
            self.insert(sig, signal.carried);
        }
        if continues {
            Effect::Continued
        } else {
            Effect::Nothing
        }
    }

    /// Returns true if a signal generated for the process, which has this ID and life, would be queued: a real-time
    /// signal that is kept.
    pub fn queues(&self, pid: Pid, life: Life, sig: Sig) -> bool
        ensures { result ≡ (is_realtime sig && (not (gets_no_signals_of pid life self.now sig) && keeps_of self.now sig)) }
    {
        sig.is_realtime() && !self.gets_no_signals(pid, life, sig) && self.keeps(sig)
    }

    /// Returns true if no more real-time signals can be queued.
    pub fn is_queue_full(&self) -> bool
        ensures { result ≡ nat_le most_queued (length self.now.queue) }
    {
        self.tables.queue().len() >= 32
    }

    /// Generates a real-time signal for the process, which has this ID and life. Queues it after earlier ones, unless
    /// nothing is generated for the process or the signal isn't kept (XSH 2.4.2). A signal that is queued needs room,
    /// and a pool if there is no queue yet. Returns the pool if it isn't needed.
    ///
    /// The pending set has the numbers that are queued (`MarksQueued`), so a step of a process without signals costs
    /// one test.
    #[tactic(auto, unfolding(posix::specs::Generation::generated))]
    pub fn queue(
        &mut self,
        pid: Pid,
        life: Life,
        signal: PendingSignal,
        pool: Option<RealtimePool>,
    ) -> Option<RealtimePool>
        requires realtime { is_realtime signal.sig ≡ true }
        requires room { (not (gets_no_signals_of pid life self.old signal.sig) && keeps_of self.old signal.sig) ≡ true → (nat_le most_queued (length self.old.queue) ≡ false) × IsSome pool }
        ensures state { self.new ≡ generated pid life signal self.old }
        ensures back { ((not (gets_no_signals_of pid life self.old signal.sig) && keeps_of self.old signal.sig) ≡ true) ⊎ (result ≡ pool) }
    {
        if !self.queues(pid, life, signal.sig) {
            return pool;
        }
        self.pending = self.pending.union(SigSet::just(signal.sig));
        self.tables.push_queued(signal, pool)
    }

    /// Returns the lowest pending signal that isn't blocked.
    #[tactic(auto, unfolding(posix::specs::Choice::least_ready))]
    fn least_ready(&self) -> Option<Sig>
        ensures { result ≡ least_ready_of self.now }
    {
        let ready = self.pending.bits() & !self.mask.bits();
        if ready == 0 {
            return None;
        }
        Sig::new(ready.trailing_zeros() as u8 + 1)
    }

    /// Returns the signal that is delivered next: SIGKILL first, and then the lowest pending signal that isn't blocked
    /// (own). For a process that isn't running, it can only be SIGKILL.
    #[tactic(auto, unfolding(posix::specs::Choice::chosen))]
    pub fn choose(&self, life: Life) -> Option<Sig>
        ensures { result ≡ chosen life self.now }
    {
        if self.is_pending(Sig::KILL) {
            return Some(Sig::KILL);
        }
        match life {
            Life::Running => self.least_ready(),
            Life::Stopped | Life::Zombie(_) => None,
        }
    }

    /// Removes a pending signal; of real-time signals with one number, the first. Returns what it carries, or value 0
    /// and sender 0 if none is pending.
    #[tactic(auto, unfolding(posix::specs::Choice::taken))]
    pub fn take(&mut self, sig: Sig) -> Carried
        ensures value { result ≡ carried_by sig self.old }
        ensures state { self.new ≡ taken sig self.old }
    {
        if sig.is_realtime() {
            return self.take_queued(sig);
        }
        let carried = self.carried(sig);
        self.remove(sig);
        carried
    }

    // ---- handlers

    /// Returns the mask of a handler with this action: the blocked signals, those of the action's mask, and, without
    /// SA_NODEFER, the signal itself.
    fn handler_mask(&self, sig: Sig, action: &Action) -> SigSet
        ensures { result ≡ handler_mask_of sig self.now.mask action.now }
    {
        let itself = if action.flags.contains(SaFlags::SA_NODEFER) {
            SigSet::EMPTY
        } else {
            SigSet::just(sig)
        };
        self.mask.union(action.mask).union(itself).maskable()
    }

    /// Enters the handler of a signal at an address. The handler returns to where the processor is, with the `saved`
    /// mask.
    ///
    /// Adds a frame. The mask grows by that of the action and, without SA_NODEFER, by the signal. With SA_RESETHAND,
    /// the handler becomes the default. r1 is the signal, and with SA_SIGINFO r2 is the value that it carries and r3
    /// the sender (XSH 2.4.3). Fails if there are 16 frames already; then nothing changes.
    #[tactic(auto, unfolding(posix::specs::Handlers::entered, posix::specs::Handlers::at_handler))]
    pub fn enter_handler(
        &mut self,
        cpu: &mut Cpu,
        signal: PendingSignal,
        address: i64,
        saved: SigSet,
    ) -> Result<(), FramesFull>
        ensures room { OnOk result (is_full_of self.old ≡ false) }
        ensures signals { OnOk result (self.new ≡ entered signal.sig cpu.old saved self.old) }
        ensures cpu { OnOk result (cpu.new ≡ at_handler signal (action_of self.old signal.sig) address cpu.old) }
        ensures full { OnErr result (is_full_of self.old ≡ true) }
        ensures signals_stay { OnErr result (self.new ≡ self.old) }
        ensures cpu_stays { OnErr result (cpu.new ≡ cpu.old) }
    {
        let action = self.action(signal.sig);
        self.tables.push_frame(cpu.frame(saved))?;
        self.mask = self.handler_mask(signal.sig, &action);
        self.tables.set_action(signal.sig, after_entry(action));
        give_arguments(cpu, signal, &action);
        cpu.go_to(address);
        Ok(())
    }

    /// Returns from the newest handler: restores the pc, registers and mask from its frame, and removes the frame
    /// (sigreturn(2)). Fails if there is no frame; then nothing changes.
    pub fn leave_handler(&mut self, cpu: &mut Cpu) -> Result<(), NoFrame>
        ensures some { OnOk result (IsSome (newest_frame self.old)) }
        ensures signals { OnOk result (IfSome (newest_frame self.old) (λ frame. self.new ≡ left frame self.old)) }
        ensures cpu { OnOk result (IfSome (newest_frame self.old) (λ frame. cpu.new ≡ restore frame cpu.old)) }
        ensures none { OnErr result (newest_frame self.old ≡ None) }
        ensures signals_stay { OnErr result (self.new ≡ self.old) }
        ensures cpu_stays { OnErr result (cpu.new ≡ cpu.old) }
    {
        let Some(frame) = self.tables.pop_frame() else {
            return Err(NoFrame);
        };
        self.mask = frame.mask;
        cpu.restore(&frame);
        Ok(())
    }

    /// Resets the signals for a new program: caught signals get the default action, and masks and flags of actions and
    /// all frames are cleared. The signal mask and the pending signals are unchanged (XSH exec).
    pub fn on_exec(&mut self)
        ensures { self.new ≡ signals_on_exec self.old }
    {
        self.tables.on_exec();
    }

    // ---- actions and masks

    /// Sets the action for a signal; its mask never contains SIGKILL and SIGSTOP. If the action does nothing with the
    /// signal, all pending signals of this number are discarded, blocked or not. Fails with EINVAL for SIGKILL and
    /// SIGSTOP; then nothing changes (XSH sigaction).
    #[tactic(auto, unfolding(posix::specs::Handlers::set_action))]
    pub fn set_action(&mut self, sig: Sig, action: Action) -> Result<(), Errno>
        ensures ok { OnOk result (set_action_of sig action self.old ≡ Ok self.new) }
        ensures err { IfErr result (λ why. set_action_of sig action self.old ≡ Err why) }
        ensures same { OnErr result (self.new ≡ self.old) }
    {
        if sig == Sig::KILL || sig == Sig::STOP {
            return Err(Errno::EINVAL);
        }
        let mask = action.mask.maskable();
        self.tables.set_action(sig, Action { mask, ..action });
        if does_nothing(action.handler, sig) {
            self.discard(sig);
        }
        Ok(())
    }

    /// Adds the set to the signal mask, removes it from the mask, or replaces the mask by it. SIGKILL and SIGSTOP stay
    /// unblocked (XSH sigprocmask).
    #[tactic(auto, unfolding(posix::specs::Handlers::set_mask))]
    pub fn set_mask(&mut self, how: How, set: SigSet)
        ensures { self.new ≡ set_mask_of how set self.old }
    {
        let mask = match how {
            How::Block => self.mask.union(set),
            How::Unblock => self.mask.except(set),
            How::Set => set,
        };
        self.replace_mask(mask);
    }

    /// Replaces the signal mask by the set. SIGKILL and SIGSTOP stay unblocked (XSH sigsuspend).
    pub fn replace_mask(&mut self, set: SigSet)
        ensures { self.new ≡ give_mask set self.old }
    {
        self.mask = set.maskable();
    }
}

/// Returns the action for a signal after its handler is entered: with SA_RESETHAND, the handler is the default; mask
/// and flags are unchanged.
fn after_entry(action: Action) -> Action
    ensures { result ≡ after_entry_of action }
{
    if action.flags.contains(SaFlags::SA_RESETHAND) {
        Action {
            handler: Handler::Default,
            ..action
        }
    } else {
        action
    }
}

/// Sets the arguments of a handler: r1 to the signal, and with SA_SIGINFO r2 to the value that it carries and r3 to the
/// sender.
fn give_arguments(cpu: &mut Cpu, signal: PendingSignal, action: &Action)
    ensures { cpu.new ≡ handler_arguments signal action.now cpu.old }
{
    cpu.set_register(Register::FIRST_ARGUMENT, i64::from(signal.sig.number()));
    if action.flags.contains(SaFlags::SA_SIGINFO) {
        let carried = signal.carried;
        cpu.set_register(Register::SECOND_ARGUMENT, carried.value);
        cpu.set_register(Register::THIRD_ARGUMENT, i64::from(carried.sender.number()));
    }
}
