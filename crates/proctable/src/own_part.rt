//! The part of a process that it may change itself: nothing on which the other tables of the machine depend.

ghost use Rattle.std.specs.Prelude.{◌≡◌, IfOk, OnOk, OnErr, Some, None, ◌∷◌, [], true, false};
ghost use Rattle.posix.specs.declared.process.Frame.{Frame};
ghost use Rattle.posix.specs.Common.{Process, first_process, finished, results_of, results_of_nothing, handles, is_full, newest_frame, returned, enter, out_of_call, Program, executed};
ghost use Rattle.proctable.specs.Records.{own_of, give_own, forked};

use crate::spare::Spare;
use arena::new_arena;
use posix::{Blocked, Gid, PendingSignal, Pid, Register, SigSet, Status, Uid, WaitCall};
use signal::{Creds, FramesFull, NoFrame, Signals, leave_call, mask_before};
use std::alloc::{AllocError, Global};
use umach::Cpu;

/// The part of a process that it may change itself: no process ID, process group or session, and neither its life nor
/// its status change.
#[derive(Drop)]
pub struct OwnPart {
    /// Its registers and its memory.
    pub cpu: Cpu,
    /// The call that it is blocked in.
    pub blocked: Option<Blocked>,
    /// Its index among the programs of the world.
    pub program: u8,
    /// Whether it has run exec since its fork (XSH setpgid).
    pub ran_exec: bool,
    /// Its signal mask, pending signals, actions and frames (XSH 2.4).
    pub signals: Signals,
    /// Its user and group IDs (credentials(7)).
    pub creds: Creds,
}

impl OwnPart {
    /// Creates the own part of process 1 at boot. Fails if the host has no memory for it.
    pub fn first(alloc: Global) -> Result<OwnPart, AllocError>
        ensures { IfOk result (λ o. o ≡ own_of first_process) }
    {
        let arena = new_arena(alloc)?;
        Ok(OwnPart {
            creds: Creds::root(),
            signals: Signals::initial(alloc, arena.clone()?)?,
            ran_exec: false,
            blocked: None,
            program: 0,
            cpu: Cpu::new(arena)?,
        })
    }

    /// Returns the own part of the child of a fork, with no pending signals, after its call has returned 0 (XSH fork).
    /// It reuses the memory of `spare`, if there is one. Otherwise this fails if the host has no memory for it.
    pub fn fork(&self, spare: Option<Spare>) -> Result<OwnPart, AllocError>
        ensures { IfOk result (λ o. o ≡ forked self.now) }
    {
        let (words, tables) = match spare {
            Some(spare) => (Some(spare.words), Some(spare.tables)),
            None => (None, None),
        };
        let mut cpu = self.cpu.try_clone(words)?;
        cpu.set_register(Register::RESULT, 0);
        cpu.move_on();
        Ok(OwnPart {
            creds: self.creds,
            signals: self.signals.fork(tables)?,
            ran_exec: false,
            blocked: None,
            program: self.program,
            cpu,
        })
    }

    /// Returns true if two processes have the same own part.
    pub fn is_same(&self, other: &OwnPart) -> bool
        ensures { result ≡ true → self.now ≡ other.now }
    {
        self.program == other.program
            && self.ran_exec == other.ran_exec
            && self.blocked == other.blocked
            && self.creds == other.creds
            && self.cpu.is_same(&other.cpu)
            && self.signals.is_same(&other.signals)
    }

    /// Returns the memory of a removed process.
    pub fn into_spare(self) -> Spare {
        Spare {
            words: self.cpu.into_memory(),
            tables: self.signals.into_tables(),
        }
    }

    /// Returns a value from the call, and moves the process past it.
    #[tactic(auto, unfolding(posix::specs::Outcomes::finished))]
    pub fn finish(&mut self, value: i64)
        ensures { (r : Process) → give_own self.new r ≡ finished ((0, value) ∷ []) (give_own self.old r) }
    {
        self.cpu.set_register(Register::RESULT, value);
        self.cpu.move_on();
        self.blocked = None;
    }

    /// Returns the ID and the status of a child from a wait, and moves the process past it (XSH waitpid, XSH waitid).
    #[tactic(auto, unfolding(posix::specs::Outcomes::finished))]
    pub fn finish_wait(&mut self, call: WaitCall, child: Pid, status: Status)
        ensures { (r : Process) → give_own self.new r ≡ finished (results_of call child status) (give_own self.old r) }
    {
        let child = i64::from(child.number());
        let status = i64::from(status.word());
        match call {
            WaitCall::Waitpid => {
                self.cpu.set_register(Register::RESULT, child);
                self.cpu.set_register(Register::FIRST_ARGUMENT, status);
            }
            WaitCall::Waitid => {
                self.cpu.set_register(Register::RESULT, 0);
                self.cpu.set_register(Register::FIRST_ARGUMENT, child);
                self.cpu.set_register(Register::SECOND_ARGUMENT, status);
            }
        }
        self.cpu.move_on();
        self.blocked = None;
    }

    /// Returns 0 from a wait that doesn't block and has nothing to report, and moves the process past it. After a
    /// waitid, r1 and r2 are 0, too (own).
    #[tactic(auto, unfolding(posix::specs::Outcomes::finished))]
    pub fn finish_without_child(&mut self, call: WaitCall)
        ensures { (r : Process) → give_own self.new r ≡ finished (results_of_nothing call) (give_own self.old r) }
    {
        self.cpu.set_register(Register::RESULT, 0);
        if let WaitCall::Waitid = call {
            self.cpu.set_register(Register::FIRST_ARGUMENT, 0);
            self.cpu.set_register(Register::SECOND_ARGUMENT, 0);
        }
        self.cpu.move_on();
        self.blocked = None;
    }

    /// Blocks the process in a call.
    #[tactic(auto, unfolding(posix::specs::Step::enter))]
    pub fn enter(&mut self, blocked: Blocked)
        ensures { (r : Process) → give_own self.new r ≡ enter blocked (give_own self.old r) }
    {
        if let Blocked::Sigsuspend(_) = blocked {
            let set = SigSet::from_word(self.cpu.register(Register::FIRST_ARGUMENT));
            self.signals.replace_mask(set);
        }
        self.blocked = Some(blocked);
    }

    /// Unblocks the process without a result: the pc stays at the call.
    #[tactic(auto, unfolding(posix::specs::Step::out_of_call))]
    pub fn leave(&mut self)
        ensures { (r : Process) → give_own self.new r ≡ out_of_call (give_own self.old r) }
    {
        self.blocked = None;
    }

    /// Replaces the program of the process by the one with this number, which sets these effective IDs (XSH exec). The
    /// second and third arguments become the first and second of the new program. Allocates nothing.
    #[tactic(auto, unfolding(posix::specs::Programs::executed))]
    pub fn exec(&mut self, number: u8, user: Option<Uid>, group: Option<Gid>)
        ensures { (program : Program) (r : Process) → program.setuid ≡ user → program.setgid ≡ group → give_own self.new r ≡ executed number program (give_own self.old r) }
    {
        let first = self.cpu.register(Register::SECOND_ARGUMENT);
        let second = self.cpu.register(Register::THIRD_ARGUMENT);
        self.creds.on_exec(user, group);
        self.signals.on_exec();
        self.cpu.reset(first, second);
        self.ran_exec = true;
        self.program = number;
    }

    /// Takes the process out of the call that it is blocked in, and enters the handler of a signal at an address (XSH
    /// 2.4.3). Fails if there are 16 frames already; then the handler isn't entered.
    #[tactic(auto, unfolding(posix::specs::Handlers::handles))]
    pub fn handle(&mut self, signal: PendingSignal, address: i64) -> Result<(), FramesFull>
        ensures room { OnOk result (is_full self.old.signals ≡ false) }
        ensures full { OnErr result (is_full self.old.signals ≡ true) }
        ensures state { (r : Process) → give_own self.new r ≡ handles signal address (give_own self.old r) }
    {
        let action = self.signals.action(signal.sig);
        let saved = mask_before(self.blocked, self.signals.mask());
        leave_call(self.blocked, &action, &mut self.cpu);
        self.blocked = None;
        self.signals
            .enter_handler(&mut self.cpu, signal, address, saved)
    }

    /// Returns from the newest handler (sigreturn(2)). Fails if there is no frame; then nothing changes.
    #[tactic(auto, unfolding(posix::specs::Handlers::returned))]
    pub fn return_from_handler(&mut self) -> Result<(), NoFrame>
        ensures ok { OnOk result ((frame : Frame) × (newest_frame self.old.signals ≡ Some frame) × ((r : Process) → give_own self.new r ≡ returned frame (give_own self.old r))) }
        ensures none { OnErr result (newest_frame self.old.signals ≡ None) }
        ensures same { OnErr result (self.new ≡ self.old) }
    {
        self.signals.leave_handler(&mut self.cpu)
    }
}
