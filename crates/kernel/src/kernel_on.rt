//! The kernel of one world.

ghost use Rattle.std.specs.Prelude.{◌≡◌, ◌+◌, ◌-◌, ◌++◌, ◌^◌, ◌<◌, ◌≤◌, ℕ, [], ⊤, Contains, Some, IfOk, IfSome, IsSome, IsTrue, false, min, true, option_map, replicate, slice_get};
ghost use mathlib.Core.Option.{none};
ghost use Rattle.std.specs.Borrow.{sem, follows_so};
ghost use Rattle.std.specs.Option.{option_copied};
ghost use Rattle.posix.specs.Common.{boot as boot_of, current as current_of, current_process, process, has_alarms as has_alarms_in, next_above, numbered, is_free, RunsFrom, silent, IsStep, next as event_next, IsRegular, IsSettled};
ghost use Rattle.posix.specs.declared.entry.Entry.{Entry};
ghost use Rattle.text.specs.EventTexts.{most_events};
ghost use Rattle.kernel.specs.Accounts.{LinesTell};
ghost use Rattle.kernel.specs.Counts.{CountsOne, slots_of_event, slots_of_steps};
ghost use Rattle.kernel.specs.Steps.{last_given, noted_lines};
ghost use Rattle.kernel.specs.Views.{IsWithinEvents, KernelView, looked};
ghost use Rattle.kernel.specs.contracts.kernel_on.KernelOn.{the_row as kernel_row};
ghost use Rattle.life.specs.Censuses.{census_of};
ghost use Rattle.proctable.specs.Records.{snapshot_of, own_of};
ghost use Rattle.pidalloc.specs.Places.{next_behind};
ghost use Rattle.laws.specs.Agree.{Agree, IsOrderly};
ghost use Rattle.laws.specs.Lives.{born_by};
ghost use Rattle.times.specs.Times.{AreMoved};

use crate::step::{burst, is_followed_by_step, next, step_behind};
use arrayvec::ArrayVec;
use calls::Entries;
use life::{Census, Machine, Notes};
use posix::{Event, Pid};
use proctable::{OwnPart, ProcessTable, SlabTable, Snapshot};
use std::alloc::{AllocError, Global};
use std::marker::Model;
use tty::Console;
use umach::World;

/// The kernel of one world.
pub type Kernel = KernelOn<SlabTable>;

/// The kernel of one world over a table of processes: the machine, and the number of events.
#[derive(Drop)]
pub struct KernelOn<K: ProcessTable> {
    machine: Machine<K>,
    events: u64,
}

impl<K: ProcessTable> Model for KernelOn<K> {
    ghost use Rattle.std.specs.Prelude.{◌≤◌, ◌+◌, ◌≡◌, [], false};
    ghost use Rattle.posix.specs.Settle.{IsSettled};
    ghost use Rattle.posix.specs.Regular.{IsRegular};
    ghost use Rattle.laws.specs.Agree.{IsOrderly};
    ghost use Rattle.life.specs.declared.consoles.Unchecked.TheVariants.{Nothing};
    ghost use Rattle.kernel.specs.Views.{KernelView};

    ghost Value = { KernelView };

    ghost view = { λ k. record { state = k.machine.state; events = k.events; visits = k.machine.visits } };

    ghost invariant = { λ k. (k.machine.state.births ≤ k.events + 1) × (k.machine.state.ticks ≤ k.events) × IsSettled k.machine.state × IsRegular k.machine.state × (k.machine.to_recheck ≡ []) × (k.machine.foregrounds_unchecked ≡ Nothing) × IsOrderly k.machine.state };
}

impl<K: ProcessTable> KernelOn<K> {
    /// Returns the kernel at boot. Fails if there is no memory for it. The empty trace agrees with its state, which is
    /// orderly (`laws::lines_tell_of_states`).
    pub fn boot(alloc: Global, world: &World) -> Result<Self, AllocError>
        ensures state { IfOk result (λ k. k.state ≡ boot_of world.now) }
        ensures events { IfOk result (λ k. k.events ≡ 0) }
        ensures visits { IfOk result (λ k. k.visits ≤ 1) }
        ensures within_events { IfOk result IsWithinEvents }
        ensures regular { IfOk result (λ k. IsRegular k.state) }
        ensures settled { IfOk result (λ k. IsSettled k.state) }
        ensures orderly { IfOk result (λ k. IsOrderly k.state) }
        ensures agrees { IfOk result (λ k. Agree [] 0 k.state) }
    {
        world.range_holds();
        Ok(KernelOn {
            machine: Machine::boot(alloc, world)?,
            events: 0,
        })
    }

    /// Returns the number of events that were applied, including those after a halt.
    pub fn events(&self) -> u64
        ensures { result ≡ self.now.events }
    {
        self.events
    }

    /// Returns the number of slots of the table of processes that have been read, up to the largest u128, or 0 if the
    /// table doesn't count them.
    pub fn visits(&self) -> u128
        ensures { result ≡ self.now.visits }
    {
        self.machine.visits()
    }

    /// Returns true if the machine has halted.
    pub fn is_halted(&self) -> bool
        ensures { result ≡ self.now.state.halted }
    {
        self.machine.is_halted()
    }

    /// Returns the current process: the first in the run queue, which takes the next step unless the machine has
    /// halted. Returns `None` if the run queue is empty.
    pub fn current(&self) -> Option<Pid>
        ensures { result ≡ current_of self.now.state }
    {
        self.machine.current()
    }

    /// Returns the process after `pid` in the run queue, or `None` if `pid` is the last one or not in the run queue.
    pub fn behind(&self, pid: Pid) -> Option<Pid>
        ensures { result ≡ next_behind pid self.now.state.order }
    {
        self.machine.behind(pid)
    }

    /// Returns true if a process has an alarm, which a tick may ring.
    pub fn has_alarms(&self) -> bool
        ensures { result ≡ has_alarms_in self.now.state }
    {
        self.machine.has_alarms()
    }

    /// Returns the number of ticks that have passed.
    pub fn ticks(&self) -> u64
        ensures { result ≡ self.now.state.ticks }
    {
        self.machine.ticks()
    }

    /// Returns the number of consoles.
    pub fn consoles(&self) -> u8
        ensures { result ≡ self.now.state.world.consoles }
    {
        self.machine.consoles()
    }

    /// Returns the console with this index, from 0 on, or `None` if there is none.
    pub fn console(&self, console_index: usize) -> Option<&Console>
        ensures { option_copied result ≡ slice_get self.now.state.consoles console_index }
    {
        self.machine.console(console_index)
    }

    /// Returns the process with the lowest ID above `pid`, or `None` if there is none. For [`Pid::NONE`], that is the
    /// first one.
    pub fn next_process(&mut self, pid: Pid) -> Option<Pid>
        ensures value { result ≡ next_above pid self.old.state.processes }
        ensures same { (self.new.state ≡ self.old.state) × (self.new.events ≡ self.old.events) }
        ensures no_fewer { self.old.visits ≤ self.new.visits }
    {
        self.machine.next_after(pid)
    }

    /// Returns the small fields of a process, or `None` if it doesn't exist.
    pub fn snapshot(&mut self, pid: Pid) -> Option<Snapshot>
        ensures value { result ≡ option_map snapshot_of (process self.old.state pid) }
        ensures same { (self.new.state ≡ self.old.state) × (self.new.events ≡ self.old.events) }
        ensures no_fewer { self.old.visits ≤ self.new.visits }
    {
        self.machine.snapshot(pid)
    }

    /// Returns a view of the registers and the signals of an existing process, and of what else it may change of
    /// itself. Changes nothing.
    pub fn look(&mut self, pid: Pid) -> &OwnPart
        requires { IsSome (process self.old.state pid) }
        ensures* lends { sem 𝓛 (follows_so (kernel_row K.row K.ProcessTable) (kernel_row K.row K.ProcessTable) self.entry.ghost_name none (λ _ _. ⊤) (λ n. n ≡ looked K.one_more self.old)) }
        ensures value { IfSome (process self.old.state pid) (λ me. result.now ≡ own_of me) }
    {
        self.machine.look(pid)
    }

    /// Applies one event, after fewer than 1,000,000,000,000 others: the machine takes the step that the definitions
    /// give. Returns the entries of the event. After a halt, the state stays, nothing is shown, and the event is
    /// counted.
    ///
    /// Only a fork takes memory, and a kill or sigqueue of a real-time signal. Their entries show if memory was
    /// refused, so there is no error.
    ///
    /// There is at most one birth more than events, and there are at most as many ticks as events. Both also hold at
    /// boot. Nothing is left to settle after an event, nor at boot, so no wake-up is lost (`laws::no_wake_is_lost`),
    /// and the law of failed calls (`laws::refusals_change_little`) holds of the next event.
    ///
    /// If lines agree with the state before, then they agree, with those of the event, with the state after it. So what
    /// is shown from boot on keeps the laws of a trace (`laws::traces_keep_laws`). Each line has its form. A new
    /// process gets an ID that was free.
    ///
    /// The number of slots that have been read never falls. In a step of a process it rises as far as the table counts
    /// (`K.one_more`); [`counted_step`] says how far that is over the table of a [`Kernel`].
    pub fn event(&mut self, event: Event) -> Entries
        requires { self.old.events < most_events }
        ensures step { IsStep self.old.state event result.items self.new.state }
        ensures events { self.new.events ≡ self.old.events + 1 }
        ensures halted { self.old.state.halted ≡ true → (result.items ≡ []) × (self.new.state ≡ self.old.state) }
        ensures within_events { IsWithinEvents self.new }
        ensures regular { IsRegular self.new.state }
        ensures settled { IsSettled self.new.state }
        ensures tells { LinesTell self.old.events self.new.events self.old.state self.new.state (numbered self.new.events result.items) }
        ensures no_number_is_given_out_twice { (e : Entry) (n : ℕ) → Contains result.items e → born_by e ≡ Some n → is_free self.old.state.processes n ≡ true }
        ensures visits { IfSome (slots_of_event event self.old.state) (λ n. self.new.visits ≤ self.old.visits + n) }
        ensures no_fewer { self.old.visits ≤ self.new.visits }
        ensures counts { event ≡ Event.Step → CountsOne K.one_more self.old.state self.old.visits self.new.visits }
    {
        let mut entries = ArrayVec::new();
        self.event_into(event, &mut entries);
        entries
    }

    /// Applies steps, at least one, up to the event with number `last`: one for each plain instruction and each note of
    /// the current process, until there are 32 notes. One more follows if a call or a machine fault is next, or if none
    /// was run. Adds the notes, and what the last event shows besides, to empty lists. Returns the process whose notes
    /// they are, if there are any.
    ///
    /// What [`KernelOn::event`] says of its lines and state holds of all these lines, and of the state after them.
    /// Reads two slots of the table, and those of the step that follows.
    #[inline]
    pub fn steps(&mut self, last: u64, notes: &mut Notes, entries: &mut Entries) -> Pid
        requires few { last ≤ most_events }
        requires some { self.old.events < last }
        requires no_notes { notes.old.items ≡ [] }
        requires none { entries.old.items ≡ [] }
        ensures events { self.new.events ≡ last_given self.old.events last self.old.state }
        ensures from { self.old.events < self.new.events }
        ensures within { self.new.events ≤ last }
        ensures runs { RunsFrom (self.old.events + 1) self.old.state (replicate (self.new.events - self.old.events) Event.Step) (noted_lines result notes.new.items ++ numbered self.new.events entries.new.items) self.new.state }
        ensures within_events { IsWithinEvents self.new }
        ensures regular { IsRegular self.new.state }
        ensures settled { IsSettled self.new.state }
        ensures tells { LinesTell self.old.events self.new.events self.old.state self.new.state (noted_lines result notes.new.items ++ numbered self.new.events entries.new.items) }
        ensures no_number_is_given_out_twice { (e : Entry) (n : ℕ) → Contains entries.new.items e → born_by e ≡ Some n → is_free self.old.state.processes n ≡ true }
        ensures visits { IfSome (slots_of_steps self.old.events last self.old.state) (λ n. self.new.visits ≤ self.old.visits + n) }
        ensures no_fewer { self.old.visits ≤ self.new.visits }
        ensures counts { CountsOne K.one_more self.old.state self.old.visits self.new.visits }
    {
        if self.machine.is_halted() {
            self.event_into(Event::Step, entries);
            return Pid::NONE;
        }
        let before = self.events;
        let end = burst(&mut self.machine, before, last, notes);
        self.events = end.last;
        if !is_followed_by_step(before, end.last, &end.trap) {
            return end.pid;
        }
        self.events += 1;
        step_behind(&mut self.machine, end, entries);
        end.pid
    }

    /// Returns true if an event changes and shows nothing: any event after a halt, and a step if the run queue is
    /// empty.
    #[inline]
    fn is_idle(&self, event: Event) -> bool
        ensures idle { IsTrue result → event_next true self.now.state event ≡ silent self.now.state }
        ensures acts { result ≡ false → (self.now.state.halted ≡ false) × (event ≡ Event.Step → IsSome (current_of self.now.state)) }
    {
        self.machine.is_halted()
            || (matches!(event, Event::Step) && self.machine.current().is_none())
    }

    /// Applies one event several times at once, up to the event with number `last`. One that changes and shows nothing
    /// is applied as often as is asked; otherwise a `Step` as often as by [`KernelOn::steps`], and any other event
    /// once. Adds the notes, and what the last event shows besides, to empty lists. Returns the process whose notes
    /// they are, if there are any.
    #[inline]
    pub(crate) fn repeat(
        &mut self,
        event: Event,
        last: u64,
        notes: &mut Notes,
        entries: &mut Entries,
    ) -> Pid
        requires few { last ≤ most_events }
        requires some { self.old.events < last }
        requires no_notes { notes.old.items ≡ [] }
        requires none { entries.old.items ≡ [] }
        ensures from { self.old.events < self.new.events }
        ensures within { self.new.events ≤ last }
        ensures within_events { IsWithinEvents self.new }
        ensures runs { RunsFrom (self.old.events + 1) self.old.state (replicate (self.new.events - self.old.events) event) (noted_lines result notes.new.items ++ numbered self.new.events entries.new.items) self.new.state }
    {
        if self.is_idle(event) {
            self.events = last;
            return Pid::NONE;
        }
        match event {
            Event::Step => self.steps(last, notes, entries),
            Event::Tick | Event::Key { .. } | Event::Hangup { .. } => {
                self.event_into(event, entries);
                Pid::NONE
            }
        }
    }

    /// Does nothing, but lets the caller know what holds of each kernel. Its state is regular, and nothing is left to
    /// settle. There is at most one birth more than events, and there are at most as many ticks as events.
    pub fn regular_holds(&self)
        ensures within_events { IsWithinEvents self.now }
        ensures regular { IsRegular self.now.state }
        ensures settled { IsSettled self.now.state }
    {
        let _ = &self.events;
    }

    /// Applies one event, as [`KernelOn::event`] does, and adds its entries to an empty list.
    #[inline]
    pub fn event_into(&mut self, event: Event, entries: &mut Entries)
        requires few { self.old.events < most_events }
        requires none { entries.old.items ≡ [] }
        ensures step { IsStep self.old.state event entries.new.items self.new.state }
        ensures events { self.new.events ≡ self.old.events + 1 }
        ensures halted { self.old.state.halted ≡ true → (entries.new.items ≡ []) × (self.new.state ≡ self.old.state) }
        ensures within_events { IsWithinEvents self.new }
        ensures regular { IsRegular self.new.state }
        ensures settled { IsSettled self.new.state }
        ensures tells { LinesTell self.old.events self.new.events self.old.state self.new.state (numbered self.new.events entries.new.items) }
        ensures no_number_is_given_out_twice { (e : Entry) (n : ℕ) → Contains entries.new.items e → born_by e ≡ Some n → is_free self.old.state.processes n ≡ true }
        ensures visits { IfSome (slots_of_event event self.old.state) (λ n. self.new.visits ≤ self.old.visits + n) }
        ensures no_fewer { self.old.visits ≤ self.new.visits }
        ensures counts { event ≡ Event.Step → CountsOne K.one_more self.old.state self.old.visits self.new.visits }
    {
        event.range_holds();
        self.events += 1;
        next(&mut self.machine, event, entries);
    }

    /// Counts the processes.
    pub fn census(&mut self) -> Census
        ensures value { result ≡ census_of self.old.state }
        ensures same { (self.new.state ≡ self.old.state) × (self.new.events ≡ self.old.events) }
        ensures no_fewer { self.old.visits ≤ self.new.visits }
    {
        self.machine.census()
    }

    /// Returns true only if the state of one of two kernels of the same world is the state of the other, moved in time.
    /// The numbers of events may differ. `false` promises nothing. No state changes.
    pub fn is_moved(&mut self, other: &mut KernelOn<K>) -> bool
        requires world { self.old.state.world ≡ other.old.state.world }
        ensures moved { result ≡ true → AreMoved self.old.state other.old.state }
        ensures mine { (self.new.state ≡ self.old.state) × (self.new.events ≡ self.old.events) }
        ensures others { (other.new.state ≡ other.old.state) × (other.new.events ≡ other.old.events) }
    {
        self.machine.is_moved(&mut other.machine)
    }
}

/// Applies one `Step`, as [`KernelOn::event`] does, over the table that counts each slot it reads. A step of a process
/// counts at least one, up to the largest u128.
pub fn counted_step(kernel: &mut Kernel) -> Entries
    requires { kernel.old.events < most_events }
    ensures step { IsStep kernel.old.state Event.Step result.items kernel.new.state }
    ensures no_fewer { kernel.old.visits ≤ kernel.new.visits }
    ensures counts { kernel.old.state.halted ≡ false → IfSome (current_process kernel.old.state) (λ me. min (kernel.old.visits + 1) (2 ^ 128 - 1) ≤ kernel.new.visits) }
{
    kernel.event(Event::Step)
}
