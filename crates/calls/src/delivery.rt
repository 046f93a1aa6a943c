//! Delivery of signals, machine faults, and returns from handlers.

ghost use Rattle.std.specs.Prelude.{◌≡◌, ◌==◌, ◌&&◌, not, ◌+◌, ◌≤◌, ◌++◌, ◌∷◌, [], IsSome, Some, false, true, length, if◌then◌else◌};
ghost use Rattle.posix.specs.declared.entry.Entry.TheVariants.{Ended, Halted};
ghost use Rattle.posix.specs.Common.{Process, process, has_place, is_full, IsPlaced, is_orphaned, end_process, interruption as interruption_of, handle as handling, discard as discarding, stop_or_discard, act_by_default as acting_by_default, deliver as delivering, fault as faulting, return_from_handler as returning, STOP, default_action};
ghost use Rattle.calls.specs.Outcomes.{CostsAtMost, enters_handler};
ghost use Rattle.life.specs.Ends.{slots_of_end};

use crate::entries::Entries;
use crate::replies::refusal;
use life::Machine;
use posix::{
    Action, Blocked, Carried, DefaultAction, Entry, Errno, Handler, PendingSignal, Pid, Sig, Status,
};
use proctable::ProcessTable;
use signal::is_interrupted;

/// Adds what a termination shows: that the process has terminated and, for process 1, that the machine halts.
fn show_end(pid: Pid, status: Status, entries: &mut Entries)
    requires room { length entries.old.items ≤ 2 }
    ensures { entries.new.items ≡ entries.old.items ++ (if pid == 1 then Ended pid status ∷ Halted ∷ [] else Ended pid status ∷ []) }
{
    entries.push(Entry::Ended { pid, status });
    if pid == Pid::INIT {
        entries.push(Entry::Halted);
    }
}

/// Terminates an existing process, and adds what this shows. First hangs up the terminal of the session that the
/// process leads (XSH _exit).
#[tactic(auto, unfolding(posix::specs::Ends::end_process))]
pub fn end<K: ProcessTable>(
    machine: &mut Machine<K>,
    pid: Pid,
    status: Status,
    entries: &mut Entries,
)
    requires there { IsSome (process machine.old.state pid) }
    requires room { length entries.old.items ≤ 2 }
    ensures state { (me : Process) → process machine.old.state pid ≡ Some me → machine.new.state ≡ (end_process machine.old.state me status).state }
    ensures entries { (me : Process) → process machine.old.state pid ≡ Some me → entries.new.items ≡ entries.old.items ++ (end_process machine.old.state me status).entries }
    ensures visits { (me : Process) → process machine.old.state pid ≡ Some me → machine.new.visits ≤ machine.old.visits + slots_of_end machine.old me status }
    ensures no_fewer { machine.old.visits ≤ machine.new.visits }
{
    machine.hang_up(pid);
    let heir = machine.heir(pid);
    machine.end(pid, heir, status);
    show_end(pid, status, entries);
}

/// Adds an EINTR entry if a process is blocked in a call, and entering a handler with this action interrupts the call.
fn show_interruption(pid: Pid, blocked: &Option<Blocked>, action: &Action, entries: &mut Entries)
    requires { entries.old.items ≡ [] }
    ensures items { entries.new.items ≡ interruption_of pid blocked.now action.now }
    ensures len { length entries.new.items ≤ 1 }
{
    let interrupted = is_interrupted(*blocked, action);
    if let Some(blocked) = *blocked
        && interrupted
    {
        entries.push(Entry::Called {
            pid,
            call: blocked.call(),
            result: refusal(Errno::EINTR),
        });
    }
}

/// Enters the handler of a signal of an existing process, at an address. If there is no room for another frame, SIGSEGV
/// terminates the process (own).
#[tactic(auto, unfolding(posix::specs::Delivery::handle))]
fn handle<K: ProcessTable>(
    machine: &mut Machine<K>,
    pid: Pid,
    signal: PendingSignal,
    address: i64,
    entries: &mut Entries,
)
    requires there { IsSome (process machine.old.state pid) }
    requires none { entries.old.items ≡ [] }
    ensures does { (me : Process) → process machine.old.state pid ≡ Some me → handling machine.old.state me signal address ≡ record { state = machine.new.state; entries = entries.new.items } }
    ensures costs { has_place machine.old.state pid ≡ true → (me : Process) → process machine.old.state pid ≡ Some me → is_full me.signals ≡ false → CostsAtMost 1 machine.old machine.new }
    ensures no_fewer { machine.old.visits ≤ machine.new.visits }
{
    let PendingSignal { sig, carried } = signal;
    let own = machine.own(pid);
    let action = own.signals.action(sig);
    show_interruption(pid, &own.blocked, &action, entries);
    match own.handle(signal, address) {
        Ok(()) => entries.push(Entry::Handled {
            pid,
            sig,
            value: carried.value,
            sender: carried.sender,
        }),
        Err(_) => end(machine, pid, Status::killed(Sig::SEGV), entries),
    }
}

/// Returns true if a stop signal of an existing process is discarded: it isn't SIGSTOP, and the process group is
/// orphaned (XSH 2.4.3).
fn is_stop_discarded<K: ProcessTable>(machine: &mut Machine<K>, pid: Pid, sig: Sig) -> bool
    ensures value { (me : Process) → process machine.old.state pid ≡ Some me → result ≡ (not (sig == STOP) && is_orphaned me.group machine.old.state.processes) }
    ensures same { machine.new.state ≡ machine.old.state }
    ensures no_fewer { machine.old.visits ≤ machine.new.visits }
{
    if sig == Sig::STOP {
        return false;
    }
    match machine.snapshot(pid) {
        Some(snapshot) => machine.is_orphaned(snapshot.group),
        None => false,
    }
}

/// Delivers to a live process a signal whose default action is to stop. If its process group is orphaned, only SIGSTOP
/// stops it (XSH 2.4.3).
fn stop<K: ProcessTable>(machine: &mut Machine<K>, pid: Pid, sig: Sig, entries: &mut Entries)
    requires placed { IsPlaced machine.old.state.processes pid }
    requires none { entries.old.items ≡ [] }
    ensures state { (me : Process) → process machine.old.state pid ≡ Some me → stop_or_discard machine.old.state me sig ≡ record { state = machine.new.state; entries = entries.new.items } }
    ensures no_fewer { machine.old.visits ≤ machine.new.visits }
{
    if is_stop_discarded(machine, pid, sig) {
        entries.push(Entry::Discarded { pid, sig });
    } else {
        machine.stop_process(pid, sig);
        entries.push(Entry::Stopped { pid, sig });
    }
}

/// Takes the default action for a signal of a live process. For process 1, the signal is discarded (kill(2)).
fn act_by_default<K: ProcessTable>(
    machine: &mut Machine<K>,
    pid: Pid,
    sig: Sig,
    entries: &mut Entries,
)
    requires placed { IsPlaced machine.old.state.processes pid }
    requires none { entries.old.items ≡ [] }
    ensures state { (me : Process) → process machine.old.state pid ≡ Some me → (if me.pid == 1 then discarding machine.old.state me.pid sig else acting_by_default machine.old.state me sig (default_action sig)) ≡ record { state = machine.new.state; entries = entries.new.items } }
    ensures no_fewer { machine.old.visits ≤ machine.new.visits }
{
    if pid == Pid::INIT {
        entries.push(Entry::Discarded { pid, sig });
        return;
    }
    match sig.default_action() {
        DefaultAction::Terminate => end(machine, pid, Status::killed(sig), entries),
        DefaultAction::Stop => stop(machine, pid, sig, entries),
        DefaultAction::Ignore | DefaultAction::Continue => {
            entries.push(Entry::Discarded { pid, sig });
        }
    }
}

/// Delivers a pending signal of a live process: it is no longer pending, and its action is taken (XSH 2.4.1, 2.4.3).
///
/// Requires a live process, because a stop would let a zombie live again. Callers know that it is live, because no
/// process in the run queue is a zombie.
#[tactic(auto, unfolding(posix::specs::Delivery::deliver))]
pub fn deliver<K: ProcessTable>(machine: &mut Machine<K>, pid: Pid, sig: Sig, entries: &mut Entries)
    requires placed { IsPlaced machine.old.state.processes pid }
    requires none { entries.old.items ≡ [] }
    ensures state { (me : Process) → process machine.old.state pid ≡ Some me → delivering machine.old.state me sig ≡ record { state = machine.new.state; entries = entries.new.items } }
    ensures no_fewer { machine.old.visits ≤ machine.new.visits }
{
    let own = machine.own(pid);
    let action = own.signals.action(sig);
    let carried = own.signals.take(sig);
    match action.handler {
        Handler::At(address) => {
            handle(
                machine,
                pid,
                PendingSignal { sig, carried },
                address,
                entries,
            );
        }
        Handler::Ignore => entries.push(Entry::Discarded { pid, sig }),
        Handler::Default => act_by_default(machine, pid, sig, entries),
    }
}

/// Handles a machine fault of an existing process. Enters the handler if there is one and the signal isn't blocked.
/// Otherwise the signal terminates the process, even process 1 (own). Reads at most two slots if a handler is entered.
#[tactic(auto, unfolding(posix::specs::Delivery::fault))]
#[inline(never)]
pub fn fault<K: ProcessTable>(machine: &mut Machine<K>, pid: Pid, sig: Sig, entries: &mut Entries)
    requires there { IsSome (process machine.old.state pid) }
    requires none { entries.old.items ≡ [] }
    ensures does { (me : Process) → process machine.old.state pid ≡ Some me → faulting machine.old.state me sig ≡ record { state = machine.new.state; entries = entries.new.items } }
    ensures costs { has_place machine.old.state pid ≡ true → (me : Process) → process machine.old.state pid ≡ Some me → enters_handler me sig ≡ true → CostsAtMost 2 machine.old machine.new }
    ensures no_fewer { machine.old.visits ≤ machine.new.visits }
{
    let own = machine.look(pid);
    let action = own.signals.action(sig);
    let mask = own.signals.mask();
    match action.handler {
        Handler::At(address) if !mask.contains(sig) => {
            let carried = Carried::FROM_KERNEL;
            handle(
                machine,
                pid,
                PendingSignal { sig, carried },
                address,
                entries,
            );
        }
        _ => end(machine, pid, Status::killed(sig), entries),
    }
}

/// Returns from the newest handler of an existing process. Without one, this is a fault with SIGSEGV (sigreturn(2)).
#[tactic(auto, unfolding(posix::specs::Delivery::return_from_handler))]
pub fn return_from_handler<K: ProcessTable>(
    machine: &mut Machine<K>,
    pid: Pid,
    entries: &mut Entries,
)
    requires there { IsSome (process machine.old.state pid) }
    requires none { entries.old.items ≡ [] }
    ensures state { (me : Process) → process machine.old.state pid ≡ Some me → returning machine.old.state me ≡ record { state = machine.new.state; entries = entries.new.items } }
    ensures no_fewer { machine.old.visits ≤ machine.new.visits }
{
    match machine.own(pid).return_from_handler() {
        Ok(()) => entries.push(Entry::Returned { pid }),
        Err(_) => fault(machine, pid, Sig::SEGV, entries),
    }
}
