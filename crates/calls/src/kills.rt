//! Signals that processes send (XSH kill, XSH sigqueue).

ghost use Rattle.std.specs.Prelude.{◌≡◌, ◌+◌, ◌≤◌, Bool, length, IsSome, Some, true};
ghost use Rattle.posix.specs.Common.{message as message_of, signal_or_none as signal_number_or_none, send as sending, process, Process, argument, process_in, target_in};
ghost use Rattle.life.specs.Callers.{process_like};
ghost use Rattle.life.specs.Rechecks.{is_one};
ghost use Rattle.calls.specs.Outcomes.{Attempts, Comes, IsQuiet, CostsWithRechecks, entry_of_sending, slots_of_kill, value_of_sending};

use crate::attempts::{finish_shown, refuse};
use crate::entries::Entries;
use crate::outcome::Attempt;
use crate::replies::{refusal, signal_in};
use life::{Caller, Machine};
use posix::{Call, Carried, Entry, Errno, PendingSignal, Pid, Sending, Sig, Target};
use proctable::ProcessTable;

/// Returns the signal in the second argument, or `None` for signal 0. Fails with EINVAL if it is neither.
fn signal_or_none(me: &Caller) -> Result<Option<Sig>, Errno>
    ensures { result ≡ signal_number_or_none me.now.r2 }
{
    if me.r2 == 0 {
        return Ok(None);
    }
    let sig = signal_in(me.r2).ok_or(Errno::EINVAL)?;
    Ok(Some(sig))
}

/// Returns the signal as a process sends it, with a value and the sender's process ID.
fn message(sender: Pid, value: i64, sig: Option<Sig>) -> Option<PendingSignal>
    ensures { result ≡ message_of sender value sig }
{
    let sig = sig?;
    Some(PendingSignal {
        sig,
        carried: Carried { value, sender },
    })
}

/// Returns the result of a call by the outcome of its send.
fn value_of(sending: Sending) -> i64
    ensures { result ≡ value_of_sending sending }
{
    match sending {
        Sending::NobodyFound => refusal(Errno::ESRCH),
        Sending::NobodyPermitted => refusal(Errno::EPERM),
        Sending::QueueFull | Sending::NoMemory => refusal(Errno::EAGAIN),
        Sending::Permitted => 0,
    }
}

/// Returns the entry of a call by the outcome of its send.
fn entry_of(pid: Pid, call: Call, sending: Sending) -> Entry
    ensures { result ≡ entry_of_sending pid call sending }
{
    match sending {
        Sending::NoMemory => Entry::NoMemory { pid, call },
        _ => Entry::Called {
            pid,
            call,
            result: value_of(sending),
        },
    }
}

/// Sends the signal in the second argument to a target, with a value, for this call of an existing caller.
#[inline(always)]
fn send<K: ProcessTable>(
    machine: &mut Machine<K>,
    me: &Caller,
    call: Call,
    target: Target,
    value: i64,
    entries: &mut Entries,
) -> Attempt
    requires there { IsSome (process machine.old.state me.now.pid) }
    requires room { length entries.old.items ≤ 1 }
    ensures done { result ≡ Attempt.Done }
    ensures comes { (granted : Bool) × Comes machine.old.state (sending granted machine.old.state (process_like me.now) call target value (signal_number_or_none me.now.r2)) result entries.old.items entries.new.items machine.new.state }
    ensures brief { is_one target ≡ true → IsQuiet me.now.pid machine.old → CostsWithRechecks (slots_of_kill (signal_number_or_none me.now.r2)) machine.old machine.new }
    ensures no_fewer { machine.old.visits ≤ machine.new.visits }
{
    let sig = match signal_or_none(me) {
        Ok(sig) => sig,
        Err(errno) => return refuse(machine, me.pid, call, errno, entries),
    };
    let sending = machine.send(me, target, message(me.pid, value, sig));
    let entry = entry_of(me.pid, call, sending);
    finish_shown(machine, me.pid, value_of(sending), entry, entries)
}

/// Sends the signal in r2, with value 0, to the processes that r1 selects; signal 0 only checks. Fails with EINVAL if
/// r2 is neither 0 nor a signal; with ESRCH if r1 selects no process; with EPERM if the caller may signal none of those
/// selected; with EAGAIN if the queue of real-time signals is full at one of them, or the host has no memory for the
/// queues (XSH kill).
pub fn kill<K: ProcessTable>(machine: &mut Machine<K>, pid: Pid, entries: &mut Entries) -> Attempt
    requires there { IsSome (process machine.old.state pid) }
    requires room { length entries.old.items ≤ 1 }
    ensures done { result ≡ Attempt.Done }
    ensures attempts { Attempts machine.old.state pid Call.Kill result entries.old.items entries.new.items machine.new.state }
    ensures brief { (me : Process) → process machine.old.state pid ≡ Some me → is_one (target_in (argument me 1)) ≡ true → IsQuiet pid machine.old → CostsWithRechecks (slots_of_kill (signal_number_or_none (argument me 2)) + 1) machine.old machine.new }
    ensures no_fewer { machine.old.visits ≤ machine.new.visits }
{
    let me = machine.caller(pid);
    send(machine, &me, Call::Kill, me.target(), 0, entries)
}

/// Sends the signal in r2, with the value in r3, to the process whose ID is in r1; signal 0 only checks. Fails as
/// [`kill`] does (XSH sigqueue).
pub fn sigqueue<K: ProcessTable>(
    machine: &mut Machine<K>,
    pid: Pid,
    entries: &mut Entries,
) -> Attempt
    requires there { IsSome (process machine.old.state pid) }
    requires room { length entries.old.items ≤ 1 }
    ensures done { result ≡ Attempt.Done }
    ensures attempts { Attempts machine.old.state pid Call.Sigqueue result entries.old.items entries.new.items machine.new.state }
    ensures brief { (me : Process) → process machine.old.state pid ≡ Some me → is_one (process_in (argument me 1)) ≡ true → IsQuiet pid machine.old → CostsWithRechecks (slots_of_kill (signal_number_or_none (argument me 2)) + 1) machine.old machine.new }
    ensures no_fewer { machine.old.visits ≤ machine.new.visits }
{
    let me = machine.caller(pid);
    let target = Target::process_from_word(me.r1);
    send(machine, &me, Call::Sigqueue, target, me.r3, entries)
}
