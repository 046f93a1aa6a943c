//! Attempts of system calls: a call completes and adds what it shows, restarts, or blocks its caller.

ghost use Rattle.std.specs.Prelude.{◌≡◌, ◌⊎◌, ◌≢◌, ◌+◌, ◌<◌, ◌≤◌, ◌^◌, ◌++◌, ◌∷◌, [], length, IsSome, IfSome, Some, is_some, true};
ghost use Rattle.posix.specs.declared.entry.Entry.TheVariants.{Called, NoMemory};
ghost use Rattle.posix.specs.Common.{Process, wait_in, process, has_place, IsPlaced, finish, refusal as refusal_of, most_ticks, ticks_in as ticks_in_word, attempt_again as attempting_again};
ghost use Rattle.life.specs.Rechecks.{is_in_wait};
ghost use Rattle.posix.specs.declared.process.Blocked.{Blocked as BlockedValue};
ghost use Rattle.life.specs.Machines.{AreSame};
ghost use Rattle.calls.specs.Outcomes.{Comes, Attempts, IsActing, IsQuiet, CostsWithRechecks, CostsAtMost, changes_caller_alone, slots_of_brief};

use crate::delivery::{end, return_from_handler};
use crate::entries::Entries;
use crate::groups::{getpgid, getsid, setpgid, setsid};
use crate::kills::{kill, sigqueue};
use crate::outcome::Attempt;
use crate::programs::exec;
use crate::replies::{asks_for_mark, own_call, refusal};
use crate::terminals::{setctty, settostop, tcgetpgrp, tcsetpgrp};
use crate::transfers::{read, write};
use crate::waits::wait;
use life::Machine;
use posix::{Blocked, Call, Entry, Errno, Pid, Register, Status, WaitCall};
use proctable::ProcessTable;

/// Completes the call of an existing process with a result, and adds this entry for it.
pub(crate) fn finish_shown<K: ProcessTable>(
    machine: &mut Machine<K>,
    pid: Pid,
    value: i64,
    entry: Entry,
    entries: &mut Entries,
) -> Attempt
    requires there { IsSome (process machine.old.state pid) }
    requires room { length entries.old.items ≤ 3 }
    ensures done { result ≡ Attempt.Done }
    ensures state { machine.new.state ≡ finish machine.old.state pid ((0, value) ∷ []) }
    ensures shown { entries.new.items ≡ entries.old.items ++ entry ∷ [] }
    ensures costs { has_place machine.old.state pid ≡ true → CostsAtMost 1 machine.old machine.new }
    ensures no_fewer { machine.old.visits ≤ machine.new.visits }
{
    machine.own(pid).finish(value);
    entries.push(entry);
    Attempt::Done
}

/// Completes the call of an existing process with a result.
pub fn finish_with<K: ProcessTable>(
    machine: &mut Machine<K>,
    pid: Pid,
    call: Call,
    value: i64,
    entries: &mut Entries,
) -> Attempt
    requires there { IsSome (process machine.old.state pid) }
    requires room { length entries.old.items ≤ 3 }
    ensures done { result ≡ Attempt.Done }
    ensures state { machine.new.state ≡ finish machine.old.state pid ((0, value) ∷ []) }
    ensures shown { entries.new.items ≡ entries.old.items ++ Called pid call value ∷ [] }
    ensures costs { has_place machine.old.state pid ≡ true → CostsAtMost 1 machine.old machine.new }
    ensures no_fewer { machine.old.visits ≤ machine.new.visits }
{
    let entry = Entry::Called {
        pid,
        call,
        result: value,
    };
    finish_shown(machine, pid, value, entry, entries)
}

/// Fails the call of an existing process with an error.
pub fn refuse<K: ProcessTable>(
    machine: &mut Machine<K>,
    pid: Pid,
    call: Call,
    errno: Errno,
    entries: &mut Entries,
) -> Attempt
    requires there { IsSome (process machine.old.state pid) }
    requires room { length entries.old.items ≤ 3 }
    ensures done { result ≡ Attempt.Done }
    ensures state { machine.new.state ≡ finish machine.old.state pid ((0, refusal_of errno) ∷ []) }
    ensures shown { entries.new.items ≡ entries.old.items ++ Called pid call (refusal_of errno) ∷ [] }
    ensures costs { has_place machine.old.state pid ≡ true → CostsAtMost 1 machine.old machine.new }
    ensures no_fewer { machine.old.visits ≤ machine.new.visits }
{
    finish_with(machine, pid, call, refusal(errno), entries)
}

/// Fails the call of an existing process with EAGAIN, because the host has no memory for it.
pub fn refuse_memory<K: ProcessTable>(
    machine: &mut Machine<K>,
    pid: Pid,
    call: Call,
    entries: &mut Entries,
) -> Attempt
    requires there { IsSome (process machine.old.state pid) }
    requires room { length entries.old.items ≤ 3 }
    ensures done { result ≡ Attempt.Done }
    ensures state { machine.new.state ≡ finish machine.old.state pid ((0, refusal_of Errno.EAGAIN) ∷ []) }
    ensures shown { entries.new.items ≡ entries.old.items ++ NoMemory pid call ∷ [] }
    ensures costs { has_place machine.old.state pid ≡ true → CostsAtMost 1 machine.old machine.new }
    ensures no_fewer { machine.old.visits ≤ machine.new.visits }
{
    let entry = Entry::NoMemory { pid, call };
    finish_shown(machine, pid, refusal(Errno::EAGAIN), entry, entries)
}

/// Returns the process ID of the caller's parent (XSH getppid).
fn getppid<K: ProcessTable>(machine: &mut Machine<K>, pid: Pid, entries: &mut Entries) -> Attempt
    requires there { IsSome (process machine.old.state pid) }
    requires room { length entries.old.items ≤ 1 }
    ensures attempts { Attempts machine.old.state pid Call.Getppid result entries.old.items entries.new.items machine.new.state }
    ensures no_fewer { machine.old.visits ≤ machine.new.visits }
{
    let parent = machine.parent(pid);
    finish_with(
        machine,
        pid,
        Call::Getppid,
        i64::from(parent.number()),
        entries,
    )
}

/// Moves the caller to the end of the run queue (XSH sched_yield).
fn sched_yield<K: ProcessTable>(
    machine: &mut Machine<K>,
    pid: Pid,
    entries: &mut Entries,
) -> Attempt
    requires acting { IsActing machine.old.state pid }
    requires room { length entries.old.items ≤ 1 }
    ensures attempts { Attempts machine.old.state pid Call.SchedYield result entries.old.items entries.new.items machine.new.state }
    ensures no_fewer { machine.old.visits ≤ machine.new.visits }
{
    machine.go_last(pid);
    finish_with(machine, pid, Call::SchedYield, 0, entries)
}

/// Creates a child as a copy of the caller. Fails with EAGAIN if no process ID is free, or if the host has no memory
/// for the child (XSH fork).
fn fork<K: ProcessTable>(machine: &mut Machine<K>, pid: Pid, entries: &mut Entries) -> Attempt
    requires acting { IsActing machine.old.state pid }
    requires births { machine.old.state.births + 1 < 2 ^ 64 }
    requires room { length entries.old.items ≤ 1 }
    ensures attempts { Attempts machine.old.state pid Call.Fork result entries.old.items entries.new.items machine.new.state }
    ensures no_fewer { machine.old.visits ≤ machine.new.visits }
{
    let Some(child) = machine.next_pid() else {
        return refuse(machine, pid, Call::Fork, Errno::EAGAIN, entries);
    };
    match machine.fork(pid, child) {
        Ok(()) => finish_with(machine, pid, Call::Fork, i64::from(child.number()), entries),
        Err(_) => refuse_memory(machine, pid, Call::Fork, entries),
    }
}

/// Terminates the process with the exit code in r1 (XSH _exit).
#[tactic(auto, unfolding(posix::specs::Attempts::attempt))]
fn exit<K: ProcessTable>(machine: &mut Machine<K>, pid: Pid, entries: &mut Entries) -> Attempt
    requires there { IsSome (process machine.old.state pid) }
    requires room { length entries.old.items ≤ 1 }
    ensures attempts { Attempts machine.old.state pid Call.Exit result entries.old.items entries.new.items machine.new.state }
    ensures no_fewer { machine.old.visits ≤ machine.new.visits }
{
    let code = machine.look(pid).cpu.register(Register::FIRST_ARGUMENT);
    end(machine, pid, Status::exited(code), entries);
    Attempt::Done
}

/// Makes the caller a child subreaper if r1 isn't 0; otherwise it is no longer one (prctl(2)).
#[tactic(auto, unfolding(posix::specs::Attempts::attempt, posix::specs::Subreapers::subreaper))]
fn subreaper<K: ProcessTable>(machine: &mut Machine<K>, pid: Pid, entries: &mut Entries) -> Attempt
    requires there { IsSome (process machine.old.state pid) }
    requires room { length entries.old.items ≤ 1 }
    ensures attempts { Attempts machine.old.state pid Call.Subreaper result entries.old.items entries.new.items machine.new.state }
    ensures no_fewer { machine.old.visits ≤ machine.new.visits }
{
    let mark = asks_for_mark(machine.look(pid));
    machine.mark(pid, mark);
    entries.push(Entry::Marked { pid, mark });
    Attempt::Done
}

/// Returns from the newest handler (sigreturn(2)).
#[tactic(auto, unfolding(posix::specs::Attempts::attempt))]
fn sigreturn<K: ProcessTable>(machine: &mut Machine<K>, pid: Pid, entries: &mut Entries) -> Attempt
    requires there { IsSome (process machine.old.state pid) }
    requires none { entries.old.items ≡ [] }
    ensures attempts { Attempts machine.old.state pid Call.Sigreturn result entries.old.items entries.new.items machine.new.state }
    ensures no_fewer { machine.old.visits ≤ machine.new.visits }
{
    return_from_handler(machine, pid, entries);
    Attempt::Done
}

/// Returns the ticks in a register, or `None` unless they are 0 to 1,000,000,000.
fn ticks_in(word: i64) -> Option<u64>
    ensures { result ≡ ticks_in_word word }
{
    match word {
        0..=1_000_000_000 => Some(word as u64),
        _ => None,
    }
}

/// Sets the caller's alarm to r1 ticks from now, or cancels it if r1 is 0. Returns the ticks that were left of the
/// previous alarm. Fails with EINVAL if r1 is not 0 to 1,000,000,000 (XSH alarm; the range is own).
#[tactic(auto, unfolding(posix::specs::Attempts::attempt))]
fn alarm<K: ProcessTable>(machine: &mut Machine<K>, pid: Pid, entries: &mut Entries) -> Attempt
    requires acting { IsActing machine.old.state pid }
    requires time { machine.old.state.ticks + most_ticks < 2 ^ 64 }
    requires room { length entries.old.items ≤ 1 }
    ensures attempts { Attempts machine.old.state pid Call.Alarm result entries.old.items entries.new.items machine.new.state }
    ensures no_fewer { machine.old.visits ≤ machine.new.visits }
{
    let word = machine.look(pid).cpu.register(Register::FIRST_ARGUMENT);
    let Some(ticks) = ticks_in(word) else {
        return refuse(machine, pid, Call::Alarm, Errno::EINVAL, entries);
    };
    let left = machine.set_alarm(pid, ticks);
    finish_with(machine, pid, Call::Alarm, left as i64, entries)
}

/// Attempts a call of a process in the run queue. If the process has to wait, returns the call that it is to be blocked
/// in, and changes nothing.
///
/// If nothing was left to settle, a wait reads at most 6 slots, settling included. A signal sent to one process by its
/// ID reads at most 5, a real-time signal 7, and SIGCONT 13.
#[tactic(auto, unfolding(posix::specs::Attempts::attempt))]
#[inline(always)]
pub fn attempt<K: ProcessTable>(
    machine: &mut Machine<K>,
    pid: Pid,
    call: Call,
    entries: &mut Entries,
) -> Attempt
    requires acting { IsActing machine.old.state pid }
    requires births { machine.old.state.births + 1 < 2 ^ 64 }
    requires time { machine.old.state.ticks + most_ticks < 2 ^ 64 }
    requires none { entries.old.items ≡ [] }
    ensures attempts { Attempts machine.old.state pid call result entries.old.items entries.new.items machine.new.state }
    ensures own { changes_caller_alone call ≡ true → (result ≡ Attempt.Done) × CostsAtMost 1 machine.old machine.new }
    ensures brief { (me : Process) → process machine.old.state pid ≡ Some me → IsQuiet pid machine.old → IfSome (slots_of_brief call me) (λ n. CostsWithRechecks n machine.old machine.new) }
    ensures done { call ≡ Call.Kill ⊎ call ≡ Call.Sigqueue → result ≡ Attempt.Done }
    ensures waits { (b : BlockedValue) → is_some (wait_in call) ≡ true → result ≡ Attempt.Block b → AreSame machine.old machine.new }
    ensures no_fewer { machine.old.visits ≤ machine.new.visits }
{
    match call {
        Call::Exit => exit(machine, pid, entries),
        Call::Fork => fork(machine, pid, entries),
        Call::Waitpid => wait(machine, WaitCall::Waitpid, pid, entries),
        Call::Waitid => wait(machine, WaitCall::Waitid, pid, entries),
        Call::Pause => Attempt::Block(Blocked::Pause),
        Call::SchedYield => sched_yield(machine, pid, entries),
        Call::Getppid => getppid(machine, pid, entries),
        Call::Kill => kill(machine, pid, entries),
        Call::Sigqueue => sigqueue(machine, pid, entries),
        Call::Sigsuspend => {
            Attempt::Block(Blocked::Sigsuspend(machine.look(pid).signals.mask()))
        },
        Call::Sigreturn => sigreturn(machine, pid, entries),
        Call::Alarm => alarm(machine, pid, entries),
        Call::Exec => exec(machine, pid, entries),
        Call::Getpgid => getpgid(machine, pid, entries),
        Call::Getsid => getsid(machine, pid, entries),
        Call::Setpgid => setpgid(machine, pid, entries),
        Call::Setsid => setsid(machine, pid, entries),
        Call::Setctty => setctty(machine, pid, entries),
        Call::Tcgetpgrp => tcgetpgrp(machine, pid, entries),
        Call::Tcsetpgrp => tcsetpgrp(machine, pid, entries),
        Call::Settostop => settostop(machine, pid, entries),
        Call::Read => read(machine, pid, entries),
        Call::Write => write(machine, pid, entries),
        Call::Subreaper => subreaper(machine, pid, entries),
        _ => own_call(machine.own(pid), pid, call, entries),
    }
}

/// Attempts again the call that a live process is blocked in.
#[tactic(auto, unfolding(posix::specs::Attempts::attempt_again))]
pub fn attempt_again<K: ProcessTable>(
    machine: &mut Machine<K>,
    pid: Pid,
    blocked: Blocked,
    entries: &mut Entries,
) -> Attempt
    requires placed { IsPlaced machine.old.state.processes pid }
    requires none { entries.old.items ≡ [] }
    ensures comes { (me : Process) → process machine.old.state pid ≡ Some me → Comes machine.old.state (attempting_again machine.old.state me blocked) result entries.old.items entries.new.items machine.new.state }
    ensures brief { is_in_wait (Some blocked) ≡ true → IsQuiet pid machine.old → CostsWithRechecks 6 machine.old machine.new }
    ensures once { is_in_wait (Some blocked) ≡ true → result ≢ Attempt.Again }
    ensures waits { (b : BlockedValue) → is_in_wait (Some blocked) ≡ true → result ≡ Attempt.Block b → AreSame machine.old machine.new }
    ensures no_fewer { machine.old.visits ≤ machine.new.visits }
{
    match blocked {
        Blocked::Wait(call) => wait(machine, call, pid, entries),
        Blocked::Read => read(machine, pid, entries),
        Blocked::Pause => Attempt::Block(Blocked::Pause),
        Blocked::Sigsuspend(mask) => Attempt::Block(Blocked::Sigsuspend(mask)),
    }
}
