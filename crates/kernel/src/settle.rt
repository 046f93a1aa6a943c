//! Settling, after each event: foreground process groups without members are cleared, and each runnable process enters
//! the run queue.

ghost use Rattle.std.specs.Prelude.{◌≡◌, ◌+◌, ◌≤◌, ◌||◌, [], IsSome, None, Some, is_some, option_map, slice_get, false, true};
ghost use Rattle.posix.specs.Common.{Process, process, chosen, IsRegular, can_act as acting, can_go_on, give_places as giving_places, settle as settling, woken};
ghost use Rattle.proctable.specs.Records.{snapshot_of};
ghost use Rattle.life.specs.Machines.{AreSame};
ghost use Rattle.life.specs.Consoles.{reads};
ghost use Rattle.calls.specs.Counts.{neighbour as neighbour_in, slots_of_judging, slots_of_rechecks};
ghost use Rattle.kernel.specs.Counts.{slots_of_settling};

use calls::{has_to_read, has_to_wait};
use life::{Machine, Unchecked, reads_in};
use posix::{Blocked, Life, Pid};
use proctable::{ProcessTable, Snapshot};

/// Returns the process that is tried first to find whether the first one on the recheck list has to wait: the one that
/// was rechecked before it, otherwise the next one on the list. A parent and the child that makes it runnable are
/// usually neighbours there.
#[inline(always)]
fn neighbour<K: ProcessTable>(machine: &Machine<K>, pid: Pid, last: Option<Pid>) -> Option<Pid>
    requires { slice_get machine.now.to_recheck 0 ≡ Some pid }
    ensures { result ≡ neighbour_in last machine.now.to_recheck }
{
    match last {
        Some(_) => last,
        None => machine.second_to_recheck(pid),
    }
}

/// Returns true if an existing process, with this snapshot, need not wait: it is in no call, its call can complete, or
/// a signal is chosen for it.
///
/// Tries the neighbour first, because a parent and the child that makes it runnable are usually on the list together.
/// No law depends on this hint, and a wrong one costs one slot. To record which child changed would take one more
/// index.
#[tactic(auto, using(posix::proofs::SeeLemmas::block_read), unfolding(posix::specs::Attempts::attempt_again))]
#[inline(always)]
fn is_awake<K: ProcessTable>(
    machine: &mut Machine<K>,
    pid: Pid,
    snapshot: Snapshot,
    last: Option<Pid>,
) -> bool
    requires there { IsSome (process machine.old.state pid) }
    requires first { slice_get machine.old.to_recheck 0 ≡ Some pid }
    requires snapshot { Some snapshot ≡ option_map snapshot_of (process machine.old.state pid) }
    ensures value { (me : Process) → process machine.old.state pid ≡ Some me → result ≡ (can_go_on machine.old.state me me.blocked || is_some (chosen me.life me.signals)) }
    ensures same { AreSame machine.old machine.new }
    ensures visits { (me : Process) → process machine.old.state pid ≡ Some me → machine.new.visits ≤ machine.old.visits + slots_of_judging machine.old.state.processes (neighbour_in last machine.old.to_recheck) me }
    ensures no_fewer { machine.old.visits ≤ machine.new.visits }
{
    if snapshot.chosen.is_some() {
        return true;
    }
    match snapshot.blocked {
        None => true,
        Some(Blocked::Wait(call)) => {
            let first = neighbour(machine, pid, last);
            !has_to_wait(machine, call, pid, first)
        }
        Some(Blocked::Read) => !has_to_read(machine, pid, snapshot),
        Some(Blocked::Pause | Blocked::Sigsuspend(_)) => false,
    }
}

/// Returns true if an existing process, with this snapshot, is runnable: SIGKILL is pending for it, or it is running
/// and need not wait.
#[tactic(auto, unfolding(posix::specs::Settle::can_act))]
#[inline(always)]
fn can_act<K: ProcessTable>(
    machine: &mut Machine<K>,
    pid: Pid,
    snapshot: Snapshot,
    last: Option<Pid>,
) -> bool
    requires there { IsSome (process machine.old.state pid) }
    requires first { slice_get machine.old.to_recheck 0 ≡ Some pid }
    requires snapshot { Some snapshot ≡ option_map snapshot_of (process machine.old.state pid) }
    ensures value { (me : Process) → process machine.old.state pid ≡ Some me → result ≡ acting machine.old.state me }
    ensures same { AreSame machine.old machine.new }
    ensures visits { (me : Process) → process machine.old.state pid ≡ Some me → machine.new.visits ≤ machine.old.visits + slots_of_judging machine.old.state.processes (neighbour_in last machine.old.to_recheck) me }
    ensures no_fewer { machine.old.visits ≤ machine.new.visits }
{
    match snapshot.life {
        Life::Running => is_awake(machine, pid, snapshot, last),
        Life::Stopped => snapshot.chosen.is_some(),
        Life::Zombie(_) => false,
    }
}

/// Appends a process that is rechecked to the run queue, if it is not there and is runnable. Otherwise, if it is
/// blocked in a read, returns the session of the terminal. The process is the first one on the list, after `last`,
/// if one was rechecked before.
#[tactic(auto, using(pidset::proofs::NumberLemmas::in_at), unfolding(posix::specs::Settle::woken))]
fn wake<K: ProcessTable>(machine: &mut Machine<K>, pid: Pid, last: Option<Pid>) -> Option<Pid>
    requires there { IsSome (process machine.old.state pid) }
    requires first { slice_get machine.old.to_recheck 0 ≡ Some pid }
    ensures reads { result ≡ reads machine.new.state pid }
    ensures state { machine.new.state ≡ woken machine.old.state pid }
    ensures to_recheck { machine.new.to_recheck ≡ machine.old.to_recheck }
    ensures foregrounds_unchecked { machine.new.foregrounds_unchecked ≡ machine.old.foregrounds_unchecked }
    ensures visits { (me : Process) → process machine.old.state pid ≡ Some me → machine.new.visits ≤ machine.old.visits + 1 + slots_of_judging machine.old.state.processes (neighbour_in last machine.old.to_recheck) me }
    ensures no_fewer { machine.old.visits ≤ machine.new.visits }
{
    if machine.has_place(pid) {
        return None;
    }
    let Some(snapshot) = machine.snapshot(pid) else {
        unreachable!()
    };
    if can_act(machine, pid, snapshot, last) {
        machine.place(pid);
        return None;
    }
    reads_in(&snapshot)
}

/// Appends each runnable process that is not in the run queue, in rising order of process ID. Tests those that may have
/// become runnable since the last time.
fn give_places<K: ProcessTable>(machine: &mut Machine<K>)
    ensures state { machine.new.state ≡ giving_places machine.old.state }
    ensures regular { IsRegular machine.new.state }
    ensures to_recheck { machine.new.to_recheck ≡ [] }
    ensures foregrounds_unchecked { machine.new.foregrounds_unchecked ≡ machine.old.foregrounds_unchecked }
    ensures visits { machine.new.visits ≤ machine.old.visits + slots_of_rechecks machine.old.state.processes None machine.old.to_recheck }
    ensures no_fewer { machine.old.visits ≤ machine.new.visits }
{
    let mut last = None;
    while let Some(pid) = machine.first_to_recheck() {
        let session = wake(machine, pid, last);
        machine.finish_recheck(pid, session);
        last = Some(pid);
    }
}

/// Clears the foreground process group of each terminal if the group has no member left in the terminal's session. Then
/// appends each runnable process that is not in the run queue.
#[tactic(auto, unfolding(posix::specs::Settle::settle))]
pub fn settle<K: ProcessTable>(machine: &mut Machine<K>)
    ensures state { machine.new.state ≡ settling machine.old.state }
    ensures regular { IsRegular machine.new.state }
    ensures to_recheck { machine.new.to_recheck ≡ [] }
    ensures foregrounds_unchecked { machine.new.foregrounds_unchecked ≡ Unchecked.Nothing }
    ensures visits { machine.new.visits ≤ machine.old.visits + slots_of_settling machine.old }
    ensures no_fewer { machine.old.visits ≤ machine.new.visits }
{
    machine.clear_foregrounds();
    give_places(machine);
}
