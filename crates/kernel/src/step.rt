//! One event of the machine. What it shows is added to a list of entries that is empty before, so that an instruction
//! that shows nothing moves none.

ghost use Rattle.std.specs.Prelude.{◌≡◌, ◌≢◌, ◌+◌, ◌*◌, ℕ, [], None, IfSome, is_some, ◌<◌, ◌≤◌, ◌^◌, IsSome, Some, option_map, false, true};
ghost use Rattle.posix.specs.declared.call.Call.{Call as CallValue};
ghost use Rattle.posix.specs.Common.{is_free, Process, chosen, process, current_process, change, lose_place as losing_place, Block, wait_in, wait_by, exec_one, code_of, enter as entered, tick as ticking, go_on as going_on, IsStep, most_ticks, attempt_again, IsRegular, IsSettled, has_place, can_go_on};
ghost use Rattle.posix.specs.declared.waits.WaitCall.{WaitCall as WaitCallValue};
ghost use Rattle.proctable.specs.Records.{snapshot_of};
ghost use Rattle.life.specs.Rechecks.{is_in_wait};
ghost use Rattle.calls.specs.Outcomes.{IsActing, IsQuiet, CostsWithRechecks, CostsAtMost, changes_caller_alone, slots_of_brief};
ghost use Rattle.kernel.specs.Counts.{CountsOne, IsAtRest, ReadsAtMost, after_taken, alarms_due, delivers_nothing, slots_of_acting, slots_of_blocking, slots_of_event, slots_of_own_step, slots_of_trap};
ghost use Rattle.kernel.specs.Steps.{ActsAs, Begins, Bursts, ComesTo, Happens, IsReadOfCurrent, NoneChosen, RunsInstruction, Steps, next_changes_one, changes_one, next_enters, enters, is_followed_by_step, runner, taken_at_once};

use crate::settle::settle;
use calls::delivery::{deliver, end, fault};
use calls::outcome::Attempt;
use calls::{Entries, attempt, attempt_again};
use life::{Machine, Notes, Unchecked};
use posix::{Blocked, Call, Entry, Event, Pid, Sig, Status, Trap, WaitCall};
use proctable::{ProcessTable, Snapshot};

/// Blocks an existing process in a call.
fn enter_call<K: ProcessTable>(machine: &mut Machine<K>, pid: Pid, blocked: Blocked)
    requires { IsSome (process machine.old.state pid) }
    ensures state { machine.new.state ≡ change machine.old.state pid (entered blocked) }
    ensures to_recheck { has_place machine.old.state pid ≡ true → machine.new.to_recheck ≡ machine.old.to_recheck }
    ensures foregrounds_unchecked { machine.new.foregrounds_unchecked ≡ machine.old.foregrounds_unchecked }
    ensures visits { machine.new.visits ≤ machine.old.visits + 1 }
    ensures no_fewer { machine.old.visits ≤ machine.new.visits }
{
    machine.own(pid).enter(blocked);
}

/// Blocks a process without a chosen signal in a call in which it has to wait, and removes it from the run queue. If it
/// waits for a child, it has already looked for one, so it isn't rechecked.
fn block<K: ProcessTable>(machine: &mut Machine<K>, pid: Pid, call: Call, blocked: Blocked)
    requires acting { IsActing machine.old.state pid }
    requires none_chosen { NoneChosen machine.old.state pid }
    requires waits { (me : Process) → process machine.old.state pid ≡ Some me → (how : WaitCallValue) → wait_in call ≡ Some how → wait_by how machine.old.state me ≡ Block blocked }
    ensures state { machine.new.state ≡ losing_place (change machine.old.state pid (entered blocked)) pid }
    ensures brief { is_some (wait_in call) ≡ true → IsQuiet pid machine.old → CostsWithRechecks 1 machine.old machine.new }
    ensures no_fewer { machine.old.visits ≤ machine.new.visits }
{
    enter_call(machine, pid, blocked);
    match WaitCall::named_by(call) {
        Some(_) => machine.sleep(pid),
        None => machine.lose_place(pid),
    }
}

/// Returns true if a process that is blocked in this call waits for a child.
fn is_wait(blocked: &Blocked) -> bool
    ensures { result ≡ is_in_wait (Some blocked.now) }
{
    matches!(blocked, Blocked::Wait(_))
}

/// Removes a process without a chosen signal, which still has to wait in its call, from the run queue. If it waits for
/// a child, it has already looked for one, so it isn't rechecked.
fn wait_on<K: ProcessTable>(machine: &mut Machine<K>, pid: Pid, waits: bool)
    requires acting { IsActing machine.old.state pid }
    requires none_chosen { NoneChosen machine.old.state pid }
    requires blocked { (me : Process) → process machine.old.state pid ≡ Some me → waits ≡ true → is_in_wait me.blocked ≡ true }
    requires waits { (me : Process) → process machine.old.state pid ≡ Some me → waits ≡ true → can_go_on machine.old.state me me.blocked ≡ false }
    ensures state { machine.new.state ≡ losing_place machine.old.state pid }
    ensures brief { waits ≡ true → IsQuiet pid machine.old → CostsWithRechecks 0 machine.old machine.new }
    ensures no_fewer { machine.old.visits ≤ machine.new.visits }
{
    if waits {
        machine.sleep(pid);
    } else {
        machine.lose_place(pid);
    }
}

/// Starts a call of a process in the run queue without a chosen signal. If the process has to wait, it is blocked in
/// the call and leaves the run queue. If the call restarts, the process keeps its position in the run queue.
#[inline(never)]
fn begin_call<K: ProcessTable>(
    machine: &mut Machine<K>,
    pid: Pid,
    call: Call,
    entries: &mut Entries,
)
    requires acting { IsActing machine.old.state pid }
    requires none_chosen { NoneChosen machine.old.state pid }
    requires births { machine.old.state.births + 1 < 2 ^ 64 }
    requires time { machine.old.state.ticks + most_ticks < 2 ^ 64 }
    requires none { entries.old.items ≡ [] }
    ensures begins { Begins machine.old.state pid call entries.new.items machine.new.state }
    ensures own { changes_caller_alone call ≡ true → CostsAtMost 1 machine.old machine.new }
    ensures brief { (me : Process) → process machine.old.state pid ≡ Some me → IsQuiet pid machine.old → IfSome (slots_of_brief call me) (λ n. CostsWithRechecks (n + slots_of_blocking call) machine.old machine.new) }
    ensures no_fewer { machine.old.visits ≤ machine.new.visits }
{
    match attempt(machine, pid, call, entries) {
        Attempt::Done | Attempt::Again => {}
        Attempt::Block(blocked) => block(machine, pid, call, blocked),
    }
}

/// Attempts again the call in which a process in the run queue is blocked. If it still has to wait, the signal that is
/// chosen for it is delivered; without one, it leaves the run queue. If the call restarts, the process leaves the call,
/// and keeps its position in the run queue.
#[inline(never)]
fn go_on<K: ProcessTable>(
    machine: &mut Machine<K>,
    pid: Pid,
    blocked: Blocked,
    signal: Option<Sig>,
    entries: &mut Entries,
)
    requires acting { IsActing machine.old.state pid }
    requires regular { IsRegular machine.old.state }
    requires signal { (me : Process) → process machine.old.state pid ≡ Some me → signal ≡ chosen me.life me.signals }
    requires blocked { (me : Process) → process machine.old.state pid ≡ Some me → me.blocked ≡ Some blocked }
    requires none { entries.old.items ≡ [] }
    ensures goes_on { (me : Process) → process machine.old.state pid ≡ Some me → going_on machine.old.state me (attempt_again machine.old.state me blocked) ≡ record { state = machine.new.state; entries = entries.new.items } }
    ensures brief { (me : Process) → process machine.old.state pid ≡ Some me → IsQuiet pid machine.old → (how : WaitCallValue) → blocked ≡ Blocked.Wait how → delivers_nothing machine.old.state how me ≡ true → CostsWithRechecks 6 machine.old machine.new }
    ensures no_fewer { machine.old.visits ≤ machine.new.visits }
{
    let waits = is_wait(&blocked);
    match attempt_again(machine, pid, blocked, entries) {
        Attempt::Done => {}
        Attempt::Again => machine.own(pid).leave(),
        Attempt::Block(_) => match signal {
            Some(sig) => deliver(machine, pid, sig, entries),
            None => wait_on(machine, pid, waits),
        },
    }
}

/// Runs the instruction at the pc of a process in the run queue, without a chosen signal, that runs this program.
#[tactic(auto, unfolding(posix::specs::Step::after_trap))]
fn run_instruction<K: ProcessTable>(
    machine: &mut Machine<K>,
    pid: Pid,
    program: u8,
    entries: &mut Entries,
)
    requires acting { IsActing machine.old.state pid }
    requires none_chosen { NoneChosen machine.old.state pid }
    requires program { (me : Process) → process machine.old.state pid ≡ Some me → me.program ≡ program }
    requires births { machine.old.state.births + 1 < 2 ^ 64 }
    requires time { machine.old.state.ticks + most_ticks < 2 ^ 64 }
    requires none { entries.old.items ≡ [] }
    ensures runs { RunsInstruction machine.old.state pid entries.new.items machine.new.state }
    ensures cost { (me : Process) → process machine.old.state pid ≡ Some me → changes_one (exec_one (code_of machine.old.state me) me.cpu).trap ≡ true → CostsAtMost 2 machine.old machine.new }
    ensures enters { (me : Process) → process machine.old.state pid ≡ Some me → enters me (exec_one (code_of machine.old.state me) me.cpu).trap ≡ true → CostsAtMost 3 machine.old machine.new }
    ensures brief { (me : Process) → process machine.old.state pid ≡ Some me → IsQuiet pid machine.old → IfSome (slots_of_trap me (exec_one (code_of machine.old.state me) me.cpu).trap) (λ n. CostsWithRechecks n machine.old machine.new) }
    ensures no_fewer { machine.old.visits ≤ machine.new.visits }
{
    match machine.exec_one(pid, program) {
        Trap::Next => {}
        Trap::Note(value) => entries.push(Entry::Noted { pid, value }),
        Trap::Call(call) => begin_call(machine, pid, call, entries),
        Trap::Fault(sig) => fault(machine, pid, sig, entries),
    }
}

/// Lets a process in the run queue, with this snapshot, take a step: SIGKILL terminates it; it attempts its call again;
/// a signal is delivered to it; or it runs an instruction.
#[tactic(auto, unfolding(posix::specs::Step::act, posix::specs::Step::act_in))]
#[inline(never)]
fn act<K: ProcessTable>(
    machine: &mut Machine<K>,
    pid: Pid,
    snapshot: Snapshot,
    entries: &mut Entries,
)
    requires acting { IsActing machine.old.state pid }
    requires regular { IsRegular machine.old.state }
    requires snapshot { Some snapshot ≡ option_map snapshot_of (process machine.old.state pid) }
    requires births { machine.old.state.births + 1 < 2 ^ 64 }
    requires time { machine.old.state.ticks + most_ticks < 2 ^ 64 }
    requires none { entries.old.items ≡ [] }
    ensures acts { ActsAs machine.old.state pid entries.new.items machine.new.state }
    ensures cost { next_changes_one machine.old.state (process machine.old.state pid) ≡ true → CostsAtMost 2 machine.old machine.new }
    ensures enters { next_enters machine.old.state (process machine.old.state pid) ≡ true → CostsAtMost 3 machine.old machine.new }
    ensures brief { (me : Process) → process machine.old.state pid ≡ Some me → IsQuiet pid machine.old → IfSome (slots_of_acting machine.old.state me me.blocked) (λ n. CostsWithRechecks n machine.old machine.new) }
    ensures no_fewer { machine.old.visits ≤ machine.new.visits }
{
    let Snapshot {
        chosen,
        blocked,
        program,
        ..
    } = snapshot;
    if chosen == Some(Sig::KILL) {
        return end(machine, pid, Status::killed(Sig::KILL), entries);
    }
    if let Some(blocked) = blocked {
        return go_on(machine, pid, blocked, chosen, entries);
    }
    match chosen {
        Some(sig) => deliver(machine, pid, sig, entries),
        None => run_instruction(machine, pid, program, entries),
    }
}

/// Lets the current process take a step. Does nothing if there is none.
#[tactic(auto, unfolding(posix::specs::Step::step))]
fn step<K: ProcessTable>(machine: &mut Machine<K>, entries: &mut Entries)
    requires births { machine.old.state.births + 1 < 2 ^ 64 }
    requires time { machine.old.state.ticks + most_ticks < 2 ^ 64 }
    requires none { entries.old.items ≡ [] }
    ensures steps { Steps machine.old.state entries.new.items machine.new.state }
    ensures cost { IfSome (slots_of_own_step machine.old.state (current_process machine.old.state)) (λ n. CostsAtMost n machine.old machine.new) }
    ensures brief { (me : Process) → current_process machine.old.state ≡ Some me → machine.old.to_recheck ≡ [] → machine.old.foregrounds_unchecked ≡ Unchecked.Nothing → IfSome (slots_of_acting machine.old.state me me.blocked) (λ n. CostsWithRechecks (n + 1) machine.old machine.new) }
    ensures no_fewer { machine.old.visits ≤ machine.new.visits }
    ensures counts { IfSome (current_process machine.old.state) (λ me. K.one_more machine.old.visits ≤ machine.new.visits) }
{
    let Some(pid) = machine.current() else {
        return;
    };
    let Some(snapshot) = machine.snapshot(pid) else {
        return;
    };
    act(machine, pid, snapshot, entries);
}

/// Advances the time by one tick, rings the alarms that are due, and moves the current process to the end of the run
/// queue.
#[tactic(auto, unfolding(posix::specs::Step::tick))]
#[inline(never)]
fn tick<K: ProcessTable>(machine: &mut Machine<K>)
    requires { machine.old.state.ticks + 1 < 2 ^ 64 }
    ensures state { machine.new.state ≡ ticking machine.old.state }
    ensures cost { machine.old.to_recheck ≡ [] → machine.old.foregrounds_unchecked ≡ Unchecked.Nothing → ReadsAtMost (2 * alarms_due machine.old.state) machine.old machine.new }
    ensures no_fewer { machine.old.visits ≤ machine.new.visits }
{
    machine.pass_time();
    if let Some(pid) = machine.current() {
        machine.go_last(pid);
    }
}

/// Applies an event, without settling.
#[tactic(auto, unfolding(posix::specs::Step::happens))]
fn happen<K: ProcessTable>(machine: &mut Machine<K>, event: Event, entries: &mut Entries)
    requires births { machine.old.state.births + 1 < 2 ^ 64 }
    requires time { machine.old.state.ticks + most_ticks < 2 ^ 64 }
    requires none { entries.old.items ≡ [] }
    ensures happens { Happens machine.old.state event entries.new.items machine.new.state }
    ensures cost { IsAtRest machine.old → IfSome (slots_of_event event machine.old.state) (λ n. ReadsAtMost n machine.old machine.new) }
    ensures no_fewer { machine.old.visits ≤ machine.new.visits }
    ensures counts { event ≡ Event.Step → IfSome (current_process machine.old.state) (λ me. K.one_more machine.old.visits ≤ machine.new.visits) }
{
    match event {
        Event::Step => step(machine, entries),
        Event::Tick => tick(machine),
        Event::Key { console, byte } => machine.key(console, byte),
        Event::Hangup { console } => machine.hangup(console),
    }
}

/// The outcome of instructions that were run one after another.
#[derive(Clone, Copy)]
pub struct BurstEnd {
    /// The number of the last step.
    pub last: u64,
    /// The process that ran them, or number 0 if none did.
    pub pid: Pid,
    /// How the instruction after them came out: a call or a machine fault, which is left to the next step, or `Next` if
    /// it wasn't looked at.
    pub trap: Trap,
    /// What was read of the current process if it runs no instruction, because it is in a call or a signal is chosen
    /// for it.
    pub held: Option<Snapshot>,
}

/// Runs instructions of the current process while they are plain or give a note: the steps after number `before` up to
/// number `last`. Stops after 32 notes, which are added to an empty list. Runs none if the process is in a call, or a
/// signal is chosen for it. Leaves nothing to settle.
pub fn burst<K: ProcessTable>(
    machine: &mut Machine<K>,
    before: u64,
    last: u64,
    notes: &mut Notes,
) -> BurstEnd
    requires regular { IsRegular machine.old.state }
    requires settled { IsSettled machine.old.state }
    requires going { machine.old.state.halted ≡ false }
    requires some { before < last }
    requires none { notes.old.items ≡ [] }
    ensures runs { Bursts machine.old.state before result.last result.pid notes.new.items machine.new.state }
    ensures taken { taken_at_once machine.old.state before last (current_process machine.old.state) ≡ record { last = result.last; notes = notes.new.items; trap = result.trap } }
    ensures whose { result.pid ≡ runner (current_process machine.old.state) }
    ensures from { before ≤ result.last }
    ensures within { result.last ≤ last }
    ensures short { result.trap ≢ Trap.Next → result.last < last }
    ensures call { (call : CallValue) → result.trap ≡ Trap.Call call → ComesTo machine.new.state result.pid call }
    ensures held { IfSome result.held (IsReadOfCurrent machine.new.state) }
    ensures state { machine.new.state ≡ after_taken machine.old.state before last (current_process machine.old.state) }
    ensures visits { machine.new.visits ≤ machine.old.visits + 2 }
    ensures to_recheck { machine.new.to_recheck ≡ machine.old.to_recheck }
    ensures foregrounds_unchecked { machine.new.foregrounds_unchecked ≡ machine.old.foregrounds_unchecked }
    ensures regular { IsRegular machine.new.state }
    ensures numbers { (n : ℕ) → is_free machine.new.state.processes n ≡ is_free machine.old.state.processes n }
    ensures no_fewer { machine.old.visits ≤ machine.new.visits }
    ensures counts { IfSome (current_process machine.old.state) (λ me. K.one_more machine.old.visits ≤ machine.new.visits) }
{
    let nothing = BurstEnd {
        last: before,
        pid: Pid::NONE,
        trap: Trap::Next,
        held: None,
    };
    let Some(pid) = machine.current() else {
        return nothing;
    };
    let Some(snapshot) = machine.snapshot(pid) else {
        return nothing;
    };
    if snapshot.chosen.is_some() || snapshot.blocked.is_some() {
        return BurstEnd {
            held: Some(snapshot),
            ..nothing
        };
    }
    let (last, trap) = machine.run_with_notes(pid, snapshot.program, before, last, notes);
    BurstEnd {
        last,
        pid,
        trap,
        held: None,
    }
}

/// Returns true if one more step follows those after number `before` up to number `last`: if these are none, or if a
/// call or a machine fault is next.
pub fn is_followed_by_step(before: u64, last: u64, trap: &Trap) -> bool
    ensures { result ≡ is_followed_by_step before last trap.now }
{
    match trap {
        Trap::Next => last == before,
        Trap::Note(_) | Trap::Call(_) | Trap::Fault(_) => true,
    }
}

/// Lets the current process take the step after a burst, without settling. What the burst read of it isn't read again.
///
/// A call that ends a burst begins at once: by the contract of the burst, the next step is this call (`ComesTo`). So
/// the process isn't looked up again, nor its instruction fetched again. For a process in a call or with a chosen
/// signal, what the burst read is passed on. For a machine fault, it is read again.
fn act_behind<K: ProcessTable>(machine: &mut Machine<K>, end: BurstEnd, entries: &mut Entries)
    requires regular { IsRegular machine.old.state }
    requires call { (call : CallValue) → end.trap ≡ Trap.Call call → ComesTo machine.old.state end.pid call }
    requires held { IfSome end.held (IsReadOfCurrent machine.old.state) }
    requires births { machine.old.state.births + 1 < 2 ^ 64 }
    requires time { machine.old.state.ticks + most_ticks < 2 ^ 64 }
    requires none { entries.old.items ≡ [] }
    ensures steps { Steps machine.old.state entries.new.items machine.new.state }
    ensures reads { IsAtRest machine.old → IfSome (slots_of_event Event.Step machine.old.state) (λ n. ReadsAtMost n machine.old machine.new) }
    ensures no_fewer { machine.old.visits ≤ machine.new.visits }
{
    match (end.held, end.trap) {
        (Some(snapshot), _) => act(machine, snapshot.pid, snapshot, entries),
        (None, Trap::Call(call)) => begin_call(machine, end.pid, call, entries),
        (None, _) => step(machine, entries),
    }
}

/// Applies the step after a burst, and settles.
pub fn step_behind<K: ProcessTable>(machine: &mut Machine<K>, end: BurstEnd, entries: &mut Entries)
    requires going { machine.old.state.halted ≡ false }
    requires regular { IsRegular machine.old.state }
    requires call { (call : CallValue) → end.trap ≡ Trap.Call call → ComesTo machine.old.state end.pid call }
    requires held { IfSome end.held (IsReadOfCurrent machine.old.state) }
    requires births { machine.old.state.births + 1 < 2 ^ 64 }
    requires time { machine.old.state.ticks + most_ticks < 2 ^ 64 }
    requires none { entries.old.items ≡ [] }
    ensures step { IsStep machine.old.state Event.Step entries.new.items machine.new.state }
    ensures regular { IsRegular machine.new.state }
    ensures to_recheck { machine.new.to_recheck ≡ [] }
    ensures foregrounds_unchecked { machine.new.foregrounds_unchecked ≡ Unchecked.Nothing }
    ensures visits { IsAtRest machine.old → IfSome (slots_of_event Event.Step machine.old.state) (λ n. machine.new.visits ≤ machine.old.visits + n) }
    ensures no_fewer { machine.old.visits ≤ machine.new.visits }
{
    act_behind(machine, end, entries);
    settle(machine);
}

/// Applies one event, and settles. After a halt, nothing changes, and nothing is shown.
#[tactic(auto, unfolding(posix::specs::Step::next))]
pub fn next<K: ProcessTable>(machine: &mut Machine<K>, event: Event, entries: &mut Entries)
    requires births { machine.old.state.births + 1 < 2 ^ 64 }
    requires time { machine.old.state.ticks + most_ticks < 2 ^ 64 }
    requires none { entries.old.items ≡ [] }
    ensures step { IsStep machine.old.state event entries.new.items machine.new.state }
    ensures regular { IsRegular machine.new.state }
    ensures to_recheck { machine.old.to_recheck ≡ [] → machine.new.to_recheck ≡ [] }
    ensures foregrounds_unchecked { machine.old.foregrounds_unchecked ≡ Unchecked.Nothing → machine.new.foregrounds_unchecked ≡ Unchecked.Nothing }
    ensures visits { IsAtRest machine.old → IfSome (slots_of_event event machine.old.state) (λ n. machine.new.visits ≤ machine.old.visits + n) }
    ensures no_fewer { machine.old.visits ≤ machine.new.visits }
    ensures counts { event ≡ Event.Step → CountsOne K.one_more machine.old.state machine.old.visits machine.new.visits }
{
    if machine.is_halted() {
        return;
    }
    happen(machine, event, entries);
    settle(machine);
}
