//! Alarms, and the time (XSH alarm).

ghost use Rattle.std.specs.Prelude.{◌≡◌, [], ◌+◌, ◌<◌, ◌≤◌, ◌^◌, ℕ, Some, None, false, true, filter, length};
ghost use Rattle.posix.specs.Common.{Process, process, change, IsNext, IsPlaced, IsRegular, IsAhead, most_ticks, ticks_left as ticks_left_of, due_in as due_in_ticks, with_alarm, is_due, ring_at, ring_all, has_alarms as has_alarms_in, pass_time as passing_time};
ghost use Rattle.life.specs.Rechecks.{AreTaking, rechecks_by_signals};
ghost use Rattle.life.specs.Machines.{Changes, Costs, IsThere, IfThere, with_processes};

use crate::machine::Machine;
use posix::Pid;
use proctable::ProcessTable;

impl<K: ProcessTable> Machine<K> {
    /// Sets the alarm of a live process to `ticks` ticks from now, at most 1,000,000,000; 0 cancels it. Returns the
    /// ticks that were left of the previous alarm, or 0 if none was set (XSH alarm).
    pub fn set_alarm(&mut self, pid: Pid, ticks: u64) -> u64
        requires there { IsPlaced self.old.state.processes pid }
        requires few { ticks ≤ most_ticks }
        requires time { self.old.state.ticks + most_ticks < 2 ^ 64 }
        ensures left { IfThere pid self.old (λ me. result ≡ ticks_left_of self.old.state.ticks me.alarm) }
        ensures few { result ≤ most_ticks }
        ensures changes { Changes 1 self.old self.new (change self.old.state pid (with_alarm (due_in_ticks self.old.state.ticks ticks))) (rechecks_by_signals (process self.new.state pid) self.old) }
    {
        let due = due_in(self.ticks, ticks);
        let before = self.change(pid, |fields| {
            let before = fields.alarm;
            fields.set_alarm(due);
            before
        });
        ticks_left(self.ticks, before)
    }

    /// Returns true if a process has an alarm. Reads no slot.
    pub fn has_alarms(&self) -> bool
        ensures { result ≡ has_alarms_in self.now.state }
    {
        !self.table.nobody_alarmed()
    }

    /// Generates SIGALRM for an existing process, and clears its alarm, if the alarm is due at the next tick.
    fn ring(&mut self, pid: Pid)
        requires there { IsThere pid self.old }
        requires time { self.old.state.ticks + 1 < 2 ^ 64 }
        ensures { Changes 1 self.old self.new (change self.old.state pid (ring_at (self.old.state.ticks + 1))) (rechecks_by_signals (process self.new.state pid) self.old) }
    {
        let now = self.ticks + 1;
        self.change(pid, |fields| fields.ring_at(pid, now));
    }

    /// Rings each alarm that is due at the next tick. Reads one slot for each. If the recheck list was empty, a signal
    /// is chosen for each process that is then on it.
    fn ring_all(&mut self)
        requires { self.old.state.ticks + 1 < 2 ^ 64 }
        ensures state { self.new.state ≡ with_processes self.old.state (ring_all (self.old.state.ticks + 1) self.old.state.processes) }
        ensures quiet { has_alarms_in self.old.state ≡ false → self.new ≡ self.old }
        ensures foregrounds_unchecked { self.new.foregrounds_unchecked ≡ self.old.foregrounds_unchecked }
        ensures taking { self.old.to_recheck ≡ [] → AreTaking self.new.state.processes self.new.to_recheck × (length self.new.to_recheck ≤ length (filter (λ r. is_due (self.old.state.ticks + 1) r.alarm) self.old.state.processes)) }
        ensures costs { Costs (length (filter (λ r. is_due (self.old.state.ticks + 1) r.alarm) self.old.state.processes)) self.old self.new }
    {
        let mut next = self.next_due(Pid::NONE);
        while let Some(pid) = next {
            self.ring(pid);
            next = self.next_due(pid);
        }
    }

    /// Returns the process with the lowest ID above `after` whose alarm is due at the next tick.
    fn next_due(&self, after: Pid) -> Option<Pid>
        requires { self.now.state.ticks + 1 < 2 ^ 64 }
        ensures next { IsNext (λ r. is_due (self.now.state.ticks + 1) r.alarm) after self.now.state.processes result }
        ensures due { (p : ℕ) (r : Process) → result ≡ Some p → process self.now.state p ≡ Some r → is_due (self.now.state.ticks + 1) r.alarm ≡ true }
        ensures quiet { has_alarms_in self.now.state ≡ false → result ≡ None }
        ensures regular { IsRegular self.now.state }
    {
        self.table.next_due(self.ticks + 1, after)
    }

    /// Advances the time by one tick, and rings each alarm that is due. Reads one slot for each of these alarms, and
    /// none if no process has an alarm. If the recheck list was empty, a signal is chosen for each process that is then
    /// on it.
    ///
    /// Alarms ring before the time advances. The result is the same, because no signal depends on the time. A set alarm
    /// is due later than now, so the alarms that ring are exactly those listed under the new tick.
    pub fn pass_time(&mut self)
        requires { self.old.state.ticks + 1 < 2 ^ 64 }
        ensures state { self.new.state ≡ passing_time self.old.state }
        ensures quiet { has_alarms_in self.old.state ≡ false → self.new ≡ record (self.old) { state = self.new.state } }
        ensures foregrounds_unchecked { self.new.foregrounds_unchecked ≡ self.old.foregrounds_unchecked }
        ensures taking { self.old.to_recheck ≡ [] → AreTaking self.new.state.processes self.new.to_recheck × (length self.new.to_recheck ≤ length (filter (λ r. is_due (self.old.state.ticks + 1) r.alarm) self.old.state.processes)) }
        ensures costs { Costs (length (filter (λ r. is_due (self.old.state.ticks + 1) r.alarm) self.old.state.processes)) self.old self.new }
    {
        self.ring_all();
        self.ticks += 1;
    }
}

/// Returns the tick at which an alarm is due that is set to `ticks` ticks from `now`, or `None` if it is cleared.
fn due_in(now: u64, ticks: u64) -> Option<u64>
    requires { now + ticks < 2 ^ 64 }
    ensures { result ≡ due_in_ticks now ticks }
{
    if ticks == 0 { None } else { Some(now + ticks) }
}

/// Returns the ticks until an alarm is due, or 0 if none is set.
fn ticks_left(now: u64, alarm: Option<u64>) -> u64
    requires { IsAhead now alarm }
    ensures left { result ≡ ticks_left_of now alarm }
    ensures few { result ≤ most_ticks }
{
    match alarm {
        Some(due) => due - now,
        None => 0,
    }
}
