//! Comparison of two machines' states, whatever the time.

ghost use Rattle.std.specs.Prelude.{◌≡◌, ◌+◌, ◌*◌, length, option_map, true};
ghost use Rattle.posix.specs.Common.{process};
ghost use Rattle.times.specs.Times.{AreMoved, all_later, later, state_later};
ghost use Rattle.life.specs.Machines.{IsThere, Looks};
ghost use Rattle.life.specs.Sameness.{HaveSameCounts};

use crate::machine::Machine;
use posix::Pid;
use proctable::ProcessTable;
use tty::Console;

impl<K: ProcessTable> Machine<K> {
    /// Returns true only if the state of one of two machines of the same world is the state of the other, moved in
    /// time. `false` promises nothing. Changes nothing in either machine but the number of slots read.
    pub fn is_moved(&mut self, other: &mut Machine<K>) -> bool
        requires world { self.old.state.world ≡ other.old.state.world }
        ensures moved { result ≡ true → AreMoved self.old.state other.old.state }
        ensures mine { Looks (1 + 2 * length self.old.state.processes) self.old self.new }
        ensures others { Looks (1 + 2 * length other.old.state.processes) other.old other.new }
    {
        let ticks = self.ticks;
        let other_ticks = other.ticks;
        if ticks <= other_ticks {
            self.is_same_later(other, other_ticks - ticks)
        } else {
            other.is_same_later(self, ticks - other_ticks)
        }
    }

    /// Returns true only if another machine, `delay` ticks ahead, is in the state of this one, moved by these ticks.
    fn is_same_later(&mut self, other: &mut Machine<K>, delay: u64) -> bool
        requires world { self.old.state.world ≡ other.old.state.world }
        requires ahead { other.old.state.ticks ≡ self.old.state.ticks + delay }
        ensures moved { result ≡ true → other.old.state ≡ state_later delay self.old.state }
        ensures mine { Looks (1 + 2 * length self.old.state.processes) self.old self.new }
        ensures others { Looks (1 + 2 * length other.old.state.processes) other.old other.new }
    {
        if !self.has_same_counts(other) || !are_same(&self.consoles, &other.consoles) {
            return false;
        }
        self.has_same_processes(other, delay)
    }

    /// Returns true only if both machines agree in births, dropped zombies, halt, the last process ID assigned, and the
    /// run queue.
    fn has_same_counts(&self, other: &Machine<K>) -> bool
        ensures { result ≡ true → HaveSameCounts self.now.state other.now.state }
    {
        self.births == other.births
            && self.dropped == other.dropped
            && self.halted == other.halted
            && self.pids.last() == other.pids.last()
            && self.order.is_same(&other.order)
    }

    /// Returns true only if the other machine has the processes of this one, `delay` ticks later. Compares them one by
    /// one, from the lowest ID up.
    fn has_same_processes(&mut self, other: &mut Machine<K>, delay: u64) -> bool
        ensures same { result ≡ true → other.old.state.processes ≡ all_later delay self.old.state.processes }
        ensures mine { Looks (1 + 2 * length self.old.state.processes) self.old self.new }
        ensures others { Looks (1 + 2 * length other.old.state.processes) other.old other.new }
    {
        let mut next = self.next_after(Pid::NONE);
        let mut their_next = other.next_after(Pid::NONE);
        while let Some(pid) = next {
            let Some(their_pid) = their_next else {
                return false;
            };
            if pid != their_pid || !self.has_same_process(other, pid, delay) {
                return false;
            }
            next = self.next_after(pid);
            their_next = other.next_after(pid);
        }
        their_next.is_none()
    }

    /// Returns true only if a process is in the other machine what it is in this one, `delay` ticks later.
    fn has_same_process(&mut self, other: &mut Machine<K>, pid: Pid, delay: u64) -> bool
        requires here { IsThere pid self.old }
        requires there { IsThere pid other.old }
        ensures same { result ≡ true → process other.old.state pid ≡ option_map (later delay) (process self.old.state pid) }
        ensures mine { Looks 1 self.old self.new }
        ensures others { Looks 1 other.old other.new }
    {
        if self.parent(pid) != other.parent(pid) {
            return false;
        }
        self.table
            .look(pid)
            .is_same_later(other.table.look(pid), delay)
    }
}

/// Returns true only if two rows of consoles are the same, one by one.
fn are_same(consoles: &[Console], others: &[Console]) -> bool
    ensures { result ≡ true → consoles.now ≡ others.now }
{
    if consoles.len() != others.len() {
        return false;
    }
    for index in 0..consoles.len() {
        if !consoles[index].is_same(&others[index]) {
            return false;
        }
    }
    true
}
