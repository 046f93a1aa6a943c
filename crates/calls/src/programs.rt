//! Replacement of a process's program by another (XSH exec).

ghost use Rattle.std.specs.Prelude.{◌≤◌, length, IsSome};
ghost use Rattle.posix.specs.Common.{process};
ghost use Rattle.calls.specs.Outcomes.{Attempts};

use crate::attempts::refuse;
use crate::entries::Entries;
use crate::outcome::Attempt;
use life::Machine;
use posix::{Call, Entry, Errno, Pid, Register};
use proctable::ProcessTable;

/// Replaces the caller's program by the one whose number is in r1. The pc doesn't move on: it is where the program
/// begins. Fails with ENOENT if the world has no program with that number (XSH exec).
///
/// Adds an entry although it does not return: otherwise no trace would show where the new program begins.
#[tactic(auto, unfolding(posix::specs::Attempts::attempt, posix::specs::Programs::exec))]
pub fn exec<K: ProcessTable>(machine: &mut Machine<K>, pid: Pid, entries: &mut Entries) -> Attempt
    requires there { IsSome (process machine.old.state pid) }
    requires room { length entries.old.items ≤ 1 }
    ensures attempts { Attempts machine.old.state pid Call.Exec result entries.old.items entries.new.items machine.new.state }
    ensures no_fewer { machine.old.visits ≤ machine.new.visits }
{
    let word = machine.look(pid).cpu.register(Register::FIRST_ARGUMENT);
    if !machine.exec_named(pid, word) {
        return refuse(machine, pid, Call::Exec, Errno::ENOENT, entries);
    }
    entries.push(Entry::Called {
        pid,
        call: Call::Exec,
        result: 0,
    });
    Attempt::Done
}
