//! Instructions that are plain or give a note, run one after another.

ghost use Rattle.std.specs.Prelude.{◌≡◌, ◌≢◌, ◌<◌, ◌≤◌, []};
ghost use Rattle.life.specs.NotedBursts.{most_notes, exec_with_notes};

use arrayvec::ArrayVec;
use posix::Trap;
use umach::{Cpu, Program};

/// A note, with the number of the step that gave it.
#[derive(Clone, Copy, Default)]
pub struct Note {
    /// The number of the step, which runs one instruction.
    pub step: u64,
    /// The value noted.
    pub value: i64,
}

/// The notes of steps, in order. A burst ends after 32.
pub type Notes = ArrayVec<Note, 32>;

/// Runs instructions while they are plain or give a note: the steps after number `before` up to number `last`. Stops
/// after 32 notes, which are added to an empty list. Returns the number of the last step taken, and how the instruction
/// after it came out: a system call or a machine fault, which leaves the processor as it was, or `Next` if that
/// instruction wasn't looked at.
pub(crate) fn run_with_notes(
    cpu: &mut Cpu,
    program: &Program,
    before: u64,
    last: u64,
    notes: &mut Notes,
) -> (u64, Trap)
    requires order { before ≤ last }
    requires none { notes.old.items ≡ [] }
    ensures taken { exec_with_notes program.now.instructions most_notes before last cpu.old ≡ record { taken = record { last = result.0; notes = notes.new.items; trap = result.1 }; cpu = cpu.new } }
    ensures from { before ≤ result.0 }
    ensures within { result.0 ≤ last }
    ensures short { result.1 ≢ Trap.Next → result.0 < last }
{
    let mut done = before;
    while !notes.is_full() {
        let (count, trap) = cpu.run_until(program, last - done);
        done += count;
        let Trap::Note(value) = trap else {
            return (done, trap);
        };
        done += 1;
        notes.push(Note { step: done, value });
    }
    (done, Trap::Next)
}
