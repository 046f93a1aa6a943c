//! Programs.

ghost use Rattle.std.specs.Prelude.{◌≡◌, ◌≤◌, length, slice_get, true, IfOk};
ghost use Rattle.std.specs.List.{list_all};
ghost use Rattle.posix.specs.Common.{is_instruction, is_program};

use posix::{Gid, Instr, Uid};
use std::alloc::{AllocError, Global};
use std::marker::Model;

/// A program: at most 1,000 instructions, and the user and group IDs that exec sets for it, if any. All numbers are
/// within the ranges of their types.
#[derive(Drop)]
pub struct Program {
    setuid: Option<Uid>,
    setgid: Option<Gid>,
    instructions: Vec<Instr>,
}

impl Model for Program {
    ghost use Rattle.std.specs.Prelude.{length, ◌≡◌, ◌≤◌, true};
    ghost use Rattle.posix.specs.Ranges.{is_program};
    ghost use Rattle.posix.specs.States.{Program as ProgramOf};

    ghost Value = { ProgramOf };

    ghost view = { λ p. record { setuid = p.setuid; setgid = p.setgid; instructions = p.instructions.items } };

    ghost invariant = { λ p. (length p.instructions.items ≤ 1000) × (is_program (record { setuid = p.setuid; setgid = p.setgid; instructions = p.instructions.items }) ≡ true) };
}

impl Program {
    /// The maximum number of instructions of a program.
    pub const MAX_LEN: usize = 1000;

    /// Creates a program of at most 1,000 instructions, each within its range. Exec sets these IDs for it, if any.
    pub fn from_parts(setuid: Option<Uid>, setgid: Option<Gid>, instructions: Vec<Instr>) -> Self
        requires len { length instructions.items ≤ 1000 }
        requires range { list_all is_instruction instructions.items ≡ true }
        ensures value { result ≡ record { setuid = setuid; setgid = setgid; instructions = instructions.items } }
        ensures range { is_program result ≡ true }
    {
        Program {
            setuid,
            setgid,
            instructions,
        }
    }

    /// Returns the user ID that exec sets for the program, if any (XSH exec).
    pub fn setuid(&self) -> Option<Uid>
        ensures { result ≡ self.now.setuid }
    {
        self.setuid
    }

    /// Returns the group ID that exec sets for the program, if any.
    pub fn setgid(&self) -> Option<Gid>
        ensures { result ≡ self.now.setgid }
    {
        self.setgid
    }

    /// Returns the number of instructions.
    pub fn len(&self) -> usize
        ensures value { result ≡ length self.now.instructions }
        ensures limit { result ≤ 1000 }
    {
        self.instructions.len()
    }

    /// Returns the instruction at an index, from 0, if any.
    pub fn get(&self, place: usize) -> Option<Instr>
        ensures { result ≡ slice_get self.now.instructions place }
    {
        self.instructions.get(place).copied()
    }

    /// Copies the program. Fails if the host has no memory for the copy.
    pub fn try_clone(&self, alloc: Global) -> Result<Program, AllocError>
        ensures { IfOk result (λ p. p ≡ self.now) }
    {
        Ok(Program {
            setuid: self.setuid,
            setgid: self.setgid,
            instructions: Vec::from_slice(alloc, self.instructions.as_slice())?,
        })
    }
}
