//! Worlds.

ghost use Rattle.std.specs.Prelude.{◌≡◌, ◌≤◌, IfOk, length, true};
ghost use Rattle.std.specs.List.{list_all};
ghost use Rattle.posix.specs.Common.{IsWorld, is_program};

use crate::program::Program;
use std::alloc::{AllocError, Global};
use std::marker::Model;

/// The contents of a world file: the largest process ID, the number of consoles, and the programs, of which process 1
/// runs the first.
#[derive(Drop)]
pub struct World {
    pidmax: u32,
    consoles: u8,
    programs: Vec<Program>,
}

impl Model for World {
    ghost use Rattle.std.specs.Prelude.{length, ◌≡◌, ◌≤◌, true};
    ghost use Rattle.std.specs.List.{list_all};
    ghost use Rattle.posix.specs.Ranges.{is_program};
    ghost use Rattle.posix.specs.States.{World as WorldOf};

    ghost Value = { WorldOf };

    ghost view = { λ w. record { pidmax = w.pidmax; consoles = w.consoles; programs = w.programs.items } };

    ghost invariant = { λ w. (2 ≤ w.pidmax) × (w.pidmax ≤ 4194304) × (w.consoles ≤ 64) × (1 ≤ length w.programs.items) × (length w.programs.items ≤ 32) × (list_all is_program w.programs.items ≡ true) };
}

impl World {
    /// Creates a world of these parts: `pidmax` from 2 to 4,194,304, at most 64 consoles, and 1 to 32 programs, whose
    /// numbers are within their ranges.
    pub fn new(pidmax: u32, consoles: u8, programs: Vec<Program>) -> World
        requires pidmax_range { (2 ≤ pidmax) × (pidmax ≤ 4194304) }
        requires consoles_range { consoles ≤ 64 }
        requires programs_range { (1 ≤ length programs.items) × (length programs.items ≤ 32) }
        requires within { list_all is_program programs.items ≡ true }
        ensures { result ≡ record { pidmax = pidmax; consoles = consoles; programs = programs.items } }
    {
        World {
            pidmax,
            consoles,
            programs,
        }
    }

    /// Returns the largest process ID that is allocated: 2 to 4,194,304.
    pub fn pidmax(&self) -> u32
        ensures value { result ≡ self.now.pidmax }
        ensures range { (2 ≤ result) × (result ≤ 4194304) }
    {
        self.pidmax
    }

    /// Returns the number of consoles: 0 to 64.
    pub fn consoles(&self) -> u8
        ensures value { result ≡ self.now.consoles }
        ensures range { result ≤ 64 }
    {
        self.consoles
    }

    /// Returns the programs: 1 to 32.
    pub fn programs(&self) -> &[Program]
        ensures value { result.now ≡ self.now.programs }
        ensures range { (1 ≤ length result.now) × (length result.now ≤ 32) }
    {
        self.programs.as_slice()
    }

    /// Does nothing. Its contract states what the type of a world ensures: each number is within its range.
    pub fn range_holds(&self)
        ensures { IsWorld self.now }
    {
        let _ = &self.pidmax;
    }

    /// Copies the world. Fails if there is no memory for the copy.
    pub fn try_clone(&self, alloc: Global) -> Result<World, AllocError>
        ensures { IfOk result (λ w. w ≡ self.now) }
    {
        Ok(World {
            pidmax: self.pidmax,
            consoles: self.consoles,
            programs: clone_programs(alloc, self.programs.as_slice())?,
        })
    }
}

/// Copies programs. Fails if there is no memory for the copies.
fn clone_programs(alloc: Global, programs: &[Program]) -> Result<Vec<Program>, AllocError>
    ensures { IfOk result (λ copies. copies.items ≡ programs.now) }
{
    let mut copies = Vec::with_capacity(alloc, programs.len())?;
    for program in programs {
        copies.push(program.try_clone(alloc)?)?;
    }
    Ok(copies)
}
