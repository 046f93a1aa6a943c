//! Instructions before their names are looked up.

ghost use Rattle.std.specs.Prelude.{◌≡◌};
ghost use Rattle.text.specs.Outlines.{with_number};

use crate::names::Name;
use posix::{Condition, Instr, Register};

/// An instruction that lacks the number of a name.
#[derive(Clone, Copy)]
pub enum Use {
    /// `set rA, @label`.
    SetLabel(Register),
    /// `set rA, $program`.
    SetProgram(Register),
    /// `jmp label`.
    JumpTo,
    /// `jz rA, label`, or another conditional jump.
    JumpIf(Condition, Register),
}

impl Use {
    /// Returns the instruction with the number of its name.
    pub fn with_number(self, number: u16) -> Instr
        ensures { result ≡ with_number self number }
    {
        match self {
            Use::SetLabel(register) | Use::SetProgram(register) => {
                Instr::Set(register, i64::from(number))
            }
            Use::JumpTo => Instr::Jump(number),
            Use::JumpIf(condition, register) => Instr::JumpIf(condition, register, number),
        }
    }
}

/// A complete instruction, or an instruction whose name is to be looked up.
#[derive(Drop)]
pub enum Sketch {
    Ready(Instr),
    Lacks(Use, Name),
}

/// An instruction and the number of its line.
#[derive(Drop)]
pub struct Written {
    pub line: u64,
    pub sketch: Sketch,
}
