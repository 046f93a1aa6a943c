//! What is known of the registers of a process.

ghost use Rattle.std.specs.Prelude.{◌≡◌, ◌<◌, ℤ, IfSome, IsTrue, List, length, slice_set};
ghost use Rattle.posix.specs.Common.{Cpu};
ghost use Rattle.warning.specs.Holds.{Holds, IsBehind, IsBehindCall, held};
ghost use Rattle.warning.specs.Targets.{told_of};

use crate::held::Held;
use crate::targets::Targets;
use bitflags::Flags;
use posix::{Call, Instr, Register, SaFlags, Sig};
use std::marker::Model;
use wording::signal_in;

/// What is known of the eight registers before an instruction.
#[derive(Drop)]
pub struct Known {
    registers: [Held; 8],
}

impl Model for Known {
    ghost use Rattle.std.specs.Prelude.{List, ◌≡◌, length};
    ghost use Rattle.warning.specs.declared.held.Held.{Held};

    ghost Value = { List Held };

    ghost view = { λ k. k.registers };

    ghost invariant = { λ k. length k.registers ≡ 8 };
}

/// Returns true if a word has only valid flags of sigaction.
fn are_flags(word: i64) -> bool {
    u32::try_from(word)
        .ok()
        .and_then(SaFlags::from_bits)
        .is_some()
}

impl Known {
    /// Returns registers of which nothing is known.
    pub fn nothing() -> Known
        ensures { (registers : List ℤ) → Holds result registers }
    {
        Known {
            registers: [Held::Unknown; 8],
        }
    }

    /// Returns what is known of a register.
    pub fn held(&self, register: Register) -> Held
        ensures { result ≡ held self.now register }
    {
        self.registers[register.index()]
    }

    /// Returns the number in a register; `None` if it is unknown.
    pub fn constant(&self, register: Register) -> Option<i64>
        ensures { IfSome result (λ z. held self.now register ≡ Held.Constant z) }
    {
        match self.held(register) {
            Held::Constant(value) => Some(value),
            Held::Unknown | Held::OldHandler(_) => None,
        }
    }

    /// Returns the signal of a sigaction; `None` if it is unknown, if it is SIGKILL or SIGSTOP, or if the flags are
    /// known to be invalid.
    pub fn signal(&self) -> Option<Sig> {
        let sig = signal_in(self.constant(Register::FIRST_ARGUMENT)?)?;
        let flags = self.constant(Register::FOURTH_ARGUMENT);
        if sig == Sig::KILL || sig == Sig::STOP || !flags.is_none_or(are_flags) {
            return None;
        }
        Some(sig)
    }

    /// Returns what is known of r2 after a sigaction.
    fn old_handler(&self) -> Held
        ensures { (z : ℤ) → result ≡ Held.Constant z → ⊥ }
    {
        match (self.signal(), self.constant(Register::SECOND_ARGUMENT)) {
            (Some(sig), Some(handler)) if handler != -1 => Held::OldHandler(sig),
            _ => Held::Unknown,
        }
    }

    /// Sets what is known of a register.
    fn put(&mut self, register: Register, value: Held)
        ensures value { self.new ≡ slice_set self.old register value }
        ensures within { register < 8 }
    {
        self.registers[register.index()] = value;
    }

    /// Forgets what is known of a register.
    fn forget(&mut self, register: Register)
        ensures value { self.new ≡ slice_set self.old register Held.Unknown }
        ensures within { register < 8 }
    {
        self.put(register, Held::Unknown);
    }

    /// Updates what is known for a call that returns.
    fn call(&mut self, call: Call)
        ensures { (old new : List ℤ) → IsBehindCall call old new → Holds self.old old → Holds self.new new }
    {
        let old_handler = self.old_handler();
        self.forget(Register::RESULT);
        match call {
            Call::Waitpid | Call::Sigpending => self.forget(Register::FIRST_ARGUMENT),
            Call::Waitid => {
                self.forget(Register::FIRST_ARGUMENT);
                self.forget(Register::SECOND_ARGUMENT);
            }
            Call::Sigprocmask => self.forget(Register::SECOND_ARGUMENT),
            Call::Sigaction => {
                self.put(Register::SECOND_ARGUMENT, old_handler);
                self.forget(Register::THIRD_ARGUMENT);
                self.forget(Register::FOURTH_ARGUMENT);
            }
            Call::Exit | Call::Sigreturn => *self = Known::nothing(),
            _ => {}
        }
    }

    /// Updates what is known for an instruction, after which the process continues at the next one.
    pub fn run(&mut self, instr: &Instr)
        ensures { (c : Cpu) (new : List ℤ) → length c.registers ≡ 8 → IsBehind instr.now c new → Holds self.old c.registers → Holds self.new new }
    {
        match *instr {
            Instr::Set(to, value) => self.put(to, Held::Constant(value)),
            Instr::Move(to, from) => match self.constant(from) {
                Some(value) => self.put(to, Held::Constant(value)),
                None => self.forget(to),
            },
            Instr::Compute(_, to, _) => self.forget(to),
            Instr::Load(to, _) => self.forget(to),
            // a program that prints an old handler uses it on purpose
            Instr::Note(shown) => {
                if self.constant(shown).is_none() {
                    self.forget(shown);
                }
            }
            Instr::Store(_, _) | Instr::JumpIf(_, _, _) => {}
            Instr::Jump(_) => *self = Known::nothing(),
            Instr::Sys(call) => self.call(call),
        }
    }

    /// Updates what is known at a place. At the target of a jump, nothing is known, because the process may come from
    /// that jump.
    pub fn come_to(&mut self, targets: &Targets, place: usize)
        ensures holds { (registers : List ℤ) → Holds self.old registers → Holds self.new registers }
        ensures nothing { IsTrue (told_of targets.now.are_targets.items place) → (registers : List ℤ) → Holds self.new registers }
    {
        if targets.have(place) {
            *self = Known::nothing();
        }
    }
}
