//! Instructions of the user machine.

ghost use Rattle.std.specs.Prelude.{◌≡◌, ◌<◌, ◌↔◌, IsSome, IfSome};

use crate::call::Call;
use crate::sig::Sig;
use std::marker::Model;

/// One of the eight registers r0 to r7.
#[derive(Clone, Copy)]
pub struct Register {
    number: u8,
}

impl Model for Register {
    ghost use Rattle.std.specs.Prelude.{ℕ, ◌<◌};

    ghost Value = { ℕ };

    ghost view = { λ r. r.number };

    ghost invariant = { λ r. r.number < 8 };

    ghost inverse = { λ n. record { number = n } };
}

impl Register {
    /// r0, which gets the result of a call.
    pub const RESULT: Register = Register { number: 0 };

    /// r1, which holds the first argument of a call, and gets a second result.
    pub const FIRST_ARGUMENT: Register = Register { number: 1 };

    /// r2, which holds the second argument of a call.
    pub const SECOND_ARGUMENT: Register = Register { number: 2 };

    /// r3, which holds the third argument of a call.
    pub const THIRD_ARGUMENT: Register = Register { number: 3 };

    /// r4, which holds the fourth argument of a call.
    pub const FOURTH_ARGUMENT: Register = Register { number: 4 };

    /// Returns the register `number`, or `None` from 8 on.
    pub fn new(number: u8) -> Option<Register>
        ensures some { IsSome result ↔ (number < 8) }
        ensures value { IfSome result (λ r. r ≡ number) }
    {
        if number < 8 {
            Some(Register { number })
        } else {
            None
        }
    }

    /// Returns the register's index in an array of the eight registers.
    pub fn index(self) -> usize
        ensures value { result ≡ self }
        ensures within { result < 8 }
    {
        usize::from(self.number)
    }
}

/// An operator on two words. Results wrap (own).
#[derive(Clone, Copy)]
pub enum Operator {
    Add,
    Sub,
    Mul,
    /// The quotient, rounded towards 0; a SIGFPE fault if the divisor is 0.
    Div,
    /// The remainder of that quotient; a SIGFPE fault if the divisor is 0.
    Rem,
    And,
    Or,
    Xor,
}

/// A condition on one word (own).
#[derive(Clone, Copy)]
pub enum Condition {
    /// The word is 0.
    Zero,
    /// The word isn't 0.
    NotZero,
    /// The word is below 0.
    Negative,
}

/// An instruction of the user machine (own). The instruction at index i of a program has code address 16 + i.
#[derive(Clone, Copy)]
pub enum Instr {
    /// `set rA, V`: rA := V.
    Set(Register, i64),
    /// `mov rA, rB`: rA := rB.
    Move(Register, Register),
    /// `add rA, rB` and the like: rA := rA operator rB.
    Compute(Operator, Register, Register),
    /// `ld rA, rB`: rA := the word at the address in rB; a SIGSEGV fault if the address is not 0 to 255.
    Load(Register, Register),
    /// `st rA, rB`: the word at the address in rB := rA; a SIGSEGV fault if the address is not 0 to 255.
    Store(Register, Register),
    /// `jmp L`: jumps to a code address.
    Jump(u16),
    /// `jz rA, L` and the like: jumps to a code address if rA meets the condition.
    JumpIf(Condition, Register, u16),
    /// `note rA`: prints rA in the trace.
    Note(Register),
    /// `sys NAME`: makes the system call of that name.
    Sys(Call),
}

/// The result of running one instruction, for the kernel (own).
#[derive(Clone, Copy)]
pub enum Trap {
    /// The instruction was executed.
    Next,
    /// The instruction is a system call; the pc stays at it.
    Call(Call),
    /// A value is to be printed in the trace.
    Note(i64),
    /// A machine fault with this signal; the pc stays at the instruction.
    Fault(Sig),
}
