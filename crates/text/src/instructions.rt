//! Instructions in a world text.

ghost use Rattle.std.specs.Prelude.{◌≡◌};
ghost use Rattle.text.specs.Words.{words};
ghost use Rattle.text.specs.Instructions.{lacking as lacking_of, operands as operands_of, operation_named as operation_named_of, register as register_of, set_value as set_value_of, target as target_of, two_registers as two_registers_of};

use crate::fault::Reason;
use crate::names::Name;
use crate::numbers::integer;
use crate::sketch::{Sketch, Use};
use crate::words::{first_word, no_more_words};
use posix::{Call, Condition, Instr, Operator, Register};

/// The operation of an instruction, which its first word names.
#[derive(Clone, Copy)]
pub enum Operation {
    Set,
    Move,
    Compute(Operator),
    Load,
    Store,
    Jump,
    JumpIf(Condition),
    Note,
    Sys,
}

impl Operation {
    ghost use Rattle.std.specs.Prelude.{◌≤◌, length};
    ghost use Rattle.text.specs.Instructions.{operation_text};

    /// Every operation.
    const ALL: [Operation; 18] = [
        Operation::Set,
        Operation::Move,
        Operation::Compute(Operator::Add),
        Operation::Compute(Operator::Sub),
        Operation::Compute(Operator::Mul),
        Operation::Compute(Operator::Div),
        Operation::Compute(Operator::Rem),
        Operation::Compute(Operator::And),
        Operation::Compute(Operator::Or),
        Operation::Compute(Operator::Xor),
        Operation::Load,
        Operation::Store,
        Operation::Jump,
        Operation::JumpIf(Condition::Zero),
        Operation::JumpIf(Condition::NotZero),
        Operation::JumpIf(Condition::Negative),
        Operation::Note,
        Operation::Sys,
    ];

    /// Returns the word of the operation, of at most 4 bytes.
    fn text(self) -> &'static [u8]
        ensures text { result.now ≡ operation_text self }
        ensures len { length result.now ≤ 4 }
    {
        match self {
            Operation::Set => b"set",
            Operation::Move => b"mov",
            Operation::Compute(Operator::Add) => b"add",
            Operation::Compute(Operator::Sub) => b"sub",
            Operation::Compute(Operator::Mul) => b"mul",
            Operation::Compute(Operator::Div) => b"div",
            Operation::Compute(Operator::Rem) => b"rem",
            Operation::Compute(Operator::And) => b"and",
            Operation::Compute(Operator::Or) => b"or",
            Operation::Compute(Operator::Xor) => b"xor",
            Operation::Load => b"ld",
            Operation::Store => b"st",
            Operation::Jump => b"jmp",
            Operation::JumpIf(Condition::Zero) => b"jz",
            Operation::JumpIf(Condition::NotZero) => b"jnz",
            Operation::JumpIf(Condition::Negative) => b"jlt",
            Operation::Note => b"note",
            Operation::Sys => b"sys",
        }
    }
}

/// Returns the operation that a word names.
#[tactic(auto, unfolding(crate::specs::Instructions::operation_named))]
pub fn operation_named(word: &[u8]) -> Option<Operation>
    ensures { result ≡ operation_named_of word.now }
{
    Operation::ALL
        .iter()
        .copied()
        .find(|operation| word == operation.text())
}

/// Returns the register that a word names, `r0` to `r7`. Any other word is `UnknownWord`.
fn register(word: &[u8]) -> Result<Register, Reason>
    ensures { result ≡ register_of word.now }
{
    match word {
        [b'r', digit @ b'0'..=b'7'] => Register::new(digit - b'0').ok_or(Reason::UnknownWord),
        _ => Err(Reason::UnknownWord),
    }
}

/// Returns an instruction with a name to look up. A word that is not a name is `UnknownWord`.
fn lacking(need: Use, word: &[u8]) -> Result<Sketch, Reason>
    ensures { result ≡ lacking_of need word.now }
{
    Ok(Sketch::Lacks(need, Name::new(word)?))
}

/// Returns the `set` of a register to the value of a word: an i64, `@` and a label, or `$` and a program.
fn set_value(register: Register, word: &[u8]) -> Result<Sketch, Reason>
    ensures { result ≡ set_value_of register word.now }
{
    match word {
        [] => Err(Reason::UnknownWord),
        [b'@', name @ ..] => lacking(Use::SetLabel(register), name),
        [b'$', name @ ..] => lacking(Use::SetProgram(register), name),
        _ => Ok(Sketch::Ready(Instr::Set(register, integer(word)?))),
    }
}

/// Returns the operands of `mov`, of a computation, or of `ld` or `st`: `rA, rB`.
#[tactic(auto, unfolding(crate::specs::Instructions::two_registers))]
fn two_registers(line: &[u8]) -> Result<(Register, Register), Reason>
    ensures { result ≡ two_registers_of (words line.now) }
{
    let (word, rest) = first_word(line)?;
    let first = register(word)?;
    let (word, rest) = first_word(rest)?;
    let second = register(word)?;
    no_more_words(rest)?;
    Ok((first, second))
}

/// Returns a jump to the label that is the only word of `line`.
#[tactic(auto, unfolding(crate::specs::Instructions::target))]
fn target(need: Use, line: &[u8]) -> Result<Sketch, Reason>
    ensures { result ≡ target_of need (words line.now) }
{
    let (word, rest) = first_word(line)?;
    let sketch = lacking(need, word)?;
    no_more_words(rest)?;
    Ok(sketch)
}

/// Returns the instruction `set` with the operands `rA, V`.
#[tactic(auto, unfolding(crate::specs::Instructions::operands))]
fn set_operands(line: &[u8]) -> Result<Sketch, Reason>
    ensures { result ≡ operands_of Operation.Set (words line.now) }
{
    let (word, rest) = first_word(line)?;
    let register = register(word)?;
    let (word, rest) = first_word(rest)?;
    let sketch = set_value(register, word)?;
    no_more_words(rest)?;
    Ok(sketch)
}

/// Returns a conditional jump with the operands `rA, L`.
#[tactic(auto, unfolding(crate::specs::Instructions::operands))]
fn jump_operands(condition: Condition, line: &[u8]) -> Result<Sketch, Reason>
    ensures { result ≡ operands_of (Operation.JumpIf condition) (words line.now) }
{
    let (word, rest) = first_word(line)?;
    target(Use::JumpIf(condition, register(word)?), rest)
}

/// Returns the instruction `note` with the operand `rA`.
#[tactic(auto, unfolding(crate::specs::Instructions::operands))]
fn note_operands(line: &[u8]) -> Result<Sketch, Reason>
    ensures { result ≡ operands_of Operation.Note (words line.now) }
{
    let (word, rest) = first_word(line)?;
    let register = register(word)?;
    no_more_words(rest)?;
    Ok(Sketch::Ready(Instr::Note(register)))
}

/// Returns the instruction `sys` with the name of a call.
#[tactic(auto, unfolding(crate::specs::Instructions::operands))]
fn sys_operands(line: &[u8]) -> Result<Sketch, Reason>
    ensures { result ≡ operands_of Operation.Sys (words line.now) }
{
    let (word, rest) = first_word(line)?;
    let call = Call::named(word).ok_or(Reason::UnknownWord)?;
    no_more_words(rest)?;
    Ok(Sketch::Ready(Instr::Sys(call)))
}

/// Returns the instruction whose operands are the words of `line`. A missing or extra word, a malformed register or
/// name, and an unknown call are `UnknownWord`. A value is rejected as by [`integer`].
#[tactic(auto, unfolding(crate::specs::Instructions::operands))]
pub fn operands(operation: Operation, line: &[u8]) -> Result<Sketch, Reason>
    ensures { result ≡ operands_of operation (words line.now) }
{
    match operation {
        Operation::Set => set_operands(line),
        Operation::Move => {
            let (a, b) = two_registers(line)?;
            Ok(Sketch::Ready(Instr::Move(a, b)))
        }
        Operation::Compute(operator) => {
            let (a, b) = two_registers(line)?;
            Ok(Sketch::Ready(Instr::Compute(operator, a, b)))
        }
        Operation::Load => {
            let (a, b) = two_registers(line)?;
            Ok(Sketch::Ready(Instr::Load(a, b)))
        }
        Operation::Store => {
            let (a, b) = two_registers(line)?;
            Ok(Sketch::Ready(Instr::Store(a, b)))
        }
        Operation::Jump => target(Use::JumpTo, line),
        Operation::JumpIf(condition) => jump_operands(condition, line),
        Operation::Note => note_operands(line),
        Operation::Sys => sys_operands(line),
    }
}
