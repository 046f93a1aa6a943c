//! The words of instructions and calls.

use crate::lines::is_listed;
use posix::Call;

/// The operands of an instruction.
#[derive(Clone, Copy, Debug, PartialEq, Eq)]
pub enum Operands {
    /// A register and a value.
    Value,
    /// Two registers.
    Registers,
    /// A label.
    Label,
    /// A register and a label.
    RegisterAndLabel,
    /// A register.
    Register,
    /// A call.
    Call,
}

/// The words that begin instructions, by their operands.
pub static INSTRUCTIONS: [(&str, Operands); 6] = [
    ("set", Operands::Value),
    (
        "mov add sub mul div rem and or xor ld st",
        Operands::Registers,
    ),
    ("jmp", Operands::Label),
    ("jz jnz jlt", Operands::RegisterAndLabel),
    ("note", Operands::Register),
    ("sys", Operands::Call),
];

/// Returns the operands that follow a word that begins an instruction. Returns `None` if the word begins none.
pub fn operands_of(word: &[u8]) -> Option<Operands> {
    let (_, operands) = INSTRUCTIONS
        .iter()
        .find(|(words, _)| is_listed(words, word))?;
    Some(*operands)
}

/// Returns true if a word begins an instruction.
pub fn is_instruction(word: &[u8]) -> bool {
    operands_of(word).is_some()
}

/// Returns true if a word is the name of a call.
pub fn is_call(word: &[u8]) -> bool {
    Call::named(word).is_some()
}
