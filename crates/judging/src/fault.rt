//! Faults of words and lines.

use std::alloc::AllocError;
use text::Reason;

/// What a name belongs to.
#[derive(Clone, Copy, Debug, PartialEq, Eq)]
pub enum Named {
    Label,
    Program,
}

/// A number in a line, by the word before it.
#[derive(Clone, Copy, Debug, PartialEq, Eq)]
pub enum Number {
    /// After `pidmax`.
    Pidmax,
    /// After `consoles`.
    Consoles,
    /// After `setuid` or `setgid`.
    Id,
    /// After `step` or `tick`.
    Count,
    /// After `key`, in a world with so many consoles.
    KeyConsole(u8),
    /// After `hangup`, in a world with so many consoles.
    HangupConsole(u8),
}

/// A name, and the line that defines it.
#[derive(Clone, Copy)]
pub struct Definition<'a> {
    pub name: &'a [u8],
    pub line: u64,
}

/// A use of a name, with its line, its place in the line, and the number of the program that the line is in.
#[derive(Clone, Copy)]
pub struct NameUse<'a> {
    pub name: &'a [u8],
    pub line: u64,
    pub place: usize,
    pub named: Named,
    pub program: usize,
}

/// What is wrong with a word, or which word is missing.
#[derive(Clone, Copy)]
pub enum Fault<'a> {
    /// Only the reason is known.
    Unsaid,
    LongLine,
    /// A number is missing.
    Missing(Number),
    /// A word that is not a number.
    NoNumber(Number),
    OutOfRange(Number),
    /// The first word of a line of the header is not the one that this number follows.
    NoHeader(Number),
    /// A word after the last one that its line may have.
    TooMany,
    /// A word other than `program` outside programs, with the name of the program before it and the line of its `end`,
    /// if there is one.
    NoProgram(Option<(&'a [u8], u64)>),
    /// A program begins within this one.
    Within(Definition<'a>),
    EndNotAlone,
    LabelNotAlone,
    ManyPrograms,
    ManyInstructions,
    NoName(Named),
    /// No name follows `@` or `$`.
    NoMarkedName(Named),
    Twice(Named, u64),
    /// A word that cannot follow the name of a program.
    NoOption,
    NoInstruction,
    NoCall,
    NoRegister,
    /// The value of `set` is missing.
    NoValue,
    /// A word that is not a value of `set`, in the program that begins in this line.
    BadValue(u64),
    /// A number after `@` or `$`.
    MarkedNumber,
    /// A value of `set` that doesn't fit in 64 bits with a sign.
    WideValue,
    NoEvent,
    /// A line `key` has no byte.
    ByteMissing,
    NoByte,
    ManyConsoles,
    ManyEvents,
    /// The text ends before its header does.
    HeaderEnds,
    /// The text ends within this program.
    ProgramEnds(Definition<'a>),
    /// The text ends after its header.
    NoPrograms,
    /// A line that probably should define a label of this name.
    LabelWritten(&'a [u8]),
    /// A definition without a use, and the use of a similar name that no line defines.
    Unused(Definition<'a>, NameUse<'a>),
    /// The use of a name that no line defines, and the nearest definition, if one is near.
    Unknown(NameUse<'a>, Option<Definition<'a>>),
}

/// Why a line is rejected.
#[derive(Clone, Copy)]
pub struct Refusal<'a> {
    pub reason: Reason,
    /// The place of the word, from 0. If a word is missing, it is a place after the last word.
    pub place: usize,
    pub fault: Fault<'a>,
}

/// Why the check of a line stops.
#[derive(Clone, Copy)]
pub enum Stop<'a> {
    Refused(Refusal<'a>),
    /// Memory ran out.
    Memory,
}

impl From<AllocError> for Stop<'_> {
    fn from(_: AllocError) -> Self {
        Stop::Memory
    }
}

/// The result of the check of a line.
pub type Verdict<'a> = Result<(), Stop<'a>>;

/// Rejects the word at a place.
pub fn refuse<'a>(reason: Reason, place: usize, fault: Fault<'a>) -> Verdict<'a> {
    Err(Stop::Refused(Refusal {
        reason,
        place,
        fault,
    }))
}
