//! Programs before their names are looked up.

ghost use Rattle.std.specs.Prelude.{◌≡◌, ◌<◌, ◌≤◌, ◌+◌, ◌++◌, ◌∷◌, [], length, true, IfOk, OnOk, OnErr, nat_le};
ghost use Rattle.std.specs.List.{list_all};
ghost use Rattle.posix.specs.Common.{is_instruction, is_program};
ghost use Rattle.text.specs.Names.{new_name as new_name_of};
ghost use Rattle.text.specs.Outlines.{completed, names_for, program_of};
ghost use Rattle.text.specs.Reading.{Answers, AnswersAs, each};
ghost use Rattle.text.specs.WorldTexts.{empty_outline};

use crate::fault::{Reason, TextFault, no_memory};
use crate::names::{Definitions, Name};
use crate::sketch::{Sketch, Use, Written};
use posix::{Gid, Instr, Uid};
use std::alloc::{AllocError, Global};
use std::marker::Model;
use umach::Program;

/// A program of at most 1,000 instructions, whose names are not looked up yet.
#[derive(Drop)]
pub struct Outline {
    setuid: Option<Uid>,
    setgid: Option<Gid>,
    labels: Definitions,
    code: Vec<Written>,
}

impl Model for Outline {
    ghost use Rattle.std.specs.Prelude.{length, ◌≤◌};
    ghost use Rattle.text.specs.Outlines.{Outline as OutlineOf};

    ghost Value = { OutlineOf };

    ghost view = { λ p. record { setuid = p.setuid; setgid = p.setgid; labels = p.labels; code = p.code.items } };

    ghost invariant = { λ p. length p.code.items ≤ 1000 };
}

impl Outline {
    /// Returns a program without instructions. `exec` of the program sets these effective IDs, if there are any.
    pub fn new(alloc: Global, setuid: Option<Uid>, setgid: Option<Gid>) -> Outline
        ensures { result ≡ empty_outline setuid setgid }
    {
        Outline {
            setuid,
            setgid,
            labels: Definitions::new(alloc),
            code: Vec::new(alloc),
        }
    }

    /// Returns true if it has 1,000 instructions, the maximum.
    pub fn is_full(&self) -> bool
        ensures { result ≡ nat_le 1000 (length self.now.code) }
    {
        self.code.len() >= Program::MAX_LEN
    }

    /// Returns a word as a name that no label has yet. A word that is not a name is `UnknownWord`, and the name of a
    /// label is `NameTwice`.
    pub fn new_label(&self, word: &[u8]) -> Result<Name, Reason>
        ensures { result ≡ new_name_of self.now.labels word.now }
    {
        self.labels.new_name(word)
    }

    /// Adds a label for the code address of the next instruction. Fails, without a change, if there is no memory.
    pub fn add_label(&mut self, name: Name) -> Result<(), AllocError>
        ensures ok { OnOk result (self.new ≡ record self.old { labels = self.old.labels ++ record { name = name; number = 16 + length self.old.code } ∷ [] }) }
        ensures err { OnErr result (self.new ≡ self.old) }
    {
        let number = FIRST_ADDRESS + self.code.len() as u16;
        self.labels.push(name, number)
    }

    /// Adds an instruction to a program that has fewer than 1,000. Fails, without a change, if there is no memory.
    pub fn add_instruction(&mut self, line: u64, sketch: Sketch) -> Result<(), AllocError>
        requires { length self.old.code < 1000 }
        ensures ok { OnOk result (self.new ≡ record self.old { code = self.old.code ++ record { line = line; sketch = sketch } ∷ [] }) }
        ensures err { OnErr result (self.new ≡ self.old) }
    {
        self.code.push(Written { line, sketch })?;
        Ok(())
    }

    /// Returns the program, with its names looked up in the names of programs and in its own labels. The first unknown
    /// name is `NameUnknown` at its line. `line` is the line of a fault `Memory`.
    #[tactic(auto, unfolding(crate::specs::Outlines::program_of))]
    pub fn program(
        &self,
        alloc: Global,
        programs: &Definitions,
        line: u64,
    ) -> Result<Program, TextFault>
        ensures answer { Answers result (program_of programs.now self.now) }
        ensures range { IfOk result (λ p. is_program p ≡ true) }
    {
        let names = Names {
            programs,
            labels: &self.labels,
        };
        let instructions = instructions(alloc, names, self.code.as_slice(), line)?;
        Ok(Program::from_parts(self.setuid, self.setgid, instructions))
    }
}

/// The code address of the first instruction of a program.
const FIRST_ADDRESS: u16 = 16;

/// The names that a program may use.
#[derive(Clone, Copy)]
struct Names<'a> {
    programs: &'a Definitions,
    labels: &'a Definitions,
}

impl<'a> Names<'a> {
    /// Returns the names among which a use looks its name up.
    fn of(self, need: Use) -> &'a Definitions
        ensures { result.now ≡ names_for self.entry.programs.now self.entry.labels.now need }
    {
        match need {
            Use::SetProgram(_) => self.programs,
            Use::SetLabel(_) | Use::JumpTo | Use::JumpIf(_, _) => self.labels,
        }
    }
}

/// Returns an instruction with its name looked up. An unknown name is `NameUnknown`.
#[tactic(auto, unfolding(crate::specs::Outlines::completed))]
fn complete(names: Names<'_>, written: &Written) -> Result<Instr, TextFault>
    ensures { result ≡ completed names.entry.programs.now names.entry.labels.now written.now }
{
    match &written.sketch {
        Sketch::Ready(instr) => Ok(*instr),
        Sketch::Lacks(need, name) => match names.of(*need).number_of(name) {
            Some(number) => Ok(need.with_number(number)),
            None => Err(TextFault {
                line: written.line,
                reason: Reason::NameUnknown,
            }),
        },
    }
}

/// Does nothing. Its contract lets a proof use that the word of a `set` is in range, as its type, i64, ensures.
fn range_holds(instr: &Instr)
    ensures { is_instruction instr.now ≡ true }
{
    if let Instr::Set(_, word) = instr {
        let _word = *word;
    }
}

/// Returns instructions with their names looked up, as [`Outline::program`] says.
fn instructions(
    alloc: Global,
    names: Names<'_>,
    code: &[Written],
    line: u64,
) -> Result<Vec<Instr>, TextFault>
    ensures answer { AnswersAs result (λ v. v.items) (each (completed names.entry.programs.now names.entry.labels.now) code.now) }
    ensures len { IfOk result (λ v. length v.items ≡ length code.now) }
    ensures range { IfOk result (λ v. list_all is_instruction v.items ≡ true) }
{
    let Ok(mut instructions) = Vec::with_capacity(alloc, code.len()) else {
        return Err(no_memory(line));
    };
    for written in code {
        match complete(names, written) {
            Ok(instr) => {
                range_holds(&instr);
                instructions.push_reserved(instr);
            }
            Err(fault) => return Err(fault),
        }
    }
    Ok(instructions)
}

/// Returns programs with their names looked up, in their order, as [`Outline::program`] says.
pub fn programs(
    alloc: Global,
    names: &Definitions,
    outlines: &[Outline],
    line: u64,
) -> Result<Vec<Program>, TextFault>
    ensures answer { AnswersAs result (λ v. v.items) (each (program_of names.now) outlines.now) }
    ensures len { IfOk result (λ v. length v.items ≡ length outlines.now) }
    ensures range { IfOk result (λ v. list_all is_program v.items ≡ true) }
{
    let Ok(mut programs) = Vec::with_capacity(alloc, outlines.len()) else {
        return Err(no_memory(line));
    };
    for outline in outlines {
        match outline.program(alloc, names, line) {
            Ok(program) => programs.push_reserved(program),
            Err(fault) => return Err(fault),
        }
    }
    Ok(programs)
}
