//! A world, up to the first line that is rejected by itself, even if all names were defined.

use crate::fault::{Definition, Fault, NameUse, Named, Number, Refusal, Stop, Verdict, refuse};
use crate::instructions::{Operands, is_call, operands_of};
use crate::lines::Line;
use crate::numbers::{judge_end, judge_number};
use crate::words::{is_number, is_register};
use std::alloc::{AllocError, Global};
use text::{Lines, MAX_LINE_LEN, Reason, integer, is_name};
use umach::Program;

/// The largest number of programs of a world.
const MAX_PROGRAMS: usize = 32;

/// What the next line must be.
#[derive(Clone, Copy, Debug, PartialEq, Eq)]
enum Stage {
    Pidmax,
    Consoles,
    Between,
    Within,
}

/// A label, and the program that has it.
#[derive(Clone, Copy)]
pub struct Label<'a> {
    pub is: Definition<'a>,
    pub program: usize,
}

/// What the lines of a world define and use, and the rejected line, if there is one.
#[derive(Drop)]
pub struct World<'a> {
    stage: Stage,
    pub programs: Vec<Definition<'a>>,
    pub labels: Vec<Label<'a>>,
    pub uses: Vec<NameUse<'a>>,
    /// How many instructions the last program has.
    instructions: usize,
    /// The line of the last `end`, or 0.
    end: u64,
    pub refused: Option<(u64, Refusal<'a>)>,
}

impl<'a> World<'a> {
    /// Checks the lines of a world, up to the first that is rejected.
    pub fn judge(alloc: Global, text: &'a [u8]) -> Result<World<'a>, AllocError> {
        let mut world = World {
            stage: Stage::Pidmax,
            programs: Vec::new(alloc),
            labels: Vec::new(alloc),
            uses: Vec::new(alloc),
            instructions: 0,
            end: 0,
            refused: None,
        };
        for (number, line) in (1u64..).zip(Lines(text)) {
            match world.take_line(number, line) {
                Ok(()) => {}
                Err(Stop::Refused(refusal)) => {
                    world.refused = Some((number, refusal));
                    return Ok(world);
                }
                Err(Stop::Memory) => return Err(AllocError),
            }
        }
        Ok(world)
    }

    /// Returns true if the header is not complete yet.
    pub fn is_in_header(&self) -> bool {
        matches!(self.stage, Stage::Pidmax | Stage::Consoles)
    }

    /// Returns the program that the next line is in, if it is in one.
    pub fn inside(&self) -> Option<Definition<'a>> {
        match self.stage {
            Stage::Within => self.programs.last().copied(),
            _ => None,
        }
    }

    /// Returns why the text ends too early after these lines.
    pub fn end_of_text(&self) -> Fault<'a> {
        match self.inside() {
            Some(program) => Fault::ProgramEnds(program),
            None if self.is_in_header() => Fault::HeaderEnds,
            None => Fault::NoPrograms,
        }
    }

    /// Checks the next line, and records what it defines and uses.
    fn take_line(&mut self, number: u64, text: &'a [u8]) -> Verdict<'a> {
        if text.len() > MAX_LINE_LEN {
            return refuse(Reason::LineTooLong, 0, Fault::LongLine);
        }
        let line = Line::new(text);
        if !line.has_words() {
            return Ok(());
        }
        match self.stage {
            Stage::Pidmax => {
                judge_header(line, b"pidmax", Number::Pidmax)?;
                self.stage = Stage::Consoles;
                Ok(())
            }
            Stage::Consoles => {
                judge_header(line, b"consoles", Number::Consoles)?;
                self.stage = Stage::Between;
                Ok(())
            }
            Stage::Between => self.take_program(number, line),
            Stage::Within => self.take_inner(number, line),
        }
    }

    /// Checks a line that must begin a program.
    fn take_program(&mut self, number: u64, line: Line<'a>) -> Verdict<'a> {
        if line.first() != b"program".as_slice() {
            let behind = self.programs.last().map(|last| (last.name, self.end));
            return refuse(Reason::UnknownWord, 0, Fault::NoProgram(behind));
        }
        if self.programs.len() >= MAX_PROGRAMS {
            return refuse(Reason::OutOfRange, 0, Fault::ManyPrograms);
        }
        let name = line.word(1);
        if !is_name(name) {
            return refuse(Reason::UnknownWord, 1, Fault::NoName(Named::Program));
        }
        if let Some(first) = self.programs.iter().find(|known| known.name == name) {
            let fault = Fault::Twice(Named::Program, first.line);
            return refuse(Reason::NameTwice, 1, fault);
        }
        self.programs
            .push(Definition { name, line: number })
            .map_err(AllocError::from)?;
        judge_settings(line)?;
        self.instructions = 0;
        self.stage = Stage::Within;
        Ok(())
    }

    /// Checks a line within a program.
    fn take_inner(&mut self, number: u64, line: Line<'a>) -> Verdict<'a> {
        let word = line.first();
        if word == b"program".as_slice() {
            let fault = self.inside().map_or(Fault::Unsaid, Fault::Within);
            return refuse(Reason::UnknownWord, 0, fault);
        }
        if word == b"end".as_slice() {
            if line.count() > 1 {
                return refuse(Reason::UnknownWord, 1, Fault::EndNotAlone);
            }
            self.stage = Stage::Between;
            self.end = number;
            return Ok(());
        }
        match word {
            [name @ .., b':'] if is_name(name) => self.take_label(number, line, name),
            _ => self.take_instruction(number, line),
        }
    }

    /// Returns the number of the last program, from 0.
    fn program(&self) -> usize {
        self.programs.len().saturating_sub(1)
    }

    /// Checks a line with a label.
    fn take_label(&mut self, number: u64, line: Line<'a>, name: &'a [u8]) -> Verdict<'a> {
        let program = self.program();
        let mut labels = self.labels.iter();
        if let Some(first) = labels.find(|known| known.program == program
            && known.is.name == name)
        {
            let fault = Fault::Twice(Named::Label, first.is.line);
            return refuse(Reason::NameTwice, 0, fault);
        }
        let is = Definition { name, line: number };
        self.labels
            .push(Label { is, program })
            .map_err(AllocError::from)?;
        if line.count() > 1 {
            return refuse(Reason::UnknownWord, 1, Fault::LabelNotAlone);
        }
        Ok(())
    }

    /// Checks a line with an instruction.
    fn take_instruction(&mut self, number: u64, line: Line<'a>) -> Verdict<'a> {
        let Some(operands) = operands_of(line.first()) else {
            return refuse(Reason::UnknownWord, 0, Fault::NoInstruction);
        };
        if self.instructions >= Program::MAX_LEN {
            return refuse(Reason::OutOfRange, 0, Fault::ManyInstructions);
        }
        self.instructions = self.instructions.saturating_add(1);
        self.take_operands(number, line, operands)?;
        let most = match operands {
            Operands::Call | Operands::Label | Operands::Register => 2,
            Operands::Value | Operands::Registers | Operands::RegisterAndLabel => 3,
        };
        judge_end(line, most)
    }

    /// Checks the operands of an instruction.
    fn take_operands(&mut self, number: u64, line: Line<'a>, operands: Operands) -> Verdict<'a> {
        match operands {
            Operands::Call if is_call(line.word(1)) => Ok(()),
            Operands::Call => refuse(Reason::UnknownWord, 1, Fault::NoCall),
            Operands::Label => self.take_name(number, line, 1),
            Operands::Register => judge_register(line, 1),
            Operands::Value => {
                judge_register(line, 1)?;
                self.take_value(number, line)
            }
            Operands::Registers => {
                judge_register(line, 1)?;
                judge_register(line, 2)
            }
            Operands::RegisterAndLabel => {
                judge_register(line, 1)?;
                self.take_name(number, line, 2)
            }
        }
    }

    /// Checks the form of the name of a label, and records its use.
    fn take_name(&mut self, number: u64, line: Line<'a>, place: usize) -> Verdict<'a> {
        let name = line.word(place);
        if !is_name(name) {
            return refuse(Reason::UnknownWord, place, Fault::NoName(Named::Label));
        }
        self.take_use(number, place, name, Named::Label)
    }

    /// Records that a line uses a name.
    fn take_use(&mut self, number: u64, place: usize, name: &'a [u8], named: Named) -> Verdict<'a> {
        let program = self.program();
        let used = NameUse {
            name,
            line: number,
            place,
            named,
            program,
        };
        self.uses.push(used).map_err(AllocError::from)?;
        Ok(())
    }

    /// Checks the value of `set`.
    fn take_value(&mut self, number: u64, line: Line<'a>) -> Verdict<'a> {
        match line.word(2) {
            [] => refuse(Reason::UnknownWord, 2, Fault::NoValue),
            [b'@', name @ ..] => self.take_marked(number, name, Named::Label),
            [b'$', name @ ..] => self.take_marked(number, name, Named::Program),
            word => match integer(word) {
                Ok(_) => Ok(()),
                Err(Reason::BadNumber) => {
                    let program = self.programs.last().map_or(0, |program| program.line);
                    refuse(Reason::BadNumber, 2, Fault::BadValue(program))
                }
                Err(_) => refuse(Reason::OutOfRange, 2, Fault::WideValue),
            },
        }
    }

    /// Checks the form of a name after `@` or `$`, and records its use.
    fn take_marked(&mut self, number: u64, name: &'a [u8], named: Named) -> Verdict<'a> {
        if is_name(name) {
            self.take_use(number, 2, name, named)
        } else if is_number(name) {
            refuse(Reason::UnknownWord, 2, Fault::MarkedNumber)
        } else {
            refuse(Reason::UnknownWord, 2, Fault::NoMarkedName(named))
        }
    }
}

/// Checks a line of the header, which must begin with this word.
fn judge_header<'a>(line: Line<'a>, word: &[u8], number: Number) -> Verdict<'a> {
    if line.first() != word {
        return refuse(Reason::UnknownWord, 0, Fault::NoHeader(number));
    }
    judge_number(line, 1, number)?;
    judge_end(line, 2)
}

/// Checks what follows the name of a program.
fn judge_settings<'a>(line: Line<'a>) -> Verdict<'a> {
    let mut place = 2;
    if line.word(place) == b"setuid".as_slice() {
        judge_number(line, 3, Number::Id)?;
        place = 4;
    }
    if line.word(place) == b"setgid".as_slice() {
        judge_number(line, place + 1, Number::Id)?;
        place += 2;
    }
    if line.count() > place {
        return refuse(Reason::UnknownWord, place, Fault::NoOption);
    }
    Ok(())
}

/// Checks the register at a place.
fn judge_register<'a>(line: Line<'a>, place: usize) -> Verdict<'a> {
    if is_register(line.word(place)) {
        Ok(())
    } else {
        refuse(Reason::UnknownWord, place, Fault::NoRegister)
    }
}
