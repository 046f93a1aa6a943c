//! Worlds of which some lines were read.

ghost use Rattle.std.specs.Prelude.{◌≡◌, ◌≤◌, length, true, Ok, Err, Some, IfOk, IfSome, MatchOption, MatchResult};
ghost use Rattle.std.specs.List.{list_all};
ghost use Rattle.posix.specs.Common.{is_program};
ghost use Rattle.text.specs.Words.{words};
ghost use Rattle.text.specs.Reading.{Answers, AnswersAs, IsFaultOf};
ghost use Rattle.text.specs.declared.fault.Reason.TheVariants.{Memory};
ghost use Rattle.text.specs.WorldTexts.{Becomes, before_colon as before_colon_of, close_program as closed, consoles_line as consoles_line_of, empty_draft, fault_at_end, header as header_of, inner_line as inner_line_of, instruction_line as instruction_line_of, label_line as label_line_of, line_at as line_at_of, outer_line as outer_line_of, outlines_at, pidmax_line as pidmax_line_of, programs_of, setting as setting_of, world_at_end, world_line as world_line_of, world_of};

use crate::fault::{Reason, TextFault, no_memory};
use crate::instructions::{Operation, operands, operation_named};
use crate::names::Definitions;
use crate::numbers::number_in;
use crate::outline::{Outline, programs};
use crate::words::{first_word, next_word, no_more_words, words_within};
use posix::{Gid, Uid};
use std::alloc::Global;
use std::marker::Model;
use std::mem;
use umach::{Program, World};

/// The largest number of programs of a world.
const MAX_PROGRAMS: usize = 32;

/// What may come next in a world text.
#[derive(Clone, Copy, PartialEq, Eq)]
pub enum Section {
    BeforePidmax,
    BeforeConsoles,
    BetweenPrograms,
    InProgram,
}

/// The contents of the lines of a world text that were read so far.
#[derive(Drop)]
pub struct Draft {
    alloc: Global,
    section: Section,
    pidmax: u32,
    consoles: u8,
    /// The names of the programs that were begun.
    names: Definitions,
    /// The complete programs.
    programs: Vec<Outline>,
    /// The open program.
    opened: Outline,
}

impl Model for Draft {
    ghost use Rattle.std.specs.Prelude.{◌≤◌, ◌+◌, length};
    ghost use Rattle.text.specs.WorldTexts.{Draft as DraftOf, opened_at};

    ghost Value = { DraftOf };

    ghost view = { λ d. record { section = d.section; pidmax = d.pidmax; consoles = d.consoles; names = d.names; programs = d.programs.items; opened = d.opened } };

    ghost invariant = { λ d. (2 ≤ d.pidmax) × (d.pidmax ≤ 4194304) × (d.consoles ≤ 64) × (length d.programs.items + opened_at d.section ≤ 32) };
}

/// Returns the number in a line of the header, from `low` to `high`. No other word may follow it.
#[tactic(auto, unfolding(crate::specs::WorldTexts::header))]
fn header(low: u32, high: u32, line: &[u8]) -> Result<u32, Reason>
    ensures value { result ≡ header_of low high (words line.now) }
    ensures range { IfOk result (λ n. (low ≤ n) × (n ≤ high)) }
{
    let (word, rest) = first_word(line)?;
    let number = number_in(low, high, word)?;
    no_more_words(rest)?;
    Ok(number)
}

/// Returns the number of `setuid U` or `setgid G`, if the line begins with the word `name`, and the rest of the line.
#[tactic(auto, unfolding(crate::specs::WorldTexts::setting))]
fn setting<'a>(name: &[u8], line: &'a [u8]) -> Result<(Option<u32>, &'a [u8]), Reason>
    ensures value { MatchResult result (λ f. setting_of name.now (words line.entry.now) ≡ Ok (record { value = f.0; rest = words f.1.now })) (λ reason. setting_of name.now (words line.entry.now) ≡ Err reason) }
    ensures range { IfOk result (λ f. IfSome f.0 (λ n. n ≤ 2147483647)) }
{
    match next_word(line) {
        Some((_, word, rest)) if word == name => {
            let (word, rest) = first_word(rest)?;
            let number = number_in(0, Uid::MAX, word)?;
            Ok((Some(number), rest))
        }
        _ => Ok((None, line)),
    }
}

/// Returns a word without the `:` at its end; `None` if it has none.
fn before_colon(word: &[u8]) -> Option<&[u8]>
    ensures { MatchOption result (before_colon_of word.now ≡ None) (λ name. before_colon_of word.now ≡ Some name.now) }
{
    word.strip_suffix(b":")
}

impl Draft {
    /// Returns the draft before the first line.
    pub fn new(alloc: Global) -> Draft
        ensures { result ≡ empty_draft }
    {
        Draft {
            alloc,
            section: Section::BeforePidmax,
            pidmax: 2,
            consoles: 0,
            names: Definitions::new(alloc),
            programs: Vec::new(alloc),
            opened: Outline::new(alloc, None, None),
        }
    }

    /// Adds the next line, the `number`-th. Fails, without a change, if its length or a word is rejected, or if there
    /// is no memory.
    pub fn take_line(&mut self, number: u64, line: &[u8]) -> Result<(), Reason>
        ensures { Becomes self.old self.new result (world_line_of number self.old line.now) }
    {
        match next_word(words_within(line)?) {
            Some((_, word, rest)) => self.take_words(number, word, rest),
            None => Ok(()),
        }
    }

    /// Adds a line with a first word, and the words of `rest`.
    #[tactic(auto, unfolding(crate::specs::WorldTexts::line_at))]
    fn take_words(&mut self, number: u64, word: &[u8], rest: &[u8]) -> Result<(), Reason>
        ensures { Becomes self.old self.new result (line_at_of self.old.section number self.old word.now (words rest.now)) }
    {
        match self.section {
            Section::BeforePidmax => self.pidmax_line(word, rest),
            Section::BeforeConsoles => self.consoles_line(word, rest),
            Section::BetweenPrograms => self.outer_line(word, rest),
            Section::InProgram => self.inner_line(number, word, rest),
        }
    }

    /// Adds the line `pidmax N`, N from 2 to 4,194,304.
    #[tactic(auto, unfolding(crate::specs::WorldTexts::pidmax_line))]
    fn pidmax_line(&mut self, word: &[u8], rest: &[u8]) -> Result<(), Reason>
        ensures { Becomes self.old self.new result (pidmax_line_of self.old word.now (words rest.now)) }
    {
        if word != b"pidmax".as_slice() {
            return Err(Reason::UnknownWord);
        }
        self.pidmax = header(2, 4_194_304, rest)?;
        self.section = Section::BeforeConsoles;
        Ok(())
    }

    /// Adds the line `consoles N`, N from 0 to 64.
    #[tactic(auto, unfolding(crate::specs::WorldTexts::consoles_line))]
    fn consoles_line(&mut self, word: &[u8], rest: &[u8]) -> Result<(), Reason>
        ensures { Becomes self.old self.new result (consoles_line_of self.old word.now (words rest.now)) }
    {
        if word != b"consoles".as_slice() {
            return Err(Reason::UnknownWord);
        }
        self.consoles = header(0, 64, rest)? as u8;
        self.section = Section::BetweenPrograms;
        Ok(())
    }

    /// Adds a line between programs: `program NAME`, then optionally `setuid U`, then optionally `setgid G`.
    #[tactic(auto, unfolding(crate::specs::WorldTexts::outer_line, crate::specs::WorldTexts::program_line))]
    fn outer_line(&mut self, word: &[u8], rest: &[u8]) -> Result<(), Reason>
        requires { self.old.section ≡ Section.BetweenPrograms }
        ensures { Becomes self.old self.new result (outer_line_of self.old word.now (words rest.now)) }
    {
        if word != b"program".as_slice() {
            return Err(Reason::UnknownWord);
        }
        if self.programs.len() >= MAX_PROGRAMS {
            return Err(Reason::OutOfRange);
        }
        let (word, rest) = first_word(rest)?;
        let name = self.names.new_name(word)?;
        let (user, rest) = setting(b"setuid", rest)?;
        let (group, rest) = setting(b"setgid", rest)?;
        no_more_words(rest)?;
        let number = self.programs.len() as u16;
        self.names.push(name, number).map_err(|_| Reason::Memory)?;
        self.opened = Outline::new(
            self.alloc,
            user.and_then(Uid::new),
            group.and_then(Gid::new),
        );
        self.section = Section::InProgram;
        Ok(())
    }

    /// Adds a line within a program: an instruction, a label, or `end`.
    #[tactic(auto, unfolding(crate::specs::WorldTexts::inner_line))]
    fn inner_line(&mut self, number: u64, word: &[u8], rest: &[u8]) -> Result<(), Reason>
        requires { self.old.section ≡ Section.InProgram }
        ensures { Becomes self.old self.new result (inner_line_of number self.old word.now (words rest.now)) }
    {
        if word == b"end".as_slice() {
            no_more_words(rest)?;
            return self.close_program();
        }
        if let Some(name) = before_colon(word) {
            return self.label_line(name, rest);
        }
        match operation_named(word) {
            Some(operation) => self.instruction_line(number, operation, rest),
            None => Err(Reason::UnknownWord),
        }
    }

    /// Ends the open program.
    fn close_program(&mut self) -> Result<(), Reason>
        requires { self.old.section ≡ Section.InProgram }
        ensures { Becomes self.old self.new result (Ok (closed self.old)) }
    {
        self.programs.reserve(1)?;
        let outline = mem::replace(&mut self.opened, Outline::new(self.alloc, None, None));
        self.programs.push_reserved(outline);
        self.section = Section::BetweenPrograms;
        Ok(())
    }

    /// Adds a label: a name for the code address of the next instruction.
    #[tactic(auto, unfolding(crate::specs::WorldTexts::label_line))]
    fn label_line(&mut self, word: &[u8], rest: &[u8]) -> Result<(), Reason>
        ensures { Becomes self.old self.new result (label_line_of self.old word.now (words rest.now)) }
    {
        let name = self.opened.new_label(word)?;
        no_more_words(rest)?;
        self.opened.add_label(name)?;
        Ok(())
    }

    /// Adds an instruction. Fails if the program has 1,000 instructions.
    #[tactic(auto, unfolding(crate::specs::WorldTexts::instruction_line))]
    fn instruction_line(
        &mut self,
        number: u64,
        operation: Operation,
        rest: &[u8],
    ) -> Result<(), Reason>
        ensures { Becomes self.old self.new result (instruction_line_of number self.old operation (words rest.now)) }
    {
        if self.opened.is_full() {
            return Err(Reason::OutOfRange);
        }
        let sketch = operands(operation, rest)?;
        self.opened.add_instruction(number, sketch)?;
        Ok(())
    }

    /// Returns the programs that were begun, with their names looked up. The first unknown name is `NameUnknown` at its
    /// line. `line` is the line of a fault `Memory`.
    fn completed(&self, line: u64) -> Result<Vec<Program>, TextFault>
        ensures answer { AnswersAs result (λ v. v.items) (programs_of self.now) }
        ensures len { IfOk result (λ v. length v.items ≡ length (outlines_at self.now.section self.now.programs self.now.opened)) }
        ensures range { IfOk result (λ v. list_all is_program v.items ≡ true) }
    {
        let names = &self.names;
        let mut programs = programs(self.alloc, names, self.programs.as_slice(), line)?;
        let Section::InProgram = self.section else {
            return Ok(programs);
        };
        let program = self.opened.program(self.alloc, names, line)?;
        match programs.push(program) {
            Ok(()) => Ok(programs),
            Err(_) => Err(no_memory(line)),
        }
    }

    /// Returns the fault of a text that has this fault after the lines so far: the fault of the first name that these
    /// lines use and do not define, or otherwise this fault. After a fault `Memory`, no name is looked up: the rest of
    /// the text could define it.
    #[tactic(auto, unfolding(crate::specs::WorldTexts::world_of))]
    pub fn refused(&self, fault: TextFault) -> TextFault
        ensures answer { IsFaultOf (world_of self.now (Some fault)) result }
        ensures memory { fault.reason ≡ Memory → result.reason ≡ Memory }
    {
        if fault.reason == Reason::Memory {
            return fault;
        }
        match self.completed(fault.line) {
            Ok(_) => fault,
            Err(unknown) => unknown,
        }
    }

    /// Returns the fault of a text that ends here, if it has one. `line` is the number of its lines plus one.
    fn fault_at_end(&self, line: u64) -> Option<TextFault>
        ensures { result ≡ fault_at_end self.now.section self.now.programs line }
    {
        let reason = match self.section {
            Section::BetweenPrograms if self.programs.is_empty() => Reason::NoProgram,
            Section::BetweenPrograms => return None,
            Section::BeforePidmax | Section::BeforeConsoles | Section::InProgram => {
                Reason::EndMissing
            }
        };
        Some(TextFault { line, reason })
    }

    /// Returns the world of a text that ends here. `line` is the number of its lines plus one, the line of a fault at
    /// the end: `EndMissing` within the header or a program, `NoProgram` after the header. An unknown name is reported
    /// before such a fault.
    #[tactic(auto, unfolding(crate::specs::WorldTexts::world_of))]
    pub fn finish(&self, line: u64) -> Result<World, TextFault>
        ensures { Answers result (world_at_end self.now line) }
    {
        if let Some(fault) = self.fault_at_end(line) {
            return Err(self.refused(fault));
        }
        let programs = self.completed(line)?;
        Ok(World::new(self.pidmax, self.consoles, programs))
    }
}
