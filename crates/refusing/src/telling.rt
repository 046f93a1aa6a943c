//! The report of a rejected text.

ghost use Rattle.std.specs.Prelude.{◌≡◌, ◌⊎◌, IfOk, IfSome, MatchOption, None};
ghost use Rattle.judging.specs.Lines.{last_with_words as last_with_words_of};
ghost use Rattle.refusing.specs.Sections.{section_line};
ghost use Rattle.refusing.specs.Sights.{view_at, view_of};
ghost use Rattle.refusing.specs.Telling.{EndsEarly, IsLineShown, IsNumber, IsShownOf, ShowsLine, line_or_empty as line_or_empty_of};

use crate::sight::{Sight, without_return, words_at};
use crate::why::{Seen, put_why};
use judging::{
    Fault, Line, Mistake, Note, Refusal, World, has_one_line, is_listed, last_with_words, line_at,
    lower, mistake_of, no_text, refusal_of,
};
use std::alloc::{AllocError, Global};
use text::{Lines, Reason, TextFault};
use wording::Prose;

/// A rejected text.
#[derive(Clone, Copy)]
pub struct Refused<'a> {
    /// The text as the user wrote it.
    pub given: &'a [u8],
    /// The text with numbers for its names.
    pub named: &'a [u8],
    /// The messages about its names, each on a line with its number.
    pub told: &'a [u8],
    pub fault: TextFault,
}

/// A section of docs/ERRORS.md.
#[derive(Clone, Copy)]
pub enum Section {
    Header,
    Programs,
    ProgramLines,
    Events,
}

impl Section {
    /// Returns the line of a report that refers to this section.
    pub fn line(self) -> &'static str
        ensures { result.now ≡ section_line self }
    {
        match self {
            Section::Header => "  see docs/ERRORS.md, \"The header of a world\"\n",
            Section::Programs => "  see docs/ERRORS.md, \"Programs\"\n",
            Section::ProgramLines => "  see docs/ERRORS.md, \"Program lines\"\n",
            Section::Events => "  see docs/ERRORS.md, \"Events\"\n",
        }
    }

    /// Returns the section about a rejected line of a world.
    fn of_world(world: &World<'_>, refusal: &Refusal<'_>, line: Line<'_>) -> Section {
        let reason = refusal.reason;
        if reason == Reason::NameUnknown {
            return Section::ProgramLines;
        }
        if world.is_in_header() || reason == Reason::NoProgram {
            return Section::Header;
        }
        let is_many = reason == Reason::OutOfRange && refusal.place == 0;
        if reason == Reason::EndMissing || is_many || world.inside().is_none() {
            return Section::Programs;
        }
        let is_word = matches!(reason, Reason::UnknownWord | Reason::NameTwice);
        if is_word && is_listed("program end", lower(line.first()).as_slice()) {
            Section::Programs
        } else {
            Section::ProgramLines
        }
    }
}

/// Returns the first message about the names of a line, if there is one.
fn told_of<'a>(alloc: Global, told: &'a [u8], line: u64) -> Result<Option<&'a [u8]>, AllocError> {
    let begin = format!(in alloc; "jobk: line {line}: ")?;
    Ok(Lines(told).find_map(|fault| fault.strip_prefix(begin.as_bytes())))
}

/// Returns true if a message about the names of a line can be about the word at this place.
fn may_be_name(line: Line<'_>, place: usize) -> bool {
    match line.first() {
        b"set" => place == 2,
        b"key" => place > 1 && line.word(place).starts_with(b"^"),
        _ => true,
    }
}

/// What a report shows of a text.
#[derive(Clone, Copy)]
pub enum Shown<'a> {
    /// No line.
    File,
    /// Only the number of its first line.
    FirstLine,
    /// A line with its number.
    Line(u64, Sight<'a>),
}

/// The report of a rejected text, before it is printed.
#[derive(Drop)]
pub struct Told<'a> {
    pub shown: Shown<'a>,
    pub why: Vec<u8>,
    pub note: Vec<u8>,
    pub section: Section,
    /// True if other faults of the text are reported as well. They are not if this fault may be their cause.
    pub has_others: bool,
}

impl Told<'_> {
    /// Returns the number of the line that is shown, which is then emptied to find the next fault. Returns `None` if no
    /// line is shown, or if this fault may be the cause of others, as in the header.
    pub fn left_out(&self) -> Option<u64>
        ensures { IfSome result (ShowsLine self.now.shown) }
    {
        match self.shown {
            Shown::Line(number, _) if self.has_others => Some(number),
            _ => None,
        }
    }
}

/// Returns the report of a file that is not text.
fn told_of_file<'a>(alloc: Global, what: &str, section: Section) -> Result<Told<'a>, AllocError>
    ensures { IfOk result (λ told. told.shown ≡ Shown.FirstLine) }
{
    Ok(Told {
        shown: Shown::FirstLine,
        why: Vec::from_slice(alloc, what.as_bytes())?,
        note: Vec::new(alloc),
        section,
        has_others: false,
    })
}

/// Returns what is shown of a line that is rejected for this reason. `line` has numbers for names, `given` is as the
/// user wrote it, and `place` is the place of the wrong word in `line`.
fn sight_of<'a>(reason: Reason, line: &[u8], given: &'a [u8], place: usize) -> Sight<'a>
    ensures { view_of result ≡ view_at reason line.now given.entry.now place }
{
    match reason {
        Reason::LineTooLong => Sight::of_beginning(given),
        Reason::EndMissing | Reason::NoProgram => Sight::of_missing(given),
        _ => Sight::of_words(given, words_at(line, given, place)),
    }
}

/// Returns what is shown of the line with this number. `line` is that line with numbers for names, and `place` is the
/// place of its wrong word. Returns [`Shown::File`] if there is no such line.
fn shown_of<'a>(refused: &Refused<'a>, number: Option<u64>, line: &[u8], place: usize) -> Shown<'a>
    ensures { MatchOption number (result ≡ Shown.File) (λ n. IsLineShown refused.now.fault.reason n refused.now.given.now line.now result) }
{
    let Some(number) = number else {
        return Shown::File;
    };
    match line_at(refused.given, number) {
        Some(given) => {
            let reason = refused.fault.reason;
            let sight = sight_of(reason, line, without_return(given), place);
            Shown::Line(number, sight)
        }
        None => Shown::File,
    }
}

/// Returns the line with this number; an empty one if there is no such line.
fn line_or_empty(text: &[u8], number: u64) -> &[u8]
    ensures { result.now ≡ line_or_empty_of number text.now }
{
    line_at(text, number).unwrap_or(&[])
}

/// Returns the message about a word of a line: about its name, if there is such a message; otherwise about the word.
fn why_of(
    alloc: Global,
    refused: &Refused<'_>,
    seen: &Seen<'_, '_>,
    number: u64,
    refusal: &Refusal<'_>,
) -> Result<Vec<u8>, AllocError> {
    let mut why = Prose::new(alloc);
    let line = Line::new(seen.line);
    let told = if refusal.reason != Reason::NameUnknown && may_be_name(line, refusal.place) {
        told_of(alloc, refused.told, number)
    } else {
        Ok(None)
    };
    match why.found(told) {
        Some(told) => why.push_bytes(told),
        None => put_why(&mut why, seen, refusal),
    }
    why.finish()
}

/// Returns the message about a file that is not text, if its first line is rejected and shows that.
fn no_text_of(refused: &Refused<'_>) -> Option<&'static str>
    ensures { IfSome result (λ _. refused.now.fault.line ≡ 1) }
{
    if refused.fault.line == 1 {
        no_text(line_or_empty(refused.named, 1), has_one_line(refused.named))
    } else {
        None
    }
}

/// Returns the number of the line to show: the line of the mistake. If the text ends too early, it is the last line
/// with words before the fault, if there is one, because what is missing belongs after this line.
fn number_of(refused: &Refused<'_>, mistake: u64) -> Option<u64>
    requires { EndsEarly refused.now.fault.reason ⊎ IsNumber refused.now.fault.reason refused.now.fault.line refused.now.named.now mistake }
    ensures { MatchOption result (EndsEarly refused.now.fault.reason × (last_with_words_of refused.now.fault.line refused.now.named.now ≡ None)) (IsNumber refused.now.fault.reason refused.now.fault.line refused.now.named.now) }
{
    match refused.fault.reason {
        Reason::EndMissing | Reason::NoProgram => last_with_words(
            refused.named,
            refused.fault.line,
        ),
        _ => Some(mistake),
    }
}

/// Returns the report of a fault of events.
#[tactic(auto, using(crate::proofs::TellingLemmas::own_line))]
pub fn told_of_events<'a>(
    alloc: Global,
    refused: &Refused<'a>,
    consoles: u8,
) -> Result<Told<'a>, AllocError>
    ensures { IfOk result (λ told. IsShownOf refused.now.fault refused.now.given.now refused.now.named.now told.shown) }
{
    if let Some(what) = no_text_of(refused) {
        return told_of_file(alloc, what, Section::Events);
    }
    let number = number_of(refused, refused.fault.line);
    let here = number.unwrap_or(0);
    let line = line_or_empty(refused.named, here);
    let refusal = refusal_of(line, consoles, refused.fault.reason);
    let seen = Seen {
        text: refused.named,
        line,
        given: line_or_empty(refused.given, here),
        world: None,
    };
    Ok(Told {
        shown: shown_of(refused, number, line, refusal.place),
        why: why_of(alloc, refused, &seen, here, &refusal)?,
        note: Vec::new(alloc),
        section: Section::Events,
        has_others: true,
    })
}

/// Returns the mistake that caused a fault of a world. It is in the line of the fault, unless a name is unknown.
fn mistake_in<'a>(
    alloc: Global,
    refused: &Refused<'a>,
    world: &World<'a>,
) -> Result<Mistake<'a>, AllocError>
    ensures { IfOk result (λ mistake. EndsEarly refused.now.fault.reason ⊎ IsNumber refused.now.fault.reason refused.now.fault.line refused.now.named.now mistake.line) }
{
    let TextFault { line, reason } = refused.fault;
    let refusal = match (reason, world.refused) {
        (Reason::NameUnknown, _) => return mistake_of(alloc, refused.named, world, line),
        (Reason::EndMissing | Reason::NoProgram, _) => Refusal {
            reason,
            place: usize::MAX,
            fault: world.end_of_text(),
        },
        (_, Some((number, refusal))) if number == line => refusal,
        _ => Refusal {
            reason,
            place: 0,
            fault: Fault::Unsaid,
        },
    };
    Ok(Mistake {
        line,
        refusal,
        note: None,
    })
}

/// Returns the note about another line. It is empty if there is none.
fn note_of(alloc: Global, note: Option<Note<'_>>) -> Result<Vec<u8>, AllocError> {
    let mut told = Prose::new(alloc);
    match note {
        Some(
            Note::Right {
                line,
                name,
                defined,
            },
        ) => {
            told.push_with("line ", line);
            told.push_word(" is correct: it uses ", name);
            if let Some(defined) = defined {
                told.push_with(", which line ", defined);
                told.push_str(" defines");
            }
            told.push_str(", but definitions are ignored from the rejected line on");
        }
        Some(Note::RefusedToo(line)) => {
            told.push_with("line ", line);
            told.push_str(" is rejected as well");
        }
        None => {}
    }
    told.finish()
}

/// Returns true if the mistake is in a program line, and this line can't be the definition that another line lacks.
/// Such a definition may be the cause of other faults.
fn has_others(fault: TextFault, mistake: &Mistake<'_>, section: Section) -> bool {
    let is_own = fault.reason != Reason::NameUnknown || mistake.line == fault.line;
    let is_between = matches!(
        mistake.note,
        Some(Note::Right {
            defined: Some(_),
            ..
        })
    );
    matches!(section, Section::ProgramLines) && (is_own || is_between)
}

/// Returns the report of a fault of a world.
pub fn told_of_world<'a>(alloc: Global, refused: &Refused<'a>) -> Result<Told<'a>, AllocError>
    ensures { IfOk result (λ told. IsShownOf refused.now.fault refused.now.given.now refused.now.named.now told.shown) }
{
    if let Some(what) = no_text_of(refused) {
        return told_of_file(alloc, what, Section::Header);
    }
    let world = World::judge(alloc, refused.named)?;
    let mistake = mistake_in(alloc, refused, &world)?;
    let number = number_of(refused, mistake.line);
    let here = number.unwrap_or(0);
    let refusal = mistake.refusal;
    let seen = Seen {
        text: refused.named,
        line: line_or_empty(refused.named, here),
        given: line_or_empty(refused.given, here),
        world: Some(&world),
    };
    let section = Section::of_world(&world, &refusal, Line::new(seen.line));
    Ok(Told {
        shown: shown_of(refused, number, seen.line, refusal.place),
        why: why_of(alloc, refused, &seen, here, &refusal)?,
        note: note_of(alloc, mistake.note)?,
        section,
        has_others: has_others(refused.fault, &mistake, section),
    })
}
