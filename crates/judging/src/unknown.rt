//! Names that no line defines. Definitions are ignored from a rejected line on, so this module looks for them in the
//! text itself.

use crate::fault::{Definition, Fault, NameUse, Named, Refusal};
use crate::lines::{Line, line_at};
use crate::names::is_near;
use crate::world::World;
use std::alloc::{AllocError, Global};
use text::{Lines, Reason, is_name_byte};
use wording::distance;

/// A note about a line other than the shown one.
#[derive(Clone, Copy)]
pub enum Note<'a> {
    /// This line is right: it uses a name that the line `defined` defines. If there is no such line, the shown line
    /// probably should define the name.
    Right {
        line: u64,
        name: &'a [u8],
        defined: Option<u64>,
    },
    /// This line is rejected as well.
    RefusedToo(u64),
}

/// The mistake that makes a name unknown.
#[derive(Clone, Copy)]
pub struct Mistake<'a> {
    pub line: u64,
    pub refusal: Refusal<'a>,
    pub note: Option<Note<'a>>,
}

/// Returns the first line after the line `from` that defines the label, within the program that begins there.
pub fn label_line(text: &[u8], name: &[u8], from: u64) -> Option<u64> {
    for (number, line) in (1u64..).zip(Lines(text)).skip(from as usize) {
        let line = Line::new(line);
        if line.first().strip_suffix(b":") == Some(name) {
            return Some(number);
        }
        if ends_program(line) {
            return None;
        }
    }
    None
}

/// Returns true if a line ends a program, or begins the next one.
fn ends_program(line: Line<'_>) -> bool {
    let word = line.first();
    let count = line.count();
    (word == b"end".as_slice() && count == 1) || (word == b"program".as_slice() && count > 1)
}

/// Returns the first line that begins a program of this name.
pub fn program_line(text: &[u8], name: &[u8]) -> Option<u64> {
    let (number, _) = (1u64..).zip(Lines(text)).find(|(_, line)| {
        let line = Line::new(line);
        line.first() == b"program".as_slice() && line.word(1) == name
    })?;
    Some(number)
}

/// Returns true if a line probably should define a label.
fn resembles_label(alloc: Global, line: Line<'_>, name: &[u8]) -> Result<bool, AllocError> {
    let word = line.first();
    match word.iter().position(|b| *b == b':') {
        Some(colon) => is_near(alloc, name, &word[..colon]),
        None => Ok(line.count() == 1 && is_near(alloc, name, word)?),
    }
}

/// Returns true if a line probably should define a name.
fn resembles(alloc: Global, line: Line<'_>, used: &NameUse<'_>) -> Result<bool, AllocError> {
    match used.named {
        Named::Label => resembles_label(alloc, line, used.name),
        Named::Program if line.word(1) == used.name => Ok(true),
        Named::Program => {
            Ok(line.first() == b"program".as_slice() && is_near(alloc, used.name, line.word(1))?)
        }
    }
}

/// Returns how many times a name occurs in a text as a word, including comments.
fn mentions(text: &[u8], name: &[u8]) -> usize {
    text.split(|b| !is_name_byte(*b))
        .filter(|word| *word == name)
        .count()
}

/// Returns true if a word is another one with a letter doubled.
fn doubles(word: &[u8], other: &[u8]) -> bool {
    (1..=other.len()).any(|end| word.strip_prefix(&other[..end]) == Some(&other[end - 1..]))
}

/// Returns true if `wrong`, a definition without a use, is probably a misspelling of `right`, an undefined name that is
/// used once.
fn is_typo(text: &[u8], right: &[u8], wrong: &[u8]) -> bool {
    let (of_right, of_wrong) = (mentions(text, right), mentions(text, wrong));
    if of_right != of_wrong {
        of_right > of_wrong
    } else if right.len() == wrong.len() {
        false
    } else if doubles(wrong, right) {
        true
    } else {
        wrong.len() < right.len() && !doubles(right, wrong)
    }
}

/// Returns the mistake in the line that is rejected by itself, if that line is the definition of the name, comes before
/// it, or probably should define the name.
fn refused_definition<'a>(
    alloc: Global,
    text: &'a [u8],
    world: &World<'a>,
    used: NameUse<'a>,
) -> Result<Option<Mistake<'a>>, AllocError> {
    let Some((refused, refusal)) = world.refused else {
        return Ok(None);
    };
    let defined = match used.named {
        Named::Label => {
            let from = world
                .programs
                .get(used.program)
                .map_or(0, |program| program.line);
            label_line(text, used.name, from)
        }
        Named::Program => program_line(text, used.name),
    };
    let below = defined.filter(|line| *line >= refused);
    let line = Line::new(line_at(text, refused).unwrap_or(&[]));
    if below.is_none() && !resembles(alloc, line, &used)? {
        return Ok(None);
    }
    let mut refusal = refusal;
    if below.is_none() && used.named == Named::Label {
        refusal.fault = Fault::LabelWritten(used.name);
    }
    let note = Note::Right {
        line: used.line,
        name: used.name,
        defined: below,
    };
    Ok(Some(Mistake {
        line: refused,
        refusal,
        note: Some(note),
    }))
}

/// Returns true if both uses are of programs, or of labels in the same program.
fn are_alike(used: &NameUse<'_>, other: &NameUse<'_>) -> bool {
    used.named == other.named && (used.named == Named::Program || used.program == other.program)
}

/// Returns how many uses a name has that are of the same kind as `like`, and in the same program for labels.
fn uses_of(world: &World<'_>, like: &NameUse<'_>, name: &[u8]) -> usize {
    world
        .uses
        .iter()
        .filter(|used| are_alike(like, used) && used.name == name)
        .count()
}

/// Returns the definitions that a use can refer to.
fn candidates<'a>(
    alloc: Global,
    world: &World<'a>,
    used: &NameUse<'_>,
) -> Result<Vec<Definition<'a>>, AllocError> {
    match used.named {
        Named::Program => world.programs.iter().copied().collect(alloc),
        Named::Label => world
            .labels
            .iter()
            .filter(|label| label.program == used.program)
            .map(|label| label.is)
            .collect(alloc),
    }
}

/// A defined name that is near to an undefined one.
#[derive(Clone, Copy)]
struct Near<'a> {
    is: Definition<'a>,
    is_used: bool,
    distance: usize,
}

/// Returns the nearest defined name, if one is near. Names without a use come first.
fn nearest_defined<'a>(
    alloc: Global,
    world: &World<'a>,
    used: &NameUse<'_>,
) -> Result<Option<Near<'a>>, AllocError> {
    let mut best: Option<Near<'a>> = None;
    for is in &candidates(alloc, world, used)? {
        let Some(distance) = distance(alloc, used.name, is.name)? else {
            continue;
        };
        let near = Near {
            is: *is,
            is_used: uses_of(world, used, is.name) > 0,
            distance,
        };
        if best.is_none_or(|best| (near.is_used, near.distance) < (best.is_used, best.distance)) {
            best = Some(near);
        }
    }
    Ok(best)
}

/// Returns the mistake if no line defines a name that a line uses: in the definition of a near name, or in the use.
fn undefined<'a>(
    alloc: Global,
    text: &[u8],
    world: &World<'a>,
    used: NameUse<'a>,
) -> Result<Mistake<'a>, AllocError> {
    let near = nearest_defined(alloc, world, &used)?;
    let note = world.refused.map(|(refused, _)| Note::RefusedToo(refused));
    let (line, place, fault) = match near {
        Some(near)
            if !near.is_used
                && (uses_of(world, &used, used.name) > 1
                    || is_typo(text, used.name, near.is.name)) => {
            let place = usize::from(used.named == Named::Program);
            (near.is.line, place, Fault::Unused(near.is, used))
        }
        _ => {
            let near = near.map(|near| near.is);
            (used.line, used.place, Fault::Unknown(used, near))
        }
    };
    let refusal = Refusal {
        reason: Reason::NameUnknown,
        place,
        fault,
    };
    Ok(Mistake {
        line,
        refusal,
        note,
    })
}

/// Returns the mistake that makes a name in this line unknown. It may be in another line.
pub fn mistake_of<'a>(
    alloc: Global,
    text: &'a [u8],
    world: &World<'a>,
    line: u64,
) -> Result<Mistake<'a>, AllocError> {
    let Some(used) = world.uses.iter().find(|used| used.line == line).copied() else {
        return Ok(Mistake {
            line,
            refusal: Refusal {
                reason: Reason::NameUnknown,
                place: 0,
                fault: Fault::Unsaid,
            },
            note: None,
        });
    };
    match refused_definition(alloc, text, world, used)? {
        Some(mistake) => Ok(mistake),
        None => undefined(alloc, text, world, used),
    }
}
