//! The first difference between the lines of two runs. The lines are compared process by process.

ghost use Rattle.std.specs.Prelude.{◌≡◌, ◌↔◌, IfSome, IsNone, IsTrue, Some, option_map};
ghost use Rattle.std.specs.Option.{option_copied};
ghost use Rattle.counting.specs.Patterns.{shown as shown_of};

use counting::{Line, process_number, shown};
use std::alloc::{AllocError, Global};
use std::collections::HashMap;

/// A line of a run, and the line of another run in its place, if there is one.
#[derive(Clone, Copy)]
pub struct Unlike {
    pub line: Line,
    pub other: Option<Line>,
}

/// Returns true if two lines are equal except for their event numbers.
fn is_alike(line: &Line, other: &Line) -> bool
    ensures { IsTrue result ↔ (shown_of line.now.entry ≡ shown_of other.now.entry) }
{
    let (mut room, mut other_room) = ([0; 128], [0; 128]);
    shown(line.entry(), &mut room) == shown(other.entry(), &mut other_room)
}

/// Returns a line with the other run's line in its place, unless they are equal except for their event numbers.
fn unlike_of(line: &Line, other: Option<&Line>) -> Option<Unlike>
    ensures alike { IsNone result ↔ (option_map (λ l. shown_of l.entry) (option_copied other.entry) ≡ Some (shown_of line.now.entry)) }
    ensures unlike { IfSome result (λ unlike. (unlike.line ≡ line.now) × (unlike.other ≡ option_copied other.entry)) }
{
    let line = *line;
    match other {
        Some(other) if is_alike(&line, other) => None,
        Some(other) => Some(Unlike {
            line,
            other: Some(*other),
        }),
        None => Some(Unlike { line, other: None }),
    }
}

/// Returns, for each process, where its lines begin among lines that are sorted by process.
fn starts_of(alloc: Global, sorted: &[Line]) -> Result<HashMap<u32, usize>, AllocError> {
    let mut starts = HashMap::new(alloc);
    for (place, line) in sorted.iter().enumerate() {
        let process = process_number(line);
        if !starts.contains_key(&process) {
            starts.insert(process, place)?;
        }
    }
    Ok(starts)
}

/// Returns the next line of a process among lines that are sorted by process, if there is one.
fn next_of<'a>(
    places: &mut HashMap<u32, usize>,
    sorted: &'a [Line],
    process: u32,
) -> Option<&'a Line> {
    let place = places.get_mut(&process)?;
    let line = sorted.get(*place)?;
    *place += 1;
    if process_number(line) == process {
        Some(line)
    } else {
        None
    }
}

/// Returns the first line of a run that differs from the other run's line in its place, if there is one.
///
/// The place of a line is its process and its number among the lines of that process.
pub fn first_unlike(
    alloc: Global,
    lines: &[Line],
    others: &[Line],
) -> Result<Option<Unlike>, AllocError> {
    let mut sorted = Vec::from_slice(alloc, others)?;
    sorted.sort_by_key(process_number)?;
    let mut places = starts_of(alloc, sorted.as_slice())?;
    for line in lines {
        let other = next_of(&mut places, sorted.as_slice(), process_number(line));
        let unlike = unlike_of(line, other);
        if unlike.is_some() {
            return Ok(unlike);
        }
    }
    Ok(None)
}
