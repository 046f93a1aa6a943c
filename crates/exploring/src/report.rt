//! The report on a family whose schedules were counted.

ghost use Rattle.std.specs.Prelude.{◌≡◌, ◌++◌, All, IfOk, OnOk, length};
ghost use Rattle.std.specs.String.{string_bytes};
ghost use Rattle.schedules.specs.Families.{IsSchedule};
ghost use Rattle.schedules.specs.Schedules.{scheduled as scheduled_events};
ghost use Rattle.schedules.specs.EventLines.{AddsText};
ghost use Rattle.exploring.specs.Reports.{Adds, AreOfFamily, IsFirstOf, Reports, ShowsFind, ShowsFinds, ShowsFirst, at_rest_lines, ending_line, first_lines, first_that, size_line, states_line, to_the_right as right_aligned};
ghost use Rattle.wording.specs.Counted.{plural as plural_of};

use crate::apart::{Unlike, first_unlike};
use crate::turns::turns_of;
use counting::{
    Book, Count, Ending, Endings, Family, Find, Line, Outcome, Tally, events_of, is_schedule,
    run_schedule,
};
use schedules::write_events;
use std::alloc::{AllocError, Global};
use std::fmt::Write;
use trace::print_entry;
use wording::{Listing, plural};

/// The most outcomes that are shown.
const MOST_SHOWN: usize = 20;

/// The most lines that are shown from the end of the trace of an outcome's first schedule.
const LAST_LINES: usize = 6;

/// Returns the ending of a plural: `s`, or nothing after 1.
fn plural_behind(count: &Count) -> &'static str
    ensures { result.now ≡ plural_of count.now }
{
    if count.is_one() { "" } else { "s" }
}

/// Returns how a run ends, in words.
fn ending_words(ending: Ending) -> &'static str {
    match ending {
        Ending::Halted => "halts",
        Ending::AtRest | Ending::AwaitsAlarm => "comes to rest",
        Ending::Going => "is still going",
    }
}

/// Writes the events of a schedule as a text. A comment on each inserted tick says which process the tick preempts.
pub fn write_schedule(
    alloc: Global,
    text: &mut String,
    family: &Family<'_>,
    listing: &Listing<'_>,
    spots: &[u64],
) -> Result<(), AllocError>
    requires { IsSchedule family.now.upto family.now.ticks (length family.now.loose.now) spots.now }
    ensures { OnOk result (AddsText (string_bytes text.old) (scheduled_events family.now.loose.now family.now.events.now spots.now) (string_bytes text.new)) }
{
    let turns = turns_of(alloc, family, listing, spots)?;
    let events = events_of(alloc, family, spots)?;
    write_events(text, &events, turns.as_slice())
}

/// Writes how many schedules there are.
fn write_size(text: &mut String, size: &Count, family: &Family<'_>) -> Result<(), AllocError>
    ensures { OnOk result (string_bytes text.new ≡ string_bytes text.old ++ size_line size.now family.now.upto family.now.ticks (length family.now.loose.now)) }
{
    let (upto, ticks, loose) = (family.upto, family.ticks, family.loose.len());
    let (s, t, e) = (plural_behind(size), plural(ticks as u64), plural(upto));
    let size = size.to_text()?;
    if loose == 0 {
        return writeln!(
            text,
            "{size} schedule{s}: at most {ticks} tick{t}, each before one of the first {upto} event{e}"
        );
    }
    let l = plural(loose as u64);
    write!(text, "{size} schedule{s}: at most {ticks} tick{t} and ")?;
    writeln!(
        text,
        "{loose} event{l} anywhere, each before one of the first {upto} event{e}"
    )
}

/// Writes a count in digits, right-aligned in eight columns.
fn write_to_the_right(text: &mut String, count: &Count) -> Result<(), AllocError>
    ensures { OnOk result (string_bytes text.new ≡ string_bytes text.old ++ right_aligned count.now) }
{
    let digits = count.to_text()?;
    for _blank in 0..8_usize.saturating_sub(digits.len()) {
        text.push(' ')?;
    }
    text.push_str(digits.as_str())
}

/// Writes how many schedules end in one way.
fn write_ending(text: &mut String, count: &Count, words: &str) -> Result<(), AllocError>
    ensures { OnOk result (string_bytes text.new ≡ string_bytes text.old ++ ending_line count.now words.now) }
{
    write_to_the_right(text, count)?;
    writeln!(text, " {words}")
}

/// Writes how many schedules come to rest, and if some of these wait for an alarm, how many do.
fn write_at_rest(text: &mut String, endings: &Endings) -> Result<(), AllocError>
    ensures { OnOk result (string_bytes text.new ≡ string_bytes text.old ++ at_rest_lines endings.now) }
{
    let resting = endings.at_rest.count();
    write_ending(text, resting, "come to rest: no process is runnable")?;
    let alarmed = endings.alarmed.count();
    if alarmed.is_zero() {
        return Ok(());
    }
    write_ending(text, alarmed, "of these wait for an alarm: try more ticks")
}

/// Writes how many schedules there are, and how they end.
fn write_endings(
    text: &mut String,
    size: &Count,
    family: &Family<'_>,
    endings: &Endings,
) -> Result<(), AllocError>
    ensures { OnOk result (string_bytes text.new ≡ string_bytes text.old ++ first_lines size.now family.now.upto family.now.ticks (length family.now.loose.now) endings.now) }
{
    write_size(text, size, family)?;
    write_ending(text, endings.halted.count(), "halt")?;
    write_at_rest(text, endings)?;
    write_ending(text, endings.going.count(), "are still going")
}

/// Writes how many states the schedules were merged into, if they were merged.
fn write_states(text: &mut String, states: u64) -> Result<(), AllocError>
    ensures { OnOk result (string_bytes text.new ≡ string_bytes text.old ++ states_line states) }
{
    if states == 0 {
        return Ok(());
    }
    let s = plural(states);
    writeln!(
        text,
        "merged into {states} state{s} after the last possible insertion"
    )
}

/// Writes the first schedule of a tally, if there is one, with a heading that says what the schedule does.
fn write_first(
    alloc: Global,
    text: &mut String,
    family: &Family<'_>,
    listing: &Listing<'_>,
    what: &str,
    tally: &Tally,
) -> Result<(), AllocError>
    requires { IsFirstOf family.now.upto family.now.ticks (length family.now.loose.now) tally.now }
    ensures { OnOk result (Adds (string_bytes text.old) (ShowsFirst family.now.loose.now family.now.events.now (first_that what.now) tally.now.first) (string_bytes text.new)) }
{
    let Some(spots) = tally.first() else {
        return Ok(());
    };
    writeln!(text, "\nthe first that {what}")?;
    write_schedule(alloc, text, family, listing, spots)
}

/// Writes how many schedules have a text in a line, and the first of them.
fn write_find(
    alloc: Global,
    text: &mut String,
    family: &Family<'_>,
    listing: &Listing<'_>,
    find: &Find<'_>,
) -> Result<(), AllocError>
    requires { IsFirstOf family.now.upto family.now.ticks (length family.now.loose.now) find.now.tally }
    ensures { OnOk result (Adds (string_bytes text.old) (ShowsFind family.now.loose.now family.now.events.now find.now) (string_bytes text.new)) }
{
    let sought = find.text();
    let count = find.tally().count();
    let s = plural_behind(count);
    let count = count.to_text()?;
    writeln!(text, "\n`{sought}` is in {count} schedule{s}")?;
    let Some(spots) = find.tally().first() else {
        return Ok(());
    };
    text.push_str("the first that has it\n")?;
    write_schedule(alloc, text, family, listing, spots)
}

/// Writes, for each text, how many schedules have it in a line, and the first of them.
fn write_finds(
    alloc: Global,
    text: &mut String,
    family: &Family<'_>,
    listing: &Listing<'_>,
    finds: &[Find<'_>],
) -> Result<(), AllocError>
    requires { All (λ f. IsFirstOf family.now.upto family.now.ticks (length family.now.loose.now) f.tally) finds.now }
    ensures { OnOk result (Adds (string_bytes text.old) (ShowsFinds family.now.loose.now family.now.events.now finds.now) (string_bytes text.new)) }
{
    for find in finds {
        write_find(alloc, text, family, listing, find)?;
    }
    Ok(())
}

/// Writes a trace line, indented by four spaces.
fn write_line(text: &mut String, line: &Line) -> Result<(), AllocError> {
    text.push_str("    ")?;
    let printed = print_entry(line.event(), line.entry());
    for byte in printed.as_slice() {
        text.push(char::from(*byte))?;
    }
    Ok(())
}

/// Writes trace lines, each indented by four spaces.
fn write_lines(text: &mut String, lines: &[Line]) -> Result<(), AllocError> {
    for line in lines {
        write_line(text, line)?;
    }
    Ok(())
}

/// Writes the last lines of a run.
fn write_last(text: &mut String, lines: &[Line]) -> Result<(), AllocError> {
    if lines.is_empty() {
        return text.push_str("  no lines\n");
    }
    text.push_str("  last lines\n")?;
    let from = lines.len().saturating_sub(LAST_LINES);
    write_lines(text, &lines[from..])
}

/// Writes the first line of a run that differs from the run of the first outcome, and that run's line, if it has one.
fn write_unlike(text: &mut String, unlike: &Unlike) -> Result<(), AllocError> {
    text.push_str("  first difference from outcome 1\n")?;
    write_line(text, &unlike.line)?;
    let Some(other) = &unlike.other else {
        return Ok(());
    };
    text.push_str("  where outcome 1 has\n")?;
    write_line(text, other)
}

/// Writes the first difference between the lines of a run and those of the run of the first outcome.
fn write_apart(
    alloc: Global,
    text: &mut String,
    lines: &[Line],
    first: &[Line],
) -> Result<(), AllocError> {
    if let Some(unlike) = first_unlike(alloc, lines, first)? {
        return write_unlike(text, &unlike);
    }
    let Some(missing) = first_unlike(alloc, first, lines)? else {
        return Ok(());
    };
    text.push_str("  lacks this line of outcome 1\n")?;
    write_line(text, &missing.line)
}

/// Writes the first schedule of an outcome and the last lines of its run, and returns the lines of the run. If `first`
/// has the lines of the first outcome, writes the first difference from them, too.
fn write_run(
    alloc: Global,
    text: &mut String,
    family: &Family<'_>,
    listing: &Listing<'_>,
    spots: &[u64],
    first: Option<&[Line]>,
) -> Result<Vec<Line>, AllocError> {
    let mut lines = Vec::new(alloc);
    if !is_schedule(family, spots) {
        return Ok(lines);
    }
    let ending = run_schedule(alloc, family, spots, &mut lines)?;
    let ends = ending_words(ending);
    writeln!(text, ", the first of which {ends}")?;
    write_schedule(alloc, text, family, listing, spots)?;
    if let Some(first) = first {
        write_apart(alloc, text, lines.as_slice(), first)?;
    }
    write_last(text, lines.as_slice())?;
    Ok(lines)
}

/// Writes how many schedules have an outcome, and the run of the first of them. Returns the lines of that run.
fn write_outcome(
    alloc: Global,
    text: &mut String,
    family: &Family<'_>,
    listing: &Listing<'_>,
    number: usize,
    outcome: &Outcome,
    first: Option<&[Line]>,
) -> Result<Vec<Line>, AllocError> {
    let count = outcome.count();
    let s = plural(count);
    write!(text, "\n{number}. {count} schedule{s}")?;
    write_run(alloc, text, family, listing, outcome.first(), first)
}

/// Writes these outcomes, numbered from 1.
fn write_some(
    alloc: Global,
    text: &mut String,
    family: &Family<'_>,
    listing: &Listing<'_>,
    outcomes: &[&Outcome],
) -> Result<(), AllocError> {
    let Some((first, others)) = outcomes.split_first() else {
        return Ok(());
    };
    let first_lines = write_outcome(alloc, text, family, listing, 1, first, None)?;
    for (before, outcome) in others.iter().enumerate() {
        let first = Some(first_lines.as_slice());
        write_outcome(alloc, text, family, listing, before + 2, outcome, first)?;
    }
    Ok(())
}

/// Returns the part of the report on the outcomes, which is empty if the schedules were merged.
fn outcomes_of(
    alloc: Global,
    family: &Family<'_>,
    listing: &Listing<'_>,
    book: &Book<'_>,
) -> Result<String, AllocError> {
    let mut text = String::new(alloc);
    if book.states() > 0 {
        return Ok(text);
    }
    let outcomes = book.outcomes().by_count()?;
    let count = outcomes.len();
    let s = plural(count as u64);
    writeln!(text, "\n{count} outcome{s}")?;
    let shown = count.min(MOST_SHOWN);
    write_some(
        alloc,
        &mut text,
        family,
        listing,
        &outcomes.as_slice()[..shown],
    )?;
    let more = count - shown;
    if more > 0 {
        writeln!(text, "\nand {more} less frequent")?;
    }
    Ok(text)
}

/// Returns the report on a family whose schedules were counted.
pub fn report(
    alloc: Global,
    family: &Family<'_>,
    listing: &Listing<'_>,
    book: &Book<'_>,
) -> Result<String, AllocError>
    requires { AreOfFamily family.now.upto family.now.ticks (length family.now.loose.now) book.now }
    ensures { IfOk result (λ text. Reports family.now.loose.now family.now.events.now family.now.upto family.now.ticks book.now (string_bytes text)) }
{
    let mut text = String::new(alloc);
    let endings = book.endings();
    write_endings(&mut text, book.total(), family, endings)?;
    write_states(&mut text, book.states())?;
    let (resting, going) = (&endings.at_rest, &endings.going);
    write_first(alloc, &mut text, family, listing, "comes to rest", resting)?;
    write_first(alloc, &mut text, family, listing, "is still going", going)?;
    write_finds(alloc, &mut text, family, listing, book.finds())?;
    let outcomes = outcomes_of(alloc, family, listing, book)?;
    text.push_str(outcomes.as_str())?;
    Ok(text)
}
