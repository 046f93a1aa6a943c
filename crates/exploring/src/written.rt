//! The text for the output: the report, or the events of one schedule.

ghost use Rattle.std.specs.Prelude.{◌≡◌, IfOk, IfSome, length, option_map};
ghost use Rattle.std.specs.String.{string_bytes};
ghost use Rattle.schedules.specs.Families.{IsSchedule};
ghost use Rattle.schedules.specs.Schedules.{scheduled as scheduled_events};
ghost use Rattle.schedules.specs.EventLines.{StandsFor};
ghost use Rattle.exploring.specs.Reports.{AreOfFamily, IsAsFor, StandsForSome, StandsForFirst, bytes_put, first_found as first_that_is_found};

use crate::report::{report, write_schedule};
use crate::words::Written;
use counting::{Book, Family, Find, Outcome, is_schedule};
use std::alloc::{AllocError, Global};
use wording::Listing;

/// Returns the events of a schedule as a text.
fn schedule_text(
    alloc: Global,
    family: &Family<'_>,
    listing: &Listing<'_>,
    spots: &[u64],
) -> Result<String, AllocError>
    requires { IsSchedule family.now.upto family.now.ticks (length family.now.loose.now) spots.now }
    ensures { IfOk result (λ text. StandsFor (string_bytes text) (scheduled_events family.now.loose.now family.now.events.now spots.now)) }
{
    let mut text = String::new(alloc);
    write_schedule(alloc, &mut text, family, listing, spots)?;
    Ok(text)
}

/// Returns the events of a schedule as a text, if there is a schedule.
fn text_of_first(
    alloc: Global,
    family: &Family<'_>,
    listing: &Listing<'_>,
    first: Option<&[u64]>,
) -> Result<Option<String>, AllocError>
    requires { IfSome (option_map (λ ps. ps.now) first) (IsSchedule family.now.upto family.now.ticks (length family.now.loose.now)) }
    ensures { IfOk result (λ text. StandsForFirst family.now.loose.now family.now.events.now (option_map (λ ps. ps.now) first.entry) (bytes_put (option_map string_bytes text))) }
{
    match first {
        Some(spots) => Ok(Some(schedule_text(alloc, family, listing, spots)?)),
        None => Ok(None),
    }
}

/// Returns the first schedule with the first text that any schedule has.
fn first_found<'a>(finds: &'a [Find<'_>]) -> Option<&'a [u64]>
    ensures { option_map (λ ps. ps.now) result ≡ first_that_is_found finds.now }
{
    let (find, others) = finds.split_first()?;
    match find.tally().first() {
        Some(spots) => Some(spots),
        None => first_found(others),
    }
}

/// Returns the first schedule of the outcome with this number, from 1, if there is such an outcome.
fn first_numbered<'a>(outcomes: &[&'a Outcome], number: u64) -> Option<&'a [u64]> {
    let place = number.checked_sub(1)?;
    let outcome = outcomes.get(place as usize)?;
    Some(outcome.first())
}

/// Returns the events of the first schedule of an outcome as a text, if there is such an outcome.
fn text_of_outcome(
    alloc: Global,
    family: &Family<'_>,
    listing: &Listing<'_>,
    book: &Book<'_>,
    number: u64,
) -> Result<Option<String>, AllocError>
    ensures { IfOk result (λ text. StandsForSome family.now.loose.now family.now.events.now family.now.upto family.now.ticks (bytes_put (option_map string_bytes text))) }
{
    let outcomes = book.outcomes().by_count()?;
    match first_numbered(outcomes.as_slice(), number) {
        Some(spots) if is_schedule(family, spots) => {
            Ok(Some(schedule_text(alloc, family, listing, spots)?))
        }
        _ => Ok(None),
    }
}

/// Returns the text for the output: the report, or the events of one schedule. Returns `None` if there is no such
/// schedule.
pub fn text_of(
    alloc: Global,
    family: &Family<'_>,
    world_text: &[u8],
    book: &Book<'_>,
    written: Written,
) -> Result<Option<String>, AllocError>
    requires { AreOfFamily family.now.upto family.now.ticks (length family.now.loose.now) book.now }
    ensures { IfOk result (λ text. IsAsFor written family.now.loose.now family.now.events.now family.now.upto family.now.ticks book.now (bytes_put (option_map string_bytes text))) }
{
    let listing = Listing::new(alloc, world_text)?;
    let endings = book.endings();
    match written {
        Written::Report => Ok(Some(report(alloc, family, &listing, book)?)),
        Written::Rest => text_of_first(alloc, family, &listing, endings.at_rest.first()),
        Written::Going => text_of_first(alloc, family, &listing, endings.going.first()),
        Written::Find => text_of_first(alloc, family, &listing, first_found(book.finds())),
        Written::Outcome(number) => text_of_outcome(alloc, family, &listing, book, number),
    }
}
