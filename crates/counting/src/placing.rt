//! Places in a list of events: the events there, and the ticks and loose events that are inserted there.

ghost use Rattle.std.specs.Prelude.{◌≡◌, ℕ, ◌+◌, ◌-◌, ◌<◌, ◌≤◌, ◌^◌, ◌∷◌, ◌++◌, List, All, length, map, IsNone, OnOk, IfOk, IfSome, take, drop, replicate, slice_get};
ghost use Rattle.std.specs.List.Sorted.{IsNonDecreasing};
ghost use Rattle.posix.specs.declared.event.Event.{Event};
ghost use Rattle.text.specs.EventTexts.{most_events};
ghost use Rattle.schedules.specs.Families.{RisesFrom, place_of as place_of_spot};
ghost use Rattle.schedules.specs.Schedules.{from_front, scheduled as scheduled_events};

use posix::Event;
use schedules::{MOST_LOOSE, place_of, put_at};
use std::alloc::{AllocError, Global};
use text::{EventList, EventRun};

/// Returns the event with this place, if the list has one.
pub fn event_at(events: &EventList, place: u64) -> Option<Event>
    ensures { result ≡ slice_get events.now place }
{
    let mut before = 0;
    for run in events.runs() {
        if place - before < run.count() {
            return Some(run.event());
        }
        before += run.count();
    }
    None
}

/// Returns the events from one place up to another, or up to the end of the list.
pub fn events_between(
    alloc: Global,
    events: &EventList,
    from: u64,
    to: u64,
) -> Result<EventList, AllocError>
    requires { length events.now ≤ most_events }
    ensures { IfOk result (λ part. part ≡ take (to - from) (drop from events.now)) }
{
    let mut part = EventList::new(alloc);
    let mut before = 0;
    for run in events.runs() {
        let first = from.max(before);
        before += run.count();
        part.push(run.event(), to.min(before).saturating_sub(first))?;
    }
    Ok(part)
}

/// Returns the events from a place on.
pub fn events_from(alloc: Global, events: &EventList, place: u64) -> Result<EventList, AllocError>
    requires { length events.now ≤ most_events }
    ensures { IfOk result (λ rest. rest ≡ drop place events.now) }
{
    events_between(alloc, events, place, events.len())
}

/// Adds an event `count` times, which may be 0.
fn push(list: &mut EventList, event: Event, count: u64) -> Result<(), AllocError>
    requires { length list.old + count < 2 ^ 40 }
    ensures { OnOk result (list.new ≡ list.old ++ replicate count event) }
{
    if count == 0 {
        return Ok(());
    }
    list.push(event, count)
}

/// Returns the first spot and those after it, if the place of the first is below `end`.
fn first_before(loose: usize, spots: &[u64], end: u64) -> Option<(u64, &[u64])>
    requires { loose ≤ MOST_LOOSE }
    ensures some { IfSome result (λ first. (spots.now ≡ first.0 ∷ first.1.now) × (place_of_spot loose first.0 < end)) }
    ensures none { IsNone result → (low high : ℕ) → RisesFrom loose low high spots.now → RisesFrom loose end high spots.now }
{
    let (spot, later) = spots.split_first()?;
    if place_of(loose, *spot) < end {
        Some((*spot, later))
    } else {
        None
    }
}

/// Adds a run whose first event has place `start`, with what is inserted at the spots within it. Returns the spots
/// after its end.
fn push_run<'s>(
    list: &mut EventList,
    loose: &[Event],
    start: u64,
    run: EventRun,
    spots: &'s [u64],
) -> Result<&'s [u64], AllocError>
    requires loose { length loose.now ≤ MOST_LOOSE }
    requires end { start + run.count < 2 ^ 40 }
    requires few { length list.old + run.count + length spots.now < 2 ^ 40 }
    requires rising { (high : ℕ) × RisesFrom (length loose.now) start high spots.now }
    ensures rising { (high : ℕ) → RisesFrom (length loose.now) start high spots.now → IfOk result (λ rest. RisesFrom (length loose.now) (start + run.count) high rest.now) }
    ensures len { IfOk result (λ rest. length list.new + length rest.now ≡ length list.old + run.count + length spots.now) }
    ensures list { (behind : List Event) → IfOk result (λ rest. list.new ++ from_front loose.now (start + run.count) behind rest.now
        ≡ list.old ++ from_front loose.now start (replicate run.count run.event ++ behind) spots.now) }
{
    let end = start + run.count();
    let mut done = start;
    let mut rest = spots;
    while let Some((spot, later)) = first_before(loose.len(), rest, end) {
        let place = place_of(loose.len(), spot);
        push(list, run.event(), place - done)?;
        push(list, put_at(loose, spot), 1)?;
        done = place;
        rest = later;
    }
    push(list, run.event(), end - done)?;
    Ok(rest)
}

/// Returns the events with what is inserted at each of the spots.
pub fn scheduled(
    alloc: Global,
    loose: &[Event],
    events: &EventList,
    spots: &[u64],
) -> Result<EventList, AllocError>
    requires loose { length loose.now ≤ MOST_LOOSE }
    requires rising { IsNonDecreasing (map (place_of_spot (length loose.now)) spots.now) }
    requires below { All (λ q. place_of_spot (length loose.now) q < length events.now) spots.now }
    requires few { length events.now + length spots.now < 2 ^ 40 }
    ensures { IfOk result (λ list. list ≡ scheduled_events loose.now events.now spots.now) }
{
    let mut list = EventList::new(alloc);
    let mut start = 0;
    let mut rest = spots;
    for run in events.runs() {
        rest = push_run(&mut list, loose, start, *run, rest)?;
        start += run.count();
    }
    Ok(list)
}
