//! Runs all schedules of a family separately, and counts them.

ghost use Rattle.std.specs.Prelude.{◌≡◌, ◌≤◌, ◌<◌, ◌+◌, [], All, length, map, IsTrue, IfOk};
ghost use Rattle.std.specs.List.Sorted.{IsNonDecreasing};
ghost use Rattle.text.specs.EventTexts.{most_events};
ghost use Rattle.schedules.specs.Families.{IsSchedule, family as family_of};
ghost use Rattle.schedules.specs.Schedules.{scheduled as scheduled_events};
ghost use Rattle.counting.specs.Courses.{IsCourse};
ghost use Rattle.counting.specs.Counts.{book_over};

use crate::book::Book;
use crate::course::run_list;
use crate::ending::Ending;
use crate::lines::Line;
use crate::placing::scheduled;
use posix::Event;
use schedules::Schedule;
use std::alloc::{AllocError, Global};
use text::{EventList, World};

/// An observer of progress.
pub trait Progress {
    /// Called when `done` of `size` schedules have been run.
    fn run(&mut self, done: u64, size: u64);

    /// Called when the merged schedules have passed `events` of `upto` events, and are in this many states.
    fn reach(&mut self, events: u64, upto: u64, states: u64);
}

/// What is explored: the schedules that insert ticks and loose events into a list of events.
#[derive(Drop)]
pub struct Family<'a> {
    pub world: &'a World,
    pub events: &'a EventList,
    /// Each of these is inserted once; at most `schedules::MOST_LOOSE`.
    pub loose: &'a [Event],
    /// Schedules insert only before the first `upto` events.
    pub upto: u64,
    /// The most ticks that a schedule inserts; at most `schedules::MOST_TICKS`.
    pub ticks: usize,
    /// The most states that are kept before one event.
    pub states: usize,
    ghost within: { upto ≤ length events.now },
    ghost placed: { upto ≡ 0 → loose.now ≡ [] },
    ghost few: { ticks ≤ 1000000 },
    ghost few_loose: { length loose.now ≤ 32 },
    ghost short: { length events.now + (ticks + length loose.now) ≤ most_events },
}

/// Returns true if the spots don't decrease.
fn do_rise(spots: &[u64]) -> bool
    ensures { IsTrue result → IsNonDecreasing spots.now }
{
    spots.is_sorted()
}

/// Returns true if all spots are below `upto`.
fn are_below(spots: &[u64], upto: u64) -> bool
    ensures { IsTrue result → All (λ p. p < upto) spots.now }
{
    spots.iter().all(|place| *place < upto)
}

/// Returns true if the family has no loose events, and these are the spots of one of its schedules.
pub fn is_schedule(family: &Family<'_>, spots: &[u64]) -> bool
    ensures { IsTrue result → IsSchedule family.now.upto family.now.ticks (length family.now.loose.now) spots.now }
{
    if !family.loose.is_empty() || spots.len() > family.ticks {
        return false;
    }
    do_rise(spots) && are_below(spots, family.upto)
}

/// Returns the events of a schedule of the family.
pub fn events_of(alloc: Global, family: &Family<'_>, spots: &[u64]) -> Result<EventList, AllocError>
    requires { IsSchedule family.now.upto family.now.ticks (length family.now.loose.now) spots.now }
    ensures events { IfOk result (λ list. list ≡ scheduled_events family.now.loose.now family.now.events.now spots.now) }
    ensures len { IfOk result (λ list. length list ≤ most_events) }
{
    scheduled(alloc, family.loose, family.events, spots)
}

/// Runs a schedule of the family, and returns how the run ends; `lines` then has its trace. Fails if memory runs out,
/// also for a call of a process.
pub fn run_schedule(
    alloc: Global,
    family: &Family<'_>,
    spots: &[u64],
    lines: &mut Vec<Line>,
) -> Result<Ending, AllocError>
    requires { IsSchedule family.now.upto family.now.ticks (length family.now.loose.now) spots.now }
    ensures { IfOk result (λ ending. IsCourse family.now.world.now (scheduled_events family.now.loose.now family.now.events.now spots.now) lines.new.items ending) }
{
    let events = events_of(alloc, family, spots)?;
    run_list(alloc, family.world, &events, lines)
}

/// Runs all schedules of a family without loose events separately, in the family's order, and counts them. Fails if
/// memory runs out, also for a call of a process.
pub fn explore<'a, P: Progress>(
    alloc: Global,
    family: &Family<'_>,
    size: u64,
    texts: &[&'a str],
    progress: &mut P,
) -> Result<Book<'a>, AllocError>
    requires size { size ≡ length (family_of family.now.upto family.now.ticks (length family.now.loose.now)) }
    requires none { family.now.loose.now ≡ [] }
    ensures { IfOk result (λ book. book ≡ book_over family.now.world.now family.now.loose.now family.now.events.now (map (λ t. t.now) texts.now) (family_of family.now.upto family.now.ticks (length family.now.loose.now))) }
{
    let mut book = Book::new(alloc, texts)?;
    let mut schedule = Schedule::first(alloc, family.upto, family.ticks);
    let mut lines = Vec::new(alloc);
    let mut is_more = true;
    while is_more {
        let ending = run_schedule(alloc, family, schedule.places(), &mut lines)?;
        book.add(&mut lines, ending, schedule.places())?;
        progress.run(book.outcomes().total(), size);
        is_more = schedule.next()?;
    }
    Ok(book)
}
