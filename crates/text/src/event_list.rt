//! Events, stored as counted runs.

ghost use Rattle.std.specs.Prelude.{◌≡◌, ◌==◌, ◌+◌, ◌<◌, ◌≤◌, ◌^◌, [], ◌++◌, length, map, replicate, MatchBool, OnOk, OnErr, vec_len, vec_capacity};
ghost use Rattle.std.specs.List.{AllByRecursion};
ghost use Rattle.posix.specs.Common.{IsEvent};
ghost use Rattle.posix.specs.declared.event.Event.TheVariants.{Key};
ghost use Rattle.text.specs.EventLists.{expanded};

use posix::Event;
use std::alloc::{AllocError, Global};
use std::marker::Model;

/// The unit of a count. A run stores how many units its count has, and the rest.
const UNIT: u64 = 1 << 32;

/// A number of equal events, fewer than 2^40. It takes eight bytes, because a text can have a run for each key.
#[derive(Clone, Copy, PartialEq, Eq)]
pub struct EventRun {
    event: Event,
    units: u8,
    rest: u32,
}

impl Model for EventRun {
    ghost use Rattle.std.specs.Prelude.{◌+◌, ◌*◌, ◌/◌, ◌%◌, ◌<◌, ◌^◌};
    ghost use Rattle.std.proofs.Common.{arith};
    ghost use Rattle.text.specs.EventLists.{CountedEvent};

    ghost Value = { CountedEvent };

    ghost view = { λ r. record { event = r.event; count = r.units * 2 ^ 32 + r.rest } };

    ghost invariant = { λ r. (r.units < 2 ^ 8) × (r.rest < 2 ^ 32) };

    ghost inverse = { λ c. record { event = c.event; units = c.count / 2 ^ 32; rest = c.count % 2 ^ 32 } };
}

impl EventRun {
    /// Returns a run of `count` equal events.
    pub fn new(event: Event, count: u64) -> EventRun
        requires { count < 2 ^ 40 }
        ensures { result ≡ record { event = event; count = count } }
    {
        EventRun {
            event,
            units: (count / UNIT) as u8,
            rest: (count % UNIT) as u32,
        }
    }

    /// Returns the event.
    pub fn event(self) -> Event
        ensures { result ≡ self.event }
    {
        self.event
    }

    /// Returns the number of events.
    pub fn count(self) -> u64
        ensures { result ≡ self.count }
    {
        u64::from(self.units) * UNIT + u64::from(self.rest)
    }
}

/// A list of fewer than 2^40 events, each in range (`IsEvent`). It takes memory for each run of equal events, whatever
/// their number.
#[derive(Drop)]
pub struct EventList {
    runs: Vec<EventRun>,
    len: u64,
}

impl Model for EventList {
    ghost use Rattle.std.specs.Prelude.{List, ◌≡◌, length};
    ghost use Rattle.std.specs.List.{AllByRecursion};
    ghost use Rattle.posix.specs.declared.event.Event.{Event};
    ghost use Rattle.posix.specs.Ranges.{IsEvent};
    ghost use Rattle.text.specs.EventLists.{expanded};

    ghost Value = { List Event };

    ghost view = { λ l. expanded l.runs.items };

    ghost invariant = { λ l. (l.len ≡ length (expanded l.runs.items)) × AllByRecursion IsEvent (expanded l.runs.items) };
}

/// Adds `count` equal events to the last run, and returns true. If the last run is of another event, or there is none,
/// returns false, and the runs are unchanged.
fn grow_last(runs: &mut Vec<EventRun>, event: Event, count: u64) -> bool
    requires { length (expanded runs.old.items) + count < 2 ^ 40 }
    ensures items { MatchBool result (expanded runs.new.items ≡ expanded runs.old.items ++ replicate count event) (runs.new.items ≡ runs.old.items) }
    ensures len { vec_len runs.new ≡ vec_len runs.old }
    ensures capacity { vec_capacity runs.new ≡ vec_capacity runs.old }
{
    let len = runs.len();
    if len > 0 && runs[len - 1].event() == event {
        runs[len - 1] = EventRun::new(event, runs[len - 1].count() + count);
        return true;
    }
    false
}

/// Adds `count` equal events: to the last run, if it is of the same event. If there is no memory, the runs are
/// unchanged.
#[tactic(auto, using(crate::proofs::EventLemmas::expanded_rules))]
fn push_run(runs: &mut Vec<EventRun>, event: Event, count: u64) -> Result<(), AllocError>
    requires { length (expanded runs.old.items) + count < 2 ^ 40 }
    ensures ok { OnOk result (expanded runs.new.items ≡ expanded runs.old.items ++ replicate count event) }
    ensures err { OnErr result (runs.new.items ≡ runs.old.items) }
{
    if !grow_last(runs, event, count) {
        runs.push(EventRun::new(event, count))?;
    }
    Ok(())
}

/// Adds a key on a console for each byte. There must be room for a run for each.
#[tactic(auto, using(crate::proofs::EventLemmas::expanded_rules))]
fn push_key_runs(runs: &mut Vec<EventRun>, console: u8, bytes: &[u8])
    requires room { vec_len runs.old + length bytes.now ≤ vec_capacity runs.old }
    requires count { length (expanded runs.old.items) + length bytes.now < 2 ^ 40 }
    ensures keys { expanded runs.new.items ≡ expanded runs.old.items ++ map (Key console) bytes.now }
    ensures range { AllByRecursion IsEvent (expanded runs.old.items) → AllByRecursion IsEvent (expanded runs.new.items) }
{
    for byte in bytes {
        let event = Event::Key {
            console,
            byte: *byte,
        };
        event.range_holds();
        if !grow_last(runs, event, 1) {
            runs.push_reserved(EventRun::new(event, 1));
        }
    }
}

impl EventList {
    /// Returns the empty list.
    pub fn new(alloc: Global) -> EventList
        ensures { result ≡ [] }
    {
        EventList {
            runs: Vec::new(alloc),
            len: 0,
        }
    }

    /// Returns the number of events.
    pub fn len(&self) -> u64
        ensures { result ≡ length self.now }
    {
        self.len
    }

    /// Returns true if there are no events.
    pub fn is_empty(&self) -> bool
        ensures { result ≡ (length self.now == 0) }
    {
        self.len == 0
    }

    /// Adds `count` equal events. If there is no memory, the list is unchanged.
    pub fn push(&mut self, event: Event, count: u64) -> Result<(), AllocError>
        requires { length self.old + count < 2 ^ 40 }
        ensures ok { OnOk result (self.new ≡ self.old ++ replicate count event) }
        ensures err { OnErr result (self.new ≡ self.old) }
    {
        event.range_holds();
        push_run(&mut self.runs, event, count)?;
        self.len += count;
        Ok(())
    }

    /// Adds a key on a console for each byte. If there is no memory, the list is unchanged.
    pub fn push_keys(&mut self, console: u8, bytes: &[u8]) -> Result<(), AllocError>
        requires { length self.old + length bytes.now < 2 ^ 40 }
        ensures ok { OnOk result (self.new ≡ self.old ++ map (Key console) bytes.now) }
        ensures err { OnErr result (self.new ≡ self.old) }
    {
        self.runs.reserve(bytes.len())?;
        push_key_runs(&mut self.runs, console, bytes);
        self.len += bytes.len() as u64;
        Ok(())
    }

    /// Does nothing. Its contract lets a proof use that each event is in range, as the type of an event ensures.
    pub fn range_holds(&self)
        ensures { AllByRecursion IsEvent self.now }
    {
        let _ = &self.runs;
    }

    /// Returns the events as counted runs, in their order.
    pub fn runs(&self) -> &[EventRun]
        ensures { expanded result.now ≡ self.now }
    {
        self.runs.as_slice()
    }
}
