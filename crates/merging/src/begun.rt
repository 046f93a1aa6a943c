//! Beginnings of schedules that lead to one state.

ghost use Rattle.std.specs.Prelude.{◌≡◌, ◌+◌, ◌≤◌, ◌<◌, ◌^◌, ◌++◌, [], ◌∷◌, ℕ, length, map, IfOk, IfSome, IsNone, IsSome, OnOk};
ghost use Rattle.text.specs.EventTexts.{most_events};
ghost use Rattle.counting.specs.Tallies.{both};
ghost use Rattle.merging.specs.declared.search.Search.{Search as SearchValue};
ghost use Rattle.merging.specs.Merging.{AllBegun, AreBegun, HasSome, Outlook, Point, begun_tally, slot_tally, slots_tally};
ghost use Rattle.merging.specs.Slots.{AreInSlots, AreShort, given_slot};

use crate::spot_list::SpotList;
use counting::{Count, events_from};
use posix::Event;
use std::alloc::{AllocError, Global};
use std::marker::Model;
use std::mem::swap;
use text::EventList;

/// Beginnings of schedules that lead to one state and have equally many spots.
#[derive(Drop)]
pub struct Begun {
    /// How many there are.
    pub count: Count,
    /// The spots of the first.
    pub spots: SpotList,
    /// The events of the first.
    pub given: EventList,
}

impl Begun {
    /// Returns the beginning without events.
    pub fn first(alloc: Global) -> Result<Begun, AllocError>
        ensures count { IfOk result (λ b. b.count ≡ 1) }
        ensures spots { IfOk result (λ b. b.spots ≡ []) }
        ensures given { IfOk result (λ b. b.given ≡ []) }
    {
        Ok(Begun {
            count: Count::one(alloc)?,
            spots: SpotList::new(alloc),
            given: EventList::new(alloc),
        })
    }

    /// Returns the beginnings with one more event, which is inserted at this spot.
    pub fn with(&self, alloc: Global, spot: u64, event: Event) -> Result<Begun, AllocError>
        requires given { length self.now.given < most_events }
        requires spots { length self.now.spots < 2 ^ 40 }
        ensures count { IfOk result (λ b. b.count ≡ self.now.count) }
        ensures spots { IfOk result (λ b. b.spots ≡ self.now.spots ++ spot ∷ []) }
        ensures given { IfOk result (λ b. b.given ≡ self.now.given ++ event ∷ []) }
    {
        let mut spots = self.spots.try_clone(alloc)?;
        spots.push(spot)?;
        let mut given = events_from(alloc, &self.given, 0)?;
        given.push(event, 1)?;
        let count = self.count.try_clone()?;
        Ok(Begun {
            count,
            spots,
            given,
        })
    }

    /// Adds the count of other beginnings with equally many spots. The spots and events are those of whichever first
    /// beginning comes first in the family.
    pub fn join(&mut self, mut other: Begun) -> Result<(), AllocError>
        requires { length self.old.spots ≡ length other.spots }
        ensures tally { (go_on : Outlook) (most : ℕ) (p : Point) → OnOk result (begun_tally go_on most p self.new ≡ both (begun_tally go_on most p self.old) (begun_tally go_on most p other)) }
        ensures spots { length self.new.spots ≡ length self.old.spots }
        ensures begun { (s : SearchValue) (place : ℕ) (p : Point) → AreBegun s place p self.old → AreBegun s place p other → OnOk result (AreBegun s place p self.new) }
    {
        if other.spots.is_before(&self.spots) {
            swap(self, &mut other);
        }
        self.count.add(&other.count)
    }

    /// Runs one more event after these beginnings.
    pub fn give(&mut self, event: Event) -> Result<(), AllocError>
        requires { length self.old.given < most_events }
        ensures count { self.new.count ≡ self.old.count }
        ensures spots { self.new.spots ≡ self.old.spots }
        ensures given { OnOk result (self.new.given ≡ self.old.given ++ event ∷ []) }
    {
        self.given.push(event, 1)?;
        Ok(())
    }
}

/// Adds beginnings to a slot.
fn add_to(slot: &mut Option<Begun>, begun: Begun) -> Result<(), AllocError>
    requires { IfSome slot.old (λ b. length b.spots ≡ length begun.spots) }
    ensures tally { (go_on : Outlook) (most : ℕ) (p : Point) → OnOk result (slot_tally go_on most p slot.new ≡ both (slot_tally go_on most p slot.old) (begun_tally go_on most p begun)) }
    ensures begun { (s : SearchValue) (place : ℕ) (p : Point) → IfSome slot.old (AreBegun s place p) → AreBegun s place p begun → OnOk result (IfSome slot.new (AreBegun s place p)) }
    ensures spots { IfSome slot.new (λ b. length b.spots ≡ length begun.spots) }
    ensures some { OnOk result (IsSome slot.new) }
{
    match slot {
        Some(old) => old.join(begun),
        None => {
            *slot = Some(begun);
            Ok(())
        }
    }
}

/// Runs one more event after the beginnings in these slots.
fn give_slots(slots: &mut Vec<Option<Begun>>, event: Event) -> Result<(), AllocError>
    requires { AreShort slots.old.items }
    ensures given { OnOk result (slots.new.items ≡ map (given_slot event) slots.old.items) }
    ensures slots { AreInSlots slots.old.items → AreInSlots slots.new.items }
{
    for index in 0..slots.len() {
        if let Some(begun) = &mut slots[index] {
            begun.give(event)?;
        }
    }
    Ok(())
}

/// All beginnings that lead to one state, by their number of spots.
#[derive(Drop)]
pub struct Beginnings {
    /// The beginnings with as many spots as the index says.
    slots: Vec<Option<Begun>>,
}

impl Model for Beginnings {
    ghost use Rattle.std.specs.Prelude.{List, Option};
    ghost use Rattle.merging.specs.declared.begun.Begun.{Begun};
    ghost use Rattle.merging.specs.Slots.{AreInSlots};

    ghost Value = { List (Option Begun) };

    ghost view = { λ b. b.slots.items };

    ghost invariant = { λ b. AreInSlots b.slots.items };
}

impl Beginnings {
    /// Returns no beginnings.
    pub fn new(alloc: Global) -> Beginnings
        ensures { result ≡ [] }
    {
        Beginnings {
            slots: Vec::new(alloc),
        }
    }

    /// Makes a slot for beginnings with this many spots.
    fn make_slot(&mut self, spots: usize) -> Result<(), AllocError>
        ensures tally { (go_on : Outlook) (most : ℕ) (p : Point) → slots_tally go_on most p self.new ≡ slots_tally go_on most p self.old }
        ensures all { (s : SearchValue) (place fewest : ℕ) (p : Point) → AllBegun s place fewest p self.old → AllBegun s place fewest p self.new }
        ensures len { OnOk result (spots < length self.new) }
    {
        while self.slots.len() <= spots {
            self.slots.push(None)?;
        }
        Ok(())
    }

    /// Adds beginnings.
    pub fn add(&mut self, begun: Begun) -> Result<(), AllocError>
        ensures tally { (go_on : Outlook) (most : ℕ) (p : Point) → OnOk result (slots_tally go_on most p self.new ≡ both (slots_tally go_on most p self.old) (begun_tally go_on most p begun)) }
        ensures all { (s : SearchValue) (place fewest : ℕ) (p : Point) → AllBegun s place fewest p self.old → fewest ≤ length begun.spots → AreBegun s place p begun → OnOk result (AllBegun s place fewest p self.new) }
        ensures some { OnOk result (HasSome self.new) }
    {
        let spots = begun.spots.len();
        self.make_slot(spots)?;
        add_to(&mut self.slots[spots], begun)
    }

    /// Removes and returns the beginnings with this many spots, if there are any.
    pub fn take(&mut self, spots: usize) -> Option<Begun>
        ensures tally { (go_on : Outlook) (most : ℕ) (p : Point) → IfSome result (λ b. slots_tally go_on most p self.old ≡ both (slots_tally go_on most p self.new) (begun_tally go_on most p b)) }
        ensures none { IsNone result → self.new ≡ self.old }
        ensures all { (s : SearchValue) (place : ℕ) (p : Point) → AllBegun s place spots p self.old → AllBegun s place (spots + 1) p self.new × IfSome result (AreBegun s place p) }
        ensures spots { IfSome result (λ b. length b.spots ≡ spots) }
    {
        if spots < self.slots.len() {
            self.slots[spots].take()
        } else {
            None
        }
    }

    /// Removes and returns the last slot.
    pub fn pop(&mut self) -> Option<Option<Begun>>
        ensures some { IfSome result (λ slot. self.old ≡ self.new ++ slot ∷ []) }
        ensures spots { IfSome result (λ slot. IfSome slot (λ b. length b.spots ≡ length self.new)) }
        ensures none { IsNone result → self.old ≡ [] }
    {
        self.slots.pop()
    }

    /// Adds all of the other beginnings.
    pub fn add_all(&mut self, other: Beginnings) -> Result<(), AllocError>
        ensures tally { (go_on : Outlook) (most : ℕ) (p : Point) → OnOk result (slots_tally go_on most p self.new ≡ both (slots_tally go_on most p self.old) (slots_tally go_on most p other)) }
        ensures all { (s : SearchValue) (place fewest : ℕ) (p : Point) → AllBegun s place fewest p self.old → AllBegun s place fewest p other → OnOk result (AllBegun s place fewest p self.new) }
        ensures some { HasSome other → OnOk result (HasSome self.new) }
    {
        let mut other = other;
        while let Some(slot) = other.pop() {
            if let Some(begun) = slot {
                self.add(begun)?;
            }
        }
        Ok(())
    }

    /// Runs one more event after all beginnings.
    pub fn give(&mut self, event: Event) -> Result<(), AllocError>
        requires { AreShort self.old }
        ensures { OnOk result (self.new ≡ map (given_slot event) self.old) }
    {
        give_slots(&mut self.slots, event)
    }
}
