//! Goes through the schedules of a family without loose events.

ghost use Rattle.std.specs.Prelude.{◌≡◌, ◌≤◌, List, [], ◌∷◌, ◌++◌, length, true, false, IfOk, OnErr};
ghost use Rattle.schedules.specs.Families.{Spots, family, IsSchedule};
ghost use Rattle.schedules.specs.Walks.{Goes, Comes};

use crate::places::advance;
use std::alloc::{AllocError, Global};
use std::marker::Model;

/// A schedule of a family without loose events: the places of its ticks, which are its spots.
#[derive(Drop)]
pub struct Schedule {
    places: Vec<u64>,
    upto: u64,
    ticks: usize,
}

impl Model for Schedule {
    ghost use Rattle.std.specs.Prelude.{◌≤◌, length};
    ghost use Rattle.schedules.specs.Families.{family};
    ghost use Rattle.schedules.specs.Walks.{ScheduleView, IsAmong};

    ghost Value = { ScheduleView };

    ghost view = { λ s. record { places = s.places.items; upto = s.upto; ticks = s.ticks } };

    ghost invariant = { λ s. (length s.places.items ≤ s.ticks) × IsAmong (family s.upto s.ticks 0) s.places.items };
}

/// Goes to the next schedule with at most `ticks` ticks, at places below `upto`. Returns false if there is none.
fn go_on(places: &mut Vec<u64>, upto: u64, ticks: usize) -> Result<bool, AllocError>
    requires within { length places.old.items ≤ ticks }
    ensures ok { IfOk result (λ is_more. Goes is_more upto ticks places.old.items places.new.items) }
    ensures err { OnErr result (places.new.items ≡ places.old.items) }
{
    if advance(places.as_mut_slice(), upto) {
        return Ok(true);
    }
    if upto == 0 || places.len() >= ticks {
        return Ok(false);
    }
    places.push(0)?;
    places.as_mut_slice().fill(0);
    Ok(true)
}

impl Schedule {
    /// Returns the first schedule of a family, which has no ticks.
    pub fn first(alloc: Global, upto: u64, ticks: usize) -> Schedule
        ensures places { result.places ≡ [] }
        ensures upto { result.upto ≡ upto }
        ensures ticks { result.ticks ≡ ticks }
        ensures begins { (rest : List Spots) × (family upto ticks 0 ≡ result.places ∷ rest) }
    {
        Schedule {
            places: Vec::new(alloc),
            upto,
            ticks,
        }
    }

    /// Returns the places of the ticks, which don't decrease.
    pub fn places(&self) -> &[u64]
        ensures value { result.now ≡ self.now.places }
        ensures are_of_family { IsSchedule self.now.upto self.now.ticks 0 result.now }
    {
        self.places.as_slice()
    }

    /// Goes to the next schedule of the family. Returns false if there is none. In that case, and if memory runs out,
    /// the schedule stays unchanged.
    pub fn next(&mut self) -> Result<bool, AllocError>
        ensures upto { self.new.upto ≡ self.old.upto }
        ensures ticks { self.new.ticks ≡ self.old.ticks }
        ensures comes { (done late : List Spots) → family self.old.upto self.old.ticks 0 ≡ done ++ self.old.places ∷ late
            → IfOk result (λ is_more. Comes is_more self.new.places late) }
        ensures stays { IfOk result (λ is_more. is_more ≡ false → self.new.places ≡ self.old.places) }
        ensures err { OnErr result (self.new ≡ self.old) }
    {
        go_on(&mut self.places, self.upto, self.ticks)
    }
}
