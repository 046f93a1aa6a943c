//! How many schedules have a property, and which is the first.

ghost use Rattle.std.specs.Prelude.{◌≡◌, OnOk, Some, option_map};
ghost use Rattle.counting.specs.Tallies.{both, is_before as comes_before, is_earlier as has_earlier, no_schedules, with_schedule};

use crate::count::Count;
use std::alloc::{AllocError, Global};
use std::marker::Model;

/// Returns true if the first of two equally long lists has the earlier spot where they first differ.
fn is_earlier(spots: &[u64], others: &[u64]) -> bool
    ensures { result ≡ has_earlier spots.now others.now }
{
    let (Some((place, spots)), Some((other, others))) = (spots.split_first(), others.split_first())
    else {
        return false;
    };
    place < other || (place == other && is_earlier(spots, others))
}

/// Returns true if a schedule comes before another in a family.
fn is_before(spots: &[u64], others: &[u64]) -> bool
    ensures { result ≡ comes_before spots.now others.now }
{
    spots.len() < others.len() || (spots.len() == others.len() && is_earlier(spots, others))
}

/// How many schedules have a property, and the first of them.
#[derive(Drop)]
pub struct Tally {
    alloc: Global,
    count: Count,
    first: Option<Vec<u64>>,
}

impl Model for Tally {
    ghost use Rattle.std.specs.Prelude.{option_map};
    ghost use Rattle.counting.specs.Tallies.{TallyView};

    ghost Value = { TallyView };

    ghost view = { λ t. record { count = t.count; first = option_map (λ ps. ps.items) t.first } };
}

impl Tally {
    /// Returns the tally of no schedules.
    pub fn new(alloc: Global) -> Self
        ensures { result ≡ no_schedules }
    {
        Tally {
            alloc,
            count: Count::zero(alloc),
            first: None,
        }
    }

    /// Returns the number of schedules that have the property.
    pub fn count(&self) -> &Count
        ensures { result.now ≡ self.now.count }
    {
        &self.count
    }

    /// Returns the spots of the first schedule that has the property.
    pub fn first(&self) -> Option<&[u64]>
        ensures { option_map (λ ps. ps.now) result ≡ self.now.first }
    {
        match &self.first {
            Some(spots) => Some(spots.as_slice()),
            None => None,
        }
    }

    /// Counts a schedule that has the property, and comes after those that were counted.
    pub fn add(&mut self, spots: &[u64]) -> Result<(), AllocError>
        ensures { OnOk result (self.new ≡ with_schedule spots.now self.old) }
    {
        self.count.add_one()?;
        if self.first.is_none() {
            self.first = Some(Vec::from_slice(self.alloc, spots)?);
        }
        Ok(())
    }

    /// Counts `count` schedules that have the property. The first of them has these spots.
    pub fn add_many(&mut self, spots: &[u64], count: &Count) -> Result<(), AllocError>
        ensures { OnOk result (self.new ≡ both self.old (record { count = count.now; first = Some spots.now })) }
    {
        self.count.add(count)?;
        let is_first = match &self.first {
            Some(first) => is_before(spots, first.as_slice()),
            None => true,
        };
        if is_first {
            self.first = Some(Vec::from_slice(self.alloc, spots)?);
        }
        Ok(())
    }
}
