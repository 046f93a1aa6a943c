//! The outcomes of schedules. Two schedules have the same outcome if each process has the same lines, apart from event
//! numbers.

ghost use Rattle.std.specs.Prelude.{◌≡◌, ◌+◌, ◌<◌, ◌^◌, ◌-◌, length, map, IfOk, OnOk, OnErr};
ghost use Rattle.counting.specs.Tallies.{total_of};

use std::alloc::{AllocError, Global};
use std::collections::HashMap;
use std::marker::Model;

/// How many schedules have an outcome, and the first of them.
#[derive(Drop)]
pub struct Outcome {
    count: u64,
    first: Vec<u64>,
}

impl Outcome {
    /// Returns how many schedules have the outcome.
    pub fn count(&self) -> u64
        ensures { result ≡ self.now.count }
    {
        self.count
    }

    /// Returns the spots of the first schedule that has the outcome.
    pub fn first(&self) -> &[u64]
        ensures { result.now ≡ self.now.first.items }
    {
        self.first.as_slice()
    }
}

/// Counts a schedule for the outcome with this index.
fn add_to(outcomes: &mut [Outcome], number: usize)
    requires there { number < length outcomes.old }
    requires total { total_of outcomes.old < 2 ^ 64 - 1 }
    ensures { total_of outcomes.new ≡ total_of outcomes.old + 1 }
{
    outcomes[number].count += 1;
}

/// The outcomes so far, in the order of their first schedules.
#[derive(Drop)]
pub struct Outcomes {
    alloc: Global,
    /// The index of the outcome with each text of lines.
    numbers: HashMap<Vec<u8>, usize>,
    outcomes: Vec<Outcome>,
    /// The number of schedules that were counted.
    total: u64,
}

impl Model for Outcomes {
    ghost use Rattle.std.specs.Prelude.{ℕ, ◌≡◌};
    ghost use Rattle.counting.specs.Tallies.{total_of};

    ghost Value = { ℕ };

    ghost view = { λ o. o.total };

    ghost invariant = { λ o. total_of o.outcomes.items ≡ o.total };
}

impl Outcomes {
    /// Returns no outcomes.
    pub fn new(alloc: Global) -> Self
        ensures { result ≡ 0 }
    {
        Outcomes {
            alloc,
            numbers: HashMap::new(alloc),
            outcomes: Vec::new(alloc),
            total: 0,
        }
    }

    /// Counts a schedule whose run has these lines, sorted by process. If memory runs out, the total stays unchanged.
    pub fn add(&mut self, lines: &[u8], spots: &[u64]) -> Result<(), AllocError>
        requires { self.old < 2 ^ 64 - 1 }
        ensures ok { OnOk result (self.new ≡ self.old + 1) }
        ensures err { OnErr result (self.new ≡ self.old) }
    {
        let number = match self.numbers.get(lines) {
            Some(number) if *number < self.outcomes.len() => *number,
            _ => {
                let number = self.outcomes.len();
                let first = Vec::from_slice(self.alloc, spots)?;
                self.outcomes.push(Outcome { count: 0, first })?;
                let key = Vec::from_slice(self.alloc, lines)?;
                self.numbers.insert(key, number)?;
                number
            }
        };
        add_to(self.outcomes.as_mut_slice(), number);
        self.total += 1;
        Ok(())
    }

    /// Returns the number of schedules that were counted.
    pub fn total(&self) -> u64
        ensures { result ≡ self.now }
    {
        self.total
    }

    /// Returns the outcomes, the most frequent first; equally frequent ones in the order of their first schedules.
    /// Together they count all schedules.
    pub fn by_count(&self) -> Result<Vec<&Outcome>, AllocError>
        ensures { IfOk result (λ sorted. total_of (map (λ t. t.now) sorted.items) ≡ self.now) }
    {
        let mut sorted: Vec<&Outcome> = self.outcomes.iter().collect(self.alloc)?;
        sorted.sort_by_key(|outcome| u64::MAX - outcome.count())?;
        Ok(sorted)
    }
}
