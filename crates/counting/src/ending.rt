//! How runs end.

ghost use Rattle.std.specs.Prelude.{◌≡◌, OnOk, Some};
ghost use Rattle.counting.specs.Endings.{no_endings, with_ending, with_many_endings};

use crate::count::Count;
use crate::tally::Tally;
use std::alloc::{AllocError, Global};

/// How a run ends: the state of the machine after the last event.
#[derive(Clone, Copy)]
pub enum Ending {
    /// The machine has halted.
    Halted,
    /// The machine has not halted, no process is runnable, and no alarm is set.
    AtRest,
    /// The machine has not halted, no process is runnable, and an alarm is set.
    AwaitsAlarm,
    /// A process is runnable.
    Going,
}

/// The schedules that end in each way.
#[derive(Drop)]
pub struct Endings {
    pub halted: Tally,
    /// No process is runnable, with or without an alarm.
    pub at_rest: Tally,
    /// Those at rest in which an alarm is set.
    pub alarmed: Tally,
    pub going: Tally,
}

impl Endings {
    /// Returns the counts before the first schedule.
    pub fn new(alloc: Global) -> Self
        ensures { result ≡ no_endings }
    {
        Endings {
            halted: Tally::new(alloc),
            at_rest: Tally::new(alloc),
            alarmed: Tally::new(alloc),
            going: Tally::new(alloc),
        }
    }

    /// Counts a schedule that ends in this way.
    pub fn add(&mut self, ending: Ending, spots: &[u64]) -> Result<(), AllocError>
        ensures { OnOk result (self.new ≡ with_ending ending spots.now self.old) }
    {
        match ending {
            Ending::Halted => self.halted.add(spots),
            Ending::AtRest => self.at_rest.add(spots),
            Ending::AwaitsAlarm => {
                self.at_rest.add(spots)?;
                self.alarmed.add(spots)
            }
            Ending::Going => self.going.add(spots),
        }
    }

    /// Counts `count` schedules that end in this way. The first of them has these spots.
    pub fn add_many(
        &mut self,
        ending: Ending,
        spots: &[u64],
        count: &Count,
    ) -> Result<(), AllocError>
        ensures { OnOk result (self.new ≡ with_many_endings ending (record { count = count.now; first = Some spots.now }) self.old) }
    {
        match ending {
            Ending::Halted => self.halted.add_many(spots, count),
            Ending::AtRest => self.at_rest.add_many(spots, count),
            Ending::AwaitsAlarm => {
                self.at_rest.add_many(spots, count)?;
                self.alarmed.add_many(spots, count)
            }
            Ending::Going => self.going.add_many(spots, count),
        }
    }
}
