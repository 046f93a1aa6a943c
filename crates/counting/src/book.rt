//! Counts of runs of schedules.

ghost use Rattle.std.specs.Prelude.{◌≡◌, ◌+◌, ◌<◌, ◌≤◌, ◌^◌, ◌-◌, map, IfOk, OnOk, Some};
ghost use Rattle.counting.specs.Endings.{with_ending};
ghost use Rattle.counting.specs.Texts.{after_run, saw};
ghost use Rattle.counting.specs.Books.{empty_book, with_run, unseen, with_many_runs};

use crate::count::Count;
use crate::ending::{Ending, Endings};
use crate::finds::{Find, add_to_marked, end_run_all, look_all};
use crate::lines::{Line, process_number, shown};
use crate::outcomes::Outcomes;
use std::alloc::{AllocError, Global};
use std::marker::Model;

/// Looks for each text in the lines of a run, and adds the lines to `text`.
fn look_at(lines: &[Line], finds: &mut [Find<'_>], text: &mut Vec<u8>) -> Result<(), AllocError>
    ensures { OnOk result (finds.new ≡ map (saw lines.now) finds.old) }
{
    for line in lines {
        look_all(finds, line.entry());
        text.extend_from_slice(shown(line.entry(), &mut [0; 128]))?;
        text.push(b'\n')?;
    }
    Ok(())
}

/// Returns the texts to find, before the first run.
fn finds_of<'a>(alloc: Global, texts: &[&'a str]) -> Result<Vec<Find<'a>>, AllocError>
    ensures { IfOk result (λ finds. finds.items ≡ map (λ t. unseen t.now) texts.now) }
{
    let mut finds = Vec::new(alloc);
    for text in texts {
        finds.push(Find::new(alloc, text))?;
    }
    Ok(finds)
}

/// Counts a schedule whose run shows these lines, in some order, and ends in this way. Uses `text` as room for the
/// lines. After an error, some of the counts may include the schedule.
fn count_run(
    lines: &[Line],
    ending: Ending,
    spots: &[u64],
    finds: &mut [Find<'_>],
    text: &mut Vec<u8>,
    outcomes: &mut Outcomes,
    endings: &mut Endings,
) -> Result<(), AllocError>
    requires { outcomes.old < 2 ^ 64 - 1 }
    ensures most { outcomes.new ≤ outcomes.old + 1 }
    ensures endings { OnOk result (endings.new ≡ with_ending ending spots.now endings.old) }
    ensures finds { OnOk result (finds.new ≡ map (after_run spots.now) (map (saw lines.now) finds.old)) }
    ensures total { OnOk result (outcomes.new ≡ outcomes.old + 1) }
{
    look_at(lines, finds, text)?;
    outcomes.add(text.as_slice(), spots)?;
    endings.add(ending, spots)?;
    end_run_all(finds, spots)
}

/// The counts of schedules, by how they end, by the texts that their lines have, and by their outcomes.
#[derive(Drop)]
pub struct Book<'a> {
    endings: Endings,
    finds: Vec<Find<'a>>,
    outcomes: Outcomes,
    /// The number of schedules, both those that were run separately and those that were merged.
    total: Count,
    /// How many states the schedules were merged into; 0 if they were run separately.
    states: u64,
    /// Room for the lines of a run.
    text: Vec<u8>,
}

impl<'a> Model for Book<'a> {
    ghost use Rattle.std.specs.Prelude.{◌≤◌};
    ghost use Rattle.counting.specs.Books.{BookView};

    ghost Value = { BookView };

    ghost view = { λ b. record { endings = b.endings; finds = b.finds.items; total = b.total } };

    ghost invariant = { λ b. b.outcomes ≤ b.total };
}

impl<'a> Book<'a> {
    /// Returns the book before the first schedule, with the texts to find.
    pub fn new(alloc: Global, texts: &[&'a str]) -> Result<Self, AllocError>
        ensures { IfOk result (λ b. b ≡ empty_book (map (λ t. t.now) texts.now)) }
    {
        Ok(Book {
            endings: Endings::new(alloc),
            finds: finds_of(alloc, texts)?,
            outcomes: Outcomes::new(alloc),
            total: Count::zero(alloc),
            states: 0,
            text: Vec::new(alloc),
        })
    }

    /// Counts a schedule whose run shows these lines, and ends in this way. Sorts the lines by process.
    pub fn add(
        &mut self,
        lines: &mut Vec<Line>,
        ending: Ending,
        spots: &[u64],
    ) -> Result<(), AllocError>
        requires { self.old.total < 2 ^ 64 - 1 }
        ensures { OnOk result (self.new ≡ with_run lines.old.items ending spots.now self.old) }
    {
        self.text.clear();
        lines.sort_by_key(process_number)?;
        self.total.add_one()?;
        count_run(
            lines.as_slice(),
            ending,
            spots,
            self.finds.as_mut_slice(),
            &mut self.text,
            &mut self.outcomes,
            &mut self.endings,
        )
    }

    /// Returns the number of schedules that were counted.
    pub fn total(&self) -> &Count
        ensures { result.now ≡ self.now.total }
    {
        &self.total
    }

    /// Counts `count` schedules that end in this way, and whose lines have the marked texts. The first of them has
    /// these spots.
    pub fn add_many(
        &mut self,
        ending: Ending,
        marks: &[bool],
        spots: &[u64],
        count: &Count,
    ) -> Result<(), AllocError>
        ensures { OnOk result (self.new ≡ with_many_runs ending marks.now (record { count = count.now; first = Some spots.now }) self.old) }
    {
        self.total.add(count)?;
        self.endings.add_many(ending, spots, count)?;
        add_to_marked(self.finds.as_mut_slice(), marks, spots, count)
    }

    /// Notes that the schedules were merged into this many states.
    pub fn tell_states(&mut self, states: u64)
        ensures { self.new ≡ self.old }
    {
        self.states = states;
    }

    /// Returns how many states the schedules were merged into; 0 if they were run separately.
    pub fn states(&self) -> u64 {
        self.states
    }

    /// Returns the schedules that end in each way.
    pub fn endings(&self) -> &Endings
        ensures { result.now ≡ self.now.endings }
    {
        &self.endings
    }

    /// Returns the texts to find, with the schedules that have them.
    pub fn finds(&self) -> &[Find<'a>]
        ensures { result.now ≡ self.now.finds }
    {
        self.finds.as_slice()
    }

    /// Returns the outcomes. They are empty if the schedules were merged.
    pub fn outcomes(&self) -> &Outcomes {
        &self.outcomes
    }
}
