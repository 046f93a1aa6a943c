//! Texts to find in the lines of runs.

ghost use Rattle.std.specs.Prelude.{◌≡◌, OnOk, Some, false, map};
ghost use Rattle.counting.specs.Tallies.{no_schedules};
ghost use Rattle.counting.specs.Texts.{FindView, have_text, looked_at, after_run, marked, with_many, with_marked};

use crate::count::Count;
use crate::lines::Line;
use crate::pattern::has_pattern;
use crate::tally::Tally;
use posix::Entry;
use std::alloc::{AllocError, Global};
use std::marker::Model;

/// A text to find, and the schedules so far that have it in a line.
#[derive(Drop)]
pub struct Find<'a> {
    text: &'a str,
    /// Whether a line so far of the current run has it.
    is_there: bool,
    tally: Tally,
}

impl<'a> Model for Find<'a> {
    ghost use Rattle.counting.specs.Texts.{FindView};

    ghost Value = { FindView };

    ghost view = { λ f. record { text = f.text.now; is_there = f.is_there; tally = f.tally } };
}

/// Returns true if one of the lines matches a text.
fn is_in_any(text: &str, lines: &[Line]) -> bool
    ensures { result ≡ have_text text.now lines.now }
{
    lines.iter().any(|line| has_pattern(text, line.entry()))
}

/// Marks each text that one of the lines has.
pub fn mark(texts: &[&str], lines: &[Line], marks: &mut [bool])
    ensures marks { marks.new ≡ marked (map (λ t. t.now) texts.now) lines.now marks.old }
{
    let Some((text, texts)) = texts.split_first() else {
        return;
    };
    let Some((first, marks)) = marks.split_first_mut() else {
        return;
    };
    *first = *first || is_in_any(text, lines);
    mark(texts, lines, marks);
}

impl<'a> Find<'a> {
    /// Returns a text before the first run.
    pub fn new(alloc: Global, text: &'a str) -> Self
        ensures { result ≡ record { text = text.entry.now; is_there = false; tally = no_schedules } }
    {
        Find {
            text,
            is_there: false,
            tally: Tally::new(alloc),
        }
    }

    /// Returns the text.
    pub fn text(&self) -> &'a str
        ensures { result.now ≡ self.now.text }
    {
        self.text
    }

    /// Returns the schedules that have the text in a line of their run.
    pub fn tally(&self) -> &Tally
        ensures { result.now ≡ self.now.tally }
    {
        &self.tally
    }

    /// Looks for the text in a line of the current run.
    fn look(&mut self, entry: &Entry)
        ensures { self.new ≡ looked_at entry.now self.old }
    {
        if !self.is_there {
            self.is_there = has_pattern(self.text, entry);
        }
    }

    /// Counts the schedule of the current run if one of its lines has the text. The next line begins another run.
    fn end_run(&mut self, spots: &[u64]) -> Result<(), AllocError>
        ensures { OnOk result (self.new ≡ after_run spots.now self.old) }
    {
        if self.is_there {
            self.tally.add(spots)?;
        }
        self.is_there = false;
        Ok(())
    }

    /// Counts `count` schedules that have the text. The first of them has these spots.
    fn add_many(&mut self, spots: &[u64], count: &Count) -> Result<(), AllocError>
        ensures { OnOk result (self.new ≡ with_many (record { count = count.now; first = Some spots.now }) self.old) }
    {
        self.tally.add_many(spots, count)
    }
}

/// Looks for each text in a line of the current run.
pub fn look_all(finds: &mut [Find<'_>], entry: &Entry)
    ensures { finds.new ≡ map (looked_at entry.now) finds.old }
{
    for find in finds.iter_mut() {
        find.look(entry);
    }
}

/// Counts the schedule of the current run for each text that one of its lines has. The next line begins another run.
pub fn end_run_all(finds: &mut [Find<'_>], spots: &[u64]) -> Result<(), AllocError>
    ensures { OnOk result (finds.new ≡ map (after_run spots.now) finds.old) }
{
    for find in finds.iter_mut() {
        find.end_run(spots)?;
    }
    Ok(())
}

/// Counts `count` schedules for each marked text. The first of them has these spots.
pub fn add_to_marked(
    finds: &mut [Find<'_>],
    marks: &[bool],
    spots: &[u64],
    count: &Count,
) -> Result<(), AllocError>
    ensures { OnOk result (finds.new ≡ with_marked (record { count = count.now; first = Some spots.now }) marks.now finds.old) }
{
    for (number, mark) in marks.iter().enumerate() {
        if *mark && number < finds.len() {
            finds[number].add_many(spots, count)?;
        }
    }
    Ok(())
}
