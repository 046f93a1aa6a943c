//! The values of 64 consecutive process IDs.

ghost use Rattle.std.specs.Prelude.{◌≡◌, ◌+◌, ◌*◌, ◌/◌, ◌%◌, ◌<◌, ◌≤◌, ◌==◌, None, Some, IfOk, slice_get, slice_set};
ghost use Rattle.pidset.specs.Numbers.{numbers_above};
ghost use Rattle.pidset.specs.Pages.{IsPage, IsUnused, value_at, entries_in, pids_of};

use crate::numbered::Numbered;
use posix::Pid;
use std::alloc::{AllocError, Global};

/// The optional values of 64 consecutive IDs, starting at 64 times the page number.
#[derive(Drop)]
pub(crate) struct Page<T: Copy> {
    number: u32,
    /// How many values are present.
    used: usize,
    /// No value is at this place or after it.
    end: usize,
    values: Vec<Option<T>>,
}

impl<T: Copy> Numbered for Page<T> {
    ghost number = { λ p. p.number };

    fn number(&self) -> u128 {
        u128::from(self.number)
    }
}

impl<T: Copy> Page<T> {
    /// Creates a page without values. Fails if there is no memory for it.
    pub fn unused(alloc: Global) -> Result<Page<T>, AllocError>
        ensures { IfOk result IsUnused }
    {
        let values = vec![in alloc; None; 64]?;
        Ok(Page {
            number: 0,
            used: 0,
            end: 0,
            values,
        })
    }

    /// Changes the number of a page without values.
    pub fn renumber(&mut self, number: u32)
        requires unused { IsUnused self.old }
        requires number { number ≤ 33554431 }
        ensures unused { IsUnused self.new }
        ensures number { self.new.number ≡ number }
    {
        self.number = number;
        self.end = 0;
    }

    /// Returns true if the page has no values.
    pub fn is_unused(&self) -> bool
        ensures { result ≡ (self.now.used == 0) }
    {
        self.used == 0
    }

    /// Returns the value at a place.
    pub fn get(&self, at: usize) -> Option<T>
        requires page { IsPage self.now }
        requires at { at < 64 }
        ensures { result ≡ value_at self.now.values.items at }
    {
        self.values[at]
    }

    /// Adds a value at a place that has none.
    pub fn put(&mut self, at: usize, value: T)
        requires page { IsPage self.old }
        requires at { at < 64 }
        requires absent { value_at self.old.values.items at ≡ None }
        ensures page { IsPage self.new }
        ensures number { self.new.number ≡ self.old.number }
        ensures values { self.new.values.items ≡ slice_set self.old.values.items at (Some value) }
        ensures used { 1 ≤ self.new.used }
    {
        self.values[at] = Some(value);
        self.used += 1;
        self.end = self.end.max(at + 1);
    }

    /// Removes and returns the value at a place, if there is one.
    pub fn take(&mut self, at: usize) -> Option<T>
        requires page { IsPage self.old }
        requires at { at < 64 }
        ensures value { result ≡ value_at self.old.values.items at }
        ensures page { IsPage self.new }
        ensures number { self.new.number ≡ self.old.number }
        ensures values { self.new.values.items ≡ slice_set self.old.values.items at None }
    {
        let value = self.values[at];
        if value.is_some() {
            self.values[at] = None;
            self.used -= 1;
        }
        value
    }

    /// Returns the lowest ID above `after` that has a value. The page is that of `after` or a later one.
    pub fn next_above(&self, after: Pid) -> Option<Pid>
        requires page { IsPage self.now }
        requires after { after / 64 ≤ self.now.number }
        ensures { result ≡ slice_get (numbers_above after (pids_of (entries_in self.now))) 0 }
    {
        let first = self.number * 64;
        let mut at = place_behind(after, first);
        while at < self.end {
            if self.values[at].is_some() {
                return Pid::new(first + at as u32);
            }
            at += 1;
        }
        None
    }
}

/// Returns the first place of an ID above `after` on the page whose lowest ID is `first`, or 64 if there is none.
fn place_behind(after: Pid, first: u32) -> usize
    requires first { first % 64 ≡ 0 }
    requires after { after < first + 64 }
    ensures most { result ≤ 64 }
    ensures behind { after < first + result }
    ensures before { 0 < result → first + result ≤ after + 1 }
{
    let number = after.number();
    if number < first {
        0
    } else {
        (number - first) as usize + 1
    }
}
