//! Values by process ID, in pages.

ghost use Rattle.std.specs.Prelude.{◌≡◌, ◌/◌, ◌%◌, ◌≤◌, ◌<◌, ◌==◌, nat_lt, true, not, Some, None, is_some, IfErr, IfOk, IfSome, [], OnOk, filter, length, option_map, slice_get, vec_len, vec_capacity};
ghost use Rattle.std.specs.Option.{option_and_then, option_copied};
ghost use Rattle.pidset.specs.Numbers.{Rises, IsNumberAt, IsInsertionPoint, inserted_in_order};
ghost use Rattle.pidset.specs.Pages.{ArePages, IsPage, IsUnused, AreChanged, entry, entry_of, pids_of, numbers_of, entries_in, page_of as page_at, value_of, first_above};

use crate::numbered::{behind, insert_at, search, stands_at};
use crate::page::Page;
use posix::Pid;
use std::alloc::{AllocError, Global};
use std::marker::Model;

/// A map from process IDs to values, modelled as a list of both in rising order of the IDs.
///
/// Each 64 consecutive IDs share a page if at least one of them has a value, and at most one more page is spare. So the
/// size depends on how many IDs have values and how close they are, not on the highest ID. Allocates only in
/// [`Pages::reserve`].
#[derive(Drop)]
pub struct Pages<T: Copy> {
    alloc: Global,
    /// The pages in rising order of their numbers. Each has a value.
    pages: Vec<Page<T>>,
    /// A page without values, for the next insertion that needs one.
    spare: Option<Page<T>>,
}

impl<T: Copy> Model for Pages<T> {
    ghost use Rattle.std.specs.Prelude.{◌&&◌, is_some, nat_lt, IfSome, vec_len, vec_capacity};
    ghost use Rattle.pidset.specs.Pages.{PagesView, pages_code, entries_of, ArePages, IsUnused};

    ghost Value = { PagesView T };

    ghost coded = { pages_code T.code };

    ghost view = { λ t. record { entries = entries_of t.pages.items; ready = is_some t.spare && nat_lt (vec_len t.pages) (vec_capacity t.pages) } };

    ghost invariant = { λ t. ArePages t.pages.items × IfSome t.spare IsUnused };
}

/// Returns the page number of an ID.
#[inline(always)]
fn page_of(pid: Pid) -> u32
    ensures is { result ≡ pid / 64 }
    ensures most { result ≤ 33554431 }
{
    pid.number() / 64
}

/// Returns the place of an ID on its page.
#[inline(always)]
fn place_of(pid: Pid) -> usize
    ensures is { result ≡ pid % 64 }
    ensures range { result < 64 }
{
    (pid.number() % 64) as usize
}

impl<T: Copy> Pages<T> {
    /// Creates an empty map. Allocates nothing.
    #[tactic(auto, unfolding(crate::specs::Pages::entries_of, crate::specs::Numbers::Rises))]
    pub fn new(alloc: Global) -> Pages<T>
        ensures { result.entries ≡ [] }
    {
        Pages {
            alloc,
            pages: Vec::new(alloc),
            spare: None,
        }
    }

    /// Makes room for one more value, whatever its ID. The values are unchanged, even if this fails for lack of memory.
    pub fn reserve(&mut self) -> Result<(), AllocError>
        ensures ready { OnOk result (self.new.ready ≡ true) }
        ensures stays { self.old.ready ≡ true → self.new.ready ≡ true }
        ensures entries { self.new.entries ≡ self.old.entries }
    {
        self.pages.reserve(1)?;
        if self.spare.is_none() {
            self.spare = Some(Page::unused(self.alloc)?);
        }
        Ok(())
    }

    /// Proves that there are no more values than IDs. Does nothing when run.
    #[inline(always)]
    #[tactic(auto, using(crate::proofs::PageLemmas::few_pages))]
    pub fn size_holds(&self)
        ensures { length self.now.entries ≤ 2147483648 }
    {
        let _ = &self.pages;
    }

    /// Returns the value of an ID, if it has one.
    #[inline]
    pub fn get(&self, pid: Pid) -> Option<T>
        ensures { result ≡ option_map (λ e. e.value) (entry_of pid self.now.entries) }
    {
        match page(&self.pages, pid) {
            Some(page) => page.get(place_of(pid)),
            None => None,
        }
    }

    /// Adds a value for an ID that has none, within reserved room.
    pub fn put(&mut self, pid: Pid, value: T)
        requires room { self.old.ready ≡ true }
        requires absent { entry_of pid self.old.entries ≡ None }
        ensures { self.new.entries ≡ inserted_in_order (λ e. e.pid) (entry pid value) self.old.entries }
    {
        match index_of(&self.pages, pid) {
            Ok(at) => put_at(&mut self.pages, at, pid, value),
            Err(at) => {
                if let Some(page) = self.spare.take() {
                    lay(&mut self.pages, at, page, pid, value);
                }
            }
        }
    }

    /// Removes and returns the value of an ID, if it has one. A page without values leaves the map.
    pub fn remove(&mut self, pid: Pid) -> Option<T>
        ensures value { result ≡ option_map (λ e. e.value) (entry_of pid self.old.entries) }
        ensures entries { self.new.entries ≡ filter (λ e. not (e.pid == pid)) self.old.entries }
        ensures ready { self.old.ready ≡ true → self.new.ready ≡ true }
    {
        match index_of(&self.pages, pid) {
            Ok(at) => take_at(&mut self.pages, &mut self.spare, at, pid),
            Err(_) => None,
        }
    }

    /// Returns the lowest ID above `after` that has a value.
    pub fn next_above(&self, after: Pid) -> Option<Pid>
        ensures value { result ≡ first_above after self.now.entries }
        ensures rising { Rises (pids_of self.now.entries) }
    {
        let near = next_in(page(&self.pages, after), after);
        if near.is_some() {
            return near;
        }
        next_in(page_behind(&self.pages, after), after)
    }
}

/// Returns the index of the page of an ID, or the index where the page would be inserted.
#[inline]
fn index_of<T: Copy>(pages: &[Page<T>], pid: Pid) -> Result<usize, usize>
    requires { Rises (numbers_of pages.now) }
    ensures found { IfOk result (IsNumberAt (numbers_of pages.now) (pid / 64)) }
    ensures absent { IfErr result (IsInsertionPoint (numbers_of pages.now) (pid / 64)) }
{
    // Usually there is a page for each number from 0 on.
    let number = page_of(pid);
    let at = number as usize;
    if stands_at(pages, at, u128::from(number)) {
        return Ok(at);
    }
    search(pages, &number)
}

/// Returns the page of an ID, if present.
#[inline]
fn page<T: Copy>(pages: &[Page<T>], pid: Pid) -> Option<&Page<T>>
    requires { ArePages pages.now }
    ensures is { option_copied result ≡ page_at (pid / 64) pages.now }
    ensures page { IfSome (option_copied result) (λ p. IsPage p × (p.number ≡ pid / 64)) }
{
    match index_of(pages, pid) {
        Ok(at) => Some(&pages[at]),
        Err(_) => None,
    }
}

/// Returns the first page after the page number of an ID.
#[inline]
fn page_behind<T: Copy>(pages: &[Page<T>], pid: Pid) -> Option<&Page<T>>
    requires { ArePages pages.now }
    ensures is { option_copied result ≡ slice_get (filter (λ p. nat_lt (pid / 64) p.number) pages.now) 0 }
    ensures page { IfSome (option_copied result) (λ p. IsPage p × (pid / 64 < p.number)) }
{
    behind(pages, index_of(pages, pid))
}

/// Adds a value for an ID that has none to the page at an index.
fn put_at<T: Copy>(pages: &mut Vec<Page<T>>, at: usize, pid: Pid, value: T)
    requires pages { ArePages pages.old.items }
    requires at { IsNumberAt (numbers_of pages.old.items) (pid / 64) at }
    requires absent { value_of pid pages.old.items ≡ None }
    ensures { AreChanged pid (Some value) pages.old.items pages.new.items }
{
    pages[at].put(place_of(pid), value);
}

/// Inserts a page for an ID that has none, with its value. The given page has no values yet.
fn lay<T: Copy>(pages: &mut Vec<Page<T>>, at: usize, page: Page<T>, pid: Pid, value: T)
    requires pages { ArePages pages.old.items }
    requires at { IsInsertionPoint (numbers_of pages.old.items) (pid / 64) at }
    requires unused { IsUnused page }
    requires room { vec_len pages.old < vec_capacity pages.old }
    ensures { AreChanged pid (Some value) pages.old.items pages.new.items }
{
    let mut page = page;
    page.renumber(page_of(pid));
    page.put(place_of(pid), value);
    insert_at(pages, at, page);
}

/// Removes and returns the value of an ID, if it has one, from the page at an index. A page left empty becomes spare.
fn take_at<T: Copy>(
    pages: &mut Vec<Page<T>>,
    spare: &mut Option<Page<T>>,
    at: usize,
    pid: Pid,
) -> Option<T>
    requires pages { ArePages pages.old.items }
    requires spare { IfSome spare.old IsUnused }
    requires at { IsNumberAt (numbers_of pages.old.items) (pid / 64) at }
    ensures value { result ≡ value_of pid pages.old.items }
    ensures changed { AreChanged pid None pages.old.items pages.new.items }
    ensures spare { IfSome spare.new IsUnused }
    ensures stays { is_some spare.old ≡ true → is_some spare.new ≡ true }
    ensures len { vec_len pages.new ≤ vec_len pages.old }
    ensures capacity { vec_capacity pages.new ≡ vec_capacity pages.old }
{
    let page = &mut pages[at];
    let value = page.take(place_of(pid));
    if page.is_unused() {
        *spare = Some(pages.remove(at));
    }
    value
}

/// Returns the lowest ID above `after` that has a value on a page. The page is that of `after` or a later one.
#[inline]
fn next_in<T: Copy>(page: Option<&Page<T>>, after: Pid) -> Option<Pid>
    requires { IfSome (option_copied page) (λ p. IsPage p × (after / 64 ≤ p.number)) }
    ensures { result ≡ option_and_then (λ p. first_above after (entries_in p)) (option_copied page.entry) }
{
    match page {
        Some(page) => page.next_above(after),
        None => None,
    }
}
