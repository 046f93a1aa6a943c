//! Rows by process ID, in pages.

ghost use Rattle.std.specs.Prelude.{◌≡◌, ◌/◌, ◌%◌, ◌<◌, ◌≤◌, ℕ, [], OnOk, nat_lt, length, map, slice_index_or};
ghost use Rattle.pidset.specs.Rows.{HasRow, page_at, row_or, with_row, without_page};

use posix::Pid;
use std::alloc::{AllocError, Global};
use std::marker::Model;

/// A row for each ID for which room was made.
///
/// Each 1,024 consecutive IDs share a page of rows, which grows as needed and can be freed. So the size depends on the
/// IDs in use and how close they are, not on the highest ID. Allocates only in [`Rows::reserve`].
#[derive(Drop)]
pub struct Rows<T: Copy> {
    alloc: Global,
    pages: Vec<Vec<T>>,
}

impl<T: Copy> Model for Rows<T> {
    ghost use Rattle.std.specs.Prelude.{List, map};
    ghost use Rattle.std.specs.Coded.{coded_list};

    ghost Value = { List (List T) };

    ghost coded = { coded_list (coded_list T.code) };

    ghost view = { λ t. map (λ p. p.items) t.pages.items };
}

/// Returns the page number of an ID.
#[inline(always)]
fn page_of(pid: Pid) -> usize
    ensures { result ≡ pid / 1024 }
{
    (pid.number() / 1024) as usize
}

/// Returns the place of an ID on its page.
#[inline(always)]
fn place_of(pid: Pid) -> usize
    ensures is { result ≡ pid % 1024 }
    ensures range { result < 1024 }
{
    (pid.number() % 1024) as usize
}

/// Adds pages up to index `at`; new pages have no rows. Fails if there is no memory for them.
fn make_pages<T: Copy>(pages: &mut Vec<Vec<T>>, alloc: Global, at: usize) -> Result<(), AllocError>
    ensures same { (k : ℕ) → page_at (map (λ p. p.items) pages.new.items) k ≡ page_at (map (λ p. p.items) pages.old.items) k }
    ensures there { OnOk result (at < length pages.new.items) }
{
    while pages.len() <= at {
        pages.push(Vec::new(alloc))?;
    }
    Ok(())
}

/// Fills a page with `row` until it has a row at `place`. A page that is too short grows to about twice `place`, at
/// most 1,024 rows.
fn make_rows<T: Copy>(page: &mut Vec<T>, place: usize, row: T) -> Result<(), AllocError>
    requires { place < 1024 }
    ensures room { OnOk result (place < length page.new.items) }
    ensures grows { length page.old.items ≤ length page.new.items }
    ensures rows { (i : ℕ) → slice_index_or page.new.items i row ≡ slice_index_or page.old.items i row }
{
    if place < page.len() {
        return Ok(());
    }
    page.resize((2 * place + 2).min(1024), row)
}

impl<T: Copy> Rows<T> {
    /// Creates a table without rows. Allocates nothing.
    pub fn new(alloc: Global) -> Rows<T>
        ensures { result ≡ [] }
    {
        Rows {
            alloc,
            pages: Vec::new(alloc),
        }
    }

    /// Returns true if an ID has a row.
    #[inline(always)]
    pub fn has(&self, pid: Pid) -> bool
        ensures { result ≡ nat_lt (pid % 1024) (length (page_at self.now (pid / 1024))) }
    {
        match self.pages.get(page_of(pid)) {
            Some(page) => place_of(pid) < page.len(),
            None => false,
        }
    }

    /// Returns the row of an ID.
    #[inline(always)]
    pub fn get(&self, pid: Pid) -> T
        requires { HasRow self.now pid }
        ensures { (other : T) → row_or other self.now pid ≡ result }
    {
        self.pages[page_of(pid)][place_of(pid)]
    }

    /// Sets the row of an ID.
    #[inline(always)]
    pub fn set(&mut self, pid: Pid, row: T)
        requires { HasRow self.old pid }
        ensures { self.new ≡ with_row self.old pid row }
    {
        self.pages[page_of(pid)][place_of(pid)] = row;
    }

    /// Makes room for an ID: it gets `row` if it has no row yet. Other IDs keep their rows, and some without one may
    /// get `row`, too, even if this fails for lack of memory.
    #[inline]
    pub fn reserve(&mut self, pid: Pid, row: T) -> Result<(), AllocError>
        ensures room { OnOk result (HasRow self.new pid) }
        ensures grows { (n : ℕ) → HasRow self.old n → HasRow self.new n }
        ensures rows { (n : ℕ) → row_or row self.new n ≡ row_or row self.old n }
    {
        if self.has(pid) {
            return Ok(());
        }
        self.grow(pid, row)
    }

    /// Makes room for an ID that may have no row yet. Not inlined because few new processes need it.
    #[inline(never)]
    fn grow(&mut self, pid: Pid, row: T) -> Result<(), AllocError>
        ensures room { OnOk result (HasRow self.new pid) }
        ensures grows { (n : ℕ) → HasRow self.old n → HasRow self.new n }
        ensures rows { (n : ℕ) → row_or row self.new n ≡ row_or row self.old n }
    {
        let at = page_of(pid);
        make_pages(&mut self.pages, self.alloc, at)?;
        make_rows(&mut self.pages[at], place_of(pid), row)
    }

    /// Frees the page of an ID, with the rows of all IDs on it.
    pub fn give_up_page(&mut self, pid: Pid)
        ensures { self.new ≡ without_page self.old pid }
    {
        if let Some(page) = self.pages.get_mut(page_of(pid)) {
            *page = Vec::new(self.alloc);
        }
    }
}
