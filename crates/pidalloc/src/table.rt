//! The IDs up to a largest one, and how many processes use each.

ghost use Rattle.std.specs.Prelude.{◌≡◌, ◌+◌, ◌-◌, ◌<◌, ◌≤◌, ◌/◌, ◌%◌, ◌*◌, ◌⊎◌, ◌==◌, ◌&&◌, ℕ, true, false, Some, None, [], OnOk, length, slice_index_or};
ghost use Rattle.posix.specs.Common.{next_free, first_free};
ghost use Rattle.pidset.specs.Rows.{Grows, HasRoom, HasRow, sizes_of, sizes_without};
ghost use Rattle.pidalloc.specs.Rows.{IsPids, unborne_table, row, is_free_in, is_free_row, count_of, borne, given_up, born_in, gone_from, regrouped, row_in, one, one_more, one_less, last_given, IsRowChanged};

use crate::row::{Role, Row};
use pidset::Rows;
use posix::Pid;
use std::alloc::{AllocError, Global};
use std::marker::Model;

/// How many processes use each ID from 0 to a largest one, as process ID, process group ID and session ID; and the last
/// process ID given out.
///
/// The rows are in pages of 1,024 IDs, so the size depends on the IDs in use. Allocates only in [`PidTable::reserve`].
/// In one sorted list of IDs, a removal could move 16 MB.
#[derive(Drop)]
pub struct PidTable {
    pidmax: u32,
    last: u32,
    rows: Rows<Row>,
    /// How many IDs of each page are in use.
    counts: Vec<u32>,
    /// All IDs from 2 on that are below this one are in use.
    borne_below: u32,
    /// All IDs from this one on are in use.
    borne_from: u32,
}

impl Model for PidTable {
    ghost use Rattle.pidalloc.specs.Rows.{Pids, IsTable, rows_in, sizes_in};

    ghost Value = { Pids };

    ghost view = { λ t. record { pidmax = t.pidmax; last = t.last; rows = rows_in t.pidmax t.rows; sizes = sizes_in t.pidmax t.counts.items t.rows } };

    ghost invariant = { λ t. IsTable t.pidmax t.last t.rows t.counts.items t.borne_below t.borne_from };
}

/// Returns the page number of an ID.
#[inline(always)]
fn page_of(number: u32) -> usize
    ensures { result ≡ number / 1024 }
{
    (number / 1024) as usize
}

/// Makes `count` counts; new ones are 0. Fails if there is no memory for them.
#[inline]
fn make_counts(counts: &mut Vec<u32>, count: usize) -> Result<(), AllocError>
    ensures same { (k : ℕ) → slice_index_or counts.new.items k 0 ≡ slice_index_or counts.old.items k 0 }
    ensures grows { length counts.old.items ≤ length counts.new.items }
    ensures enough { OnOk result (count ≤ length counts.new.items) }
{
    if count <= counts.len() {
        return Ok(());
    }
    counts.resize(count, 0)
}

/// Returns how many IDs of a page are in use.
#[inline]
fn count_at(counts: &Vec<u32>, page: usize) -> u32
    ensures { result ≡ slice_index_or counts.now.items page 0 }
{
    match counts.get(page) {
        Some(count) => *count,
        None => 0,
    }
}

/// Counts one more ID of a page as in use, if it was free before.
#[inline]
fn count_borne(counts: &mut Vec<u32>, page: usize, was_free: bool)
    requires inside { was_free ≡ true → page < length counts.old.items }
    requires few { slice_index_or counts.old.items page 0 ≤ 1024 }
    ensures counts { (k : ℕ) → slice_index_or counts.new.items k 0 ≡ slice_index_or counts.old.items k 0 + one (was_free && (k == page)) }
    ensures size { length counts.new.items ≡ length counts.old.items }
{
    if was_free {
        counts[page] += 1;
    }
}

/// Adds a use of an ID in this role. Returns true if the ID was free before.
#[inline]
fn bear_in(rows: &mut Rows<Row>, pid: Pid, role: Role) -> bool
    requires there { HasRow rows.old pid }
    requires count { count_of role (row_in rows.old pid) < 4294967295 }
    ensures rows { IsRowChanged pid (one_more role) rows.old rows.new }
    ensures sizes { sizes_of rows.new ≡ sizes_of rows.old }
    ensures free { result ≡ is_free_row (row_in rows.old pid) }
{
    let mut row = rows.get(pid);
    let was_free = row.is_free();
    row.bear(role);
    rows.set(pid, row);
    was_free
}

/// Removes a use of an ID in this role. Returns true if the ID is free now.
#[inline]
fn give_up_in(rows: &mut Rows<Row>, pid: Pid, role: Role) -> bool
    requires { 1 ≤ count_of role (row_in rows.old pid) }
    ensures rows { IsRowChanged pid (one_less role) rows.old rows.new }
    ensures sizes { sizes_of rows.new ≡ sizes_of rows.old }
    ensures free { result ≡ is_free_row (row_in rows.new pid) }
{
    let mut row = rows.get(pid);
    row.give_up(role);
    rows.set(pid, row);
    row.is_free()
}

/// Returns the last ID given out, after a new use of `number` in this role.
fn given(role: Role, number: u32, last: u32) -> u32
    ensures { result ≡ last_given role number last }
{
    match role {
        Role::Process => number,
        _ => last,
    }
}

impl PidTable {
    /// Creates a table of the IDs up to `pidmax`, 2 to 4,194,304. None is in use, and ID 1 counts as the last one given
    /// out. Allocates nothing.
    pub fn new(alloc: Global, pidmax: u32) -> PidTable
        requires { (2 ≤ pidmax) × (pidmax ≤ 4194304) }
        ensures value { result ≡ unborne_table pidmax }
        ensures kept { IsPids result }
    {
        PidTable {
            pidmax,
            last: 1,
            rows: Rows::new(alloc),
            counts: Vec::new(alloc),
            borne_below: 2,
            borne_from: pidmax + 1,
        }
    }

    /// Makes room for uses of an ID, which is at most the largest one. Nothing else changes, even if this fails for
    /// lack of memory.
    #[inline]
    pub fn reserve(&mut self, pid: Pid) -> Result<(), AllocError>
        ensures room { OnOk result (HasRoom self.new.sizes pid) }
        ensures grows { Grows self.old.sizes self.new.sizes }
        ensures rest { self.new ≡ record (self.old) { sizes = self.new.sizes } }
    {
        make_counts(&mut self.counts, page_of(self.pidmax) + 1)?;
        self.rows.reserve(pid, Row::UNBORNE)
    }

    /// Returns the largest ID: 2 to 4,194,304.
    pub fn pidmax(&self) -> u32
        ensures value { result ≡ self.now.pidmax }
        ensures range { (2 ≤ result) × (result ≤ 4194304) }
        ensures kept { IsPids self.now }
    {
        self.pidmax
    }

    /// Returns the last process ID given out.
    pub fn last(&self) -> Pid
        ensures { result ≡ self.now.last }
    {
        Pid::new(self.last).unwrap_or(Pid::NONE)
    }

    /// Returns true if the page of an ID can be freed: none of its 1,024 IDs is in use, and the last ID given out isn't
    /// on it. The page of the last ID stays, because the next one may be on it, too. Otherwise forks and terminations
    /// on one page could free and allocate it again and again.
    #[inline]
    pub fn can_give_up_page(&self, pid: Pid) -> bool
        ensures free { result ≡ true → (q : ℕ) → q / 1024 ≡ pid / 1024 → is_free_in self.now.rows q ≡ true }
        ensures borne { result ≡ false → (self.now.last / 1024 ≡ pid / 1024) ⊎ ((q : ℕ) × (q / 1024 ≡ pid / 1024) × (is_free_in self.now.rows q ≡ false)) }
    {
        let page = page_of(pid.number());
        page != page_of(self.last) && count_at(&self.counts, page) == 0
    }

    /// Frees the room for an ID and for all others on its page of 1,024 IDs. None of them may be in use.
    pub fn give_up_page(&mut self, pid: Pid)
        requires { (q : ℕ) → q / 1024 ≡ pid / 1024 → is_free_in self.old.rows q ≡ true }
        ensures { self.new ≡ record (self.old) { sizes = sizes_without self.old.sizes pid } }
    {
        self.rows.give_up_page(pid);
    }

    /// Returns true if an ID is not in use.
    #[inline]
    fn is_free(&self, pid: Pid) -> bool
        ensures { pid ≤ self.now.pidmax → result ≡ is_free_in self.now.rows pid }
    {
        !self.rows.has(pid) || self.rows.get(pid).is_free()
    }

    /// Returns the lowest free ID from `from` on. Skips pages on which all IDs are in use.
    fn first_free(&self, from: u32) -> Option<Pid>
        requires { from ≤ self.now.pidmax + 1 }
        ensures { result ≡ first_free (is_free_in self.now.rows) from (self.now.pidmax + 1 - from) }
    {
        let mut at = from;
        while at <= self.pidmax {
            let pid = Pid::new(at)?;
            if count_at(&self.counts, page_of(at)) == 1024 {
                at = (at / 1024 + 1) * 1024;
            } else if self.is_free(pid) {
                return Some(pid);
            } else {
                at += 1;
            }
        }
        None
    }

    /// Returns the lowest free ID above the last one given out. If there is none, the next search skips this range.
    fn first_above_last(&mut self) -> Option<Pid>
        ensures value { result ≡ first_free (is_free_in self.old.rows) (self.old.last + 1) (self.old.pidmax - self.old.last) }
        ensures same { self.new ≡ self.old }
    {
        let from = self.last + 1;
        if self.borne_from <= from {
            return None;
        }
        let pid = self.first_free(from);
        if pid.is_none() {
            self.borne_from = from;
        }
        pid
    }

    /// Returns the lowest free ID from 2 on. The next search starts there.
    fn first_of_all(&mut self) -> Option<Pid>
        ensures value { result ≡ first_free (is_free_in self.old.rows) 2 (self.old.pidmax - 1) }
        ensures same { self.new ≡ self.old }
    {
        let pid = self.first_free(self.borne_below.max(2));
        self.borne_below = match pid {
            Some(pid) => pid.number(),
            None => self.pidmax + 1,
        };
        pid
    }

    /// Returns the ID of the next process: the lowest free one above the last given out; if there is none, the lowest
    /// free one from 2 on; `None` if all are in use (own). An ID is in use as long as it is that of a process group or
    /// session (XSH fork). If only one ID is free, every search after the first finds it at once.
    #[tactic(auto, unfolding(posix::specs::NextPid::next_free))]
    pub fn next(&mut self) -> Option<Pid>
        ensures value { result ≡ next_free (is_free_in self.old.rows) self.old.last self.old.pidmax }
        ensures same { self.new ≡ self.old }
    {
        if let Some(pid) = self.first_above_last() {
            return Some(pid);
        }
        self.first_of_all()
    }

    /// Adds a use of `pid` in this role. A process ID also becomes the last one given out.
    pub fn bear(&mut self, pid: Pid, role: Role)
        requires range { pid ≤ self.old.pidmax }
        requires count { count_of role (row self.old.rows pid) < 4294967295 }
        requires room { is_free_in self.old.rows pid ≡ true → HasRoom self.old.sizes pid }
        ensures value { self.new ≡ borne self.old pid role }
        ensures borne { is_free_in self.new.rows pid ≡ false }
        ensures others { (q : ℕ) → is_free_in self.old.rows q ≡ false → is_free_in self.new.rows q ≡ false }
        ensures kept { IsPids self.new }
    {
        let number = pid.number();
        let was_free = bear_in(&mut self.rows, pid, role);
        count_borne(&mut self.counts, page_of(number), was_free);
        self.last = given(role, number, self.last);
    }

    /// Removes a use of `pid` in this role.
    pub fn give_up(&mut self, pid: Pid, role: Role)
        requires range { pid ≤ self.old.pidmax }
        requires count { 1 ≤ count_of role (row self.old.rows pid) }
        ensures value { self.new ≡ given_up self.old pid role }
        ensures kept { IsPids self.new }
    {
        if !give_up_in(&mut self.rows, pid, role) {
            return;
        }
        let number = pid.number();
        self.counts[page_of(number)] -= 1;
        self.borne_below = self.borne_below.min(number);
        self.borne_from = self.borne_from.max(number + 1);
    }

    /// Adds the uses of a new process: of its own ID, which becomes the last one given out, and of its process group's
    /// and its session's.
    #[tactic(auto, unfolding(crate::specs::Rows::borne, crate::specs::Rows::born_in))]
    pub fn bear_all(&mut self, pid: Pid, group: Pid, session: Pid)
        requires pid_range { pid ≤ self.old.pidmax }
        requires group_range { group ≤ self.old.pidmax }
        requires session_range { session ≤ self.old.pidmax }
        requires pid_count { (row self.old.rows pid).process < 4294967295 }
        requires group_count { (row self.old.rows group).group < 4294967295 }
        requires session_count { (row self.old.rows session).session < 4294967295 }
        requires room { HasRoom self.old.sizes pid }
        requires group_borne { is_free_in self.old.rows group ≡ true → group ≡ pid }
        requires session_borne { is_free_in self.old.rows session ≡ true → session ≡ pid }
        ensures value { self.new ≡ born_in self.old pid group session }
        ensures last { self.new.last ≡ pid }
        ensures pidmax { self.new.pidmax ≡ self.old.pidmax }
        ensures kept { IsPids self.new }
    {
        self.bear(pid, Role::Process);
        self.bear(group, Role::Group);
        self.bear(session, Role::Session);
    }

    /// Removes the uses of a removed process: of its own ID, its process group's and its session's. The last ID given
    /// out is unchanged.
    #[tactic(auto, unfolding(crate::specs::Rows::given_up, crate::specs::Rows::gone_from))]
    pub fn give_up_all(&mut self, pid: Pid, group: Pid, session: Pid)
        requires pid_range { pid ≤ self.old.pidmax }
        requires group_range { group ≤ self.old.pidmax }
        requires session_range { session ≤ self.old.pidmax }
        requires pid_count { 1 ≤ (row self.old.rows pid).process }
        requires group_count { 1 ≤ (row self.old.rows group).group }
        requires session_count { 1 ≤ (row self.old.rows session).session }
        ensures value { self.new ≡ gone_from self.old pid group session }
        ensures last { self.new.last ≡ self.old.last }
        ensures pidmax { self.new.pidmax ≡ self.old.pidmax }
        ensures kept { IsPids self.new }
    {
        self.give_up(pid, Role::Process);
        self.give_up(group, Role::Group);
        self.give_up(session, Role::Session);
    }

    /// Moves a process from one process group and session to others: adds its uses of the new IDs, and removes those of
    /// the old ones. The last ID given out is unchanged.
    #[tactic(auto, unfolding(crate::specs::Rows::borne, crate::specs::Rows::given_up, crate::specs::Rows::regrouped))]
    pub fn regroup(&mut self, group: Pid, session: Pid, to_group: Pid, to_session: Pid)
        requires group_range { group ≤ self.old.pidmax }
        requires session_range { session ≤ self.old.pidmax }
        requires to_group_range { to_group ≤ self.old.pidmax }
        requires to_session_range { to_session ≤ self.old.pidmax }
        requires group_count { 1 ≤ (row self.old.rows group).group }
        requires session_count { 1 ≤ (row self.old.rows session).session }
        requires to_group_count { (row self.old.rows to_group).group < 4294967295 }
        requires to_session_count { (row self.old.rows to_session).session < 4294967295 }
        requires to_group_borne { is_free_in self.old.rows to_group ≡ false }
        requires to_session_borne { is_free_in self.old.rows to_session ≡ false }
        ensures value { self.new ≡ regrouped self.old group session to_group to_session }
        ensures last { self.new.last ≡ self.old.last }
        ensures pidmax { self.new.pidmax ≡ self.old.pidmax }
        ensures kept { IsPids self.new }
    {
        self.bear(to_group, Role::Group);
        self.bear(to_session, Role::Session);
        self.give_up(group, Role::Group);
        self.give_up(session, Role::Session);
    }
}
