//! The table of jobs, with its indexes.

ghost use Rattle.std.specs.Prelude.{◌≡◌, ◌≢◌, ◌+◌, ◌*◌, ◌<◌, ◌≤◌, ◌^◌, [], ⊤, ℕ, Some, IfOk, IfSome, IsSome, OnOk, None, not, is_some, length, filter, option_map};
ghost use mathlib.Core.Option.{none};
ghost use Rattle.std.specs.Borrow.{sem, Lends, follows_so};
ghost use Rattle.std.specs.List.{list_any};
ghost use Rattle.posix.specs.Common.{Process, is_stopped as is_stopped_by, lookup, inserted, removed, children_in, first_pid, next_above, adopted, above, parent_of, is_due, chosen, child_of, wanted_in};
ghost use Rattle.pidset.specs.Rows.{HasRoom, sizes_without};
ghost use Rattle.proctable.specs.Records.{process_of, snapshot_of, own_of, own_row};
ghost use Rattle.jobs.specs.contracts.indexed_table.IndexedTable.{the_row as jobs_row};
ghost use Rattle.jobs.specs.Indexes.{is_living_subreaper, record_seen, seen_of};
ghost use Rattle.jobs.specs.IndexedTables.{takes_signal, AreOnOtherPages, IsParentIn, ChangesSignals, IsRun, StaysGrouped, lent, looked, Looks, Finds, Costs, Spends, StaysPut};

use crate::anchors::{seen_there, update_anchors};
use crate::children::{give_children, next_child};
use crate::indexes::{
    Change, IndexedFields, Indexes, anchor_key, of_record, of_snapshot, parent_list,
};
use posix::{Pid, WaitidOptions};
use proctable::{GrantedPools, OwnPart, ProcessTable, Record, Snapshot};
use std::alloc::{AllocError, Global};
use std::marker::Model;

/// The processes of a machine, zombies included, modelled as the list of their records in rising order of their IDs.
/// None has ID 0.
///
/// Methods that only read leave the processes and the room unchanged.
#[derive(Drop)]
pub struct IndexedTable<K: ProcessTable> {
    pub(crate) table: K,
    /// The number of processes.
    pub(crate) count: usize,
    pub(crate) indexes: Indexes,
}

/// The result of a closure, the indexed fields of the process before and after it, and whether the process has a signal
/// to act on afterwards.
#[derive(Drop)]
struct Run<T> {
    before: IndexedFields,
    result: T,
    after: IndexedFields,
    takes_signal: bool,
}

impl<K: ProcessTable> Model for IndexedTable<K> {
    ghost use Rattle.jobs.specs.IndexedTables.{JobsView, IsKept};
    ghost use Rattle.jobs.specs.Indexes.{lesser, room_in, sizes_in};

    ghost Value = { JobsView };

    ghost view = { λ t. record { processes = K.contents t.table; room = lesser (K.room t.table) (room_in t.count t.indexes); sizes = sizes_in t.indexes; visits = K.visits t.table } };

    ghost invariant = { λ t. IsKept t.count t.indexes (K.contents t.table) };
}

impl<K: ProcessTable> IndexedTable<K> {
    /// Creates a table without processes. Allocates nothing.
    #[tactic(auto, using(crate::proofs::NumberLemmas::nobody_there), unfolding(posix::specs::Tables::IsRising, posix::specs::Tables::lookup, pidset::specs::Indexes::is_pair_in))]
    pub fn empty(alloc: Global) -> Self
        ensures processes { result.processes ≡ [] }
        ensures visits { result.visits ≡ 0 }
    {
        IndexedTable {
            table: K::empty(alloc),
            count: 0,
            indexes: Indexes::new(alloc),
        }
    }

    /// Makes room for one more process, with this ID. Fails if the host has no memory for it. The processes are
    /// unchanged.
    #[tactic(auto, using(crate::proofs::KeptLemmas::size_of))]
    pub fn reserve(&mut self, pid: Pid) -> Result<(), AllocError>
        ensures ok { OnOk result (0 < self.new.room) }
        ensures number { OnOk result (HasRoom self.new.sizes pid) }
        ensures room { self.old.room ≤ self.new.room }
        ensures rest { self.new ≡ record (self.old) { room = self.new.room; sizes = self.new.sizes } }
    {
        self.table.reserve()?;
        self.indexes.reserve(self.count + 1, pid)
    }

    /// Frees the room for an ID and for all others on its page of 1,024 IDs. No process may have one of them, or be in
    /// a process group that has one.
    pub fn give_up_page(&mut self, pid: Pid)
        requires { AreOnOtherPages pid self.old.processes }
        ensures { self.new ≡ record (self.old) { sizes = sizes_without self.old.sizes pid } }
    {
        self.indexes.give_up_page(pid);
    }

    /// Returns the number of processes. Reads no slot.
    #[tactic(auto, using(crate::proofs::KeptLemmas::size_of))]
    pub fn len(&self) -> usize
        ensures value { result ≡ length self.now.processes }
        ensures few { result < 2 ^ 31 }
    {
        self.count
    }

    /// Makes sure that at least `count` pools are ready for the queues of real-time signals. Fails if the host has no
    /// memory for them; pools that were ready stay so. The processes are unchanged.
    pub fn reserve_pools(
        &mut self,
        granted_pools: &mut GrantedPools,
        count: usize,
    ) -> Result<(), AllocError>
        ensures enough { OnOk result (count ≤ granted_pools.new.pools) }
        ensures more { granted_pools.old.pools ≤ granted_pools.new.pools }
        ensures same { self.new ≡ self.old }
    {
        self.table.reserve_pools(granted_pools, count)
    }

    /// Adds a process that doesn't exist, within reserved room for its ID, which isn't 0. Its parent exists and is in
    /// the same process group, or is 0 for the first process. There is room for the ID of the group. Other processes
    /// are unchanged.
    #[tactic(auto, using(crate::proofs::KeptLemmas::size_of))]
    pub fn insert(&mut self, pid: Pid, parent: Pid, fields: Record)
        requires room { 0 < self.old.room }
        requires number { pid ≢ 0 }
        requires inside { HasRoom self.old.sizes pid }
        requires group { (1 ≤ fields.group) × HasRoom self.old.sizes fields.group }
        requires fresh { lookup pid self.old.processes ≡ None }
        requires parent { IsParentIn parent fields.group self.old.processes }
        ensures processes { self.new.processes ≡ inserted (process_of pid parent fields) self.old.processes }
        ensures room { self.old.room ≤ self.new.room + 1 }
        ensures sizes { self.new.sizes ≡ self.old.sizes }
        ensures visits { self.new.visits ≤ self.old.visits + 1 }
        ensures no_fewer { self.old.visits ≤ self.new.visits }
    {
        // Neither ID is above the largest.
        prove!(pid.number() <= Pid::MAX);
        prove!(fields.group.number() <= Pid::MAX);
        let after = of_record(&fields);
        self.table.insert(pid, parent, fields);
        self.indexes.reindex(pid, parent, &None, &Some(after));
        // In its parent's process group it is no anchor.
        self.indexes.anchors.put(pid, None);
        self.indexes.children.put(pid, parent_list(parent));
        self.count += 1;
    }

    /// Returns the small fields of a process, if it exists.
    #[inline(always)]
    pub fn get(&mut self, pid: Pid) -> Option<Snapshot>
        ensures finds { Finds 1 self.old self.new (result ≡ option_map snapshot_of (lookup pid self.old.processes)) }
        ensures size { length self.old.processes < 2 ^ 63 }
        ensures counts { IfSome result (λ it. K.one_more self.old.visits ≤ self.new.visits) }
    {
        self.table.get(pid)
    }

    /// Removes a process without children and returns its small fields. Returns `None` and changes nothing if it
    /// doesn't exist.
    #[tactic(auto, using(crate::proofs::KeptLemmas::leave_rules))]
    pub fn remove(&mut self, pid: Pid) -> Option<Snapshot>
        requires { children_in pid self.old.processes ≡ [] }
        ensures value { result ≡ option_map snapshot_of (lookup pid self.old.processes) }
        ensures processes { self.new.processes ≡ removed pid self.old.processes }
        ensures room { self.old.room ≤ self.new.room }
        ensures sizes { self.new.sizes ≡ self.old.sizes }
        ensures visits { self.new.visits ≤ self.old.visits + 2 }
        ensures no_fewer { self.old.visits ≤ self.new.visits }
    {
        let Some(snapshot) = self.table.get(pid) else {
            return None;
        };
        self.table.remove(pid);
        let before = Some(of_snapshot(&snapshot));
        self.indexes.reindex(pid, snapshot.parent, &before, &None);
        self.indexes.anchors.put(pid, None);
        self.indexes.children.put(pid, None);
        self.count -= 1;
        Some(snapshot)
    }

    /// Returns true if a process has no children, zombies included. Reads no slot.
    #[inline(always)]
    fn is_childless(&self, pid: Pid) -> bool
        requires { pid ≢ 0 }
        ensures { result ≡ not (is_some (first_pid (children_in pid self.now.processes))) }
    {
        self.indexes.children.next(pid, Pid::NONE).is_none()
    }

    /// Returns the child of an existing process with the lowest ID above `after`, zombies included. Reads no slot.
    #[tactic(auto, using(crate::proofs::KeptLemmas::kin_kept))]
    pub fn next_child(&self, parent: Pid, after: Pid) -> Option<Pid>
        requires { IsSome (lookup parent self.now.processes) }
        ensures { result ≡ first_pid (above after (children_in parent self.now.processes)) }
    {
        next_child(&self.indexes.children, parent, after)
    }

    /// Returns the parent of an existing process; 0 for none. Reads no slot.
    pub fn parent(&self, pid: Pid) -> Pid
        requires { IsSome (lookup pid self.now.processes) }
        ensures { result ≡ parent_of pid self.now.processes }
    {
        self.indexes.children.list(pid).unwrap_or(Pid::NONE)
    }

    /// Returns the process with the lowest ID above `pid`, which need not exist.
    pub fn next_after(&mut self, pid: Pid) -> Option<Pid>
        ensures { Finds 1 self.old self.new (result ≡ next_above pid self.old.processes) }
    {
        self.table.next_after(pid)
    }

    /// Reparents the children of `from` to `to`. Both processes exist. Reads each child once.
    pub fn adopt(&mut self, from: Pid, to: Pid)
        requires giver { IsSome (lookup from self.old.processes) }
        requires there { IsSome (lookup to self.old.processes) }
        requires apart { from ≢ to }
        ensures processes { self.new.processes ≡ adopted from to self.old.processes }
        ensures costs { Costs (1 + length (children_in from self.old.processes)) self.old self.new }
    {
        if self.is_childless(from) {
            return;
        }
        let heir = seen_there(&mut self.table, to);
        give_children(
            &mut self.table,
            &self.indexes.children,
            &mut self.indexes.anchors,
            from,
            to,
            &heir,
        );
        self.indexes.children.rekey(from, to);
        self.indexes.reparent(from, to);
    }

    /// Returns true if no process is stopped. Reads no slot.
    #[tactic(auto, using(crate::proofs::IndexLemmas::none_stopped))]
    pub fn nobody_stopped(&self) -> bool
        ensures { result ≡ not (list_any (λ r. is_stopped_by r.life) self.now.processes) }
    {
        self.indexes.stopped.is_empty()
    }

    /// Returns true if no living process is a child subreaper. Reads no slot.
    #[tactic(auto, using(crate::proofs::IndexLemmas::none_marked))]
    pub fn nobody_marked(&self) -> bool
        ensures { result ≡ not (list_any is_living_subreaper self.now.processes) }
    {
        self.indexes.subreapers.is_empty()
    }

    /// Returns true if no process has an alarm. Reads no slot.
    #[tactic(auto, using(crate::proofs::IndexLemmas::none_alarmed))]
    pub fn nobody_alarmed(&self) -> bool
        ensures { result ≡ not (list_any (λ r. is_some r.alarm) self.now.processes) }
    {
        self.indexes.alarmed.is_empty()
    }

    /// Returns the child with the lowest ID above `after` that has a status change to report to a wait with these
    /// options. Reads no slot, and looks only at children with a wanted kind of status change.
    pub fn next_wanted(&self, parent: Pid, options: WaitidOptions, after: Pid) -> Option<Pid>
        ensures { result ≡ first_pid (above after (wanted_in options.0 parent self.now.processes)) }
    {
        // Usually it has no children, and its list shows that.
        if parent != Pid::NONE && self.is_childless(parent) {
            return None;
        }
        self.indexes.next_wanted(parent, options, after)
    }

    /// Returns the process with the lowest ID above `after` whose alarm is due at a tick. Reads no slot.
    pub fn next_due(&self, tick: u64, after: Pid) -> Option<Pid>
        ensures { result ≡ first_pid (above after (filter (λ r. is_due tick r.alarm) self.now.processes)) }
    {
        self.indexes.alarmed.next(tick, after)
    }

    // ---- changes

    /// Returns the record of a child of an existing process, with this birth number (XSH fork). Fails if the host has
    /// no memory for it. The processes are unchanged.
    pub fn newborn(&mut self, pid: Pid, birth: u64) -> Result<Record, AllocError>
        requires { IsSome (lookup pid self.old.processes) }
        ensures child { IfOk result (λ b. (me : Process) → lookup pid self.old.processes ≡ Some me → (n : ℕ) → process_of n pid b ≡ child_of birth me n) }
        ensures groups { IfOk result (λ b. (me : Process) → lookup pid self.old.processes ≡ Some me → (b.group ≡ me.group) × (b.session ≡ me.session)) }
        ensures within { IfOk result (λ b. (1 ≤ b.group) × HasRoom self.new.sizes b.group) }
        ensures looks { Looks 1 self.old self.new }
    {
        let spare = self.table.spare();
        self.table.update(pid).fork(birth, spare)
    }

    /// Changes the signals and the alarm of an existing process, and updates the index of alarms. All such changes go
    /// through this method, except by a loan. Returns the closure's result, and whether the process has a signal to act
    /// on now.
    #[inline(always)]
    pub fn change<T, F: FnOnce(&mut Record) -> T>(&mut self, pid: Pid, change: F) -> (T, bool)
        requires there { IsSome (lookup pid self.old.processes) }
        requires callable { F.IsAlwaysCallable change }
        requires signals { ChangesSignals F.FnOnce change }
        ensures run { IsRun F.FnOnce change self.old.processes self.new.processes pid result.0 }
        ensures takes { option_map takes_signal (lookup pid self.new.processes) ≡ Some result.1 }
        ensures costs { Costs 1 self.old self.new }
    {
        let Run {
            before: IndexedFields { alarm: before, .. },
            result,
            after: IndexedFields { alarm: after, .. },
            takes_signal,
        } = run_on(&mut self.table, pid, change);
        self.indexes.alarmed.replace(pid, before, after);
        (result, takes_signal)
    }

    /// Changes an existing process, and updates the indexes, also for its children if necessary. All changes that the
    /// parent of the process sees go through this method. Returns the indexed fields before and after.
    pub fn change_seen<F: FnOnce(&mut Record)>(&mut self, pid: Pid, change: F) -> Change
        requires there { IsSome (lookup pid self.old.processes) }
        requires callable { F.IsAlwaysCallable change }
        requires grouped { StaysGrouped F.FnOnce change self.old.processes pid }
        ensures run { IsRun F.FnOnce change self.old.processes self.new.processes pid tt }
        ensures parent { result.parent ≡ parent_of pid self.old.processes }
        ensures before { option_map seen_of (lookup pid self.old.processes) ≡ Some result.before }
        ensures after { option_map seen_of (lookup pid self.new.processes) ≡ Some result.after }
        ensures costs { Costs (3 + 2 * length (children_in pid self.old.processes)) self.old self.new }
        ensures put { StaysPut F.FnOnce change self.old.processes pid → Costs 1 self.old self.new }
    {
        let parent = self.indexes.children.list(pid).unwrap_or(Pid::NONE);
        let seen = change_in(&mut self.table, pid, parent, change);
        if seen.before == seen.after {
            // All its keys are as before.
            return seen;
        }
        let (before, after) = (Some(seen.before), Some(seen.after));
        self.indexes.reindex(pid, seen.parent, &before, &after);
        update_anchors(
            &mut self.table,
            &self.indexes.children,
            &mut self.indexes.anchors,
            pid,
            &seen,
        );
        seen
    }

    // ---- loans

    /// Returns how many slots have been read, at most `u128::MAX`; 0 if the process table doesn't count them.
    pub fn visits(&self) -> u128
        ensures { result ≡ self.now.visits }
    {
        self.table.visits()
    }

    /// Lends the part of its record that an existing process may change itself. Nothing else changes.
    #[inline]
    pub fn own(&mut self, pid: Pid) -> &mut OwnPart
        requires { IsSome (lookup pid self.old.processes) }
        ensures* lends { sem 𝓛 (Lends (jobs_row K.row K.ProcessTable) own_row self.entry result (lent K.one_more self.old pid)) }
        ensures value { IfSome (lookup pid self.old.processes) (λ me. result.now ≡ own_of me) }
    {
        let fields = self.table.update(pid);
        &mut fields.own
    }

    /// Returns the record of an existing process. Changes no process.
    #[inline(always)]
    pub fn look(&mut self, pid: Pid) -> &Record
        requires { IsSome (lookup pid self.old.processes) }
        ensures* lends { sem 𝓛 (follows_so (jobs_row K.row K.ProcessTable) (jobs_row K.row K.ProcessTable) self.entry.ghost_name none (λ _ _. ⊤) (λ n. n ≡ looked K.one_more self.old)) }
        ensures value { lookup pid self.old.processes ≡ Some (process_of pid (parent_of pid self.old.processes) result.now) }
    {
        self.table.update(pid)
    }
}

/// Runs a closure on the record of an existing process.
#[inline(always)]
fn run_on<K: ProcessTable, T, F: FnOnce(&mut Record) -> T>(
    table: &mut K,
    pid: Pid,
    change: F,
) -> Run<T>
    requires there { IsSome (lookup pid (K.contents table.old)) }
    requires callable { F.IsAlwaysCallable change }
    ensures run { (k : IsRun F.FnOnce change (K.contents table.old) (K.contents table.new) pid result.result) × (result.before ≡ record_seen k.before) × (result.after ≡ record_seen k.after) × (result.takes_signal ≡ is_some (chosen k.after.life k.after.own.signals)) }
    ensures costs { Spends 1 K.room K.visits table.old table.new }
{
    let it = table.update(pid);
    let before = of_record(it);
    let result = change(it);
    let after = of_record(it);
    let takes_signal = it.own.signals.choose(it.life).is_some();
    Run {
        before,
        result,
        after,
        takes_signal,
    }
}

/// Runs a closure on the record of an existing process that has this parent. Returns the change of its indexed fields.
#[inline(always)]
fn change_in<K: ProcessTable, F: FnOnce(&mut Record)>(
    table: &mut K,
    pid: Pid,
    parent: Pid,
    change: F,
) -> Change
    requires there { IsSome (lookup pid (K.contents table.old)) }
    requires parent { parent ≡ parent_of pid (K.contents table.old) }
    requires callable { F.IsAlwaysCallable change }
    ensures run { (k : IsRun F.FnOnce change (K.contents table.old) (K.contents table.new) pid tt) × (result.before ≡ record_seen k.before) × (result.after ≡ record_seen k.after) }
    ensures parent { result.parent ≡ parent_of pid (K.contents table.old) }
    ensures costs { Spends 1 K.room K.visits table.old table.new }
{
    let it = table.update(pid);
    let before = of_record(it);
    change(it);
    let after = of_record(it);
    Change {
        parent,
        before,
        after,
    }
}
