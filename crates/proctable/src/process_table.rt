//! What every process table does.

ghost use Rattle.std.specs.Prelude.{◌≡◌, ◌+◌, ◌^◌, ◌<◌, ◌≤◌, ℕ, [], List, None, Some, IsSome, IfSome, OnOk, option_map, length};
ghost use Rattle.std.specs.Borrow.{sem, Lends};
ghost use Rattle.posix.specs.Common.{Process, IsRising, lookup, changed, inserted, removed, next_above, parent_of};
ghost use Rattle.proctable.specs.declared.records.Record.{Record};
ghost use Rattle.proctable.specs.Records.{process_of, snapshot_of, with_parent, with_record, record_row};

use crate::records::Record;
use crate::snapshot::Snapshot;
use crate::spare::Spare;
use posix::Pid;
use signal::GrantedPools;
use std::alloc::{AllocError, Global};

/// A table of processes, zombies included, modelled as the list of their records in rising order of their IDs.
///
/// Methods that take `&mut self`, except `spare` and `reserve_pools`, ensure that this order rises in the table before
/// the call. Methods that only read leave the processes and the room unchanged. No method lowers the number of slots
/// that have been read.
///
/// Methods that read a slot take `&mut self`, because a table may count its reads. `one_more` is the count after one
/// more read: a count that saturates does not always rise.
pub trait ProcessTable: Drop {
    /// The processes.
    ghost contents: { Self → List Process };

    /// How many more processes fit without allocation.
    ghost room: { Self → ℕ };

    /// How many slots have been read, as far as the table counts them.
    ghost visits: { Self → ℕ };

    /// The count after one more slot was read.
    ghost one_more: { ℕ → ℕ };

    /// The table with another record for a process, whose slot was read once.
    ghost put: { Self → ℕ → Record → Self };

    /// Creates a table without processes. Allocates nothing.
    fn empty(alloc: Global) -> Self
        ensures contents { contents result ≡ [] }
        ensures visits { visits result ≡ 0 };

    /// Makes room for one more process. Fails if the host has no memory for it. The processes are unchanged.
    fn reserve(&mut self) -> Result<(), AllocError>
        ensures ok { OnOk result (0 < room self.new) }
        ensures rising { IsRising (contents self.old) }
        ensures room { room self.old ≤ room self.new }
        ensures contents { contents self.new ≡ contents self.old }
        ensures visits { visits self.new ≡ visits self.old };

    /// Makes sure that at least `count` pools are ready for the queues of real-time signals. Fails if the host has no
    /// memory for them; pools that were ready stay so. The processes and the room are unchanged.
    ///
    /// A table has nothing to do with pools. This method is here because a test rejects allocations here
    /// (`RefusingTable`).
    fn reserve_pools(
        &mut self,
        granted_pools: &mut GrantedPools,
        count: usize,
    ) -> Result<(), AllocError>
        ensures enough { OnOk result (count ≤ granted_pools.new.pools) }
        ensures more { granted_pools.old.pools ≤ granted_pools.new.pools }
        ensures room { room self.new ≡ room self.old }
        ensures contents { contents self.new ≡ contents self.old }
        ensures visits { visits self.new ≡ visits self.old };

    /// Adds a process that doesn't exist, within reserved room. Other processes are unchanged.
    fn insert(&mut self, pid: Pid, parent: Pid, fields: Record)
        requires room { 0 < room self.old }
        requires fresh { lookup pid (contents self.old) ≡ None }
        ensures rising { IsRising (contents self.old) }
        ensures contents { contents self.new ≡ inserted (process_of pid parent fields) (contents self.old) }
        ensures room { room self.old ≤ room self.new + 1 }
        ensures visits { visits self.new ≤ visits self.old + 1 }
        ensures no_fewer { visits self.old ≤ visits self.new };

    /// Returns the small fields of a process, if it exists.
    fn get(&mut self, pid: Pid) -> Option<Snapshot>
        ensures value { result ≡ option_map snapshot_of (lookup pid (contents self.old)) }
        ensures rising { IsRising (contents self.old) }
        ensures size { length (contents self.old) < 2 ^ 63 }
        ensures contents { contents self.new ≡ contents self.old }
        ensures room { room self.new ≡ room self.old }
        ensures visits { visits self.new ≤ visits self.old + 1 }
        ensures no_fewer { visits self.old ≤ visits self.new }
        ensures counts { IfSome result (λ it. one_more (visits self.old) ≤ visits self.new) };

    /// Returns all of an existing process except its ID and its parent's, for the caller to change. Other processes and
    /// the room are unchanged. No caller can break the order or the links, because a `Record` has no process ID and no
    /// parent.
    fn update(&mut self, pid: Pid) -> &mut Record
        requires { IsSome (lookup pid (contents self.old)) }
        ensures* lends { sem 𝓛 (Lends Self.row record_row self.entry result (put self.old pid)) }
        ensures rising { IsRising (contents self.old) }
        ensures value { lookup pid (contents self.old) ≡ Some (process_of pid (parent_of pid (contents self.old)) result.now) };

    /// Sets the parent of an existing process and returns its small fields. Other processes and the room are unchanged.
    fn set_parent(&mut self, pid: Pid, parent: Pid) -> Snapshot
        requires { IsSome (lookup pid (contents self.old)) }
        ensures value { IfSome (lookup pid (contents self.old)) (λ it. result ≡ snapshot_of (with_parent parent it)) }
        ensures rising { IsRising (contents self.old) }
        ensures contents { contents self.new ≡ changed pid (with_parent parent) (contents self.old) }
        ensures room { room self.new ≡ room self.old }
        ensures visits { visits self.new ≤ visits self.old + 1 }
        ensures no_fewer { visits self.old ≤ visits self.new };

    /// Returns the memory of a removed process for a new one, if the table has kept any. The processes and the room are
    /// unchanged.
    fn spare(&mut self) -> Option<Spare>
        ensures contents { contents self.new ≡ contents self.old }
        ensures room { room self.new ≡ room self.old }
        ensures visits { visits self.new ≡ visits self.old };

    /// Removes a process. Nothing changes if it doesn't exist.
    fn remove(&mut self, pid: Pid)
        ensures rising { IsRising (contents self.old) }
        ensures contents { contents self.new ≡ removed pid (contents self.old) }
        ensures room { room self.old ≤ room self.new }
        ensures visits { visits self.new ≤ visits self.old + 1 }
        ensures no_fewer { visits self.old ≤ visits self.new };

    /// Returns the process with the lowest ID above `pid`, which need not exist.
    fn next_after(&mut self, pid: Pid) -> Option<Pid>
        ensures value { result ≡ next_above pid (contents self.old) }
        ensures rising { IsRising (contents self.old) }
        ensures contents { contents self.new ≡ contents self.old }
        ensures room { room self.new ≡ room self.old }
        ensures visits { visits self.new ≤ visits self.old + 1 }
        ensures no_fewer { visits self.old ≤ visits self.new };

    /// Returns how many slots have been read, at most `u128::MAX`; 0 if the table doesn't count them.
    fn visits(&self) -> u128
        ensures { result ≡ visits self.now };

    /// Replacing a record changes one process.
    ghost puts: { (t : Self) (pid : ℕ) (b : Record) → contents (put t pid b) ≡ with_record (contents t) pid b };

    /// Replacing a record takes no room.
    ghost keeps_room: { (t : Self) (pid : ℕ) (b : Record) → room (put t pid b) ≡ room t };

    /// Replacing a record reads one slot.
    ghost put_reads: { (t : Self) (pid : ℕ) (b : Record) → visits (put t pid b) ≡ one_more (visits t) };

    /// One more read adds at most 1: a count may stop at its largest value, or never rise.
    ghost at_most_one: { (n : ℕ) → one_more n ≤ n + 1 };

    /// One more read never lowers the count.
    ghost no_less: { (n : ℕ) → n ≤ one_more n };
}
