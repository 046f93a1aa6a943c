//! A table of processes that fails once to get memory.

ghost use Rattle.std.specs.Prelude.{◌≡◌, refl};
ghost use Rattle.std.proofs.Common.{arith};
ghost use Rattle.proctable.specs.Slots.{one_more};
ghost use Rattle.proctable.specs.Tables.{slab_with_record};

use posix::Pid;
use proctable::{GrantedPools, ProcessTable, Record, SlabTable, Snapshot, Spare};
use std::alloc::{AllocError, Global};

/// The program's table, except that its attempt number `REFUSED` to get memory, counted from 1, fails.
#[derive(Drop)]
pub(crate) struct RefusingTable<const REFUSED: usize> {
    table: SlabTable,
    attempts: usize,
}

impl<const REFUSED: usize> RefusingTable<REFUSED> {
    /// Counts an attempt. Returns true if it is the one that fails.
    fn is_refused(&mut self) -> bool
        ensures { self.new.table ≡ self.old.table }
    {
        self.attempts = self.attempts.wrapping_add(1);
        self.attempts == REFUSED
    }
}

impl<const REFUSED: usize> ProcessTable for RefusingTable<REFUSED> {
    ghost contents = { λ t. t.table.processes };

    ghost room = { λ t. t.table.room };

    ghost visits = { λ t. t.table.visits };

    ghost one_more = { one_more };

    ghost put = { λ t p b. record t { table = slab_with_record t.table p b } };

    ghost puts = { λ t p b. refl };

    ghost keeps_room = { λ t p b. refl };

    ghost put_reads = { λ t p b. refl };

    ghost at_most_one = { λ n. Prim.omega arith };

    ghost no_less = { λ n. Prim.omega arith };

    fn empty(alloc: Global) -> Self {
        RefusingTable {
            table: SlabTable::empty(alloc),
            attempts: 0,
        }
    }

    fn reserve(&mut self) -> Result<(), AllocError> {
        let made = self.table.reserve();
        if self.is_refused() {
            return Err(AllocError);
        }
        made
    }

    fn reserve_pools(
        &mut self,
        granted_pools: &mut GrantedPools,
        count: usize,
    ) -> Result<(), AllocError> {
        let made = self.table.reserve_pools(granted_pools, count);
        if self.is_refused() {
            return Err(AllocError);
        }
        made
    }

    fn insert(&mut self, pid: Pid, parent: Pid, fields: Record) {
        self.table.insert(pid, parent, fields);
    }

    fn get(&mut self, pid: Pid) -> Option<Snapshot> {
        self.table.get(pid)
    }

    fn update(&mut self, pid: Pid) -> &mut Record {
        self.table.update(pid)
    }

    fn set_parent(&mut self, pid: Pid, parent: Pid) -> Snapshot {
        self.table.set_parent(pid, parent)
    }

    fn spare(&mut self) -> Option<Spare> {
        self.table.spare()
    }

    fn remove(&mut self, pid: Pid) {
        self.table.remove(pid);
    }

    fn next_after(&mut self, pid: Pid) -> Option<Pid> {
        self.table.next_after(pid)
    }

    fn visits(&self) -> u128 {
        self.table.visits()
    }
}
