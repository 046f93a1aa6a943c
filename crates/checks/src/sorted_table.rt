//! A table of processes in a vector.

ghost use Rattle.std.specs.Prelude.{◌≡◌, refl};
ghost use Rattle.std.specs.Borrow.{sem, Lends};
ghost use Rattle.std.proofs.Common.{arith};
ghost use Rattle.proctable.specs.Records.{give_record, process_of, record_row, snapshot_of, with_parent};
ghost use Rattle.checks.specs.contracts.sorted_table.Row.{the_row as row_row};
ghost use Rattle.checks.specs.Tables.{sorted_with_record};

use pidset::Numbered;
use pidset::numbered::{insert_at, next_above, search};
use posix::Pid;
use proctable::{GrantedPools, ProcessTable, Record, Snapshot, Spare};
use std::alloc::{AllocError, Global};
use std::marker::Model;

/// A process with its own number and its parent's.
#[derive(Drop)]
struct Row {
    pid: Pid,
    parent: Pid,
    fields: Record,
}

impl Model for Row {
    ghost use Rattle.posix.specs.Common.{Process};
    ghost use Rattle.proctable.specs.Records.{process_of};

    ghost Value = { Process };

    ghost view = { λ r. process_of r.pid r.parent r.fields };
}

impl Numbered for Row {
    ghost number = { λ r. r.pid };

    fn number(&self) -> u128 {
        let pid = self.pid;
        u128::from(pid.number())
    }
}

impl Row {
    /// Returns the process that has these parts.
    fn new(pid: Pid, parent: Pid, fields: Record) -> Row
        ensures { result ≡ process_of pid parent fields }
    {
        Row {
            pid,
            parent,
            fields,
        }
    }

    /// Returns the process ID.
    fn pid(&self) -> Pid
        ensures { result ≡ self.now.pid }
    {
        self.pid
    }

    /// Returns the fields that a reader gets by value.
    fn snapshot(&self) -> Snapshot
        ensures { result ≡ snapshot_of self.now }
    {
        self.fields.snapshot(self.pid, self.parent)
    }

    /// Sets the parent.
    fn set_parent(&mut self, parent: Pid)
        ensures { self.new ≡ with_parent parent self.old }
    {
        self.parent = parent;
    }

    /// Returns the fields that a caller may change: all except the two numbers.
    #[tactic(auto, unfolding(proctable::specs::Records::give_record))]
    fn record_mut(&mut self) -> &mut Record
        ensures* lends { sem 𝓛 (Lends row_row record_row self.entry result (λ b. give_record b self.old)) }
        ensures value { self.old ≡ process_of self.old.pid self.old.parent result.now }
    {
        &mut self.fields
    }
}

/// A table of processes in a vector, in rising order of their numbers. It doesn't count how many slots are read. It
/// keeps no memory of a removed process, so each child takes new memory.
#[derive(Drop)]
pub struct SortedTable {
    rows: Vec<Row>,
}

impl Model for SortedTable {
    ghost use Rattle.std.specs.Prelude.{◌-◌, map, vec_len, vec_capacity};
    ghost use Rattle.posix.specs.Common.{pids};
    ghost use Rattle.pidset.specs.Numbers.{Rises};
    ghost use Rattle.checks.specs.Tables.{SortedView};

    ghost Value = { SortedView };

    ghost view = { λ t. record { processes = t.rows.items; room = vec_capacity t.rows - vec_len t.rows } };

    ghost invariant = { λ t. Rises (pids t.rows.items) };
}

impl ProcessTable for SortedTable {
    ghost contents = { λ t. t.processes };

    ghost room = { λ t. t.room };

    ghost visits = { λ t. 0 };

    ghost one_more = { λ n. n };

    ghost put = { sorted_with_record };

    ghost puts = { λ t p b. refl };

    ghost keeps_room = { λ t p b. refl };

    ghost put_reads = { λ t p b. refl };

    ghost at_most_one = { λ n. Prim.omega arith };

    ghost no_less = { λ n. Prim.omega arith };

    #[tactic(auto, unfolding(pidset::specs::Numbers::Rises))]
    fn empty(alloc: Global) -> Self {
        SortedTable {
            rows: Vec::new(alloc),
        }
    }

    #[tactic(auto, using(crate::proofs::SortedLemmas::rising_in))]
    fn reserve(&mut self) -> Result<(), AllocError> {
        self.rows.reserve(1)
    }

    fn reserve_pools(
        &mut self,
        granted_pools: &mut GrantedPools,
        count: usize,
    ) -> Result<(), AllocError> {
        granted_pools.reserve(count)
    }

    #[tactic(auto, using(crate::proofs::SortedLemmas::insert_rules))]
    fn insert(&mut self, pid: Pid, parent: Pid, fields: Record) {
        let Err(at) = search(&self.rows, &pid) else {
            unreachable!()
        };
        insert_at(&mut self.rows, at, Row::new(pid, parent, fields));
    }

    #[tactic(auto, using(crate::proofs::SortedLemmas::get_rules))]
    fn get(&mut self, pid: Pid) -> Option<Snapshot> {
        let Ok(at) = search(&self.rows, &pid) else {
            return None;
        };
        Some(self.rows[at].snapshot())
    }

    #[tactic(auto, using(crate::proofs::SortedLemmas::slot_rules))]
    fn update(&mut self, pid: Pid) -> &mut Record {
        let Ok(at) = search(&self.rows, &pid) else {
            unreachable!()
        };
        let row = &mut self.rows[at];
        row.record_mut()
    }

    #[tactic(auto, using(crate::proofs::SortedLemmas::slot_rules))]
    fn set_parent(&mut self, pid: Pid, parent: Pid) -> Snapshot {
        let Ok(at) = search(&self.rows, &pid) else {
            unreachable!()
        };
        let row = &mut self.rows[at];
        row.set_parent(parent);
        row.snapshot()
    }

    fn spare(&mut self) -> Option<Spare> {
        None
    }

    #[tactic(auto, using(crate::proofs::SortedLemmas::remove_rules))]
    fn remove(&mut self, pid: Pid) {
        if let Ok(at) = search(&self.rows, &pid) {
            drop(self.rows.remove(at));
        }
    }

    #[tactic(auto, using(crate::proofs::SortedLemmas::next_rules))]
    fn next_after(&mut self, pid: Pid) -> Option<Pid> {
        let Some(row) = next_above(&self.rows, &pid) else {
            return None;
        };
        Some(row.pid())
    }

    fn visits(&self) -> u128 {
        0
    }
}
