//! A process table with its records in slots, and an index of the slots by process ID.

ghost use Rattle.std.specs.Prelude.{refl};
ghost use Rattle.std.proofs.Common.{arith};
ghost use Rattle.proctable.specs.Slots.{one_more};
ghost use Rattle.proctable.specs.Tables.{slab_with_record};

use crate::process_table::ProcessTable;
use crate::records::Record;
use crate::slot::Slot;
use crate::slots::Slots;
use crate::snapshot::Snapshot;
use crate::spare::{Spare, Spares};
use pidset::Pages;
use posix::Pid;
use signal::GrantedPools;
use std::alloc::{AllocError, Global};
use std::marker::Model;

/// A process table with its records in the slots of a slab. A paged index has the slot of each process. Lookups in the
/// index don't count as reads of slots: `next_after` reads no slot, and each other method that reaches a process reads
/// one.
#[derive(Drop)]
pub struct SlabTable {
    index: Pages<usize>,
    slots: Slots,
    /// The memory of removed processes.
    spares: Spares,
}

impl Model for SlabTable {
    ghost use Rattle.std.specs.Prelude.{◌-◌, min, if◌then◌else◌};
    ghost use Rattle.slab.specs.Slab.{slab_len};
    ghost use Rattle.proctable.specs.Tables.{SlabView, processes_in, IsIndexed};

    ghost Value = { SlabView };

    ghost view = { λ t. record { processes = processes_in t.index.entries t.slots.processes; room = if t.index.ready then min 1 (t.slots.processes.capacity - slab_len t.slots.processes) else 0; visits = t.slots.visits } };

    ghost invariant = { λ t. IsIndexed t.index.entries t.slots.processes };
}

impl ProcessTable for SlabTable {
    ghost contents = { λ t. t.processes };

    ghost room = { λ t. t.room };

    ghost visits = { λ t. t.visits };

    ghost one_more = { one_more };

    ghost put = { slab_with_record };

    ghost puts = { λ t p b. refl };

    ghost keeps_room = { λ t p b. refl };

    ghost put_reads = { λ t p b. refl };

    ghost at_most_one = { λ n. Prim.omega arith };

    ghost no_less = { λ n. Prim.omega arith };

    #[tactic(auto, unfolding(crate::specs::Tables::processes_in, pidset::specs::Numbers::Rises))]
    fn empty(alloc: Global) -> Self {
        SlabTable {
            index: Pages::new(alloc),
            slots: Slots::new(alloc),
            spares: Spares::new(alloc),
        }
    }

    #[tactic(auto, using(crate::proofs::SlabLemmas::rising_in))]
    fn reserve(&mut self) -> Result<(), AllocError> {
        self.index.size_holds();
        self.spares.reserve(self.slots.len() + 1)?;
        self.index.reserve()?;
        self.slots.reserve()
    }

    fn reserve_pools(
        &mut self,
        granted_pools: &mut GrantedPools,
        count: usize,
    ) -> Result<(), AllocError> {
        granted_pools.reserve(count)
    }

    #[tactic(auto, using(crate::proofs::SlabLemmas::insert_rules))]
    fn insert(&mut self, pid: Pid, parent: Pid, fields: Record) {
        let slot = self.slots.insert(Slot::new(pid, parent, fields));
        self.index.put(pid, slot);
    }

    #[tactic(auto, using(crate::proofs::SlabLemmas::get_rules))]
    #[inline(always)]
    fn get(&mut self, pid: Pid) -> Option<Snapshot> {
        self.index.size_holds();
        match self.index.get(pid) {
            Some(slot) => Some(self.slots.snapshot(slot)),
            None => None,
        }
    }

    #[tactic(auto, using(crate::proofs::SlabLemmas::slot_rules))]
    #[inline]
    fn update(&mut self, pid: Pid) -> &mut Record {
        let Some(slot) = self.index.get(pid) else {
            unreachable!()
        };
        let process = self.slots.process(slot);
        process.record_mut()
    }

    #[tactic(auto, using(crate::proofs::SlabLemmas::slot_rules))]
    fn set_parent(&mut self, pid: Pid, parent: Pid) -> Snapshot {
        let Some(slot) = self.index.get(pid) else {
            unreachable!()
        };
        let process = self.slots.process(slot);
        process.set_parent(parent);
        process.snapshot()
    }

    fn spare(&mut self) -> Option<Spare> {
        self.spares.take()
    }

    #[tactic(auto, using(crate::proofs::SlabLemmas::remove_rules))]
    fn remove(&mut self, pid: Pid) {
        if let Some(slot) = self.index.remove(pid) {
            let gone = self.slots.remove(slot);
            self.spares.keep(gone.into_spare());
        }
    }

    #[tactic(auto, using(crate::proofs::SlabLemmas::next_rules))]
    fn next_after(&mut self, pid: Pid) -> Option<Pid> {
        self.index.next_above(pid)
    }

    fn visits(&self) -> u128 {
        self.slots.visits()
    }
}
