//! The slots of a process table. Each method that reads or writes a slot counts it.

ghost use Rattle.std.specs.Prelude.{◌≡◌, ◌+◌, ◌-◌, ◌<◌, ◌≤◌, [], None, Some, OnOk, option_map};
ghost use Rattle.std.specs.Borrow.{sem, Lends};
ghost use Rattle.slab.specs.Slab.{get, ContainsKey, HasRoomFor, Updates, slab_len};
ghost use Rattle.proctable.specs.contracts.slots.Slots.{the_row as slots_row};
ghost use Rattle.proctable.specs.Records.{snapshot_of};
ghost use Rattle.proctable.specs.Slots.{one_more, with_process, slot_row};

use crate::slot::Slot;
use crate::snapshot::Snapshot;
use slab::Slab;
use std::alloc::{AllocError, Global};
use std::marker::Model;

/// Processes in the slots of a slab, and how many slots were read or written. Only the methods reach slots, and each
/// reaches at most one.
#[derive(Drop)]
pub struct Slots {
    processes: Slab<Slot>,
    /// At most `u128::MAX`, where it stays.
    visits: u128,
}

impl Model for Slots {
    ghost use Rattle.proctable.specs.Slots.{SlotsView};

    ghost Value = { SlotsView };

    ghost view = { λ s. record { processes = s.processes; visits = s.visits } };
}

impl Slots {
    /// Creates an empty slab. Allocates nothing.
    pub fn new(alloc: Global) -> Slots
        ensures processes { result.processes.slots ≡ [] }
        ensures visits { result.visits ≡ 0 }
    {
        Slots {
            processes: Slab::new(alloc),
            visits: 0,
        }
    }

    /// Makes room for one more process. Fails if the host has no memory for it. The processes are unchanged.
    pub fn reserve(&mut self) -> Result<(), AllocError>
        ensures ok { OnOk result (HasRoomFor self.new.processes 1) }
        ensures slots { self.new.processes.slots ≡ self.old.processes.slots }
        ensures capacity { self.old.processes.capacity ≤ self.new.processes.capacity }
        ensures visits { self.new.visits ≡ self.old.visits }
    {
        self.processes.reserve(1)
    }

    /// Counts one read or write of a slot.
    fn count(&mut self)
        ensures { self.new ≡ record self.old { visits = one_more self.old.visits } }
    {
        self.visits = self.visits.saturating_add(1);
    }

    /// Returns the small fields of the process in a slot.
    #[inline(always)]
    pub fn snapshot(&mut self, slot: usize) -> Snapshot
        requires { ContainsKey self.old.processes slot }
        ensures value { option_map snapshot_of (get self.old.processes slot) ≡ Some result }
        ensures processes { self.new.processes ≡ self.old.processes }
        ensures visits { self.new.visits ≡ one_more self.old.visits }
    {
        self.count();
        self.processes[slot].snapshot()
    }

    /// Returns the process in a slot, for the caller to change.
    pub fn process(&mut self, slot: usize) -> &mut Slot
        requires { ContainsKey self.old.processes slot }
        ensures* lends { sem 𝓛 (Lends slots_row slot_row self.entry result (with_process self.old slot)) }
        ensures value { get self.old.processes slot ≡ Some result.now }
    {
        self.count();
        &mut self.processes[slot]
    }

    /// Adds a process to a vacant slot, within reserved room, and returns the slot.
    pub fn insert(&mut self, process: Slot) -> usize
        requires { HasRoomFor self.old.processes 1 }
        ensures was_vacant { get self.old.processes result ≡ None }
        ensures updates { Updates self.old.processes self.new.processes result (Some process) }
        ensures len { slab_len self.new.processes ≡ slab_len self.old.processes + 1 }
        ensures capacity { self.new.processes.capacity ≡ self.old.processes.capacity }
        ensures visits { self.new.visits ≡ one_more self.old.visits }
    {
        self.count();
        self.processes.insert_reserved(process)
    }

    /// Removes and returns the process in a slot.
    pub fn remove(&mut self, slot: usize) -> Slot
        requires { ContainsKey self.old.processes slot }
        ensures value { get self.old.processes slot ≡ Some result }
        ensures updates { Updates self.old.processes self.new.processes slot None }
        ensures len { slab_len self.new.processes + 1 ≡ slab_len self.old.processes }
        ensures capacity { self.new.processes.capacity ≡ self.old.processes.capacity }
        ensures visits { self.new.visits ≡ one_more self.old.visits }
    {
        self.count();
        self.processes.remove(slot)
    }

    /// Returns the number of processes. Reads no slot.
    pub fn len(&self) -> usize
        ensures { result ≡ slab_len self.now.processes }
    {
        self.processes.len()
    }

    /// Returns how many slots were read or written, at most `u128::MAX`. Reads no slot.
    pub fn visits(&self) -> u128
        ensures { result ≡ self.now.visits }
    {
        self.visits
    }
}
