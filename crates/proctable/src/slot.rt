//! The contents of a slot: a process.

ghost use Rattle.std.specs.Prelude.{◌≡◌};
ghost use Rattle.std.specs.Borrow.{sem, Lends};
ghost use Rattle.proctable.specs.Records.{snapshot_of, process_of, with_parent, give_record, record_row};
ghost use Rattle.proctable.specs.contracts.slot.Slot.{the_row as slot_row};

use crate::records::Record;
use crate::snapshot::Snapshot;
use crate::spare::Spare;
use posix::Pid;
use std::marker::Model;

/// A process with its ID and its parent's. The fields that a step reads come first, so that they fill few cache lines.
#[derive(Drop)]
pub struct Slot {
    fields: Record,
    pid: Pid,
    parent: Pid,
}

impl Model for Slot {
    ghost use Rattle.posix.specs.Processes.{Process};

    ghost Value = { Process };

    ghost use Rattle.proctable.specs.Records.{process_of};

    ghost view = { λ s. process_of s.pid s.parent s.fields };
}

impl Slot {
    /// Creates a process from these parts.
    pub fn new(pid: Pid, parent: Pid, fields: Record) -> Slot
        ensures { result ≡ process_of pid parent fields }
    {
        Slot {
            fields,
            pid,
            parent,
        }
    }

    /// Returns the memory of a removed process.
    pub fn into_spare(self) -> Spare {
        self.fields.own.into_spare()
    }

    /// Returns the small fields of the process.
    pub fn snapshot(&self) -> Snapshot
        ensures { result ≡ snapshot_of self.now }
    {
        self.fields.snapshot(self.pid, self.parent)
    }

    /// Sets the parent of the process.
    pub fn set_parent(&mut self, parent: Pid)
        ensures { self.new ≡ with_parent parent self.old }
    {
        self.parent = parent;
    }

    /// Returns all of the process except its ID and its parent's.
    #[tactic(auto, unfolding(crate::specs::Records::give_record))]
    pub fn record_mut(&mut self) -> &mut Record
        ensures* lends { sem 𝓛 (Lends slot_row record_row self.entry result (λ b. give_record b self.old)) }
        ensures value { self.old ≡ process_of self.old.pid self.old.parent result.now }
    {
        &mut self.fields
    }
}
