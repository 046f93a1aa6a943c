//! The memory of removed processes, for new ones.

ghost use Rattle.std.specs.Prelude.{◌≡◌, ◌+◌, ◌-◌, ◌<◌, ◌≤◌, ◌++◌, ◌∷◌, [], OnOk, length, slice_get, take, vec_len, vec_capacity};

use signal::LazyTables;
use std::alloc::{AllocError, Global};
use umach::UserMem;

/// The memory of a removed process, which the next new process can reuse.
#[derive(Drop)]
pub struct Spare {
    /// The memory of its words.
    pub words: UserMem,
    /// The memory of its tables for signals.
    pub tables: LazyTables,
}

/// The memory of removed processes, kept for new ones.
///
/// An arena frees nothing until the machine is dropped. So the table keeps the memory of removed processes, and a child
/// reuses it if there is any.
#[derive(Drop)]
pub(crate) struct Spares {
    kept: Vec<Spare>,
}

impl Spares {
    /// Creates an empty stock. Allocates nothing.
    pub fn new(alloc: Global) -> Spares
        ensures { result.kept.items ≡ [] }
    {
        Spares {
            kept: Vec::new(alloc),
        }
    }

    /// Makes room for the memory of `more` more removed processes. Fails if the host has no memory for it.
    pub fn reserve(&mut self, more: usize) -> Result<(), AllocError>
        ensures room { OnOk result (vec_len self.new.kept + more ≤ vec_capacity self.new.kept) }
        ensures same { self.new.kept.items ≡ self.old.kept.items }
    {
        self.kept.reserve(more)
    }

    /// Keeps the memory of a removed process, if there is room for it.
    pub fn keep(&mut self, left: Spare)
        ensures room { vec_len self.old.kept < vec_capacity self.old.kept → self.new.kept.items ≡ self.old.kept.items ++ left ∷ [] }
        ensures full { vec_capacity self.old.kept ≤ vec_len self.old.kept → self.new.kept.items ≡ self.old.kept.items }
    {
        if self.kept.len() < self.kept.capacity() {
            self.kept.push_reserved(left);
        }
    }

    /// Removes and returns what was kept last, if anything.
    pub fn take(&mut self) -> Option<Spare>
        ensures value { result ≡ slice_get self.old.kept.items (length self.old.kept.items - 1) }
        ensures rest { self.new.kept.items ≡ take (length self.old.kept.items - 1) self.old.kept.items }
    {
        self.kept.pop()
    }
}
