//! What `show` prints of a run.

use posix::Pid;
use std::alloc::Global;
use wording::Listing;

/// The parts of a run that are shown.
#[derive(Clone, Copy)]
pub struct View<'l, 't> {
    pub alloc: Global,
    pub listing: &'l Listing<'t>,
    /// The number of events in the list.
    pub events: u64,
    /// If true, the description of an event follows its first trace line, and an event without a trace line is omitted.
    pub traced: bool,
    /// The processes that are shown, with their registers and memory. If it is empty, all processes are shown, without
    /// registers and memory.
    pub only: &'t [Pid],
}

impl View<'_, '_> {
    /// Returns true if a process is shown.
    pub fn has(&self, pid: Pid) -> bool {
        self.only.is_empty() || self.only.contains(&pid)
    }
}
