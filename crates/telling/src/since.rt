//! Since when each process is blocked, stopped or a zombie.

use posix::{Entry, Pid};
use std::alloc::{AllocError, Global};
use std::collections::BTreeMap;

/// The events at which a process blocked in its call, stopped and terminated, and the number of the signal that stopped
/// it. 0 means none.
#[derive(Clone, Copy, Default)]
pub struct Times {
    pub wait: u64,
    pub stop: u64,
    pub stopped_by: u8,
    pub end: u64,
}

/// The times of each process ID.
#[derive(Drop)]
pub struct Since {
    times: BTreeMap<u32, Times>,
}

impl Since {
    /// Returns the times before the first event.
    pub fn new(alloc: Global) -> Since {
        Since {
            times: BTreeMap::new(alloc),
        }
    }

    /// Returns the times of a process.
    pub fn of(&self, pid: Pid) -> Times {
        self.times.get(&pid.number()).copied().unwrap_or_default()
    }

    /// Changes the times of a process.
    fn change<F: FnOnce(&mut Times)>(&mut self, pid: Pid, change: F) -> Result<(), AllocError>
        requires { F.IsAlwaysCallable change }
    {
        let mut times = self.of(pid);
        change(&mut times);
        self.times.insert(pid.number(), times)?;
        Ok(())
    }

    /// Records the stops and terminations in the entries of an event.
    pub fn note(&mut self, event: u64, entries: &[Entry]) -> Result<(), AllocError> {
        for entry in entries {
            match *entry {
                Entry::Stopped { pid, sig } => self.change(pid, |times| {
                    times.stop = event;
                    times.stopped_by = sig.number();
                })?,
                Entry::Ended { pid, .. } => self.change(pid, |times| times.end = event)?,
                _ => {}
            }
        }
        Ok(())
    }

    /// Records that a process is blocked since an event.
    pub fn note_wait(&mut self, event: u64, pid: Pid) -> Result<(), AllocError> {
        self.change(pid, |times| times.wait = event)
    }
}
