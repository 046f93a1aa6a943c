//! The kernel of one world, and runs from two inputs to a printed trace.
//!
//! `event` is a step of the machine (`step`) for any event, even on a missing console; lack of memory is a line.
//! Afterwards the state is regular and settled, with at most one birth more than events, and at most as many ticks as
//! events (`within_events`). Lines that agree with the state before agree, with its own, with the state after
//! (`tells`). `steps` applies as many events as `last_given` says. `visits` counts slots, not IDs read in indexes;
//! steps outside `slots_of_event` have no bound. `is_moved` true means that one state is the other, moved in time.
#![tactic(auto)]

pub mod driver;
pub mod kernel_on;
mod progress;
mod settle;
mod step;
pub mod summary;
pub mod texts;

pub use calls::Entries;
pub use driver::{Observer, drive, drive_to};
pub use kernel_on::{Kernel, KernelOn};
pub use summary::Summary;
pub use texts::{RunError, run, run_on, run_read};
pub use trace::{Sink, SinkFault, WriteSink, put_all};
