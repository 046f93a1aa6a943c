//! The user and group IDs of a process, and its permission to send signals; and its signals: the signal mask, pending
//! signals, actions, and the frames of handlers that haven't returned.
//!
//! `Creds::{setuid, seteuid, setgid, setegid, on_exec}` set exactly the defined IDs; those that fail change nothing.
//! `may_signal` and `Signals` do exactly what their definitions say; `queue` requires room and a pool. `LazyTables` are
//! as at boot until written to. `RealtimePool` is a queue of at most 32 signals; the pending set has bits 34 to 64
//! exactly for their numbers. After `GrantedPools::reserve`, that many pools are ready, or it failed and fewer were
//! ready before (`lack`); none is lost. No clause says that sending a signal allocates nothing while pools are ready.
#![tactic(auto)]

mod action_fields;
mod actions;
pub mod creds;
pub mod interrupts;
pub mod realtime_pool;
mod sameness;
pub mod signals;
mod tables;

pub use creds::Creds;
pub use interrupts::{is_interrupted, leave_call, mask_before};
pub use realtime_pool::{GrantedPools, NoPools, Pools, RealtimePool};
pub use signals::Signals;
pub use tables::{FramesFull, LazyTables, NoFrame};
