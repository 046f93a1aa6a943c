//! System calls: attempts, and their outcomes; delivery of signals.
//!
//! `attempt` and `attempt_again` do what the definitions of calls say (`Attempts`, `Comes`): the call completes, with
//! its lines; blocks, with nothing changed; or restarts, with SIGTTIN or SIGTTOU for the caller's process group.
//! `deliver` (not of a zombie), `fault`, `return_from_handler` and `end`, with the hangup before it, are as defined,
//! and so are `has_to_wait` and `has_to_read`.
#![tactic(auto)]

pub mod attempts;
mod background;
pub mod delivery;
pub mod entries;
mod groups;
mod kills;
pub mod outcome;
mod programs;
mod replies;
mod terminals;
mod transfers;
pub mod waits;

pub use attempts::{attempt, attempt_again};
pub use entries::Entries;
pub use transfers::has_to_read;
pub use waits::has_to_wait;
