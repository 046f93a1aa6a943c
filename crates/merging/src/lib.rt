//! Merges the schedules of a family that reach the same state: they continue as one. States that differ only in time
//! are one, and so are states in which the machine has halted. The counts are those of separate runs.
//!
//! `merge` runs schedules that reach the same state as one, and returns the same book as `explore` of `counting`
//! (`book_over`); or it names a place before which there are more states than `--states` keeps (`AreTooMany`), or has
//! no memory.
#![tactic(auto)]

mod begun;
mod digest;
mod layer;
mod merging;
mod node;
mod search;
mod spot_list;
mod spreading;

pub use merging::merge;
pub use search::Stop;
