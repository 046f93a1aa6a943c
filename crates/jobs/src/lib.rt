//! The table of jobs: the processes of a machine, their process groups and their sessions. It works over any table of
//! processes.
//!
//! An [`IndexedTable`] owns the process table, so every change of a process goes through it. It lends only the part of
//! a record that a process changes itself. The life, status change, process group and session of a process change only
//! by calls.
//!
//! `change` and `change_seen` run a closure on one record, and nothing else changes. `group_to_join` returns the group
//! or error of setpgid, and `can_lead` fails exactly if setsid does. `group_of` and `group_to_join` require that the
//! members of each group are in one session. `anchors` and `stopped_in` count members without reading a slot
//! (`GroupCounts`); only tests call them. `IndexedTable` keeps these invariants: IDs rise, each is a `Pid` other than
//! 0, and seven indexes are exact, so a lookup in them reads no slot.
#![tactic(auto)]

pub mod anchors;
mod children;
pub mod groups;
pub mod indexed_table;
pub mod indexes;
pub mod moves;

pub use indexed_table::IndexedTable;
pub use indexes::{Change, IndexedFields};
