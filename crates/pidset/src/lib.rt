//! Sets of process IDs, indexes of processes by key, and vectors of items in rising order of their numbers.
//!
//! `search` and `next_above` find items in such a vector. `Pages` maps process IDs to values. `PidSet` is a set.
//! `Index` has pairs of a key and a process. `Lists` has each process in at most one list. `Rows` has a row for each
//! ID, in pages that can be freed. None of them allocates within reserved room.
#![tactic(auto)]

mod gap_vec;
pub mod index;
pub mod lists;
pub mod numbered;
mod page;
pub mod pages;
pub mod pid_set;
pub mod rows;

pub use index::Index;
pub use lists::Lists;
pub use numbered::Numbered;
pub use pages::Pages;
pub use pid_set::PidSet;
pub use rows::Rows;
