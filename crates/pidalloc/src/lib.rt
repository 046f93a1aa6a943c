//! The IDs in use by processes, process groups and sessions, the choice of the next process ID, and the run queue.
//!
//! `PidTable::next` returns the ID that the definitions choose. The other calls change rows and the last ID given out
//! as their definitions say. After `reserve` of its ID, a new process allocates nothing. `can_give_up_page` says which
//! pages can be freed. `Order` is a list with each ID once; within reserved room, adding a process allocates nothing.
//! Its invariant: a ring of nodes is this list, forward and back, and all other nodes say that they are not in it.
#![tactic(auto)]

pub mod laws;
pub mod order;
pub mod row;
pub mod table;

pub use order::Order;
pub use row::Role;
pub use table::PidTable;
