//! The process table: what it keeps for each process, what every implementation does, and one with records in slots.
//!
//! After a successful `reserve`, one `insert` allocates nothing. A `reserve_pools` that fails leaves no fewer pools,
//! and the processes unchanged. Each method bounds the slots that it reads (`visits`), and none lowers the count.
//! `Record` and `OwnPart` change one process; `queue` changes nothing without a pool or if the queue is full. In a
//! `SlabTable`, the index has the slot of each process, no other slot has a record, and only `Slots` reads slots, and
//! counts each read. No clause says that the table keeps the memory of each removed process (`Spares`).
#![tactic(auto)]

pub mod own_part;
pub mod process_table;
pub mod records;
pub mod slab_table;
mod slot;
mod slots;
pub mod snapshot;
pub mod spare;

pub use own_part::OwnPart;
pub use process_table::ProcessTable;
pub use records::Record;
pub use signal::{GrantedPools, NoPools, Pools, RealtimePool};
pub use slab_table::SlabTable;
pub use snapshot::Snapshot;
pub use spare::Spare;
