//! Births, terminations, waits and signals, over any table of processes.
//!
//! A [`Machine`] holds the state of a world: the processes, the IDs in use, and the run queue. Its calls change the
//! state as the definitions say.
//!
//! The value of a `Machine` is the state, the slots read, `to_recheck`, the groups noted by a termination, the
//! unchecked foreground process groups and the readers by session; not the granted pools. A look is `Finds`, a change
//! `Changes`, or `Removes` if a record may be removed. Changes require that the state stays regular. A call that fails
//! changes only the number of slots read, and `fork` the room. A call on one process reads at most 4 slots, `fork` 2, a
//! wait 1, a move 5 and 2 for each child (`slots_of_ending`, `slots_of_heir`). No clause: that memory for IDs is freed.
#![tactic(auto)]

mod alarms;
mod births;
pub mod caller;
pub mod census;
mod changes;
pub mod consoles;
mod ends;
mod groups;
pub mod machine;
mod moves;
mod names;
pub mod noted_bursts;
mod orphans;
mod pages;
pub mod programs;
mod rechecks;
mod sameness;
pub mod sends;
pub mod signals;
pub mod stops;
mod subreapers;
mod surveys;
pub mod waits;
pub mod walks;

pub use caller::Caller;
pub use census::Census;
pub use consoles::{Terminal, Unchecked, reads_in};
pub use machine::Machine;
pub use noted_bursts::{Note, Notes};
