//! Finds probable mistakes in an accepted world: the number of a signal used as a set, a handler without sigreturn, the
//! old handler of another signal, and a store whose registers are exchanged.
//!
//! The targets of jumps are known exactly (`Targets`, `AreTold`); at a target, nothing is known of the registers
//! (`come_to`). What is known holds after each instruction (`Holds`). A handler that gets a warning reaches no call
//! that could leave it (`NeverLeaves`), and a store that gets one faults with SIGSEGV (`exchanged`). `put_warnings`
//! only adds to its text (`Grows`). No clause: that the walk over a program calls `come_to`. Tested: the other rules,
//! when something is reported, the messages.
#![tactic(auto)]

mod addresses;
mod held;
mod known;
mod rules;
mod targets;
mod warnings;
mod way;
mod ways;
mod worlds;

pub use worlds::put_warnings;
