//! The user machine: worlds and their programs, a processor with its memory, and the execution of instructions.
//!
//! `Cpu::exec_one` runs every instruction as the definitions do; a call and a machine fault leave the processor
//! unchanged. `Cpu::run_until` runs a given number of instructions at most, up to the first one that isn't plain, and
//! returns the number of plain ones and the trap of that one. The types `Program` and `World` keep
//! each number within its range.
#![tactic(auto)]

pub mod cpu;
pub mod memory;
pub mod program;
pub mod world;

pub use cpu::Cpu;
pub use memory::UserMem;
pub use program::Program;
pub use world::World;
