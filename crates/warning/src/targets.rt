//! The targets of jumps.

ghost use Rattle.std.specs.Prelude.{◌≡◌, ◌<◌, ◌||◌, ℕ, IfOk, length};
ghost use Rattle.warning.specs.Targets.{AreTold, jumps_to, told_of};

use posix::Instr;
use std::alloc::{AllocError, Global};
use umach::Program;
use wording::place_of;

/// The places of a program that are targets of its jumps.
#[derive(Drop)]
pub struct Targets {
    /// For each place, whether it is a target.
    are_targets: Vec<bool>,
}

impl Targets {
    /// Returns the targets of the jumps of a program.
    pub fn new(alloc: Global, program: &Program) -> Result<Targets, AllocError>
        ensures { IfOk result (λ targets. AreTold program.now.instructions program.now.instructions targets.are_targets.items) }
    {
        let mut targets = Targets {
            are_targets: vec![in alloc; false; program.len()]?,
        };
        for place in 0..program.len() {
            if let Some(instr) = program.get(place) {
                targets.add(instr);
            }
        }
        Ok(targets)
    }

    /// Adds the place that an instruction jumps to, if it is a jump within the program.
    fn add(&mut self, instr: Instr)
        ensures len { length self.new.are_targets.items ≡ length self.old.are_targets.items }
        ensures told { (place : ℕ) → place < length self.old.are_targets.items → told_of self.new.are_targets.items place ≡ (told_of self.old.are_targets.items place || jumps_to place instr) }
    {
        if let Instr::Jump(address) | Instr::JumpIf(_, _, address) = instr {
            if let Some(place) = place_of(i64::from(address)) {
                if let Some(is_target) = self.are_targets.get_mut(place) {
                    *is_target = true;
                }
            }
        }
    }

    /// Returns true if a place is the target of a jump.
    pub fn have(&self, place: usize) -> bool
        ensures { result ≡ told_of self.now.are_targets.items place }
    {
        self.are_targets.get(place).copied().unwrap_or(false)
    }
}
