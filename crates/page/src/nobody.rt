//! The absence of a terminal.

use exploring::Progress;
use inputs::ReadFault;
use showing::Ask;

/// A terminal that is absent: it ignores progress, and has no input.
#[derive(Drop)]
pub struct Nobody;

impl Progress for Nobody {
    fn run(&mut self, _done: u64, _size: u64) {}

    fn reach(&mut self, _place: u64, _upto: u64, _states: u64) {}
}

impl Ask for Nobody {
    fn is_terminal(&self) -> bool {
        false
    }

    fn ask(&mut self, _line: &mut String) -> Result<bool, ReadFault<'static>> {
        Ok(false)
    }
}
