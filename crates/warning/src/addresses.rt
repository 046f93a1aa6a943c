//! The memory addresses that a program uses.

use crate::known::Known;
use crate::targets::Targets;
use posix::{Call, Instr, Register};
use umach::Program;

/// The memory addresses that a program is known to use, in `ld`, `st`, `read` or `write`.
#[derive(Drop)]
pub struct Addresses {
    used: [bool; 256],
}

/// Returns the address that an instruction uses; `None` if it is unknown, or the instruction uses none.
fn address_of(known: &Known, instr: &Instr) -> Option<i64> {
    match *instr {
        Instr::Load(_, address) | Instr::Store(_, address) => known.constant(address),
        Instr::Sys(Call::Read | Call::Write) => known.constant(Register::FIRST_ARGUMENT),
        _ => None,
    }
}

impl Addresses {
    /// Returns the addresses that a program uses.
    pub fn new(program: &Program, targets: &Targets) -> Addresses {
        let mut addresses = Addresses { used: [false; 256] };
        let mut known = Known::nothing();
        for place in 0..program.len() {
            known.come_to(targets, place);
            if let Some(instr) = program.get(place) {
                addresses.add(address_of(&known, &instr));
                known.run(&instr);
            }
        }
        addresses
    }

    /// Adds an address, if it is known and in memory.
    fn add(&mut self, address: Option<i64>) {
        if let Some(address) = address.and_then(|address| u8::try_from(address).ok()) {
            self.used[usize::from(address)] = true;
        }
    }

    /// Returns true if a word is an address that the program uses.
    pub fn have(&self, word: i64) -> bool {
        u8::try_from(word).is_ok_and(|address| self.used[usize::from(address)])
    }
}
