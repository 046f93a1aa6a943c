//! What a process can reach from each place of a program.

ghost use Rattle.std.specs.Prelude.{◌≡◌, ◌+◌, ◌<◌, ℕ, IsTrue, pos, true};
ghost use Rattle.warning.specs.Ways.{AreKnown, Follows, IsKnownAt, NeverLeaves, leaves as leaves_of, leaves_by, way_at};

use crate::way::Way;
use posix::{Call, Instr};
use std::alloc::{AllocError, Global};
use umach::Program;
use wording::place_of;

/// The ways from all places of a program.
#[derive(Drop)]
pub struct Ways {
    ways: Vec<Way>,
}

/// Returns true if a call leaves a handler, may terminate its caller, or waits for signals.
fn leaves(call: Call) -> bool
    ensures { result ≡ leaves_of call }
{
    matches!(
        call,
        Call::Sigreturn
            | Call::Exit
            | Call::Exec
            | Call::Kill
            | Call::Sigqueue
            | Call::Pause
            | Call::Sigsuspend
    )
}

impl Ways {
    /// Returns the ways from all places of a program.
    pub fn new(alloc: Global, program: &Program) -> Result<Ways, AllocError> {
        let mut ways = Ways {
            ways: vec![in alloc; Way::Round; program.len()]?,
        };
        for _ in 0..program.len() {
            if !ways.go_back(program) {
                break;
            }
        }
        Ok(ways)
    }

    /// Returns the way from a place; `OffTheEnd` if it is after the end of the program.
    fn at(&self, place: usize) -> Way
        ensures { result ≡ way_at self.now.ways.items place }
    {
        self.ways.get(place).copied().unwrap_or(Way::OffTheEnd)
    }

    /// Returns the way from a code address.
    fn to(&self, address: u16) -> Way
        ensures { (next : ℕ) → address ≡ next + 16 → result ≡ way_at self.now.ways.items next }
    {
        match place_of(i64::from(address)) {
            Some(place) => self.at(place),
            None => Way::OffTheEnd,
        }
    }

    /// Returns the way from an instruction at a place, by the ways from the instructions that can follow it.
    fn from(&self, place: usize, instr: Instr) -> Way
        requires { place < 1000 }
        ensures leaves { leaves_by instr ≡ true → result ≡ Way.Out }
        ensures follows { (next : ℕ) → Follows instr place next → way_at self.now.ways.items next ≡ Way.Out → result ≡ Way.Out }
    {
        match instr {
            Instr::Jump(address) => self.to(address),
            Instr::JumpIf(_, _, address) => self.to(address).or(self.at(place + 1)),
            Instr::Sys(call) if leaves(call) => Way::Out,
            _ => self.at(place + 1),
        }
    }

    /// Updates the way from each place once, from the last place to the first. Returns true if a way changed.
    fn go_back(&mut self, program: &Program) -> bool {
        let mut is_changed = false;
        for place in (0..program.len()).rev() {
            if let Some(instr) = program.get(place) {
                let way = self.from(place, instr);
                if let Some(old) = self.ways.get_mut(place) {
                    is_changed |= *old != way;
                    *old = way;
                }
            }
        }
        is_changed
    }

    /// Returns true unless the way from a place has to be `Out` and is not.
    #[tactic(auto, using(crate::proofs::WayLemmas::known_out, crate::proofs::WayLemmas::known_past, crate::proofs::WayLemmas::known_by))]
    fn is_known(&self, program: &Program, place: usize) -> bool
        requires { place < 1000 }
        ensures { IsTrue result → IsKnownAt program.now.instructions self.now.ways.items place }
    {
        if self.at(place) == Way::Out {
            return true;
        }
        match program.get(place) {
            Some(instr) => self.from(place, instr) != Way::Out,
            None => true,
        }
    }

    /// Returns true unless a way has to be `Out` and is not.
    fn are_known(&self, program: &Program) -> bool
        ensures { IsTrue result → AreKnown program.now.instructions self.now.ways.items }
    {
        for place in 0..program.len() {
            if !self.is_known(program, place) {
                return false;
            }
        }
        true
    }

    /// Returns true if a process that continues at this code address can run off the end of the program, and reaches no
    /// call that leaves a handler.
    pub fn run_off(&self, program: &Program, address: i64) -> bool
        ensures { IsTrue result → (place : ℕ) → address ≡ pos (place + 16) → NeverLeaves program.now.instructions place }
    {
        let Some(place) = place_of(address) else {
            return false;
        };
        if place > program.len() {
            return false;
        }
        match self.at(place) {
            Way::OffTheEnd => self.are_known(program),
            Way::Round | Way::Out => false,
        }
    }
}
