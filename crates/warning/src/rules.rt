//! The rules for probable mistakes in an instruction, by what is known of the registers.

ghost use Rattle.std.specs.Prelude.{◌≡◌, IfSome, IsTrue, None};
ghost use Rattle.posix.specs.Common.{address_of, execute, faulted, Cpu, SEGV};
ghost use Rattle.warning.specs.Holds.{Holds};
ghost use Rattle.warning.specs.Tells.{Tells};

use crate::addresses::Addresses;
use crate::held::Held;
use crate::known::Known;
use crate::warnings::Warning;
use crate::ways::Ways;
use posix::{Call, How, Instr, Register, Sig};
use umach::Program;
use wording::signal_in;

/// Returns the signal of a sigaction, as [`Known::signal`] does, and its handler. `None` if one of them is unknown, or
/// if the handler is at most 1: then it is SIG_DFL, SIG_IGN or no code address.
fn handler(known: &Known) -> Option<(Sig, i64)> {
    let address = known.constant(Register::SECOND_ARGUMENT)?;
    if address > 1 {
        Some((known.signal()?, address))
    } else {
        None
    }
}

/// Returns true unless the operation of a sigprocmask is known to be invalid.
fn has_how(known: &Known) -> bool {
    known
        .constant(Register::FIRST_ARGUMENT)
        .is_none_or(|how| How::from_word(how).is_some())
}

/// Returns the signal set that a call uses; `None` if it is unknown, or the call uses none.
fn set_of(known: &Known, call: Call) -> Option<i64> {
    match call {
        Call::Sigsuspend => known.constant(Register::FIRST_ARGUMENT),
        Call::Sigprocmask if has_how(known) => known.constant(Register::SECOND_ARGUMENT),
        Call::Sigaction if handler(known).is_some() => known.constant(Register::THIRD_ARGUMENT),
        _ => None,
    }
}

/// Returns a warning if a call uses the number of a signal as a set. As a set, each of these numbers has SIGILL or
/// SIGTRAP and another signal, which programs do not block together. 8, 16 and 24, the sets of only SIGILL and SIGTRAP,
/// get no warning, and neither does 31, the set of the first five signals.
pub fn number_for_set(known: &Known, call: Call) -> Option<Warning> {
    match set_of(known, call)? {
        number @ (9..=15 | 17..=23 | 25..=30) => {
            Some(Warning::NumberForSet(call, signal_in(number)?))
        }
        _ => None,
    }
}

/// Returns a warning if the handler that a sigaction sets can run off the end of the program, and reaches no call that
/// leaves it.
pub fn no_return(known: &Known, call: Call, program: &Program, ways: &Ways) -> Option<Warning>
    ensures { IfSome result (Tells program.now.instructions) }
{
    let (sig, address) = handler(known)?;
    match call {
        Call::Sigaction if ways.run_off(program, address) => Some(Warning::NoReturn(sig, address)),
        _ => None,
    }
}

/// Returns a warning if a sigaction sets the old handler of another signal, which the previous sigaction left in r2.
pub fn handler_of_another(known: &Known, call: Call) -> Option<Warning> {
    match (call, known.held(Register::SECOND_ARGUMENT)) {
        (Call::Sigaction, Held::OldHandler(other)) => {
            let sig = known.signal()?;
            if sig == other {
                None
            } else {
                Some(Warning::HandlerOfAnother(sig, other))
            }
        }
        _ => None,
    }
}

/// Returns true if a word is no address, and not next to one, as -1 and 256 are.
#[tactic(auto, using(crate::proofs::HeldLemmas::outside))]
fn is_outside(word: i64) -> bool
    ensures { IsTrue result → address_of word ≡ None }
{
    word < -1 || 256 < word
}

/// Returns a warning if a store writes to a word that is no address, and not next to one, and the stored word is an
/// address that the program uses.
#[tactic(auto, using(crate::proofs::HeldLemmas::faults))]
pub fn exchanged(known: &Known, instr: &Instr, addresses: &Addresses) -> Option<Warning>
    ensures { IfSome result (λ warning. (c : Cpu) → Holds known.now c.registers → execute c instr.now ≡ faulted c SEGV) }
{
    match *instr {
        Instr::Store(value, address) => {
            let word = known.constant(value)?;
            let outside = known.constant(address)?;
            if !is_outside(outside) {
                return None;
            }
            if !addresses.have(word) {
                return None;
            }
            Some(Warning::Exchanged {
                registers: (value.index(), address.index()),
                word,
                outside,
            })
        }
        _ => None,
    }
}
