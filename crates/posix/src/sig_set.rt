//! Sets of signals.

ghost use Rattle.std.specs.Prelude.{◌≡◌, ◌==◌};
ghost use Rattle.std.specs.Int.{cast_signed, cast_unsigned};
ghost use Rattle.posix.specs.SignalSets.{has, just, union as union_of, except as except_of, maskable as maskable_of, set_in, word_of};

use crate::sig::Sig;
use std::marker::Model;

/// A set of signals, such as a signal mask: signal s is bit s - 1. The bits of 32 and 33, which are
/// not signals, can be set.
#[derive(Clone, Copy, PartialEq, Eq)]
pub struct SigSet {
    bits: u64,
}

impl Model for SigSet {
    ghost use Rattle.std.specs.Prelude.{ℕ};

    ghost Value = { ℕ };

    ghost view = { λ s. s.bits };

    ghost invariant = { λ _. Unit {0} };

    ghost inverse = { λ n. record { bits = n } };
}

/// The bits of SIGKILL, SIGSTOP, 32 and 33.
const UNBLOCKABLE: u64 = 1 << 8 | 1 << 18 | 1 << 31 | 1 << 32;

impl SigSet {
    /// The empty set.
    pub const EMPTY: SigSet = SigSet { bits: 0 };

    /// Returns the set with these bits.
    pub fn from_bits(bits: u64) -> SigSet
        ensures { result ≡ bits }
    {
        SigSet { bits }
    }

    /// Returns the bits of the set.
    pub fn bits(self) -> u64
        ensures { result ≡ self }
    {
        self.bits
    }

    /// Returns the set that a register holds.
    pub fn from_word(word: i64) -> SigSet
        ensures { result ≡ set_in word }
    {
        SigSet {
            bits: word.cast_unsigned(),
        }
    }

    /// Returns the set as a register holds it.
    pub fn word(self) -> i64
        ensures { result ≡ word_of self }
    {
        self.bits.cast_signed()
    }

    /// Returns the set of one signal.
    pub fn just(sig: Sig) -> SigSet
        ensures { result ≡ just sig }
    {
        SigSet {
            bits: 1 << (sig.number() - 1),
        }
    }

    /// Returns true if no bit is set.
    pub fn is_empty(self) -> bool
        ensures { result ≡ (self == 0) }
    {
        self.bits == 0
    }

    /// Returns true if the set contains a signal.
    pub fn contains(self, sig: Sig) -> bool
        ensures { result ≡ has self sig }
    {
        self.bits >> (sig.number() - 1) & 1 == 1
    }

    /// Returns the signals that are in either set.
    pub fn union(self, other: SigSet) -> SigSet
        ensures { result ≡ union_of self other }
    {
        SigSet {
            bits: self.bits | other.bits,
        }
    }

    /// Returns the signals of the set that are not in the other set.
    pub fn except(self, other: SigSet) -> SigSet
        ensures { result ≡ except_of self other }
    {
        SigSet {
            bits: self.bits & !other.bits,
        }
    }

    /// Returns the signals of the set that a signal mask can have: not SIGKILL and SIGSTOP, which can't be blocked,
    /// and not 32 and 33 (XSH sigprocmask).
    pub fn maskable(self) -> SigSet
        ensures { result ≡ maskable_of self }
    {
        SigSet {
            bits: self.bits & !UNBLOCKABLE,
        }
    }
}
