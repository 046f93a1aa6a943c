//! Natural numbers of any size.

ghost use Rattle.std.specs.Prelude.{◌≡◌, ◌+◌, ◌≤◌, ◌==◌, IfOk, OnErr, OnOk, slice_index};
ghost use Rattle.std.specs.String.{string_bytes};
ghost use Rattle.counting.specs.Numbers.{AreLimbs, in_decimal, number_of};

use std::alloc::{AllocError, Global};
use std::fmt::Write;
use std::marker::Model;

/// Each limb is below this. It is a power of 10, so that a number is printed limb by limb. The sum of two limbs and a
/// carry fits 64 bits.
const BASE: u64 = 1_000_000_000_000_000_000;

/// A natural number of any size. Up to 10^18 - 1, it needs no memory.
#[derive(Drop)]
pub struct Count {
    alloc: Global,
    /// The lowest limb: the number modulo 10^18.
    low: u64,
    /// The other limbs, the lowest first, without leading zeros.
    high: Vec<u64>,
}

impl Model for Count {
    ghost use Rattle.std.specs.Prelude.{ℕ, ◌<◌, ◌∷◌};
    ghost use Rattle.counting.specs.Numbers.{AreLimbs, base, number_of};

    ghost Value = { ℕ };

    ghost view = { λ c. number_of (c.low ∷ c.high.items) };

    ghost invariant = { λ c. (c.low < base) × AreLimbs c.high.items };
}

/// Returns the limb with this place, counted from the lowest; 0 if there is none.
fn limb_at(limbs: &[u64], place: usize) -> u64
    ensures { result ≡ slice_index limbs.now place }
{
    limbs.get(place).copied().unwrap_or(0)
}

/// Adds a number and a carry. If memory runs out, the limbs stay unchanged.
#[tactic(auto, using(crate::proofs::NumberLemmas::sum_rules))]
fn add_limbs(limbs: &mut Vec<u64>, others: &[u64], mut carry: u64) -> Result<(), AllocError>
    requires limbs { AreLimbs limbs.old.items }
    requires others { AreLimbs others.now }
    requires carry { carry ≤ 1 }
    ensures ok { OnOk result (number_of limbs.new.items ≡ number_of limbs.old.items + number_of others.now + carry) }
    ensures limbs { AreLimbs limbs.new.items }
    ensures err { OnErr result (limbs.new.items ≡ limbs.old.items) }
{
    let len = limbs.len().max(others.len());
    // Room for the last carry, too, so that nothing fails after a write.
    limbs.reserve(len + 1 - limbs.len())?;
    limbs.resize(len, 0)?;
    for place in 0..len {
        let sum = limbs[place] + limb_at(others, place) + carry;
        limbs[place] = sum % BASE;
        carry = sum / BASE;
    }
    if carry > 0 {
        limbs.push_reserved(carry);
    }
    Ok(())
}

impl Count {
    /// Returns 0, which needs no memory.
    pub fn zero(alloc: Global) -> Count
        ensures { result ≡ 0 }
    {
        Count {
            alloc,
            low: 0,
            high: Vec::new(alloc),
        }
    }

    /// Returns 1.
    pub fn one(alloc: Global) -> Result<Count, AllocError>
        ensures { IfOk result (λ count. count ≡ 1) }
    {
        Ok(Count {
            alloc,
            low: 1,
            high: Vec::new(alloc),
        })
    }

    /// Returns a copy.
    pub fn try_clone(&self) -> Result<Count, AllocError>
        ensures { IfOk result (λ count. count ≡ self.now) }
    {
        Ok(Count {
            alloc: self.alloc,
            low: self.low,
            high: Vec::from_slice(self.alloc, self.high.as_slice())?,
        })
    }

    /// Returns true if the number is 0.
    #[tactic(auto, using(crate::proofs::NumberLemmas::is_low))]
    pub fn is_zero(&self) -> bool
        ensures { result ≡ (self.now == 0) }
    {
        self.low == 0 && self.high.is_empty()
    }

    /// Returns true if the number is 1.
    #[tactic(auto, using(crate::proofs::NumberLemmas::is_low))]
    pub fn is_one(&self) -> bool
        ensures { result ≡ (self.now == 1) }
    {
        self.low == 1 && self.high.is_empty()
    }

    /// Adds another number. If memory runs out, the number stays unchanged.
    pub fn add(&mut self, other: &Count) -> Result<(), AllocError>
        ensures ok { OnOk result (self.new ≡ self.old + other.now) }
        ensures err { OnErr result (self.new ≡ self.old) }
    {
        let sum = self.low + other.low;
        if sum >= BASE || !other.high.is_empty() {
            add_limbs(&mut self.high, other.high.as_slice(), sum / BASE)?;
        }
        self.low = sum % BASE;
        Ok(())
    }

    /// Adds 1. If memory runs out, the number stays unchanged.
    pub fn add_one(&mut self) -> Result<(), AllocError>
        ensures ok { OnOk result (self.new ≡ self.old + 1) }
        ensures err { OnErr result (self.new ≡ self.old) }
    {
        self.add(&Count::one(self.alloc)?)
    }

    /// Returns the number in decimal.
    #[tactic(auto, using(crate::proofs::DecimalLemmas::limb_written, crate::proofs::NumberLemmas::part_all))]
    pub fn to_text(&self) -> Result<String, AllocError>
        ensures { IfOk result (λ text. string_bytes text ≡ in_decimal self.now) }
    {
        let low = self.low;
        let Some((top, others)) = self.high.as_slice().split_last() else {
            return format!(in self.alloc; "{low}");
        };
        let mut text = format!(in self.alloc; "{top}")?;
        for limb in others.iter().rev() {
            write!(text, "{limb:018}")?;
        }
        write!(text, "{low:018}")?;
        Ok(text)
    }
}
