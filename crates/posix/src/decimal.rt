//! Decimal digits.

ghost use Rattle.std.specs.Prelude.{◌≡◌};
ghost use Rattle.posix.specs.Decimals.{decimal_value as decimal_value_of};

/// Returns the number that decimal digits denote, or the largest u64 if the number is larger.
#[tactic(auto, unfolding(crate::specs::Decimals::decimal_value), using(std::proofs::lemmas::List::Sums::fold_more))]
pub fn decimal_value(digits: &[u8]) -> u64
    ensures { result ≡ decimal_value_of digits.now }
{
    let mut value: u64 = 0;
    for b in digits {
        value = value
            .saturating_mul(10)
            .saturating_add(u64::from(b.saturating_sub(b'0')));
    }
    value
}
