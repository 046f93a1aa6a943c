//! The bytes that one call moves.

ghost use Rattle.std.specs.Prelude.{◌≡◌, ◌≤◌, length};

use std::marker::Model;

/// The bytes that one call moved: at most 16.
#[derive(Clone, Copy)]
pub struct Bytes {
    bytes: [u8; 16],
    len: u8,
}

impl Model for Bytes {
    ghost use native.Mathlib.Omega.{arith};
    ghost use Rattle.std.specs.Prelude.{ℕ, ◌≡◌, ◌-◌, ◌++◌, List, take, length, replicate};

    ghost Value = { List ℕ };

    ghost view = { λ b. take b.len b.bytes };

    ghost invariant = { λ b. (length (take b.len b.bytes) ≡ b.len) × (take b.len b.bytes ++ replicate (16 - length (take b.len b.bytes)) 0 ≡ b.bytes) };

    ghost inverse = { λ n. record { bytes = n ++ replicate (16 - length n) 0; len = length n } };

    ghost inverse_ok = { λ a h. Prim.grind (arith, h.0, h.1) };
}

impl Bytes {
    /// Copies some bytes, at most 16.
    pub fn new(bytes: &[u8]) -> Bytes
        requires { length bytes.now ≤ 16 }
        ensures { result ≡ bytes.now }
    {
        let mut all = [0; 16];
        all[..bytes.len()].copy_from_slice(bytes);
        Bytes {
            bytes: all,
            len: bytes.len() as u8,
        }
    }

    /// Returns the bytes, in order.
    pub fn as_slice(&self) -> &[u8]
        ensures value { result.now ≡ self.now }
        ensures few { length result.now ≤ 16 }
    {
        &self.bytes[..usize::from(self.len)]
    }
}
