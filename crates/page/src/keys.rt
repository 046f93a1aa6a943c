//! The random bytes for an audit.

use std::io;
use std::random::RandomSource;

/// A source of random bytes, made of two random numbers from the caller. The bytes repeat after 16, the number that a
/// hasher takes.
#[derive(Drop)]
pub struct GivenKeys {
    pub key0: u64,
    pub key1: u64,
}

impl RandomSource for GivenKeys {
    fn fill_bytes(&self, buf: &mut [u8]) -> io::Result<()> {
        let low = self.key0.to_le_bytes();
        let high = self.key1.to_le_bytes();
        for (i, byte) in buf.iter_mut().enumerate() {
            *byte = if i % 16 < 8 { low[i % 8] } else { high[i % 8] };
        }
        Ok(())
    }
}
