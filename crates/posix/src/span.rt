//! The memory of a process that read and write name.

ghost use Rattle.std.specs.Prelude.{◌≡◌, ◌≤◌, ◌+◌, IfOk};
ghost use Rattle.posix.specs.Transfers.{span_in};

use crate::errno::Errno;

/// A range of consecutive words in a process's memory.
#[derive(Clone, Copy)]
pub struct Span {
    /// The address of the first word: 0 to 256.
    pub address: u16,
    /// The number of words: 0 to 16. The last word has at most address 255.
    pub count: u8,
}

impl Span {
    /// The maximum number of bytes that one call moves.
    pub const MOST: u8 = 16;

    /// The address after the last word.
    pub const END: u16 = 256;

    /// Returns the words that an address and a count name (XSH read, write). Fails with EINVAL if the count is not 0
    /// to 16, and then with EFAULT if the address is not 0 to 256, or if the words go past 256.
    pub fn from_words(address: i64, count: i64) -> Result<Span, Errno>
        ensures value { result ≡ span_in address count }
        ensures range { IfOk result (λ s. (s.count ≤ 16) × (s.address + s.count ≤ 256)) }
    {
        let count = match u8::try_from(count) {
            Ok(count) if count <= Span::MOST => count,
            _ => return Err(Errno::EINVAL),
        };
        let address = match u16::try_from(address) {
            Ok(address) if address <= Span::END => address,
            _ => return Err(Errno::EFAULT),
        };
        if address + u16::from(count) <= Span::END {
            Ok(Span { address, count })
        } else {
            Err(Errno::EFAULT)
        }
    }
}
