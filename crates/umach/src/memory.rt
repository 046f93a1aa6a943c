//! The memory of a process.

ghost use Rattle.std.specs.Prelude.{◌≡◌, ◌+◌, ◌-◌, ◌<◌, ◌≤◌, ◌++◌, true, EachIndex, IfOk, pos, length, map, replicate, vec_capacity, slice_index_or, slice_set};
ghost use Rattle.posix.specs.Common.{zero_memory, stored, low_byte, bytes_in};
ghost use Rattle.umach.specs.Memories.{words_of};

use arena::{Arena, refill};
use posix::{Bytes, Span};
use std::alloc::AllocError;
use std::marker::Model;

/// The 256 words of a process, at the addresses 0 to 255.
///
/// The room for all words is allocated at once. After the highest address that was written, all
/// words are 0, and not stored.
#[derive(Drop)]
pub struct UserMem {
    words: Vec<i64, Arena>,
}

impl Model for UserMem {
    ghost use Rattle.std.specs.Prelude.{◌≤◌, List, ℤ, length, vec_capacity};
    ghost use Rattle.umach.specs.Memories.{words_of};

    ghost Value = { List ℤ };

    ghost view = { λ m. words_of m.words.items };

    ghost invariant = { λ m. (length m.words.items ≤ 256) × (256 ≤ vec_capacity m.words) };
}

impl UserMem {
    /// Creates a memory of zeros. Fails if the host has no memory for it.
    #[tactic(auto, unfolding(posix::specs::Processes::zero_memory))]
    pub fn zeroed(arena: Arena) -> Result<UserMem, AllocError>
        ensures { IfOk result (λ m. m ≡ zero_memory) }
    {
        Ok(UserMem {
            words: Vec::with_capacity(arena, 256)?,
        })
    }

    /// Returns the word at an address below 256.
    #[inline]
    pub fn get(&self, address: usize) -> i64
        requires { address < 256 }
        ensures { result ≡ slice_index_or self.now address (pos 0) }
    {
        if address < self.words.len() {
            self.words[address]
        } else {
            0
        }
    }

    /// Writes the word at an address below 256; the others stay.
    #[tactic(auto, using(crate::proofs::MemoryLemmas::set_words))]
    #[inline]
    pub fn set(&mut self, address: usize, value: i64)
        requires { address < 256 }
        ensures { self.new ≡ slice_set self.old address value }
    {
        cover(&mut self.words, address);
        self.words[address] = value;
    }

    /// Stores bytes in the words from an address on, one per word; the rest of the memory stays (XSH read).
    /// The last word has at most address 255.
    pub fn store(&mut self, address: u16, bytes: &[u8])
        requires { address + length bytes.now ≤ 256 }
        ensures { self.new ≡ stored address bytes.now self.old }
    {
        for (place, byte) in bytes.iter().enumerate() {
            self.set(usize::from(address) + place, i64::from(*byte));
        }
    }

    /// Returns the bytes in the words of a span, each the low 8 bits of its word (XSH write). There are at most 16,
    /// and the last word has at most address 255.
    pub fn bytes(&self, span: Span) -> Bytes
        requires few { span.count ≤ 16 }
        requires within { span.address + span.count ≤ 256 }
        ensures { result ≡ bytes_in span self.now }
    {
        let kept = self.words.len();
        let first = usize::from(span.address);
        let end = first + usize::from(span.count);
        let bytes = low_bytes(&self.words[first.min(kept)..end.min(kept)]);
        Bytes::new(&bytes[..usize::from(span.count)])
    }

    /// Sets all words to 0. Allocates no memory.
    #[tactic(auto, unfolding(posix::specs::Processes::zero_memory))]
    pub fn clear(&mut self)
        ensures { self.new ≡ zero_memory }
    {
        self.words.clear();
    }

    /// Copies the memory, into `spare` if there is one. Without `spare`, fails if the host has no memory for the copy.
    pub fn try_clone(&self, spare: Option<UserMem>) -> Result<UserMem, AllocError>
        ensures { IfOk result (λ m. m ≡ self.now) }
    {
        let mut words = match spare {
            Some(memory) => memory.words,
            None => Vec::with_capacity(self.words.allocator().clone()?, 256)?,
        };
        refill(&mut words, self.words.as_slice())?;
        Ok(UserMem { words })
    }

    /// Returns true if two memories have the same words; the numbers of stored words may differ.
    pub fn is_same(&self, other: &UserMem) -> bool
        ensures { result ≡ true → self.now ≡ other.now }
    {
        mean_the_same(&self.words, &other.words)
    }
}

/// Returns true if memories that store these words, at most 256 each, have the same words: those that both store are
/// equal, and those after them are 0.
#[tactic(auto, using(crate::proofs::MemoryLemmas::same_words))]
fn mean_the_same(mine: &[i64], others: &[i64]) -> bool
    requires mine { length mine.now ≤ 256 }
    requires others { length others.now ≤ 256 }
    ensures { result ≡ true → words_of mine.now ≡ words_of others.now }
{
    let common = mine.len().min(others.len());
    are_equal(&mine[..common], &others[..common])
        && are_zero(&mine[common..])
        && are_zero(&others[common..])
}

/// Returns true if two slices have the same words.
pub fn are_equal(mine: &[i64], others: &[i64]) -> bool
    ensures { result ≡ true → mine.now ≡ others.now }
{
    mine == others
}

/// Returns true if all words are 0.
fn are_zero(words: &[i64]) -> bool
    ensures { result ≡ true → EachIndex words.now (λ k. slice_index_or words.now k (pos 0) ≡ pos 0) }
{
    words.iter().all(|word| *word == 0)
}

/// Makes the word at an address below 256 a stored one.
#[tactic(auto, using(crate::proofs::MemoryLemmas::more_words))]
#[inline]
fn cover(words: &mut Vec<i64, Arena>, address: usize)
    requires address { address < 256 }
    requires few { length words.old.items ≤ 256 }
    requires room { 256 ≤ vec_capacity words.old }
    ensures there { address < length words.new.items }
    ensures few { length words.new.items ≤ 256 }
    ensures same { words_of words.new.items ≡ words_of words.old.items }
    ensures room { 256 ≤ vec_capacity words.new }
{
    if address >= words.len() {
        keep(words, address + 1);
    }
}

/// Stores this many words, at least as many as before; the new ones are 0.
#[cold]
fn keep(words: &mut Vec<i64, Arena>, count: usize)
    requires more { length words.old.items ≤ count }
    requires room { count ≤ vec_capacity words.old }
    ensures words { words.new.items ≡ words.old.items ++ replicate (count - length words.old.items) (pos 0) }
    ensures room { vec_capacity words.old ≤ vec_capacity words.new }
{
    let _ = words.resize(count, 0);
}

/// Returns the low 8 bits of each of at most 16 words, and zeros after them.
fn low_bytes(words: &[i64]) -> [u8; 16]
    requires { length words.now ≤ 16 }
    ensures { result ≡ map low_byte words.now ++ replicate (16 - length words.now) 0 }
{
    let mut bytes = [0; 16];
    for (place, word) in words.iter().enumerate() {
        bytes[place] = low_byte(*word);
    }
    bytes
}

/// Returns the low 8 bits of a word.
fn low_byte(word: i64) -> u8
    ensures { result ≡ low_byte word }
{
    (word.cast_unsigned() % 256) as u8
}
