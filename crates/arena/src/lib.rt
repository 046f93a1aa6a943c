//! An arena that several owners share.
//!
//! `Shared` is an allocator if what it shares is one (`allocate`, `deallocate`, proved by hand), and a clone shares
//! the same one. So a vector over an `Arena` has the contracts of any vector.
#![tactic(auto)]

ghost use Rattle.std.specs.Prelude.{◌≡◌, ◌≤◌, IfOk, OnOk, vec_capacity};

use bumpalo::Bump;
use std::alloc::{AllocError, Allocator, Global};
use std::marker::Model;
use std::rc::Rc;

/// A handle to an allocator that several owners share. Each clone allocates from the same allocator, which lives as
/// long as the last handle, and so as long as the last collection that has one.
#[derive(Drop)]
pub struct Shared<B> {
    inner: Rc<B, Global>,
}

/// A handle to an arena that several owners share.
pub type Arena = Shared<Bump>;

/// The initial size of an arena in bytes, enough for about two dozen processes.
const FIRST_CHUNK: usize = 1 << 17;

/// Creates an arena, and returns its first handle. Fails if the host has no memory for it. Allocated room costs
/// memory only once it is written to, and deallocated room isn't used again.
pub fn new_arena(alloc: Global) -> Result<Arena, AllocError> {
    Shared::new(alloc, Bump::try_with_capacity(alloc, FIRST_CHUNK)?)
}

/// Replaces the items of a vector; its capacity stays or grows. Fails if the capacity is too small
/// and the host has no memory.
pub fn refill<T: Copy>(to: &mut Vec<T, Arena>, from: &[T]) -> Result<(), AllocError>
    ensures items { OnOk result (to.new.items ≡ from.now) }
    ensures room { vec_capacity to.old ≤ vec_capacity to.new }
{
    to.clear();
    // This saves a fork the loop over nothing.
    if from.is_empty() {
        return Ok(());
    }
    to.extend_from_slice(from)
}

/// The value of a handle is the allocator.
impl<B> Model for Shared<B> {
    ghost Value = { B };

    ghost view = { λ handle. handle.inner.value };
}

impl<B: Drop> Shared<B> {
    /// Creates the first handle to an allocator. Fails if the host has no memory for it.
    pub fn new(alloc: Global, inner: B) -> Result<Shared<B>, AllocError>
        ensures { IfOk result (λ handle. handle ≡ inner) }
    {
        Ok(Shared {
            inner: Rc::new(alloc, inner)?,
        })
    }
}

impl<B> Shared<B> {
    /// Returns the allocator.
    fn lent(&self) -> &B
        ensures { result.now ≡ self.now }
    {
        &self.inner
    }
}

impl<B: Drop> Clone for Shared<B> {
    ghost is_clone = { λ handle copy. copy ≡ handle };

    fn clone(&self) -> Result<Shared<B>, AllocError> {
        Ok(Shared {
            inner: self.inner.clone()?,
        })
    }
}

unsafe impl<B: Allocator> Allocator for Shared<B> {
    ghost dealloc_token = { λ handle ty ptr. B.dealloc_token handle ty ptr };

    fn allocate(&self, size: usize, align: usize) -> Result<*mut u8, AllocError> {
        self.lent().allocate(size, align)
    }

    unsafe fn deallocate(&self, ptr: *mut u8, size: usize, align: usize) {
        self.lent().deallocate(ptr, size, align);
    }

    // Written by hand, because the proof of the default can't be kept: each crate above would prove
    // again what rests on it.
    unsafe fn grow<T>(
        &self,
        ptr: *mut T,
        len: usize,
        old_cap: usize,
        new_cap: usize,
    ) -> Result<*mut T, AllocError> {
        self.lent().grow(ptr, len, old_cap, new_cap)
    }

    unsafe fn shrink<T>(
        &self,
        ptr: *mut T,
        len: usize,
        old_cap: usize,
        new_cap: usize,
    ) -> Result<*mut T, AllocError> {
        self.lent().shrink(ptr, len, old_cap, new_cap)
    }
}
