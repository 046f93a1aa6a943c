//! A vector whose first item is removed without moving the others.

ghost use Rattle.std.specs.Prelude.{◌≡◌, ◌+◌, ◌<◌, ◌≤◌, ◌^◌, ◌==◌, IsSome, OnErr, OnOk, [], not, max, map, filter, find, insert, remove, length};
ghost use Rattle.pidset.specs.Numbers.{Rises};

use crate::numbered::{Numbered, insert_at, search};
use std::alloc::{AllocError, Global};
use std::marker::Model;

/// A vector with a gap before its items.
///
/// Removing the first item only widens the gap. Insertions and other removals move the items after the index. If only
/// the gap has room left, an insertion moves all items. When all processes are killed and reaped, each list loses its
/// first item repeatedly, and the gap makes that cheap. Allocates only in [`GapVec::reserve`] and
/// [`GapVec::reserve_exact`].
#[derive(Drop)]
pub(crate) struct GapVec<T: Copy> {
    items: Vec<T>,
    /// The length of the gap.
    gap: usize,
}

impl<T: Copy> Model for GapVec<T> {
    ghost use Rattle.std.specs.Prelude.{◌≤◌, drop, vec_len, vec_capacity};
    ghost use Rattle.pidset.specs.GapVecs.{GapVecView, gap_vec_code};

    ghost Value = { GapVecView T };

    ghost coded = { gap_vec_code T.code };

    ghost view = { λ v. record { items = drop v.gap v.items.items; room = vec_capacity v.items } };

    ghost invariant = { λ v. v.gap ≤ vec_len v.items };
}

impl<T: Copy> GapVec<T> {
    /// Creates an empty vector. Allocates nothing.
    pub fn new(alloc: Global) -> GapVec<T>
        ensures { result ≡ record { items = []; room = 0 } }
    {
        GapVec {
            items: Vec::new(alloc),
            gap: 0,
        }
    }

    /// Returns the items.
    #[inline]
    pub fn as_slice(&self) -> &[T]
        ensures { result.now ≡ self.now.items }
    {
        &self.items[self.gap..]
    }

    /// Returns how many items there is room for, including those present.
    pub fn room(&self) -> usize
        ensures { result ≡ self.now.room }
    {
        self.items.capacity()
    }

    /// Makes room for at least `capacity` items, including those present.
    pub fn reserve(&mut self, capacity: usize) -> Result<(), AllocError>
        requires { capacity < 2 ^ 63 }
        ensures room { OnOk result (capacity ≤ self.new.room) }
        ensures items { self.new.items ≡ self.old.items }
        ensures grows { self.old.room ≤ self.new.room }
    {
        let additional = capacity.saturating_sub(self.items.len());
        self.items.reserve(additional)
    }

    /// Makes room for `capacity` items, including those present. If it grows, it has room for exactly that many.
    pub fn reserve_exact(&mut self, capacity: usize) -> Result<(), AllocError>
        requires { capacity < 2 ^ 63 }
        ensures room { OnOk result (self.new.room ≡ max self.old.room capacity) }
        ensures items { self.new.items ≡ self.old.items }
        ensures err { OnErr result (self.new ≡ self.old) }
    {
        let additional = capacity.saturating_sub(self.items.len());
        self.items.reserve_exact(additional)
    }

    /// Inserts an item at an index, within reserved room.
    pub fn insert(&mut self, at: usize, item: T)
        requires at { at ≤ length self.old.items }
        requires room { length self.old.items < self.old.room }
        ensures items { self.new.items ≡ insert self.old.items at item }
        ensures room { self.new.room ≡ self.old.room }
    {
        if self.items.len() < self.items.capacity() {
            insert_at(&mut self.items, self.gap + at, item);
            return;
        }
        drop(self.items.drain(..self.gap));
        self.gap = 0;
        insert_at(&mut self.items, at, item);
    }

    /// Removes the item at an index.
    pub fn remove(&mut self, at: usize)
        requires { at < length self.old.items }
        ensures items { self.new.items ≡ remove self.old.items at }
        ensures room { self.new.room ≡ self.old.room }
        ensures left { length self.new.items < self.new.room }
    {
        if at > 0 {
            let _ = self.items.remove(self.gap + at);
            return;
        }
        self.gap += 1;
        if self.gap == self.items.len() {
            self.clear();
        }
    }

    /// Removes all items.
    pub fn clear(&mut self)
        ensures items { self.new.items ≡ [] }
        ensures room { self.new.room ≡ self.old.room }
    {
        self.items.clear();
        self.gap = 0;
    }
}

impl<T: Numbered + Copy> GapVec<T> {
    /// Removes the item with the number of `key`, if present.
    pub fn take_out<K: Numbered>(&mut self, key: &K)
        requires { Rises (map T.number self.old.items) }
        ensures items { self.new.items ≡ filter (λ item. not (T.number item == K.number key.now)) self.old.items }
        ensures room { self.new.room ≡ self.old.room }
        ensures left { IsSome (find (λ item. T.number item == K.number key.now) self.old.items) → length self.new.items < self.new.room }
    {
        if let Ok(at) = search(self.as_slice(), key) {
            self.remove(at);
        }
    }
}
