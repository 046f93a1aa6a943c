//! Memory for the queued real-time signals of processes.

ghost use Rattle.std.specs.Prelude.{ℕ, ◌≡◌, ◌+◌, ◌-◌, ◌<◌, ◌≤◌, ◌++◌, ◌∷◌, [], not, IsSome, Some, None, IfOk, OnOk, OnErr, filter, length};
ghost use Rattle.std.specs.List.{position};
ghost use Rattle.posix.specs.Common.{first_carried, without_first, has_sig, most_queued};

use posix::{Carried, PendingSignal, Sig};
use std::alloc::{AllocError, Global};
use std::marker::Model;

/// The queued real-time signals of one process, first in first out (XSH 2.4.2).
///
/// This is a vector per process, not a list in a shared slab: a removal moves at most 31 signals, and no contract has
/// to mention the signals of other processes. Its memory comes with the first queued signal, so a fork needs none.
#[derive(Drop)]
pub struct RealtimePool {
    /// With room for 32.
    signals: Vec<PendingSignal>,
}

impl Model for RealtimePool {
    ghost use Rattle.std.specs.Prelude.{◌≤◌, List, length, vec_capacity};
    ghost use Rattle.posix.specs.declared.process.PendingSignal.{PendingSignal};

    ghost Value = { List PendingSignal };

    ghost view = { λ p. p.signals.items };

    ghost invariant = { λ p. (32 ≤ vec_capacity p.signals) × (length p.signals.items ≤ 32) };
}

impl RealtimePool {
    /// Creates an empty queue. Fails if the host has no memory for it.
    pub fn new(alloc: Global) -> Result<RealtimePool, AllocError>
        ensures { IfOk result (λ p. p ≡ []) }
    {
        Ok(RealtimePool {
            signals: Vec::with_capacity(alloc, 32)?,
        })
    }

    /// Returns the queued signals.
    pub fn as_slice(&self) -> &[PendingSignal]
        ensures { result.now ≡ self.now }
    {
        self.signals.as_slice()
    }

    /// Returns the place of the first signal with this number.
    pub fn place(&self, sig: Sig) -> Option<usize>
        ensures { result ≡ position (has_sig sig) self.now }
    {
        self.signals.iter().position(|signal| signal.sig == sig)
    }

    /// Queues a signal after the others.
    pub fn push(&mut self, signal: PendingSignal)
        requires { length self.old < most_queued }
        ensures { self.new ≡ self.old ++ signal ∷ [] }
    {
        self.signals.push_reserved(signal);
    }

    /// Removes the first signal with this number, if there is one, and returns what it carries.
    pub fn take(&mut self, sig: Sig) -> Option<Carried>
        ensures value { result ≡ first_carried sig self.old }
        ensures rest { self.new ≡ without_first sig self.old }
    {
        match self.place(sig) {
            None => None,
            Some(place) => Some(self.signals.remove(place).carried),
        }
    }

    /// Removes all signals with this number.
    pub fn discard(&mut self, sig: Sig)
        ensures { self.new ≡ filter (λ m. not (has_sig sig m)) self.old }
    {
        self.signals.retain(move |signal| signal.sig != sig);
    }

    /// Removes all signals.
    pub fn clear(&mut self)
        ensures { self.new ≡ [] }
    {
        self.signals.clear();
    }
}

/// Pools that are ready for signals: the memory that sends have been granted.
#[derive(Drop)]
pub struct GrantedPools {
    pools: Vec<RealtimePool>,
}

/// The model is how many pools there are, and for how many there is room.
impl Model for GrantedPools {
    ghost use Rattle.std.specs.Prelude.{length, vec_capacity};
    ghost use Rattle.signal.specs.GrantedPools.{GrantedPoolsView};

    ghost Value = { GrantedPoolsView };

    ghost view = { λ s. record { pools = length s.pools.items; room = vec_capacity s.pools } };
}

impl GrantedPools {
    /// Creates a stock without pools. Allocates nothing.
    pub fn new(alloc: Global) -> GrantedPools
        ensures { result.pools ≡ 0 }
    {
        GrantedPools {
            pools: Vec::new(alloc),
        }
    }

    /// Creates a stock without pools, with the same allocator. Allocates nothing.
    pub fn without_pools(&self) -> GrantedPools
        ensures { result.pools ≡ 0 }
    {
        GrantedPools::new(*self.pools.allocator())
    }

    /// Makes sure that at least `count` pools are ready. Fails if the host has no memory for them; pools that were
    /// ready stay so. Allocates nothing if `count` pools are ready already.
    pub fn reserve(&mut self, count: usize) -> Result<(), AllocError>
        ensures enough { OnOk result (count ≤ self.new.pools) }
        ensures lack { OnErr result (self.old.pools < count) }
        ensures more { self.old.pools ≤ self.new.pools }
    {
        let waiting = self.pools.len();
        if count <= waiting {
            return Ok(());
        }
        let alloc = *self.pools.allocator();
        self.pools.reserve(count - waiting)?;
        for _ in waiting..count {
            self.pools.push_reserved(RealtimePool::new(alloc)?);
        }
        Ok(())
    }
}

/// A stock of pools for queued signals.
///
/// It has two implementations, so that one walk serves both kinds of signals: for a standard signal, `NoPools` creates
/// and drops no stock.
pub trait Pools: Drop {
    /// How many pools there are.
    ghost pools: { Self → ℕ };

    /// For how many pools there is room.
    ghost room: { Self → ℕ };

    /// Removes and returns an empty pool, if there is one.
    fn take(&mut self) -> Option<RealtimePool>
        ensures pool { 0 < pools self.old → result ≡ Some [] }
        ensures none { pools self.old ≡ 0 → result ≡ None }
        ensures rest { pools self.new ≡ pools self.old - 1 }
        ensures room { 0 < pools self.old → pools self.new < room self.new };

    /// Keeps a pool, if one is given and there is room for it; otherwise drops it. Allocates nothing.
    fn put(&mut self, pool: Option<RealtimePool>)
        ensures kept { IsSome pool → pools self.old < room self.old → pools self.new ≡ pools self.old + 1 }
        ensures more { pools self.old ≤ pools self.new };
}

impl Pools for GrantedPools {
    ghost pools = { λ s. s.pools };

    ghost room = { λ s. s.room };

    #[inline]
    fn take(&mut self) -> Option<RealtimePool> {
        match self.pools.pop() {
            None => None,
            Some(mut pool) => {
                pool.clear();
                Some(pool)
            }
        }
    }

    #[inline]
    fn put(&mut self, pool: Option<RealtimePool>) {
        if let Some(pool) = pool {
            if self.pools.len() < self.pools.capacity() {
                self.pools.push_reserved(pool);
            }
        }
    }
}

/// A stock that is always empty: for a standard signal, which isn't queued.
#[derive(Drop)]
pub struct NoPools;

impl Pools for NoPools {
    ghost pools = { λ s. 0 };

    ghost room = { λ s. 0 };

    #[inline]
    fn take(&mut self) -> Option<RealtimePool> {
        None
    }

    #[inline]
    fn put(&mut self, pool: Option<RealtimePool>) {
        drop(pool);
    }
}
