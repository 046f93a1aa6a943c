//! The signal tables of a process.

ghost use Rattle.std.specs.Prelude.{◌≡◌, ◌-◌, ◌<◌, ◌≤◌, ◌++◌, ◌∷◌, [], false, true, not, None, IsSome, IfOk, OnOk, OnErr, filter, length, map, take, nat_le, slice_get, slice_index_or, slice_set, vec_capacity};
ghost use Rattle.std.specs.List.{list_any};
ghost use Rattle.posix.specs.Common.{initial_action, has_sig, from_kernel, first_carried, without_first, most_queued, most_frames, action_on_exec};
ghost use Rattle.signal.specs.SignalTables.{initial_tables, nothing_carried, carried_or_blank, pending_at, queue_in, standard_of};

use crate::action_fields::{Actions, are_same_actions, keep_actions, row_of};
use crate::realtime_pool::RealtimePool;
use crate::sameness::{are_all_same_frames, are_same_queues};
use arena::{Arena, new_arena, refill};
use bitflags::Flags;
use posix::{Action, Carried, Frame, Handler, PendingSignal, SaFlags, Sig, SigSet};
use std::alloc::{AllocError, Global};
use std::marker::Model;

/// The actions of a process for signals, what its pending standard signals carry (XSH 2.4.1), the queue of its pending
/// real-time signals (XSH 2.4.2), and the frames of its handlers that haven't returned.
///
/// The memory is allocated at once, but written only when needed: until the first change everything is as at boot, and
/// only frames in use are kept. Actions and carried values have arenas of their own, so that a written page holds those
/// of several processes. The memory of the queue comes with the first real-time signal.
#[derive(Drop)]
pub struct LazyTables {
    /// At most one item, with room for it. Without an item, the actions are the defaults.
    actions: Vec<Actions, Arena>,
    /// At most one item, with room for it: what each pending standard signal s carries, at s - 1.
    carried: Vec<[Carried; 31], Arena>,
    /// Nothing is queued without a pool.
    queue: Option<RealtimePool>,
    /// The newest last, with room for 16.
    frames: Vec<Frame, Arena>,
}

impl Model for LazyTables {
    ghost use Rattle.std.specs.Prelude.{◌≡◌, ◌≤◌, length, vec_capacity};
    ghost use Rattle.signal.specs.ActionFields.{AreFields, actions_or_blank};
    ghost use Rattle.signal.specs.SignalTables.{TablesView, view_of, carried_or_blank};

    ghost Value = { TablesView };

    ghost view = { λ t. view_of t.actions.items t.carried.items t.queue t.frames.items };

    ghost invariant = { λ t. (1 ≤ vec_capacity t.actions) × (1 ≤ vec_capacity t.carried) × (16 ≤ vec_capacity t.frames) × AreFields (actions_or_blank t.actions.items) × (length (carried_or_blank t.carried.items) ≡ 31) × (length t.frames.items ≤ 16) };
}

/// The error that there are 16 frames already.
#[derive(Clone, Copy)]
pub struct FramesFull;

/// The error that there is no frame.
#[derive(Clone, Copy)]
pub struct NoFrame;

impl LazyTables {
    /// Creates tables as at boot, with memory from these arenas. Fails if the host has no memory for them.
    #[tactic(auto, unfolding(posix::specs::Processes::default_actions, crate::specs::ActionFields::actions_of, crate::specs::ActionFields::blank_actions, crate::specs::SignalTables::nothing_carried))]
    fn with_room_of(actions: Arena, carried: Arena, frames: Arena) -> Result<LazyTables, AllocError>
        ensures { IfOk result (λ t. t ≡ initial_tables) }
    {
        Ok(LazyTables {
            actions: Vec::with_capacity(actions, 1)?,
            carried: Vec::with_capacity(carried, 1)?,
            queue: None,
            frames: Vec::with_capacity(frames, 16)?,
        })
    }

    /// Creates tables as at boot, with frames in the given arena and the others in new arenas. Fails if the host has no
    /// memory for them.
    pub fn new(alloc: Global, frames: Arena) -> Result<LazyTables, AllocError>
        ensures { IfOk result (λ t. t ≡ initial_tables) }
    {
        LazyTables::with_room_of(new_arena(alloc)?, new_arena(alloc)?, frames)
    }

    /// Returns the tables of a new child: a copy, but with no carried values and nothing queued. They reuse the memory
    /// of `spare`, if there is one. Otherwise this fails if the host has no memory for them.
    pub fn fork(&self, spare: Option<LazyTables>) -> Result<LazyTables, AllocError>
        ensures { IfOk result (λ t. t ≡ record self.now { carried = nothing_carried; queue = [] }) }
    {
        let LazyTables {
            mut actions,
            mut carried,
            mut queue,
            mut frames,
        } = match spare {
            Some(tables) => tables,
            None => LazyTables::with_room_of(
                self.actions.allocator().clone()?,
                self.carried.allocator().clone()?,
                self.frames.allocator().clone()?,
            )?,
        };
        refill(&mut actions, self.actions.as_slice())?;
        carried.clear();
        empty(&mut queue);
        refill(&mut frames, self.frames.as_slice())?;
        Ok(LazyTables {
            actions,
            carried,
            queue,
            frames,
        })
    }

    // ---- actions

    /// Returns the action for a signal.
    pub fn action(&self, sig: Sig) -> Action
        ensures { result ≡ slice_index_or self.now.actions (sig - 1) initial_action }
    {
        if self.actions.is_empty() {
            default_action()
        } else {
            self.actions[0].action(sig)
        }
    }

    /// Sets the action for a signal.
    pub fn set_action(&mut self, sig: Sig, action: Action)
        ensures { self.new ≡ record self.old { actions = slice_set self.old.actions (sig - 1) action } }
    {
        keep_actions(&mut self.actions);
        self.actions[0].set(sig, action);
    }

    /// Resets the actions for a new program, and drops the frames (XSH exec).
    pub fn on_exec(&mut self)
        ensures { self.new ≡ record self.old { actions = map action_on_exec self.old.actions; frames = [] } }
    {
        self.frames.clear();
        if !self.actions.is_empty() {
            self.actions[0].on_exec();
        }
    }

    // ---- what pending signals carry

    /// Returns what a pending standard signal carries; for any other signal, as from the kernel.
    pub fn carried(&self, sig: Sig) -> Carried
        ensures { result ≡ slice_index_or self.now.carried (sig - 1) from_kernel }
    {
        if self.carried.is_empty() {
            return Carried::FROM_KERNEL;
        }
        if sig.number() <= 31 {
            self.carried[0][row_of(sig)]
        } else {
            Carried::FROM_KERNEL
        }
    }

    /// Returns true if a standard signal carries the same in both tables, or isn't in a set of pending signals.
    fn has_same_carried_at(&self, other: &LazyTables, pending: SigSet, sig: Sig) -> bool
        ensures { result ≡ true → pending_at pending self.now.carried (sig - 1) ≡ pending_at pending other.now.carried (sig - 1) }
    {
        !pending.contains(sig) || self.carried(sig) == other.carried(sig)
    }

    /// Returns true if the standard signals in a set of pending signals carry the same in both tables.
    pub fn has_same_carried(&self, other: &LazyTables, pending: SigSet) -> bool
        ensures { result ≡ true → standard_of pending self.now.carried ≡ standard_of pending other.now.carried }
    {
        for row in 0..31 {
            let Some(sig) = Sig::new(row + 1) else {
                return false; // every number from 1 to 31 is a signal
            };
            if !self.has_same_carried_at(other, pending, sig) {
                return false;
            }
        }
        true
    }

    /// Sets what a standard signal carries.
    pub fn set_carried(&mut self, sig: Sig, carried: Carried)
        requires { sig ≤ 31 }
        ensures { self.new ≡ record self.old { carried = slice_set self.old.carried (sig - 1) carried } }
    {
        keep_carried(&mut self.carried);
        self.carried[0][row_of(sig)] = carried;
    }

    // ---- the queue

    /// Returns the queue.
    pub fn queue(&self) -> &[PendingSignal]
        ensures { result.now ≡ self.now.queue }
    {
        match &self.queue {
            None => &[],
            Some(pool) => pool.as_slice(),
        }
    }

    /// Returns true if a real-time signal is queued.
    #[tactic(auto, using(crate::proofs::QueueLemmas::is_some_position))]
    pub fn is_queued(&self, sig: Sig) -> bool
        ensures { result ≡ list_any (has_sig sig) self.now.queue }
    {
        match &self.queue {
            None => false,
            Some(pool) => pool.place(sig).is_some(),
        }
    }

    /// Queues a real-time signal after the others, which are fewer than 32: in the existing pool if there is one,
    /// otherwise in `pool`. Returns `pool` if it isn't needed.
    pub fn push_queued(
        &mut self,
        signal: PendingSignal,
        pool: Option<RealtimePool>,
    ) -> Option<RealtimePool>
        requires few { length self.old.queue < most_queued }
        requires there { IsSome pool }
        ensures { self.new ≡ record self.old { queue = self.old.queue ++ signal ∷ [] } }
    {
        if let Some(kept) = &mut self.queue {
            kept.push(signal);
            return pool;
        }
        if let Some(mut pool) = pool {
            pool.clear();
            pool.push(signal);
            self.queue = Some(pool);
        }
        None
    }

    /// Removes the first real-time signal with this number from the queue, if there is one, and returns what it
    /// carries.
    #[tactic(auto, unfolding(posix::specs::Choice::first_carried, posix::specs::Choice::without_first))]
    pub fn take_queued(&mut self, sig: Sig) -> Option<Carried>
        ensures value { result ≡ first_carried sig self.old.queue }
        ensures rest { self.new ≡ record self.old { queue = without_first sig self.old.queue } }
    {
        match &mut self.queue {
            None => None,
            Some(pool) => pool.take(sig),
        }
    }

    /// Removes all real-time signals with this number from the queue.
    pub fn discard_queued(&mut self, sig: Sig)
        ensures { self.new ≡ record self.old { queue = filter (λ m. not (has_sig sig m)) self.old.queue } }
    {
        if let Some(pool) = &mut self.queue {
            pool.discard(sig);
        }
    }

    // ---- frames

    /// Returns the number of frames: at most 16.
    pub fn frames(&self) -> usize
        ensures { result ≡ length self.now.frames }
    {
        self.frames.len()
    }

    /// Adds a frame. Fails if there are 16 already; then nothing changes.
    pub fn push_frame(&mut self, frame: Frame) -> Result<(), FramesFull>
        ensures room { OnOk result (nat_le most_frames (length self.old.frames) ≡ false) }
        ensures frames { OnOk result (self.new ≡ record self.old { frames = self.old.frames ++ frame ∷ [] }) }
        ensures full { OnErr result (nat_le most_frames (length self.old.frames) ≡ true) }
        ensures same { OnErr result (self.new ≡ self.old) }
    {
        if self.frames.len() == 16 {
            return Err(FramesFull);
        }
        self.frames.push_reserved(frame);
        Ok(())
    }

    /// Removes and returns the newest frame, if there is one.
    pub fn pop_frame(&mut self) -> Option<Frame>
        ensures value { result ≡ slice_get self.old.frames (length self.old.frames - 1) }
        ensures rest { self.new ≡ record self.old { frames = take (length self.old.frames - 1) self.old.frames } }
    {
        self.frames.pop()
    }

    // ---- all tables

    /// Returns true if actions, queue and frames are the same in both tables.
    pub fn is_same_but_carried(&self, other: &LazyTables) -> bool
        ensures actions { result ≡ true → self.now.actions ≡ other.now.actions }
        ensures queue { result ≡ true → self.now.queue ≡ other.now.queue }
        ensures frames { result ≡ true → self.now.frames ≡ other.now.frames }
    {
        are_same_actions(&self.actions, &other.actions)
            && are_same_queues(self.queue(), other.queue())
            && are_all_same_frames(&self.frames, &other.frames)
    }

    /// Drops all frames and all queued signals.
    pub fn forget(&mut self)
        ensures { self.new ≡ record self.old { queue = []; frames = [] } }
    {
        empty(&mut self.queue);
        self.frames.clear();
    }
}

/// Empties a queue.
fn empty(queue: &mut Option<RealtimePool>)
    ensures { queue_in queue.new ≡ [] }
{
    if let Some(pool) = queue {
        pool.clear();
    }
}

/// Returns the default action for a signal.
fn default_action() -> Action
    ensures { result ≡ initial_action }
{
    Action {
        handler: Handler::Default,
        mask: SigSet::EMPTY,
        flags: SaFlags::empty(),
    }
}

/// Makes sure that there is an item for what signals carry: the old one, or one that carries nothing.
#[tactic(auto, unfolding(crate::specs::SignalTables::nothing_carried))]
fn keep_carried(carried: &mut Vec<[Carried; 31], Arena>)
    requires { 1 ≤ vec_capacity carried.old }
    ensures there { 0 < length carried.new.items }
    ensures same { carried_or_blank carried.new.items ≡ carried_or_blank carried.old.items }
    ensures room { vec_capacity carried.new ≡ vec_capacity carried.old }
{
    if carried.is_empty() {
        carried.push_reserved([Carried::FROM_KERNEL; 31]);
    }
}
