//! Signals that processes send.

ghost use Rattle.std.specs.Prelude.{◌≡◌, Bool, true, false, ◌+◌, ◌*◌, ◌<◌, ◌≤◌, Some, None, IfSome, [], ◌∷◌, filter, length};
ghost use Rattle.posix.specs.declared.process.PendingSignal.{PendingSignal as PendingValue};
ghost use Rattle.posix.specs.Common.{Process, IsNext, above, first_pid, has_pid, is_realtime, may, is_target as is_target_of, targets, permitted, sending_permitted, sending as sending_of, sending_granted, queuers, queuers_among, number_of as number_in, sent_among, sent as sent_to};
ghost use Rattle.proctable.specs.Records.{snapshot_of};
ghost use Rattle.life.specs.Callers.{process_like};
ghost use Rattle.life.specs.Queues.{HaveRoom, Sends};
ghost use Rattle.life.specs.Rechecks.{rechecking_signalled, slots_of_send, slots_of_survey, slots_of_survey_of_one, is_candidate, is_one};
ghost use Rattle.life.specs.Machines.{Costs, Finds, Changes, IsThere, IfThere, with_processes};

use crate::caller::Caller;
use crate::machine::Machine;
use posix::{PendingSignal, Pid, Sending, Sig, Target};
use proctable::{GrantedPools, NoPools, Pools, ProcessTable, Snapshot};
use std::mem::replace;

/// Returns true if a sender selects a process by a target. `All` selects all but the sender and process 1 (XSH kill).
#[inline(always)]
pub(crate) fn is_target(me: &Caller, target: &Target, it: &Snapshot) -> bool
    ensures { (q : Process) → it.now ≡ snapshot_of q → result ≡ is_target_of (process_like me.now) target.now q }
{
    match *target {
        Target::Process(pid) => it.pid == pid,
        Target::OwnGroup => it.group == me.group,
        Target::Group(pid) => it.group == pid,
        Target::All => it.pid != me.pid && it.pid != Pid::INIT,
        Target::Nobody => false,
    }
}

/// Returns true if a sender may signal a process (XSH kill).
#[inline(always)]
pub(crate) fn may_signal(me: &Caller, sig: Option<Sig>, it: &Snapshot) -> bool
    ensures { (q : Process) → it.now ≡ snapshot_of q → result ≡ may (process_like me.now) sig q }
{
    me.creds
        .may_signal(&it.creds, sig, me.session == it.session)
}

/// Returns the number of the signal to send, or `None` for signal 0.
#[inline(always)]
fn number_of(signal: &Option<PendingSignal>) -> Option<Sig>
    ensures { result ≡ number_in signal.now }
{
    Some(signal.as_ref()?.sig)
}

/// Returns the signal to send if it is a real-time signal.
#[inline(always)]
fn realtime(signal: &Option<PendingSignal>) -> Option<PendingSignal>
    ensures some { IfSome result (λ m. (signal.now ≡ Some m) × (is_realtime m.sig ≡ true)) }
    ensures none { result ≡ None → (m : PendingValue) → signal.now ≡ Some m → is_realtime m.sig ≡ false }
{
    match signal {
        Some(signal) if signal.sig.is_realtime() => Some(*signal),
        _ => None,
    }
}

impl<K: ProcessTable> Machine<K> {
    /// Sends a signal to the existing process with this snapshot, if the sender may signal it; `None` only checks. If
    /// the signal would be queued, the queue must not be full, and `pools` must have a pool for it.
    fn send_if_permitted<S: Pools>(
        &mut self,
        me: &Caller,
        signal: &Option<PendingSignal>,
        it: &Snapshot,
        pools: &mut S,
    ) -> Sending
        requires there { IsThere it.now.pid self.old }
        requires is { IfThere it.now.pid self.old (λ q. it.now ≡ snapshot_of q) }
        requires room { IfThere it.now.pid self.old (λ q. HaveRoom (S.pools pools.old) (queuers (number_in signal.now) (permitted (process_like me.now) (number_in signal.now) (q ∷ [])))) }
        ensures sending { IfThere it.now.pid self.old (λ q. result ≡ sending_permitted (permitted (process_like me.now) (number_in signal.now) (q ∷ []))) }
        ensures state { IfThere it.now.pid self.old (λ q. self.new.state ≡ with_processes self.old.state (sent_among (process_like me.now) signal.now (q ∷ []) self.old.state.processes)) }
        ensures to_recheck { IfThere it.now.pid self.old (λ q. self.new.to_recheck ≡ rechecking_signalled (process_like me.now) signal.now (q ∷ []) self.old.state.processes self.old.state.order self.old.to_recheck) }
        ensures foregrounds_unchecked { self.new.foregrounds_unchecked ≡ self.old.foregrounds_unchecked }
        ensures costs { Costs (slots_of_send (number_in signal.now)) self.old self.new }
        ensures pools { IfThere it.now.pid self.old (λ q. S.pools pools.old ≤ S.pools pools.new + length (queuers (number_in signal.now) (permitted (process_like me.now) (number_in signal.now) (q ∷ [])))) }
    {
        let _ = &self.table;
        if !may_signal(me, number_of(signal), it) {
            return Sending::NobodyPermitted;
        }
        if let Some(signal) = *signal {
            self.generate(it.pid, signal, pools);
        }
        Sending::Permitted
    }

    /// Sends a signal to the process with this ID, if it exists and the target selects it. If the signal would be
    /// queued, the queue must not be full, and `pools` must have a pool for it.
    fn send_to_number<S: Pools>(
        &mut self,
        me: &Caller,
        signal: &Option<PendingSignal>,
        target: &Target,
        pid: Pid,
        pools: &mut S,
    ) -> Sending
        requires room { HaveRoom (S.pools pools.old) (queuers_among (process_like me.now) target.now (number_in signal.now) (filter (has_pid pid) self.old.state.processes)) }
        ensures sending { result ≡ sending_of (process_like me.now) target.now (number_in signal.now) (filter (has_pid pid) self.old.state.processes) }
        ensures changes { Changes (1 + slots_of_send (number_in signal.now)) self.old self.new (with_processes self.old.state (sent_among (process_like me.now) signal.now (targets (process_like me.now) target.now (filter (has_pid pid) self.old.state.processes)) self.old.state.processes)) (rechecking_signalled (process_like me.now) signal.now (targets (process_like me.now) target.now (filter (has_pid pid) self.old.state.processes)) self.old.state.processes self.old.state.order self.old.to_recheck) }
        ensures pools { S.pools pools.old ≤ S.pools pools.new + length (queuers_among (process_like me.now) target.now (number_in signal.now) (filter (has_pid pid) self.old.state.processes)) }
    {
        match self.snapshot(pid) {
            Some(it) if is_target(me, target, &it) => self.send_if_permitted(
                me, signal, &it, pools,
            ),
            _ => Sending::NobodyFound,
        }
    }

    /// Returns the sender's candidate with the lowest ID above `after`. All processes that the target selects are
    /// candidates.
    pub(crate) fn next_target(&mut self, me: &Caller, target: &Target, after: Pid) -> Option<Pid>
        ensures finds { Finds 1 self.old self.new (IsNext (is_target_of (process_like me.now) target.now) after self.old.state.processes result) }
        ensures is { result ≡ first_pid (above after (filter (is_candidate (process_like me.now) target.now) self.old.state.processes)) }
    {
        match *target {
            Target::OwnGroup => self.next_member(me.group, after),
            Target::Group(group) => self.next_member(group, after),
            Target::Process(_) | Target::All | Target::Nobody => self.next_after(after),
        }
    }

    /// Sends a signal to all processes that the target selects, in rising order of process ID. No queue that it would
    /// enter may be full, and `pools` must have a pool for each.
    fn send_to_matching<S: Pools>(
        &mut self,
        me: &Caller,
        signal: &Option<PendingSignal>,
        target: &Target,
        pools: &mut S,
    ) -> Sending
        requires room { HaveRoom (S.pools pools.old) (queuers_among (process_like me.now) target.now (number_in signal.now) self.old.state.processes) }
        ensures sending { result ≡ sending_of (process_like me.now) target.now (number_in signal.now) self.old.state.processes }
        ensures changes { Changes (1 + (2 + slots_of_send (number_in signal.now)) * length (filter (is_candidate (process_like me.now) target.now) self.old.state.processes)) self.old self.new (with_processes self.old.state (sent_to (process_like me.now) target.now signal.now self.old.state.processes)) (rechecking_signalled (process_like me.now) signal.now (targets (process_like me.now) target.now self.old.state.processes) self.old.state.processes self.old.state.order self.old.to_recheck) }
    {
        let mut sending = Sending::NobodyFound;
        let mut next = self.next_target(me, target, Pid::NONE);
        while let Some(pid) = next {
            sending = sending.max(self.send_to_number(me, signal, target, pid, pools));
            next = self.next_target(me, target, pid);
        }
        sending
    }

    /// Sends a caller's signal to the processes that its target selects and that it may signal; `None` only checks.
    /// Returns which processes it found. No queue that the signal would enter may be full, and `pools` must have a pool
    /// for each. Changes nothing if no process is selected, or none may be signalled (XSH kill).
    #[inline(always)]
    pub(crate) fn send_from_pools<S: Pools>(
        &mut self,
        me: &Caller,
        target: Target,
        signal: Option<PendingSignal>,
        pools: &mut S,
    ) -> Sending
        requires room { HaveRoom (S.pools pools.old) (queuers_among (process_like me.now) target (number_in signal) self.old.state.processes) }
        ensures sending { result ≡ sending_of (process_like me.now) target (number_in signal) self.old.state.processes }
        ensures changes { Changes (1 + (2 + slots_of_send (number_in signal)) * length (filter (is_candidate (process_like me.now) target) self.old.state.processes)) self.old self.new (with_processes self.old.state (sent_to (process_like me.now) target signal self.old.state.processes)) (rechecking_signalled (process_like me.now) signal (targets (process_like me.now) target self.old.state.processes) self.old.state.processes self.old.state.order self.old.to_recheck) }
        ensures visits { is_one target ≡ true → self.new.visits ≤ self.old.visits + 1 + slots_of_send (number_in signal) }
    {
        let _ = &self.table;
        match target {
            Target::Process(pid) => self.send_to_number(me, &signal, &target, pid, pools),
            Target::OwnGroup | Target::Group(_) | Target::All => {
                self.send_to_matching(me, &signal, &target, pools)
            }
            Target::Nobody => Sending::NobodyFound,
        }
    }

    /// Reserves `count` pools. Returns false if the host has no memory for them.
    fn reserve_pools(&mut self, granted_pools: &mut GrantedPools, count: usize) -> bool
        ensures enough { result ≡ true → count ≤ granted_pools.new.pools }
        ensures lack { result ≡ false → 0 < count }
        ensures same { self.new ≡ self.old }
    {
        count == 0 || self.table.reserve_pools(granted_pools, count).is_ok()
    }

    /// Sends a real-time signal, as [`Machine::send`] does.
    #[inline(never)]
    fn send_realtime(&mut self, me: &Caller, target: Target, signal: PendingSignal) -> Sending
        requires { is_realtime signal.sig ≡ true }
        ensures sending { (granted : Bool) × (result ≡ sending_granted granted (process_like me.now) target (Some signal.sig) self.old.state.processes) }
        ensures changes { Sends result (process_like me.now) target (Some signal) (1 + (2 + slots_of_send (Some signal.sig)) * length (filter (is_candidate (process_like me.now) target) self.old.state.processes) + (1 + 3 * length (filter (is_candidate (process_like me.now) target) self.old.state.processes))) self.old self.new }
        ensures visits { is_one target ≡ true → self.new.visits ≤ self.old.visits + 3 + slots_of_send (Some signal.sig) }
    {
        let survey = self.survey(me, signal.sig, &target);
        if survey.is_full {
            return Sending::QueueFull;
        }
        let empty = self.granted_pools.without_pools();
        let mut granted_pools = replace(&mut self.granted_pools, empty);
        let sending = if self.reserve_pools(&mut granted_pools, survey.queuers) {
            self.send_from_pools(me, target, Some(signal), &mut granted_pools)
        } else {
            Sending::NoMemory
        };
        self.granted_pools = granted_pools;
        sending
    }

    /// Sends a caller's signal to the processes that its target selects and that it may signal, and returns the
    /// outcome; `None` only checks. A real-time signal is queued for all of these that keep it, or for none: if a queue
    /// is full, or the host has no memory for the queues, nothing changes. Nothing changes either if no process is
    /// selected, or none may be signalled (XSH kill, XSH sigqueue).
    #[inline(always)]
    pub fn send(&mut self, me: &Caller, target: Target, signal: Option<PendingSignal>) -> Sending
        ensures sending { (granted : Bool) × (result ≡ sending_granted granted (process_like me.now) target (number_in signal) self.old.state.processes) }
        ensures changes { Sends result (process_like me.now) target signal (1 + (2 + slots_of_send (number_in signal)) * length (filter (is_candidate (process_like me.now) target) self.old.state.processes) + slots_of_survey (number_in signal) (length (filter (is_candidate (process_like me.now) target) self.old.state.processes))) self.old self.new }
        ensures visits { is_one target ≡ true → self.new.visits ≤ self.old.visits + 1 + slots_of_send (number_in signal) + slots_of_survey_of_one (number_in signal) }
    {
        match realtime(&signal) {
            Some(signal) => self.send_realtime(me, target, signal),
            None => self.send_from_pools(me, target, signal, &mut NoPools),
        }
    }
}
