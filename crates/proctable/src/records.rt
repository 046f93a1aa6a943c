//! The record of a process: all that a table keeps of it except its ID and its parent's.

ghost use Rattle.std.specs.Prelude.{◌≡◌, ◌⊎◌, ◌+◌, true, false, is_some, IfOk, option_map, ℕ};
ghost use Rattle.posix.specs.Common.{is_realtime, first_process, child_of, made_zombie, ended, noticed, noticed_of_change, signalled, effect_of, is_queuer, news_told, marked_as, ring_at as ring_at_tick, with_alarm};
ghost use Rattle.proctable.specs.Records.{process_of, queued, snapshot_of};

use crate::own_part::OwnPart;
use crate::snapshot::Snapshot;
use crate::spare::Spare;
use posix::{Carried, Effect, Life, News, PendingSignal, Pid, Sig, Status};
use signal::RealtimePool;
use std::alloc::{AllocError, Global};

/// A process without its ID and its parent's.
#[derive(Drop)]
pub struct Record {
    /// The part that the process may change itself.
    pub own: OwnPart,
    /// Whether it is running, stopped or a zombie.
    pub life: Life,
    /// The status change that no wait has reported yet (XSH waitpid).
    pub news: News,
    /// Its process group (XBD 3 Process Group ID).
    pub group: Pid,
    /// Its session, by the ID of the leader (XBD 3 Session).
    pub session: Pid,
    /// The tick at which its alarm is due (XSH alarm).
    pub alarm: Option<u64>,
    /// Whether it is a child subreaper (prctl(2)).
    pub is_subreaper: bool,
    /// 1 for process 1, 2 for the next process created, and so on.
    pub birth: u64,
}

impl Record {
    /// Creates the record of process 1 at boot. Fails if the host has no memory for it.
    pub fn first(alloc: Global) -> Result<Record, AllocError>
        ensures { IfOk result (λ b. process_of 1 0 b ≡ first_process) }
    {
        Ok(Record {
            birth: 1,
            group: Pid::INIT,
            session: Pid::INIT,
            life: Life::Running,
            news: News::Nothing,
            alarm: None,
            is_subreaper: false,
            own: OwnPart::first(alloc)?,
        })
    }

    /// Returns the record of a child with this birth number (XSH fork). The child is a copy of the caller, but has no
    /// pending signals, no unreported status change and no alarm, and its call has returned 0. It reuses the memory of
    /// `spare`, if there is one. Otherwise this fails if the host has no memory for it.
    #[inline(always)]
    #[tactic(auto, unfolding(posix::specs::Births::child_of, posix::specs::Outcomes::finished))]
    pub fn fork(&self, birth: u64, spare: Option<Spare>) -> Result<Record, AllocError>
        ensures { IfOk result (λ b. (p q n : ℕ) → process_of n p b ≡ child_of birth (process_of p q self.now) n) }
    {
        Ok(Record {
            birth,
            group: self.group,
            session: self.session,
            life: self.life,
            news: News::Nothing,
            alarm: None,
            is_subreaper: false, // whatever its parent is
            own: self.own.fork(spare)?,
        })
    }

    /// Returns true only if another process is this one, `delay` ticks later: its alarm is due so much later, or
    /// neither has an alarm. Their IDs and their parents' may differ.
    #[tactic(auto, unfolding(posix::specs::Alarms::with_alarm))]
    pub fn is_same_later(&self, other: &Record, delay: u64) -> bool
        ensures { result ≡ true → (p q : ℕ) → process_of p q other.now ≡ with_alarm (option_map (λ due. due + delay) self.now.alarm) (process_of p q self.now) }
    {
        self.birth == other.birth
            && self.group == other.group
            && self.session == other.session
            && self.life == other.life
            && self.news == other.news
            && is_due_later(self.alarm, other.alarm, delay)
            && self.is_subreaper == other.is_subreaper
            && self.own.is_same(&other.own)
    }

    /// Returns the small fields of the process with this ID and this parent.
    pub fn snapshot(&self, pid: Pid, parent: Pid) -> Snapshot
        ensures { result ≡ snapshot_of (process_of pid parent self.now) }
    {
        Snapshot {
            pid,
            parent,
            group: self.group,
            session: self.session,
            creds: self.own.creds,
            chosen: self.own.signals.choose(self.life),
            life: self.life,
            news: self.news,
            alarm: self.alarm,
            ran_exec: self.own.ran_exec,
            is_subreaper: self.is_subreaper,
            blocked: self.own.blocked,
            program: self.own.program,
        }
    }

    /// Makes the process a zombie with this status (XSH _exit). It has no pending signals then, no alarm and no
    /// unreported status change, and is in no call.
    #[tactic(auto, unfolding(posix::specs::Ends::made_zombie))]
    pub fn make_zombie(&mut self, status: Status)
        ensures { (p q : ℕ) → process_of p q self.new ≡ made_zombie status (process_of p q self.old) }
    {
        self.life = Life::Zombie(status);
        self.own.signals.forget();
        self.news = News::Nothing;
        self.alarm = None;
        self.own.blocked = None;
    }

    /// Makes the process a zombie with this status and keeps everything else. This is how process 1 terminates.
    #[tactic(auto, unfolding(posix::specs::Ends::ended))]
    pub fn end(&mut self, status: Status)
        ensures { (p q : ℕ) → process_of p q self.new ≡ ended status (process_of p q self.old) }
    {
        self.life = Life::Zombie(status);
    }

    /// Marks the status change of the process as reported by a wait.
    #[tactic(auto, unfolding(posix::specs::Waits::news_told))]
    pub fn clear_news(&mut self)
        ensures { (p q : ℕ) → process_of p q self.new ≡ news_told (process_of p q self.old) }
    {
        self.news = News::Nothing;
    }

    /// Makes the process a child subreaper, or no longer one, and returns 0 from its call (prctl(2)).
    #[tactic(auto, unfolding(posix::specs::Subreapers::marked_as))]
    pub fn finish_marked(&mut self, mark: bool)
        ensures { (p q : ℕ) → process_of p q self.new ≡ marked_as mark (process_of p q self.old) }
    {
        self.is_subreaper = mark;
        self.own.finish(0);
    }

    /// Generates a standard signal for the process, which has the ID `pid` (XSH 2.4.1). Returns the effect that the
    /// signal has at once, and doesn't carry it out.
    #[tactic(auto, unfolding(posix::specs::Generation::signalled))]
    pub fn signal(&mut self, pid: Pid, signal: PendingSignal) -> Effect
        requires standard { is_realtime signal.sig ≡ false }
        ensures state { (q : ℕ) → process_of pid q self.new ≡ signalled signal (process_of pid q self.old) }
        ensures effect { result ≡ effect_of pid self.old.life signal self.old.own.signals }
    {
        self.own.signals.generate(pid, self.life, signal)
    }

    /// Generates a real-time signal for the process, which has the ID `pid`, and queues it if it is kept (XSH 2.4.2).
    /// Without a pool, or if the queue is full, nothing changes. Returns the pool if it isn't needed, for example
    /// because the signal is discarded.
    #[tactic(auto, unfolding(crate::specs::Records::queued, posix::specs::Generation::signalled))]
    pub fn queue(
        &mut self,
        pid: Pid,
        signal: PendingSignal,
        pool: Option<RealtimePool>,
    ) -> Option<RealtimePool>
        requires { is_realtime signal.sig ≡ true }
        ensures state { (q : ℕ) → process_of pid q self.new ≡ queued (is_some pool) signal (process_of pid q self.old) }
        ensures back { (is_queuer signal.sig (process_of pid 0 self.old) ≡ true) ⊎ (result ≡ pool) }
    {
        if pool.is_none() || self.own.signals.is_queue_full() {
            return pool;
        }
        self.own.signals.queue(pid, self.life, signal, pool)
    }

    /// Generates SIGALRM for the process, which has the ID `pid`, if its alarm is due at this tick, and clears the
    /// alarm (XSH alarm).
    #[tactic(auto, unfolding(posix::specs::Alarms::rung, posix::specs::Alarms::with_alarm))]
    pub fn ring_at(&mut self, pid: Pid, now: u64)
        ensures { (q : ℕ) → process_of pid q self.new ≡ ring_at_tick now (process_of pid q self.old) }
    {
        if let Some(due) = self.alarm {
            if due == now {
                let signal = PendingSignal {
                    sig: Sig::ALRM,
                    carried: Carried::FROM_KERNEL,
                };
                self.signal(pid, signal);
                self.alarm = None;
            }
        }
    }

    /// Sets the alarm to a tick, or clears it (XSH alarm).
    #[tactic(auto, unfolding(posix::specs::Alarms::with_alarm))]
    pub fn set_alarm(&mut self, due: Option<u64>)
        ensures { (p q : ℕ) → process_of p q self.new ≡ with_alarm due (process_of p q self.old) }
    {
        self.alarm = due;
    }

    /// Sends the process, which has the ID `pid`, this signal for the termination of a child, unless it ignores SIGCHLD
    /// (XSH _exit).
    #[tactic(auto, unfolding(posix::specs::Notices::noticed))]
    pub fn notice(&mut self, pid: Pid, signal: PendingSignal)
        requires standard { is_realtime signal.sig ≡ false }
        ensures { (q : ℕ) → process_of pid q self.new ≡ noticed signal (process_of pid q self.old) }
    {
        if !self.own.signals.ignores_children() {
            self.signal(pid, signal);
        }
    }

    /// Sends the process, which has the ID `pid`, this signal for a stopped or continued child, unless it ignores
    /// SIGCHLD or has SA_NOCLDSTOP (XSH sigaction).
    #[tactic(auto, unfolding(posix::specs::Notices::noticed_of_change))]
    pub fn notice_of_change(&mut self, pid: Pid, signal: PendingSignal)
        requires standard { is_realtime signal.sig ≡ false }
        ensures { (q : ℕ) → process_of pid q self.new ≡ noticed_of_change signal (process_of pid q self.old) }
    {
        if !self.own.signals.ignores_stops() {
            self.signal(pid, signal);
        }
    }
}

/// Returns true only if both alarms are set, the other `delay` ticks later, or neither is.
fn is_due_later(alarm: Option<u64>, other: Option<u64>, delay: u64) -> bool
    ensures { result ≡ true → other ≡ option_map (λ due. due + delay) alarm }
{
    match (alarm, other) {
        (Some(due), Some(other_due)) => due.checked_add(delay) == Some(other_due),
        (None, None) => true,
        _ => false,
    }
}
