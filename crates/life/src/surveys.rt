//! A survey of the processes for which a real-time signal would be queued, before it is.

ghost use Rattle.std.specs.Prelude.{◌≡◌, ◌+◌, ◌*◌, ◌<◌, ◌≤◌, ◌^◌, true, filter, length};
ghost use Rattle.posix.specs.Common.{has_pid, targets};
ghost use Rattle.life.specs.Callers.{process_like};
ghost use Rattle.life.specs.Queues.{joined_surveys, survey_of};
ghost use Rattle.life.specs.Rechecks.{is_candidate, is_one};
ghost use Rattle.life.specs.Machines.{Finds};

use crate::caller::Caller;
use crate::machine::Machine;
use crate::sends::{is_target, may_signal};
use posix::{Pid, Sending, Sig, Target};
use proctable::ProcessTable;

/// What a real-time signal would find among the processes that its target selects.
#[derive(Clone, Copy)]
pub(crate) struct Survey {
    /// The result so far: no process is selected, none may be signalled, or at least one may.
    pub found: Sending,
    /// True if a process for which the signal would be queued has a full queue.
    pub is_full: bool,
    /// The number of processes for which the signal would be queued.
    pub queuers: usize,
}

impl Survey {
    /// The survey of no process.
    const NOBODY: Survey = Survey {
        found: Sending::NobodyFound,
        is_full: false,
        queuers: 0,
    };

    /// Returns the survey of both parts. Together, fewer than 2 to the power of 64 processes must queue the signal.
    fn and(self, other: Survey) -> Survey
        requires { self.queuers + other.queuers < 2 ^ 64 }
        ensures { result ≡ joined_surveys self other }
    {
        Survey {
            found: self.found.max(other.found),
            is_full: self.is_full || other.is_full,
            queuers: self.queuers + other.queuers,
        }
    }
}

impl<K: ProcessTable> Machine<K> {
    /// Surveys the process with this ID, if it exists and the target selects it.
    fn survey_one(&mut self, me: &Caller, sig: Sig, target: &Target, pid: Pid) -> Survey
        ensures { Finds 2 self.old self.new (result ≡ survey_of (process_like me.now) sig (targets (process_like me.now) target.now (filter (has_pid pid) self.old.state.processes))) }
    {
        let Some(it) = self.snapshot(pid) else {
            return Survey::NOBODY;
        };
        if !is_target(me, target, &it) {
            return Survey::NOBODY;
        }
        if !may_signal(me, Some(sig), &it) {
            return Survey {
                found: Sending::NobodyPermitted,
                ..Survey::NOBODY
            };
        }
        let signals = &self.look(pid).signals;
        let queues = signals.queues(pid, it.life, sig);
        Survey {
            found: Sending::Permitted,
            is_full: queues && signals.is_queue_full(),
            queuers: usize::from(queues),
        }
    }

    /// Surveys all processes that the target selects.
    fn survey_all(&mut self, me: &Caller, sig: Sig, target: &Target) -> Survey
        ensures { Finds (1 + 3 * length (filter (is_candidate (process_like me.now) target.now) self.old.state.processes)) self.old self.new (result ≡ survey_of (process_like me.now) sig (targets (process_like me.now) target.now self.old.state.processes)) }
    {
        let _ = &self.table;
        let mut survey = Survey::NOBODY;
        let mut next = self.next_target(me, target, Pid::NONE);
        while let Some(pid) = next {
            survey = survey.and(self.survey_one(me, sig, target, pid));
            next = self.next_target(me, target, pid);
        }
        survey
    }

    /// Surveys the processes that a target selects, before a real-time signal is sent to them. Changes nothing.
    ///
    /// A real-time send walks its receivers twice, because only a whole walk shows that no queue is full. A standard
    /// signal walks them once.
    pub(crate) fn survey(&mut self, me: &Caller, sig: Sig, target: &Target) -> Survey
        ensures finds { Finds (1 + 3 * length (filter (is_candidate (process_like me.now) target.now) self.old.state.processes)) self.old self.new (result ≡ survey_of (process_like me.now) sig (targets (process_like me.now) target.now self.old.state.processes)) }
        ensures visits { is_one target.now ≡ true → self.new.visits ≤ self.old.visits + 2 }
    {
        let _ = &self.table;
        match *target {
            Target::Process(pid) => self.survey_one(me, sig, target, pid),
            Target::OwnGroup | Target::Group(_) | Target::All => self.survey_all(me, sig, target),
            Target::Nobody => Survey::NOBODY,
        }
    }
}
