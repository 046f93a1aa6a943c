//! The tests of a line, by what is known of the processes.

ghost use Rattle.std.specs.Prelude.{◌≡◌, ◌≢◌, ℕ, true, Err};
ghost use Rattle.posix.specs.Common.{line};
ghost use Rattle.laws.specs.TraceLines.{is_entry};
ghost use Rattle.laws.specs.Keeping.{number_fault, place_fault, birth_fault, report_fault, word_fault, fault_of_living, fault_of_ended, fault_of, phase_after as phase_said_after};
ghost use Rattle.laws.specs.Lives.{born_by as birth_said};
ghost use Rattle.audit.specs.Records.{alive, kept_as, kept_by};
ghost use Rattle.audit.specs.Faults.{fault_number};
ghost use Rattle.audit.specs.declared.fault.AuditFault.TheVariants.{Memory};
ghost use Rattle.audit.specs.Phases.{phase_said};

use crate::fault::AuditFault;
use crate::known::Known;
use crate::lines::born_by;
use crate::records::{Life, State};
use posix::{Entry, Pid, Status};

/// What may come next: any line but `halt`, only `halt`, or nothing.
#[derive(Clone, Copy)]
pub(crate) enum Phase {
    /// The last line, if any, is neither the termination of process 1 nor `halt`.
    Going,
    /// The last line is the termination of process 1: `halt` comes next.
    FirstEnded,
    /// The last line is `halt`: nothing comes next.
    Over,
}

impl Phase {
    /// Returns the phase after a line.
    pub(crate) fn after(entry: &Entry) -> Phase
        ensures { phase_said result ≡ phase_said_after entry.now }
    {
        match *entry {
            Entry::Halted => Phase::Over,
            Entry::Ended { pid, .. } if pid == Pid::INIT => Phase::FirstEnded,
            _ => Phase::Going,
        }
    }
}

/// Returns the first test that a line fails, after a line with the event number `last`.
#[tactic(auto, unfolding(laws::specs::Keeping::fault_of))]
pub(crate) fn test(
    known: &Known,
    last: u64,
    phase: Phase,
    event: u64,
    entry: &Entry,
) -> Result<(), AuditFault>
    requires { is_entry entry.now ≡ true }
    ensures fault { fault_number result ≡ fault_of (kept_by known.now) last (phase_said phase) (line event entry.now) }
    ensures tested { result ≢ Err Memory }
{
    test_number(last, event)?;
    test_place(known, phase, entry)?;
    test_birth(known, entry)?;
    test_report(known, entry)
}

/// Checks that event numbers don't decrease.
fn test_number(last: u64, event: u64) -> Result<(), AuditFault>
    ensures fault { fault_number result ≡ number_fault last event }
    ensures tested { result ≢ Err Memory }
{
    if event < last {
        return Err(AuditFault::NoLine);
    }
    Ok(())
}

/// Checks that the process of a line lives, and that `halt` comes right after the termination of process 1 and last.
fn test_place(known: &Known, phase: Phase, entry: &Entry) -> Result<(), AuditFault>
    ensures fault { fault_number result ≡ place_fault (kept_by known.now) (phase_said phase) entry.now }
    ensures tested { result ≢ Err Memory }
{
    let is_in_place = match phase {
        Phase::Going => match entry.process() {
            Some(pid) => known.is_living(pid),
            None => false,
        },
        Phase::FirstEnded => matches!(*entry, Entry::Halted),
        Phase::Over => false,
    };
    if is_in_place {
        Ok(())
    } else {
        Err(AuditFault::OutOfPlace)
    }
}

/// Checks that a fork doesn't return the process ID of a living process.
fn test_birth(known: &Known, entry: &Entry) -> Result<(), AuditFault>
    requires { is_entry entry.now ≡ true }
    ensures fault { fault_number result ≡ birth_fault (kept_by known.now) (birth_said entry.now) }
    ensures tested { result ≢ Err Memory }
{
    match born_by(entry) {
        Some(child) if known.is_living(child) => Err(AuditFault::BornWhileLiving),
        _ => Ok(()),
    }
}

/// Checks that what a wait reports, with or without WNOWAIT, is due to its caller.
fn test_report(known: &Known, entry: &Entry) -> Result<(), AuditFault>
    ensures fault { fault_number result ≡ report_fault (kept_by known.now) entry.now }
    ensures tested { result ≢ Err Memory }
{
    match *entry {
        Entry::Reported {
            pid,
            child,
            status,
            ..
        } => test_told(known, pid, child, status),
        Entry::Looked { pid, child, status } => test_told(known, pid, child, status),
        _ => Ok(()),
    }
}

/// Checks that a report of a child is due to this process.
fn test_told(known: &Known, pid: Pid, child: Pid, word: Status) -> Result<(), AuditFault>
    ensures fault { fault_number result ≡ word_fault pid word (kept_by known.now child) }
    ensures tested { result ≢ Err Memory }
{
    let Some(newest) = known.newest(child) else {
        return Err(AuditFault::NotHappened);
    };
    if newest.parent != pid {
        return Err(AuditFault::NotTheParent);
    }
    newest.state.test_report(word)
}

impl State {
    /// Checks that a report by the parent, with this wait status, is due.
    fn test_report(self, word: Status) -> Result<(), AuditFault>
        ensures fault { (p : ℕ) → fault_number result ≡ word_fault p word (kept_as p self) }
        ensures tested { result ≢ Err Memory }
    {
        match self {
            State::Living(life) => test_living(life, word),
            State::Ended { status, reported } => test_ended(status, reported, word),
        }
    }
}

/// Checks a report of a child that still lives.
fn test_living(life: Life, word: Status) -> Result<(), AuditFault>
    ensures fault { (p : ℕ) → fault_number result ≡ fault_of_living p word (alive p life) }
    ensures tested { result ≢ Err Memory }
{
    if word.is_end() {
        Err(AuditFault::NotHappened)
    } else if word.is_stop() {
        if !life.has_stopped {
            return Err(AuditFault::NotHappened);
        }
        match life.stop {
            None => Err(AuditFault::ReportedBefore),
            Some(sig) if u16::from(sig.number()) == word.word() / 256 => Ok(()),
            Some(_) => Err(AuditFault::OtherStatus),
        }
    } else if word.is_continuation() {
        if !life.has_stopped {
            Err(AuditFault::NotHappened)
        } else if life.may_continue {
            Ok(())
        } else {
            Err(AuditFault::ReportedBefore)
        }
    } else {
        Err(AuditFault::OtherStatus)
    }
}

/// Checks a report of a child that has terminated with a wait status.
fn test_ended(ended: Status, reported: bool, word: Status) -> Result<(), AuditFault>
    ensures fault { (p : ℕ) → fault_number result ≡ fault_of_ended p word (record { parent = p; status = ended; reported = reported }) }
    ensures tested { result ≢ Err Memory }
{
    if word.is_end() {
        if reported {
            Err(AuditFault::ReportedBefore)
        } else if ended == word {
            Ok(())
        } else {
            Err(AuditFault::OtherStatus)
        }
    } else if word.is_stop() || word.is_continuation() {
        Err(AuditFault::NotHappened)
    } else {
        Err(AuditFault::OtherStatus)
    }
}
