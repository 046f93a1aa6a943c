//! The auditor.

ghost use Rattle.std.specs.Prelude.{◌≡◌, ◌≢◌, ◌++◌, ◌∷◌, ℕ, List, true, [], Some, Err, IfOk, OnOk, OnErr};
ghost use Rattle.posix.specs.Common.{line, Line};
ghost use Rattle.laws.specs.TraceLines.{is_entry, Says};
ghost use Rattle.laws.specs.Keeping.{kept_of, fault_of};
ghost use Rattle.audit.specs.Knowing.{kept_at, AreLawful, Knows, Heard, StaysWith, IsRead, IsAnswer, IsNewBirth};
ghost use Rattle.audit.specs.declared.fault.AuditFault.TheVariants.{Memory};
ghost use Rattle.audit.specs.Faults.{fault_tested};

use crate::fault::AuditFault;
use crate::known::Known;
use crate::tests_of_lines::{Phase, test};
use posix::Entry;
use std::alloc::{AllocError, Global};
use std::hash::RandomState;
use std::marker::Model;
use trace::read_line;

/// An auditor, which reads a trace line by line.
#[derive(Drop)]
pub struct Audit {
    known: Known,
    /// The event number of the last line.
    last: u64,
    phase: Phase,
    /// The final fault, if any, with which each later line fails, too.
    fault: Option<AuditFault>,
}

impl Model for Audit {
    ghost use Rattle.audit.specs.Knowing.{AuditView};
    ghost use Rattle.audit.specs.Phases.{phase_said};
    ghost use Rattle.audit.specs.Records.{kept_all};

    ghost Value = { AuditView };

    ghost view = { λ a. record { numbers = kept_all a.known; last = a.last; phase = phase_said a.phase; fault = a.fault } };
}

impl Audit {
    /// Creates an auditor that has read no line, and finds process IDs by a hash with these keys. Fails if there is
    /// no memory for the record of process 1.
    pub fn new(alloc: Global, keys: RandomState) -> Result<Audit, AllocError>
        ensures { IfOk result (Knows []) }
    {
        Ok(Audit {
            known: Known::new(alloc, keys)?,
            last: 0,
            phase: Phase::Going,
            fault: None,
        })
    }

    /// Audits the next line of a trace, without its line feed.
    ///
    /// Returns Ok, or [`AuditFault::Memory`], if the laws of a trace hold of the lines so far and this one. That
    /// fault occurs only if a fork returns a process ID that no process had before, and it leaves the auditor
    /// unchanged. Any other fault is the first test that the line fails. No lawful trace continues with this line,
    /// and each later line fails with the same fault.
    /// Memory is taken only for a new process ID, after all tests and before any change. So the line of fault 8 can
    /// be passed again. After any other fault, it is unknown which processes live, so that fault is final.
    pub fn line(&mut self, line: &[u8]) -> Result<(), AuditFault>
        ensures ok { OnOk result ((texts : List (List ℕ)) → Knows texts self.old → Knows (texts ++ line.now ∷ []) self.new) }
        ensures memory { result ≡ Err Memory → StaysWith self.old.fault self.old self.new × ((texts : List (List ℕ)) → Knows texts self.old → AreLawful (texts ++ line.now ∷ [])) }
        ensures new_number { result ≡ Err Memory → (texts : List (List ℕ)) → (k : Knows texts self.old) → (l : Line) × Says line.now l × IsNewBirth (kept_of k.lines) l }
        ensures refused { (fault : AuditFault) → result ≡ Err fault → fault ≢ Memory → StaysWith (Some fault) self.old self.new × ((texts : List (List ℕ)) → Knows texts self.old → AreLawful (texts ++ line.now ∷ []) → ⊥) }
        ensures first { (texts : List (List ℕ)) → (k : Knows texts self.old) → IsAnswer k.lines line.now result }
        ensures stays { (fault : AuditFault) → self.old.fault ≡ Some fault → (result ≡ Err fault) × (self.new ≡ self.old) }
    {
        if let Some(fault) = self.fault {
            return Err(fault);
        }
        let answer = self.read(line);
        if let Err(fault) = answer {
            if fault != AuditFault::Memory {
                self.fault = Some(fault);
            }
        }
        answer
    }

    /// Audits the next text, if there is no final fault. An error leaves the auditor unchanged.
    fn read(&mut self, text: &[u8]) -> Result<(), AuditFault>
        ensures { IsRead text.now result self.old self.new }
    {
        match read_line(text) {
            Some((event, entry)) => self.take_in(event, &entry),
            None => Err(AuditFault::NoLine),
        }
    }

    /// Audits the next line, which was read from a text. An error leaves the auditor unchanged.
    fn take_in(&mut self, event: u64, entry: &Entry) -> Result<(), AuditFault>
        requires { is_entry entry.now ≡ true }
        ensures tested { fault_tested result ≡ fault_of (kept_at self.old.numbers) self.old.last self.old.phase (line event entry.now) }
        ensures ok { OnOk result (Heard (line event entry.now) self.old self.new) }
        ensures err { OnErr result (StaysWith self.old.fault self.old self.new) }
        ensures new_number { result ≡ Err Memory → IsNewBirth (kept_at self.old.numbers) (line event entry.now) }
    {
        test(&self.known, self.last, self.phase, event, entry)?;
        let Ok(()) = self.known.take_in(entry) else {
            return Err(AuditFault::Memory);
        };
        self.last = event;
        self.phase = Phase::after(entry);
        Ok(())
    }
}
