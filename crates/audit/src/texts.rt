//! Whole traces.

ghost use Rattle.std.specs.Prelude.{◌≡◌, ◌≢◌, ◌≤◌, length, List, Err, OnOk};
ghost use Rattle.std.specs.List.{AllByRecursion};
ghost use Rattle.posix.specs.declared.event.Event.{Event};
ghost use Rattle.posix.specs.Common.{Line, print, Runs, State, World, IsEvent, IsWorld};
ghost use Rattle.audit.specs.declared.fault.AuditFault.TheVariants.{Memory};
ghost use Rattle.audit.specs.Texts.{IsFirstFault, IsLawful, IsLawfulBefore, IsNewBirthAt};

use crate::audit::Audit;
use crate::fault::AuditFault;
use std::alloc::Global;
use std::hash::RandomState;
use thiserror::Error;
use trace::next_line;

/// The first faulty line of a trace.
#[derive(Clone, Copy, Debug, PartialEq, Eq, Error)]
#[error("line {line}: {fault}")]
pub struct TraceFault {
    /// The line number, from 1.
    pub line: u64,
    pub fault: AuditFault,
}

/// Audits a whole trace, each line with its line feed. The result doesn't depend on the keys of the hash.
///
/// Returns Ok if the text consists of printed lines of which the laws of a trace hold; the empty text does. Otherwise
/// returns the first line that an [`Audit`] rejects, with its fault: the lines before it are lawful, and no lawful
/// text begins with these lines and that one. Anything after the last line feed is not a trace line, so its fault is
/// [`AuditFault::NoLine`]. If there is no memory, the fault is [`AuditFault::Memory`], and the lines before its line
/// are lawful. In that line, a fork returns a process ID that no process had before; but at line 1, memory may be
/// missing before the line is read.
pub fn audit_text(alloc: Global, keys: RandomState, text: &[u8]) -> Result<(), TraceFault>
    ensures ok { OnOk result (IsLawful text.now) }
    ensures memory { (fault : TraceFault) → result ≡ Err fault → fault.fault ≡ Memory → IsLawfulBefore text.now fault.line }
    ensures new_number { (fault : TraceFault) → result ≡ Err fault → fault.fault ≡ Memory → fault.line ≢ 1 → IsNewBirthAt text.now fault.line }
    ensures refused { (fault : TraceFault) → result ≡ Err fault → fault.fault ≢ Memory → IsLawful text.now → ⊥ }
    ensures first { (fault : TraceFault) → result ≡ Err fault → fault.fault ≢ Memory → IsFirstFault text.now fault }
{
    let mut number: u64 = 1;
    let Ok(mut audit) = Audit::new(alloc, keys) else {
        return Err(TraceFault {
            line: number,
            fault: AuditFault::Memory,
        });
    };
    let mut rest = text;
    while let Some((line, more)) = next_line(rest) {
        if let Err(fault) = audit.line(line) {
            return Err(TraceFault {
                line: number,
                fault,
            });
        }
        rest = more;
        number += 1;
    }
    if rest.is_empty() {
        return Ok(());
    }
    Err(TraceFault {
        line: number,
        fault: AuditFault::NoLine,
    })
}

/// The trace of every run is lawful.
///
/// So [`audit_text`] returns Ok for the printed trace of every run of at most 1,000,000,000,000
/// events, unless there is no memory.
pub fn runs_are_lawful()
    ensures { (w : World) (events : List Event) (lines : List Line) (last : State) → 1 ≤ w.pidmax → IsWorld w → AllByRecursion IsEvent events
        → length events ≤ 1000000000000 → Runs w events lines last → IsLawful (print lines) }
{}
