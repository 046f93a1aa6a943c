//! Faults of a trace.

ghost use Rattle.std.specs.Prelude.{◌≡◌, ◌≤◌, length};
ghost use Rattle.audit.specs.Faults.{law_of, number_of};

use std::error::Error;
use std::fmt;

/// The fault of a line: the test that it fails, or that there was no memory.
#[derive(Clone, Copy, Debug, PartialEq, Eq)]
pub enum AuditFault {
    /// Fault 1: the text is not a trace line, or its event number is below that of the line before.
    NoLine,
    /// Fault 2: a fork returned the process ID of a living process.
    BornWhileLiving,
    /// Fault 3: a wait reports a status change that has not happened: of a child that was never created, a
    /// termination of a living child, or a stop or a continue of a child that has terminated or never stopped.
    NotHappened,
    /// Fault 4: a wait reports a status change that an earlier wait has consumed.
    ReportedBefore,
    /// Fault 5: a wait by a process that is not the child's parent.
    NotTheParent,
    /// Fault 6: a wait status other than that of the termination or the stop, or one that no wait reports.
    OtherStatus,
    /// Fault 7: a line of a process that is not living, `halt` anywhere but right after the termination of process 1,
    /// any other line there, or a line after `halt`.
    OutOfPlace,
    /// Fault 8: no memory for a new process ID. The line passes all tests.
    Memory,
}

impl AuditFault {
    /// Returns the fault number: 1 to 8.
    pub fn number(self) -> u8
        ensures { result ≡ number_of self }
    {
        match self {
            AuditFault::NoLine => 1,
            AuditFault::BornWhileLiving => 2,
            AuditFault::NotHappened => 3,
            AuditFault::ReportedBefore => 4,
            AuditFault::NotTheParent => 5,
            AuditFault::OtherStatus => 6,
            AuditFault::OutOfPlace => 7,
            AuditFault::Memory => 8,
        }
    }

    /// Returns the law that the line breaks, in words; or that there was no memory. It is short, so that a line with it
    /// fits a buffer of fixed size.
    pub fn law(self) -> &'static str
        ensures words { result.now ≡ law_of self }
        ensures short { length result.now ≤ 50 }
    {
        match self {
            AuditFault::NoLine => "not a trace line, or its event number decreases",
            AuditFault::BornWhileLiving => "fork returned the process ID of a living process",
            AuditFault::NotHappened => "wait reports a status change that has not happened",
            AuditFault::ReportedBefore => "wait reports the same status change twice",
            AuditFault::NotTheParent => "wait by a process that is not the parent",
            AuditFault::OtherStatus => "wait status does not match the status change",
            AuditFault::OutOfPlace => "process is not alive, or line misplaced near halt",
            AuditFault::Memory => "out of memory",
        }
    }
}

impl fmt::Display for AuditFault {
    fn fmt<W: fmt::Write>(&self, f: &mut fmt::Formatter<W>) -> fmt::Result {
        f.write_str(self.law())
    }
}

impl Error for AuditFault {}
