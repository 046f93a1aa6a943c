//! The auditor: checks whether the laws of a trace hold, from its lines only.
//!
//! If an audit knows some texts (`Knows`), `Audit::line` returns Ok or fault 8 exactly if the laws hold of them and
//! the new line. After Ok, it knows the new line, too. Fault 8 occurs only if a fork returns a new process ID, and
//! changes nothing. Any other fault is the first test that the line fails, and final: no lawful trace continues with
//! that line. `audit_text` returns it at the first faulty line, or at a last line without line feed (`IsFirstFault`);
//! the lines before are lawful at any fault. `AuditFault::law` returns the words of a law.
#![tactic(auto)]

pub mod audit;
pub(crate) mod children;
pub mod fault;
pub(crate) mod known;
pub(crate) mod lines;
pub(crate) mod records;
pub(crate) mod tests_of_lines;
pub mod texts;

pub use audit::Audit;
pub use fault::AuditFault;
pub use texts::{TraceFault, audit_text, runs_are_lawful};
