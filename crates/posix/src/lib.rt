//! Numbers and types of the kernel, and the definitions that every contract cites.
//!
//! The definitions are in `specs/`: signals, wait statuses, the record of a process, the state of the machine, one
//! instruction, one event, whole runs, and how a trace is printed.
//!
//! `new` of `Pid`, `Uid`, `Gid`, `Register` and `Sig` accepts exactly the valid numbers. The tables of `Errno`,
//! `Sig`, `Status` and `Call::{name, named}`, and the bits of options and flags, are exact. `How`, `Target`, `Span`
//! and `WaitCall::asks` say what a call selects by its arguments. `decimal_value` returns the number that digits
//! denote, or the largest u64 if the number is larger.
#![tactic(auto)]

pub mod bytes;
pub mod call;
pub mod decimal;
pub mod entry;
pub mod errno;
pub mod event;
pub mod how;
pub mod ids;
pub mod instr;
pub mod pid;
pub mod process;
pub mod sa_flags;
pub mod sig;
pub mod sig_set;
pub mod span;
pub mod status;
pub mod target;
pub mod wait_options;
pub mod waits;

pub use bytes::Bytes;
pub use call::Call;
pub use decimal::decimal_value;
pub use entry::Entry;
pub use errno::Errno;
pub use event::Event;
pub use how::How;
pub use ids::{Gid, Ids, Uid};
pub use instr::{Condition, Instr, Operator, Register, Trap};
pub use pid::Pid;
pub use process::{
    Action, Blocked, Carried, Effect, Frame, Handler, Life, News, PendingSignal, Report, Sending,
};
pub use sa_flags::SaFlags;
pub use sig::{DefaultAction, Sig};
pub use sig_set::SigSet;
pub use span::Span;
pub use status::Status;
pub use target::Target;
pub use wait_options::{WaitOptions, WaitidOptions};
pub use waits::{Asked, WaitCall};
