//! Descriptions of processes, consoles and events, in words.
//!
//! The crate gets the data to describe, and no machine, so it cannot change one. Tested, together with `showing`: all
//! words, to which event they belong, and since when a process is blocked or stopped.
#![tactic(auto)]

mod console;
mod event;
mod process;
mod reading;
mod sending;
mod since;
mod view;
mod wakers;

pub use console::{put_console, put_counted, put_turns};
pub use event::{Actor, Teller};
pub use process::{Around, put_process};
pub use reading::{Reading, Rows};
pub use sending::Sent;
pub use since::{Since, Times};
pub use view::View;
pub use wakers::Terminal;
