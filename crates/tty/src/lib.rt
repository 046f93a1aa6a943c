//! The line discipline of a console: canonical mode, XBD 11.1.6.
//!
//! `Console::{key, hang_up, take}` do exactly what their definitions say. Each other call changes only the fields that
//! it names, so a release keeps lines, edited bytes, TOSTOP and a hangup. Only `new` can fail. The type keeps at most
//! 255 edited bytes and at most 64 finished lines, of at most 256 bytes each and 1,024 together. A line that does not
//! fit is dropped whole, because a key has no error and no read may get parts of two lines.
#![tactic(auto)]

pub mod console;
pub mod lines;

pub use console::{Console, ends_line};
