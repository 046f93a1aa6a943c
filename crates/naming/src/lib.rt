//! Names in the texts of worlds and events, and the numbers that replace them.
//!
//! `name_text` returns the `named_text`: each name is replaced by its number, each key by its byte, each typed text by
//! its bytes (`Names`, `Sets`, `Keys`, `Letters`); a rejected name or key stays. The messages about a line
//! are empty exactly if nothing in it is rejected (`IsNamed`). `serve`: with status 0 or 1 the output is this text, and
//! the status is 1 exactly if something in the text is rejected. No clause: that each of several rejected keys of a
//! line has a message. Tested: the messages.
#![tactic(auto)]

mod fault;
mod key_line;
mod line;
mod number;
mod serving;
mod set_line;
mod texts;
mod type_line;

pub use key_line::push_byte;
pub use serving::serve;
pub use texts::{Named, name_text};
