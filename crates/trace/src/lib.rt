//! Printing and reading the lines of a trace, and sinks for them.
//!
//! A trace has one line for each entry of an event: the event number and some words, separated by
//! one space, and a line feed.
//!
//! What a line says is guessed from its words by position. The guess is accepted if it has one of the forms of a
//! line, and prints as exactly this text; so no rule is needed for leading zeros, double spaces or extra words.
//!
//! `write_entry`, `write_note` and `print_entry` print exactly the line. `read_line` returns the line that a text says,
//! and `None` exactly if it says none. `put_all` and `LineBuffer` lose and repeat no byte, however much a put takes,
//! and put nothing after a failure. A `Sink` has one ghost member, `seen`; it records whether the last put failed, so
//! that contracts can say that nothing is put after a failure.
#![tactic(auto)]

mod forms;
mod guesses;
pub mod line_buffer;
mod lines;
pub mod notes;
pub mod print;
mod reading;
pub mod sinks;
mod words;

pub use line_buffer::LineBuffer;
pub use lines::next_line;
pub use notes::{NoteWords, write_note};
pub use print::{print_entry, write_entry};
pub use reading::read_line;
pub use sinks::{Sink, SinkFault, WriteSink, put_all};
pub use words::split_word;
