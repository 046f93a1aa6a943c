//! Reads the texts of a run: world texts and event texts.
//!
//! A text is a list of lines. A line feed ends each line, but the last may lack it. Space, tab, carriage return and
//! comma separate words. A `#` and everything after it on the line are skipped. Lines without words are skipped, but
//! counted. Only the first faulty line of a text is reported, with a [`Reason`].
//!
//! `read_world` returns the world that a text describes if the grammar accepts it; otherwise the first faulty line and
//! its reason. The reason `Memory`, with any line, may replace either. `EventReader` does the same, no matter how a
//! text is cut into pieces. Its fault is final, and every text that begins with these pieces has this fault, unless it
//! is `Memory` (`answer`). A line without events has no fault while 64 bits can count the lines (`end_line`). An
//! `EventList` has fewer than 2^40 events, each in range.
#![tactic(auto)]

mod draft;
pub mod event_list;
pub mod event_reader;
pub mod fault;
mod instructions;
mod names;
mod numbers;
mod outline;
mod sketch;
mod words;
pub mod world_reader;

pub use event_list::{EventList, EventRun};
pub use event_reader::{EventReader, read_events};
pub use fault::{Reason, TextFault};
pub use numbers::{are_digits, integer};
pub use umach::World;
pub use words::{
    Lines, MAX_LINE_LEN, Words, are_name_bytes, is_name, is_name_byte, is_separator, next_line,
    next_word, skip_separators, split_comment, word_len,
};
pub use world_reader::read_world;
