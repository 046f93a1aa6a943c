//! The words of reports and messages: names of signals, sets, errors, statuses and options, calls with their arguments,
//! and the lines and labels of a world. Also the text that they are written to, and the known name closest to a word.
//!
//! A `Prose` has exactly the pieces added (`Adds`), or `finish` fails: it records its own failure, because a call with
//! `?` costs three times as much to prove as one that returns nothing. `place_of` returns the instruction of a code
//! address. `signal_in` returns a signal only if the word is its number, `process_in` a process exactly from 1 to
//! 2,147,483,647, and `asked` what the definitions say. `named` is exactly the table in `Names`. Tested: other names,
//! lines of a world.
#![tactic(auto)]

mod arguments;
mod counted;
mod listing;
mod names;
mod nearest;
mod prose;
mod table;

pub use arguments::{
    Arguments, place_of, put_address, put_byte, put_call, put_look, put_moved, put_place,
    put_quoted, put_report, put_result,
};
pub use counted::plural;
pub use listing::{Label, Listing, Source, Written};
pub use names::{
    process_in, put_flags, put_set, put_set_or_none, put_signal, put_status, signal_in,
};
pub use nearest::{distance, meant, nearest_name};
pub use prose::Prose;
pub use table::{Kind, name_of, named, number_named, realtime};
