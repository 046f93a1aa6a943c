//! The commands `jobk explain` and `jobk lanes`. `explain` puts a trace, with the meaning of its numbers after each
//! line. `lanes` draws a picture of a trace. The program adds only the host.
//!
//! `serve_explain`: with status 0 the output is the trace, and after each line nothing, or three spaces and words
//! (`IsExplained`). If a world is named, the status is 0 only if the trace is that of a run of it (`OfSame`).
//! `serve_lanes`: with status 0 each line is a trace line; with 1 a line is not, or the last one has no line feed
//! (`IsTraceUpTo`). Tested: the words, that there are any, and the pictures.
#![tactic(auto)]

mod drawing;
mod known;
mod meaning;
mod phrases;
mod picture;
mod rows;
mod serving;
mod svg;
mod texts;
mod words;

pub use drawing::draw_trace;
pub use serving::{serve_explain, serve_lanes};
