//! The commands `show` and `explain TRACE WORLD EVENTS`. `show` runs a world up to an event, and prints the state or
//! what each event did, in words. `explain` compares a trace with the trace of a run. The program adds only the host.
//!
//! `past_at`, `run_to`: the state is the last one of a run of the world over the events up to the requested one
//! (`IsReached`). An observer (`Observer`), `put_state` and the printing of events change neither the state nor the
//! number of events (`IsSame`). `serve_beside`: with status 0 the trace is that of a run of the two inputs, and the
//! output is the explained trace (`OfSame`). With 1 an input is rejected, or this line is the first that differs
//! (`IsCompared`), and there is no output. With 3 there is no output, or the beginning of it.
#![tactic(auto)]

mod comparing;
mod comparing_sink;
mod comparison;
mod hearing;
mod lines;
mod replay;
mod run_explainer;
mod serving;
mod state;
mod stepping;
mod words;

pub use comparing::{Named, serve_beside};
pub use lines::{Explain, PIECE, explain_text};
pub use serving::serve;
pub use stepping::Ask;
