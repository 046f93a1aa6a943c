//! Implements `explore`: counts all schedules of a family, by how they end and by the texts that their lines have, and
//! writes a report. The program adds only the host.
//!
//! `serve` says what an exit status means (`Means`), by what the arguments ask for (`request_of_words`). All schedules
//! of the family were counted with status 0 or 4; the output has their counts and the first of each kind (`Reports`),
//! or what `--write` names (`IsAsFor`). Of outcomes no clause says more than that `--write` names a schedule of the
//! family.
#![tactic(auto)]

mod apart;
mod report;
mod serving;
mod turns;
mod unmatchable;
mod words;
mod written;

pub use counting::Progress;
pub use serving::serve;
pub use words::{Next, Texted};
