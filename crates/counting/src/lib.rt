//! Counts the schedules of a family by how they end, and by the patterns that their lines match. Each schedule is run
//! separately.
//!
//! `run_schedule` returns the lines of a run of the schedule's events with all memory granted, and how its last state
//! ends; otherwise an error. `explore` counts how many schedules halt, come to rest or go on, and how many have a line
//! with each text (`has_pattern`), with the first of each kind (`book_over`). `can_be_shown`: a line of a form has the
//! words, or no sample line has (`IsShownByNone`). No clause: that the samples are enough. `by_count`: outcomes count
//! all schedules. `Count` adds and prints exactly.
#![tactic(auto)]

pub mod book;
pub mod count;
pub mod course;
pub mod ending;
pub mod families;
pub mod finds;
pub mod lines;
pub mod outcomes;
pub mod pattern;
pub mod placing;
pub mod samples;
pub mod tally;

pub use book::Book;
pub use count::Count;
pub use course::{run_all, run_list, run_one};
pub use ending::{Ending, Endings};
pub use families::{Family, Progress, events_of, explore, is_schedule, run_schedule};
pub use finds::{Find, mark};
pub use lines::{Line, process_number, shown};
pub use outcomes::Outcome;
pub use placing::{event_at, events_between, events_from};
pub use samples::can_be_shown;
pub use tally::Tally;
