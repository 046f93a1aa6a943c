//! Reports of a rejected world or of rejected events, which may have names: the wrong word, why it is rejected, and
//! what to write.
//!
//! `Texts` has two files, and serves them as files with numbers for names (`IsInput`, `named_files`). `told` returns
//! nothing if both are accepted. Otherwise it returns the first fault, with its line in a form that is safe to show,
//! marks and a message, and at most nine others. Each of those is the first fault if the line shown before is empty
//! (`IsRefused`, `Tells`). What is marked depends only on both forms of the line, the reason and a place (`view_at`).
//! If a text ends too early, the last line with words is shown.
#![tactic(auto)]

mod marks;
mod printing;
mod sight;
mod telling;
mod texts;
mod why;
mod why_events;
mod why_instructions;
mod why_words;

pub use texts::{Input, Texts};
