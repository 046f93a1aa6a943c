//! The arguments of `show`.

use clap::ArgAction;
use inputs::{NoRequest, command, named_files, words_behind};
use std::alloc::Global;

/// The request that the arguments make.
#[derive(Drop)]
pub struct Request<'a> {
    pub world: &'a str,
    pub events: &'a str,
    /// The argument of `--at`, if it is used.
    pub at: Option<&'a str>,
    /// The argument of each `--process`.
    pub processes: Vec<&'a str>,
    pub calls: bool,
    pub trace: bool,
    pub step: bool,
}

impl Request<'_> {
    /// Returns true if lines of events are printed instead of the state.
    pub fn tells(&self) -> bool {
        self.calls || self.trace
    }
}

/// The options, each with the action of its use.
const OPTIONS: [(&str, ArgAction); 5] = [
    ("at", ArgAction::Set),
    ("process", ArgAction::Append),
    ("calls", ArgAction::SetTrue),
    ("trace", ArgAction::SetTrue),
    ("step", ArgAction::SetTrue),
];

/// Parses the arguments, without the program's name. Fails for a usage error, or if there is no memory.
pub fn requested<'a>(alloc: Global, words: &'a [&'a str]) -> Result<Request<'a>, NoRequest> {
    let matches = command(alloc, "show", &OPTIONS)?.try_get_matches_from(words)?;
    let (world, events) = named_files(&matches)?;
    Ok(Request {
        world,
        events,
        at: matches.get_str("at"),
        processes: words_behind(alloc, &matches, "process")?,
        calls: matches.get_flag("calls"),
        trace: matches.get_flag("trace"),
        step: matches.get_flag("step"),
    })
}
