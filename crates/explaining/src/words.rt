//! The arguments of `explain` and `lanes`.

ghost use Rattle.std.specs.Prelude.{◌≡◌, IfOk, MatchResult, None, Some, false, map, option_map};
ghost use Rattle.clap.specs.Words.{app_of, rule_of};
ghost use Rattle.inputs.specs.declared.words.NoRequest.TheVariants.{Usage};
ghost use Rattle.explaining.specs.Drawings.{drawing_asked};
ghost use Rattle.explaining.specs.Words.{asked_by_names, asked_in_words, command_line, more_rule, said};

use clap::{Arg, ArgAction, Command};
use inputs::{NoRequest, command_with_file, command_with_flag, is_used, value_of};
use showing::Named;
use std::alloc::{AllocError, Global};

/// The request that the arguments of `explain` make.
#[derive(Clone, Copy)]
pub enum Asked<'a> {
    /// Explains this trace.
    Trace(&'a str),
    /// Compares a trace with a run of a world, and explains it.
    Beside(Named<'a>),
}

/// Returns an optional argument that names a file.
fn more<'a>(alloc: Global, name: &'a str) -> Arg<'a>
    ensures rule { rule_of result ≡ more_rule name.entry.now }
    ensures local { result.global ≡ false }
{
    Arg::new(alloc, name).action(ArgAction::Set)
}

/// Returns the command line `explain TRACE [WORLD EVENTS]`.
fn command<'a>(alloc: Global) -> Result<Command<'a>, AllocError>
    ensures { IfOk result (λ c. app_of c ≡ command_line) }
{
    command_with_file(alloc, "explain", "trace")?
        .arg(more(alloc, "world"))?
        .arg(more(alloc, "events"))
}

/// Returns the request that these file names make. Returns `None` without a trace, or with only one of world and
/// events.
fn asked_by<'a>(
    trace: Option<&'a str>,
    world: Option<&'a str>,
    events: Option<&'a str>,
) -> Option<Asked<'a>>
    ensures { option_map said result ≡ asked_by_names (option_map (λ t. t.now) trace.entry) (option_map (λ w. w.now) world.entry) (option_map (λ e. e.now) events.entry) }
{
    match (trace, world, events) {
        (Some(trace), None, None) => Some(Asked::Trace(trace)),
        (Some(trace), Some(world), Some(events)) => Some(Asked::Beside(Named {
            trace,
            world,
            events,
        })),
        _ => None,
    }
}

/// Parses the arguments of `explain`. Fails for a usage error, or if there is no memory.
pub fn request<'a>(alloc: Global, words: &'a [&'a str]) -> Result<Asked<'a>, NoRequest>
    ensures { MatchResult result
        (λ asked. asked_in_words (map (λ w. w.now) words.entry.now) ≡ Some (said asked))
        (λ why. why ≡ Usage → asked_in_words (map (λ w. w.now) words.entry.now) ≡ None) }
{
    let matches = command(alloc)?.try_get_matches_from(words)?;
    asked_by(
        value_of(&matches, "trace"),
        value_of(&matches, "world"),
        value_of(&matches, "events"),
    )
    .ok_or(NoRequest::Usage)
}

/// Parses the arguments of `lanes`. Returns the name of the trace, and whether the picture is SVG. Fails for a usage
/// error, or if there is no memory.
pub fn requested<'a>(alloc: Global, words: &'a [&'a str]) -> Result<(&'a str, bool), NoRequest>
    ensures { MatchResult result
        (λ asked. drawing_asked (map (λ w. w.now) words.entry.now) ≡ Some (asked.0.now, asked.1))
        (λ why. why ≡ Usage → drawing_asked (map (λ w. w.now) words.entry.now) ≡ None) }
{
    let matches = command_with_flag(alloc, "lanes", "trace", "svg")?.try_get_matches_from(words)?;
    match value_of(&matches, "trace") {
        Some(name) => Ok((name, is_used(&matches, "svg"))),
        None => Err(NoRequest::Usage),
    }
}
