//! The commands of the program, by the arguments of the command line.

ghost use Rattle.std.specs.Prelude.{◌≡◌, map, option_map};
ghost use Rattle.commands.specs.Commands.{ServesAs, explained, first_or_empty as first_or_empty_of, is_help as is_help_of, is_version as is_version_of, purpose_of, said};
ghost use Rattle.commands.specs.Named.{named_in as named_in_words};
ghost use Rattle.commands.specs.Serving.{Serves};

use crate::help::{HELP, VERSION};
use crate::named::{serve_named, takes_names};
use crate::running::{USAGE, put_own, serve_audit, serve_run, serve_stored};
use explaining::{serve_explain, serve_lanes};
use exploring::{Progress, serve as serve_explore};
use inputs::{FileFailure, ReadFiles, WordsFault};
use kernel::Sink;
use naming::serve as serve_names;
use showing::{Ask, serve as serve_show};
use std::alloc::Global;
use std::hash::RandomState;

/// What the arguments ask for.
#[derive(Clone, Copy)]
enum Command<'a> {
    Help,
    Version,
    /// Run the stored world: no arguments.
    Stored,
    /// `run`, with the arguments after it.
    Run(&'a [&'a str]),
    /// `audit`, with the arguments after it.
    Audit(&'a [&'a str]),
    /// `explore`, with the arguments after it.
    Explore(&'a [&'a str]),
    /// `show`, with the arguments after it.
    Show(&'a [&'a str]),
    /// `explain`, with the arguments after it.
    Explain(&'a [&'a str]),
    /// `explain --audit`, with the arguments after it.
    AuditInWords(&'a [&'a str]),
    /// `lanes`, with the arguments after it.
    Lanes(&'a [&'a str]),
    /// `names`, with the arguments after it.
    Names(&'a [&'a str]),
    /// A usage error.
    Other,
}

/// Returns true if an argument asks for help.
fn is_help(word: &str) -> bool
    ensures { result ≡ is_help_of word.now }
{
    matches!(word, "--help" | "-h")
}

/// Returns true if an argument asks for the version of the program.
fn is_version(word: &str) -> bool
    ensures { result ≡ is_version_of word.now }
{
    matches!(word, "--version" | "-V")
}

/// Returns the first argument; an empty one if there is none.
fn first_or_empty<'a>(words: &[&'a str]) -> &'a str
    ensures { result.now ≡ first_or_empty_of (map (λ w. w.now) words.now) }
{
    words.first().copied().unwrap_or("")
}

/// Returns what the arguments after `explain` ask for.
fn explain_in<'a>(words: &'a [&'a str]) -> Command<'a>
    ensures { said result ≡ explained (map (λ w. w.now) words.entry.now) }
{
    match words {
        [option, more @ ..] if *option == "--audit" => Command::AuditInWords(more),
        _ => Command::Explain(words),
    }
}

/// Returns what the arguments ask for.
fn command_in<'a>(words: &'a [&'a str]) -> Command<'a>
    ensures { said result ≡ purpose_of (map (λ w. w.now) words.entry.now) }
{
    let Some((first, more)) = words.split_first() else {
        return Command::Stored;
    };
    let second = first_or_empty(more);
    if is_help(first) || is_help(second) {
        return Command::Help;
    }
    if is_version(first) || is_version(second) {
        return Command::Version;
    }
    match *first {
        "run" => Command::Run(more),
        "audit" => Command::Audit(more),
        "explore" => Command::Explore(more),
        "show" => Command::Show(more),
        "explain" => explain_in(more),
        "lanes" => Command::Lanes(more),
        "names" => Command::Names(more),
        _ => Command::Other,
    }
}

/// Runs what arguments without `--names` ask for, and returns the exit status. If the first or the second argument asks
/// for help or for the version, that is printed. Without arguments, the stored world is run. Otherwise the first
/// argument is the command, and an unknown command is a usage error: status 2.
pub fn serve_command<'a, F: ReadFiles, O: Sink, E: Sink, P: Progress + Ask>(
    alloc: Global,
    words: &'a [&'a str],
    files: &F,
    keys: Option<RandomState>,
    out: &mut O,
    err: &mut E,
    person: &mut P,
) -> u8
    ensures { ServesAs (F.contents files.now) out.old out.new (O.seen out.old) (O.seen out.new) result (purpose_of (map (λ w. w.now) words.entry.now)) }
{
    match command_in(words) {
        Command::Help => put_own(HELP, out, err),
        Command::Version => put_own(VERSION, out, err),
        Command::Stored => serve_stored(alloc, out, err),
        Command::Run(more) => serve_run(alloc, more, files, out, err),
        Command::Audit(more) => serve_audit(alloc, more, files, keys, false, out, err),
        Command::Explore(more) => serve_explore(alloc, more, files, out, err, person),
        Command::Show(more) => serve_show(alloc, more, files, out, err, person),
        Command::Explain(more) => serve_explain(alloc, more, files, out, err),
        Command::AuditInWords(more) => serve_audit(alloc, more, files, keys, true, out, err),
        Command::Lanes(more) => serve_lanes(alloc, more, files, out, err),
        Command::Names(more) => serve_names(alloc, more, files, out, err),
        Command::Other => FileFailure::Usage.end(USAGE, err),
    }
}

/// Returns the command that `--names` follows, and the arguments after `--names`; `None` if there is no such command.
fn named_in<'a>(words: &'a [&'a str]) -> Option<(&'a str, &'a [&'a str])>
    ensures { option_map (λ n. (n.0.now, map (λ w. w.now) n.1.now)) result ≡ named_in_words (map (λ w. w.now) words.entry.now) }
{
    match words {
        [command, option, more @ ..] if takes_names(command) && *option == "--names" => {
            Some((command, more))
        }
        _ => None,
    }
}

/// Runs what the arguments of the command line ask for, without the name of the program, and returns the exit status.
/// If `--names` directly follows `run`, `explore` or `show`, they run as [`serve_named`] says. Everything else runs as
/// [`serve_command`] says.
///
/// `words` is a `Result`, because arguments that are not UTF-8 are a usage error, status 2. If there was no memory for
/// the arguments, the status is 3.
pub fn serve<'a, F: ReadFiles, O: Sink, E: Sink, P: Progress + Ask>(
    alloc: Global,
    words: Result<&'a [&'a str], WordsFault>,
    files: &F,
    keys: Option<RandomState>,
    out: &mut O,
    err: &mut E,
    person: &mut P,
) -> u8
    ensures { Serves (F.contents files.now) words.entry out.old out.new (O.seen out.old) (O.seen out.new) result }
{
    let words = match words {
        Ok(words) => words,
        Err(WordsFault::NotText) => return FileFailure::Usage.end(USAGE, err),
        Err(WordsFault::Memory) => return FileFailure::Memory.end(USAGE, err),
    };
    match named_in(words) {
        Some((command, more)) => serve_named(alloc, command, more, files, out, err, person),
        None => serve_command(alloc, words, files, keys, out, err, person),
    }
}
