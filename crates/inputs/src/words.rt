//! The arguments of a command line that names one file, or a world and its events, and has options.

ghost use Rattle.std.specs.Prelude.{◌≡◌, ◌≢◌, [], IfOk, MatchResult, None, Some, false, map, option_map, unwrap_or};
ghost use Rattle.clap.specs.Words.{app_of, first_of, found_of, kind_of, matched_of, raw_values, rows_of, rule_of};
ghost use Rattle.inputs.specs.Words.{command_of, command_with_file, command_with_flag, file_in_words, file_rule, files_in, files_in_words, is_used as is_used_in, option_rule};

use clap::error::ErrorKind;
use clap::{Arg, ArgAction, ArgMatches, Command, Error};
use std::alloc::{AllocError, Global};

/// Why the arguments ask for nothing.
#[derive(Clone, Copy)]
pub enum NoRequest {
    /// A usage error, or a request for help.
    Usage,
    /// There was no memory to parse the arguments.
    Memory,
}

impl From<AllocError> for NoRequest {
    ghost use Rattle.inputs.specs.declared.words.NoRequest.TheVariants.{Memory};

    ghost from_gives = { λ _ why. why ≡ Memory };

    fn from(_: AllocError) -> NoRequest {
        NoRequest::Memory
    }
}

impl From<Error> for NoRequest {
    ghost use Rattle.inputs.specs.declared.words.NoRequest.TheVariants.{Usage};
    ghost use Rattle.clap.specs.declared.error.kind.ErrorKind.TheVariants.{OutOfMemory};

    ghost from_gives = { λ error why. why ≡ Usage → kind_of error ≢ OutOfMemory };

    fn from(error: Error) -> NoRequest {
        if error.kind() == ErrorKind::OutOfMemory {
            NoRequest::Memory
        } else {
            NoRequest::Usage
        }
    }
}

/// Returns an option, with the action that its use has.
fn option<'a>(alloc: Global, name: &'a str, action: ArgAction) -> Arg<'a>
    ensures rule { rule_of result ≡ option_rule (name.entry.now, action) }
    ensures local { result.global ≡ false }
{
    Arg::new(alloc, name).long(name).action(action)
}

/// Returns a required argument, which names a file.
fn file<'a>(alloc: Global, name: &'a str) -> Arg<'a>
    ensures rule { rule_of result ≡ file_rule name.entry.now }
    ensures local { result.global ≡ false }
{
    Arg::new(alloc, name).required(true).action(ArgAction::Set)
}

/// Returns the command line of a program that is given a world and its events, with these options, each with its
/// action.
pub fn command<'a>(
    alloc: Global,
    program: &'a str,
    options: &[(&'a str, ArgAction)],
) -> Result<Command<'a>, AllocError>
    ensures { IfOk result (λ c. app_of c ≡ command_of program.entry.now (map (λ o. (o.0.now, o.1)) options.now)) }
{
    let mut command = Command::new(alloc, program)
        .no_binary_name(true)
        .arg(file(alloc, "world"))?
        .arg(file(alloc, "events"))?;
    for (name, action) in options {
        command = command.arg(option(alloc, name, *action))?;
    }
    Ok(command)
}

/// Returns the first value of an option, or the name of a file; `None` if it is absent.
pub fn value_of<'a>(matches: &ArgMatches<'a>, name: &str) -> Option<&'a str>
    ensures { option_map (λ value. value.now) result ≡ first_of name.now (rows_of (found_of matches.now)) }
{
    matches.get_str(name)
}

/// Returns true if a flag is used.
pub fn is_used(matches: &ArgMatches<'_>, flag: &str) -> bool
    ensures { result ≡ is_used_in flag.now (rows_of (found_of matches.now)) }
{
    match value_of(matches, flag) {
        Some(value) => value == "true",
        None => false,
    }
}

/// Returns the names of the world and of the events.
pub fn named_files<'a>(matches: &ArgMatches<'a>) -> Result<(&'a str, &'a str), NoRequest>
    ensures { MatchResult result (λ names. files_in (rows_of (found_of matches.now)) ≡ Some (names.0.now, names.1.now)) (λ why. files_in (rows_of (found_of matches.now)) ≡ None) }
{
    match (value_of(matches, "world"), value_of(matches, "events")) {
        (Some(world), Some(events)) => Ok((world, events)),
        _ => Err(NoRequest::Usage),
    }
}

/// Returns the names of the world and of the events, from a command line without options. `words` does not have the
/// name of the program.
pub fn named_world_and_events<'a>(
    alloc: Global,
    program: &'a str,
    words: &'a [&'a str],
) -> Result<(&'a str, &'a str), NoRequest>
    ensures { MatchResult result
        (λ names. files_in_words program.entry.now (map (λ w. w.now) words.entry.now) ≡ Some (names.0.now, names.1.now))
        (λ why. why ≡ NoRequest.Usage → files_in_words program.entry.now (map (λ w. w.now) words.entry.now) ≡ None) }
{
    let matches = command(alloc, program, &[])?.try_get_matches_from(words)?;
    named_files(&matches)
}

/// Returns the command line of a program that is given one file.
pub fn command_with_file<'a>(
    alloc: Global,
    program: &'a str,
    file_name: &'a str,
) -> Result<Command<'a>, AllocError>
    ensures { IfOk result (λ c. app_of c ≡ command_with_file program.entry.now file_name.entry.now) }
{
    Command::new(alloc, program)
        .no_binary_name(true)
        .arg(file(alloc, file_name))
}

/// Returns the command line of a program that is given one file, and has a flag.
pub fn command_with_flag<'a>(
    alloc: Global,
    program: &'a str,
    file_name: &'a str,
    flag: &'a str,
) -> Result<Command<'a>, AllocError>
    ensures { IfOk result (λ c. app_of c ≡ command_with_flag program.entry.now file_name.entry.now flag.entry.now) }
{
    let flag = option(alloc, flag, ArgAction::SetTrue);
    command_with_file(alloc, program, file_name)?.arg(flag)
}

/// Returns the name of the one file that the arguments name, as the argument `file`. `words` does not have the name of
/// the program.
pub fn named_file<'a>(
    alloc: Global,
    program: &'a str,
    file: &'a str,
    words: &'a [&'a str],
) -> Result<&'a str, NoRequest>
    ensures { MatchResult result
        (λ name. file_in_words program.entry.now file.entry.now (map (λ w. w.now) words.entry.now) ≡ Some name.now)
        (λ why. why ≡ NoRequest.Usage → file_in_words program.entry.now file.entry.now (map (λ w. w.now) words.entry.now) ≡ None) }
{
    let matches = command_with_file(alloc, program, file)?.try_get_matches_from(words)?;
    value_of(&matches, file).ok_or(NoRequest::Usage)
}

/// Returns the value of each use of an option, in the order of the arguments.
pub fn words_behind<'a>(
    alloc: Global,
    matches: &ArgMatches<'a>,
    option: &str,
) -> Result<Vec<&'a str>, AllocError>
    ensures { IfOk result (λ words. map (λ w. w.now) words.items ≡ unwrap_or (option_map raw_values (matched_of (found_of matches.now) option.now)) []) }
{
    match matches.get_strs(option) {
        Some(words) => Vec::from_slice(alloc, words),
        None => Ok(Vec::new(alloc)),
    }
}
