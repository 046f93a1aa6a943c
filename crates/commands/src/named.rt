//! Commands on a world and events that have names, and may be in a folder.

ghost use Rattle.std.specs.Prelude.{◌≡◌, IfOk, OnErr, Some, map, option_map};
ghost use Rattle.std.specs.String.{string_bytes};
ghost use Rattle.refusing.specs.Texts.{named_files};
ghost use Rattle.commands.specs.Named.{ServesNamed, ServesTexts, in_folder, is_option as is_option_of, over_texts, place_in as place_in_words, said, takes_names as takes_names_of};

use crate::options::plain_options;
use crate::serving::serve_command;
use exploring::Progress;
use inputs::{FileFailure, ReadFiles};
use kernel::{Sink, put_all};
use refusing::Texts;
use showing::Ask;
use std::alloc::{AllocError, Global};

const USAGE: &[u8] =
    b"usage: jobk COMMAND --names FOLDER [EVENTS] [OPTION].. | jobk COMMAND --names WORLD EVENTS [OPTION]..
       where COMMAND is run, explore or show
";

/// Returns true if a command accepts `--names`.
pub fn takes_names(command: &str) -> bool
    ensures { result ≡ takes_names_of command.now }
{
    matches!(command, "run" | "explore" | "show")
}

/// Returns true if an argument is an option, and not the name of a file.
fn is_option(word: &str) -> bool
    ensures { result ≡ is_option_of word.now }
{
    matches!(word.as_bytes(), [b'-', _, ..])
}

/// Where a world and its events are, and the options after them.
#[derive(Clone, Copy)]
pub struct Place<'a> {
    /// A file, or a folder with a file `world`.
    world: &'a str,
    /// A file; `None` if it is the file `events` of the folder.
    events: Option<&'a str>,
    options: &'a [&'a str],
}

/// Returns what the arguments after `--names` name; `None` if they do not begin with a file or a folder.
fn place_in<'a>(words: &'a [&'a str]) -> Option<Place<'a>>
    ensures { option_map said result ≡ place_in_words (map (λ w. w.now) words.entry.now) }
{
    let (world, more) = words.split_first()?;
    if is_option(world) {
        return None;
    }
    match more.split_first() {
        Some((events, options)) if !is_option(events) => Some(Place {
            world,
            events: Some(events),
            options,
        }),
        _ => Some(Place {
            world,
            events: None,
            options: more,
        }),
    }
}

/// Returns the name of a file in a folder. The name of the folder may end with `/`.
fn file_in(alloc: Global, folder: &str, file: &str) -> Result<String, AllocError>
    ensures { IfOk result (λ name. string_bytes name ≡ in_folder folder.now file.now) }
{
    match folder.as_bytes() {
        [.., b'/'] => format!(in alloc; "{folder}{file}"),
        _ => format!(in alloc; "{folder}/{file}"),
    }
}

/// Returns the arguments of a command on the files `world` and `events`.
fn words_over_texts<'a>(
    alloc: Global,
    command: &'a str,
    options: &'a [String],
) -> Result<Vec<&'a str>, AllocError>
    ensures { IfOk result (λ words. map (λ w. w.now) words.items ≡ over_texts command.entry.now (map string_bytes options.entry.now)) }
{
    let mut words = Vec::new(alloc);
    words.push(command)?;
    words.push("world")?;
    words.push("events")?;
    for option in options {
        words.push(option.as_str())?;
    }
    Ok(words)
}

/// Writes which words of a text are rejected, as far as the error output takes it and there is memory.
fn tell_refused<E: Sink>(texts: &Texts<'_>, err: &mut E) {
    if let Ok(Some(told)) = texts.told() {
        let _ = put_all(err, told.as_slice());
    }
}

/// Runs a command on texts, with numbers in place of the names in its options.
fn serve_texts<'a, O: Sink, E: Sink, P: Progress + Ask>(
    alloc: Global,
    command: &'a str,
    options: &'a [&'a str],
    texts: &Texts<'a>,
    out: &mut O,
    err: &mut E,
    person: &mut P,
) -> Result<u8, AllocError>
    ensures ok { IfOk result (λ status. ServesTexts (named_files texts.now) command.entry.now (map (λ w. w.now) options.entry.now) out.old out.new (O.seen out.old) (O.seen out.new) status) }
    ensures err { OnErr result (out.new ≡ out.old) }
{
    let plain = plain_options(alloc, command, options)?;
    let words = words_over_texts(alloc, command, plain.as_slice())?;
    let status = serve_command(alloc, words.as_slice(), texts, None, out, err, person);
    if status == 1 {
        tell_refused(texts, err);
    }
    Ok(status)
}

/// Reads the texts at a place, and runs a command on them.
fn serve_place<'a, F: ReadFiles, O: Sink, E: Sink, P: Progress + Ask>(
    alloc: Global,
    command: &'a str,
    place: Place<'a>,
    files: &F,
    out: &mut O,
    err: &mut E,
    person: &mut P,
) -> Result<u8, AllocError>
    ensures ok { IfOk result (λ status. ServesNamed (F.contents files.now) command.entry.now (Some (said place.entry)) out.old out.new (O.seen out.old) (O.seen out.new) status) }
    ensures err { OnErr result (out.new ≡ out.old) }
{
    let in_folder = file_in(alloc, place.world, "world")?;
    let events_in_folder = file_in(alloc, place.world, "events")?;
    let (world, events) = match place.events {
        Some(events) => ((place.world, in_folder.as_str()), events),
        None => ((in_folder.as_str(), place.world), events_in_folder.as_str()),
    };
    let texts = match Texts::read(alloc, files, world, events) {
        Ok(texts) => texts,
        Err(failure) => return Ok(failure.end(USAGE, err)),
    };
    serve_texts(alloc, command, place.options, &texts, out, err, person)
}

/// Runs a command with `--names`, by the arguments after that option: a folder or a world, its events, if they are not
/// those of the folder, and options. If a text is rejected, the rejected words are written after the message of the
/// command.
///
/// Returns the exit status of the command; 2 if no file is named; 3 if a file cannot be read or there is no memory.
pub fn serve_named<'a, F: ReadFiles, O: Sink, E: Sink, P: Progress + Ask>(
    alloc: Global,
    command: &'a str,
    words: &'a [&'a str],
    files: &F,
    out: &mut O,
    err: &mut E,
    person: &mut P,
) -> u8
    ensures { ServesNamed (F.contents files.now) command.entry.now (place_in_words (map (λ w. w.now) words.entry.now)) out.old out.new (O.seen out.old) (O.seen out.new) result }
{
    let Some(place) = place_in(words) else {
        return FileFailure::Usage.end(USAGE, err);
    };
    match serve_place(alloc, command, place, files, out, err, person) {
        Ok(status) => status,
        Err(_) => FileFailure::Memory.end(USAGE, err),
    }
}
