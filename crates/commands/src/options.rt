//! The options of a command on texts with names. Events among the options may have names, too.

ghost use Rattle.std.specs.Prelude.{◌≡◌, ◌∷◌, ◌++◌, None, IfOk, List, [], MatchOption, map};
ghost use Rattle.std.specs.String.{string_bytes};
ghost use Rattle.exploring.specs.Words.{nothing_parted, with_cut};
ghost use Rattle.exploring.specs.declared.words.Next.TheVariants.{Any};
ghost use Rattle.commands.specs.Options.{ArePlain, EndsPlain, first_option, read as read_as};

use exploring::{Next, Texted};
use naming::name_text;
use std::alloc::{AllocError, Global};

/// The part of an argument before its event, and the event, if it has one; and what the next argument is.
type Read<'a> = (Option<(&'a str, &'a str)>, Next);

/// Returns what the argument after an argument without `=` is.
fn behind_whole(word: &str) -> Next
    ensures { result ≡ (with_cut nothing_parted word.now (word.now, None)).next }
{
    match Texted::named(word) {
        Some(option) => Next::Behind(option),
        None if word == "--" => Next::File,
        None => Next::Any,
    }
}

/// Reads an argument that may be an option.
fn read_any<'a>(word: &'a str) -> Read<'a>
    ensures event { MatchOption result.0 ((read_as Any word.entry.now).anywhere ≡ []) (λ e. (word.entry.now ≡ e.0.now ++ e.1.now) × ((read_as Any word.entry.now).anywhere ≡ e.1.now ∷ [])) }
    ensures next { result.1 ≡ (read_as Any word.entry.now).next }
{
    let Some((name, text)) = word.split_once('=') else {
        return (None, behind_whole(word));
    };
    if name == "--anywhere" {
        (Some(("--anywhere=", text)), Next::Any)
    } else {
        (None, Next::Any)
    }
}

/// Returns what the first option of a command is. Only `explore` has events among its options. The options of other
/// commands stay as they are, so they are read like names of files.
fn first_of(command: &str) -> Next
    ensures { result ≡ first_option command.now }
{
    if command == "explore" {
        Next::Any
    } else {
        Next::File
    }
}

/// Reads an argument. `next` says what it is.
fn read<'a>(next: Next, word: &'a str) -> Read<'a>
    ensures event { MatchOption result.0 ((read_as next word.entry.now).anywhere ≡ []) (λ e. (word.entry.now ≡ e.0.now ++ e.1.now) × ((read_as next word.entry.now).anywhere ≡ e.1.now ∷ [])) }
    ensures next { result.1 ≡ (read_as next word.entry.now).next }
{
    match next {
        Next::Any => read_any(word),
        Next::Behind(Texted::Find) => (None, Next::Any),
        Next::Behind(Texted::Anywhere) => (Some(("", word)), Next::Any),
        Next::File => (None, Next::File),
    }
}

/// Returns an event after the text before it, with numbers in place of its names.
fn plain_event(alloc: Global, before: &str, event: &str) -> Result<String, AllocError>
    ensures { IfOk result (λ plain. EndsPlain before.now event.now (string_bytes plain)) }
{
    let named = name_text(alloc, event.as_bytes())?;
    let plain = String::from_utf8_lossy(alloc, named.text.as_slice())?;
    format!(in alloc; "{before}{plain}")
}

/// Returns the options of a command, with numbers in place of the names in the events among them.
pub fn plain_options(
    alloc: Global,
    command: &str,
    options: &[&str],
) -> Result<Vec<String>, AllocError>
    ensures { IfOk result (λ plain. ArePlain (first_option command.now) (map (λ w. w.now) options.now) (map string_bytes plain.items)) }
{
    let mut plain = Vec::new(alloc);
    let mut next = first_of(command);
    for word in options {
        let (parts, behind) = read(next, word);
        plain.push(match parts {
            Some((before, event)) => plain_event(alloc, before, event)?,
            None => String::from_str(alloc, word)?,
        })?;
        next = behind;
    }
    Ok(plain)
}
