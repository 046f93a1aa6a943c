//! The arguments of the command line.

ghost use Rattle.std.specs.Prelude.{◌≡◌, IfOk, MatchResult, None, OnOk, Some, map, option_map};
ghost use Rattle.clap.specs.Lexer.{name_and_value};
ghost use Rattle.clap.specs.Words.{app_of, found_of, rows_of};
ghost use Rattle.exploring.specs.Words.{asked_by_parts, asked_in, awaits_text, command_line as command_line_asked, nothing_parted, option_named, parted, parted_as, said, with_any, with_text, with_use, with_word, word_of, written_named};

use clap::{ArgAction, ArgMatches, Command};
use inputs::{NoRequest, command, is_used, named_files, number, value_of};
use std::alloc::{AllocError, Global};

/// An option whose value is a text, which may begin with a hyphen.
#[derive(Clone, Copy)]
pub enum Texted {
    /// A text to find in the lines of traces.
    Find,
    /// An event to insert anywhere.
    Anywhere,
}

impl Texted {
    /// Returns the option as it is written.
    fn word(self) -> &'static str
        ensures { result.now ≡ word_of self }
    {
        match self {
            Texted::Find => "--find",
            Texted::Anywhere => "--anywhere",
        }
    }

    /// Returns the option with this name, if there is one.
    pub fn named(name: &str) -> Option<Texted>
        ensures { result ≡ option_named name.now }
    {
        match name {
            "--find" => Some(Texted::Find),
            "--anywhere" => Some(Texted::Anywhere),
            _ => None,
        }
    }
}

/// What the next argument is.
#[derive(Clone, Copy)]
pub enum Next {
    /// An option, its value, or the name of a file.
    Any,
    /// The text of this option.
    Behind(Texted),
    /// The name of a file, after `--`.
    File,
}

impl Next {
    /// Returns true if it is the text of an option.
    fn is_text(self) -> bool
        ensures { result ≡ awaits_text self }
    {
        match self {
            Next::Behind(_) => true,
            Next::Any | Next::File => false,
        }
    }
}

/// Arguments, with the texts of `--find` and `--anywhere` separated from the others.
#[derive(Drop)]
pub struct Parts<'a> {
    finds: Vec<&'a str>,
    anywhere: Vec<&'a str>,
    /// All other arguments; each use of `--find` and `--anywhere` is left as a flag.
    others: Vec<&'a str>,
    next: Next,
}

/// Returns what comes before the first `=` of an argument, and what comes after it. Without a `=`, returns the whole
/// argument.
fn name_and_text<'a>(word: &'a str) -> (&'a str, Option<&'a str>)
    ensures { (result.0.now, option_map (λ text. text.now) result.1) ≡ name_and_value word.entry.now }
{
    match word.split_once('=') {
        Some((name, text)) => (name, Some(text)),
        None => (word, None),
    }
}

impl<'a> Parts<'a> {
    /// Returns the parts before the first argument.
    fn new(alloc: Global) -> Self
        ensures { parted_as result ≡ nothing_parted }
    {
        Parts {
            finds: Vec::new(alloc),
            anywhere: Vec::new(alloc),
            others: Vec::new(alloc),
            next: Next::Any,
        }
    }

    /// Adds the text of an option.
    fn take_text(&mut self, option: Texted, text: &'a str) -> Result<(), AllocError>
        ensures { OnOk result (parted_as self.new ≡ with_text option (parted_as self.old) text.entry.now) }
    {
        match option {
            Texted::Find => self.finds.push(text)?,
            Texted::Anywhere => self.anywhere.push(text)?,
        }
        Ok(())
    }

    /// Adds a use of an option, with its text if that is in the same argument.
    fn take_use(&mut self, option: Texted, text: Option<&'a str>) -> Result<(), AllocError>
        ensures { OnOk result (parted_as self.new ≡ with_use (parted_as self.old) option (option_map (λ t. t.now) text.entry)) }
    {
        self.others.push(option.word())?;
        match text {
            Some(text) => self.take_text(option, text)?,
            None => self.next = Next::Behind(option),
        }
        Ok(())
    }

    /// Adds an option, its value, or the name of a file.
    fn take_any(&mut self, word: &'a str) -> Result<(), AllocError>
        ensures { OnOk result (parted_as self.new ≡ with_any (parted_as self.old) word.entry.now) }
    {
        let (name, text) = name_and_text(word);
        if let Some(option) = Texted::named(name) {
            return self.take_use(option, text);
        }
        self.others.push(word)?;
        if word == "--" {
            self.next = Next::File;
        }
        Ok(())
    }

    /// Adds the next argument.
    fn take(&mut self, word: &'a str) -> Result<(), AllocError>
        ensures { OnOk result (parted_as self.new ≡ with_word (parted_as self.old) word.entry.now) }
    {
        match self.next {
            Next::Any => self.take_any(word)?,
            Next::Behind(option) => {
                self.next = Next::Any;
                self.take_text(option, word)?;
            }
            Next::File => self.others.push(word)?,
        }
        Ok(())
    }
}

/// Separates the texts of `--find` and `--anywhere` from the other arguments.
///
/// Clap gets only the other arguments, because its definitions have no options whose values begin with a hyphen.
pub fn parts_of<'a>(alloc: Global, words: &[&'a str]) -> Result<Parts<'a>, AllocError>
    ensures { IfOk result (λ parts. parted_as parts ≡ parted (map (λ w. w.now) words.now)) }
{
    let mut parts = Parts::new(alloc);
    for word in words {
        parts.take(word)?;
    }
    Ok(parts)
}

/// What is written to the output.
#[derive(Clone, Copy)]
pub enum Written {
    /// The report on all schedules.
    Report,
    /// The first schedule that comes to rest.
    Rest,
    /// The first schedule that is still going.
    Going,
    /// The first schedule with the first text of `--find` that any schedule has.
    Find,
    /// The first schedule of the outcome with this number, from 1.
    Outcome(u64),
}

impl Written {
    /// Returns the schedule that a word names, if it names one.
    pub fn named(word: &str) -> Option<Written>
        ensures { result ≡ written_named word.now }
    {
        match word {
            "rest" => Some(Written::Rest),
            "going" => Some(Written::Going),
            "find" => Some(Written::Find),
            _ => match number(word) {
                Some(number) if number > 0 => Some(Written::Outcome(number)),
                _ => None,
            },
        }
    }
}

/// What the arguments ask for.
#[derive(Drop)]
pub struct Request<'a, 'w> {
    pub world: &'a str,
    pub events: &'a str,
    /// The value of `--ticks`, as it is written.
    pub ticks: Option<&'a str>,
    /// The value of `--upto`, as it is written.
    pub upto: Option<&'a str>,
    /// The value of `--states`, as it is written.
    pub states: Option<&'a str>,
    /// The text of each `--find`.
    pub finds: &'a [&'w str],
    /// The text of each `--anywhere`.
    pub anywhere: &'a [&'w str],
    pub must_halt: bool,
    pub all: bool,
    pub outcomes: bool,
    /// The value of `--write`, as it is written.
    pub write: Option<&'a str>,
}

/// The program's options, each with the action of its use.
const OPTIONS: [(&str, ArgAction); 9] = [
    ("ticks", ArgAction::Set),
    ("upto", ArgAction::Set),
    ("states", ArgAction::Set),
    ("anywhere", ArgAction::Count),
    ("find", ArgAction::Count),
    ("must-halt", ArgAction::SetTrue),
    ("all", ArgAction::SetTrue),
    ("outcomes", ArgAction::SetTrue),
    ("write", ArgAction::Set),
];

/// Returns the definition of the command line.
fn command_line<'a>(alloc: Global) -> Result<Command<'a>, AllocError>
    ensures { IfOk result (λ c. app_of c ≡ command_line_asked) }
{
    command(alloc, "explore", &OPTIONS)
}

/// Returns what the texts of `--find` and `--anywhere` and the matches of the other arguments ask for.
fn request_of<'a, 'w>(
    finds: &'a [&'w str],
    anywhere: &'a [&'w str],
    matches: &ArgMatches<'a>,
) -> Result<Request<'a, 'w>, NoRequest>
    ensures { MatchResult result
        (λ r. asked_in (map (λ t. t.now) finds.entry.now) (map (λ t. t.now) anywhere.entry.now) (rows_of (found_of matches.now)) ≡ Some (said r))
        (λ why. asked_in (map (λ t. t.now) finds.entry.now) (map (λ t. t.now) anywhere.entry.now) (rows_of (found_of matches.now)) ≡ None) }
{
    let (world, events) = named_files(matches)?;
    Ok(Request {
        world,
        events,
        ticks: value_of(matches, "ticks"),
        upto: value_of(matches, "upto"),
        states: value_of(matches, "states"),
        finds,
        anywhere,
        must_halt: is_used(matches, "must-halt"),
        all: is_used(matches, "all"),
        outcomes: is_used(matches, "outcomes"),
        write: value_of(matches, "write"),
    })
}

/// Returns what the arguments ask for; they don't include the program's name.
pub fn requested<'a, 'w>(alloc: Global, parts: &'a Parts<'w>) -> Result<Request<'a, 'w>, NoRequest>
    ensures { MatchResult result
        (λ r. asked_by_parts (parted_as parts.entry.now) ≡ Some (said r))
        (λ why. why ≡ NoRequest.Usage → asked_by_parts (parted_as parts.entry.now) ≡ None) }
{
    if parts.next.is_text() {
        return Err(NoRequest::Usage);
    }
    let matches = command_line(alloc)?.try_get_matches_from(parts.others.as_slice())?;
    request_of(parts.finds.as_slice(), parts.anywhere.as_slice(), &matches)
}
