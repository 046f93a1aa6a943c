//! The inputs of the commands: arguments of the command line, files of the host, a world and its events by the names of
//! their files, and numbers.
//!
//! `as_texts` returns the arguments in their order. `command`, `value_of`, `words_behind`, `is_used`, `named_file`,
//! `named_files` follow clap's definition of a command line. `read_inputs` returns the world and events that two files
//! describe. `ReadFiles::read_file` returns the bytes of a file, or why it cannot be read (`IsReadFault`). It may fail
//! with `Memory` for any file; the host's implementation distinguishes the two faults (`ReadFault::of`).
//! `FileFailure::end` writes the message, and returns the exit status.
//! No clause: `read_words`, and the function `tell`.
#![tactic(auto)]

pub mod command_line;
mod failure;
pub mod files;
mod words;

ghost use Rattle.std.specs.Prelude.{◌≡◌, ◌≤◌, Ok, IfOk, MatchResult, length, option_map};
ghost use Rattle.text.specs.WorldTexts.{world_text as world_of_text};
ghost use Rattle.text.specs.EventTexts.{event_text, most_events};
ghost use Rattle.inputs.specs.Statuses.{status_of};
ghost use Rattle.inputs.specs.Reads.{Reads, RefusesEvents, RefusesWorld};
ghost use Rattle.inputs.specs.Numbers.{number_of, number_up_to as number_up_to_of};

pub use command_line::{WordsFault, as_texts, read_words};
pub use failure::{FileFailure, put_both, tell};
pub use files::{HostFiles, ReadFault, ReadFiles};
use std::alloc::Global;
use text::{EventList, TextFault, World, read_events, read_world};
use thiserror::Error;
use trace::Sink;
pub use words::{
    NoRequest, command, command_with_file, command_with_flag, is_used, named_file, named_files,
    named_world_and_events, value_of, words_behind,
};

/// A world and its events.
#[derive(Drop)]
pub struct Inputs {
    /// The text of the world.
    pub world_text: Vec<u8>,
    pub world: World,
    pub events: EventList,
}

/// Why a world and its events cannot be read.
#[derive(Clone, Copy, Debug, Error)]
pub enum InputFault<'a> {
    /// One of the files cannot be read.
    #[error("{0}")]
    Unread(ReadFault<'a>),
    /// The text of the world is rejected.
    #[error("world: {0}")]
    World(TextFault),
    /// The text of the events is rejected.
    #[error("events: {0}")]
    Events(TextFault),
    /// There was no memory.
    #[error("out of memory")]
    Memory,
}

impl InputFault<'_> {
    /// Returns the exit status: 1 for a rejected text, 3 for an I/O error or if there is no memory.
    pub fn status(self) -> u8
        ensures { result ≡ status_of self.entry }
    {
        match self {
            InputFault::World(_) | InputFault::Events(_) => 1,
            InputFault::Unread(_) | InputFault::Memory => 3,
        }
    }

    /// Writes the message, as far as the error output takes it. Allocates no memory.
    pub fn tell<E: Sink>(self, err: &mut E) {
        match self {
            InputFault::Unread(why) => {
                let _ = why.tell(err);
            }
            _ => tell(format_args!("jobk: {self}"), err),
        }
    }
}

/// Returns the world that a text describes.
fn world_of<'a>(alloc: Global, text: &[u8]) -> Result<World, InputFault<'a>>
    ensures { MatchResult result (λ world. world_of_text text.now ≡ Ok world) (RefusesWorld (world_of_text text.now)) }
{
    match read_world(alloc, text) {
        Ok(world) => Ok(world),
        Err(fault) => Err(fault.unless_memory(InputFault::World(fault), InputFault::Memory)),
    }
}

/// Returns the events that a text describes, for a world.
fn events_of<'a>(alloc: Global, world: &World, text: &[u8]) -> Result<EventList, InputFault<'a>>
    ensures events { MatchResult result (λ events. event_text world.now.consoles text.now ≡ Ok events) (RefusesEvents (event_text world.now.consoles text.now)) }
    ensures within { IfOk result (λ events. length events ≤ most_events) }
{
    match read_events(alloc, world.consoles(), text) {
        Ok(events) => Ok(events),
        Err(fault) => Err(fault.unless_memory(InputFault::Events(fault), InputFault::Memory)),
    }
}

/// Reads a world and its events from files with these names. Reads both files, the world first, before it checks either
/// text. Fails if a file cannot be read, if a text is rejected, or if there is no memory.
pub fn read_inputs<'a, F: ReadFiles>(
    alloc: Global,
    files: &F,
    world: &'a str,
    events: &'a str,
) -> Result<Inputs, InputFault<'a>>
    ensures reads { Reads (F.contents files.now) (world.entry.now, events.entry.now) result }
    ensures text { IfOk result (λ inputs. world_of_text inputs.world_text.items ≡ Ok inputs.world) }
    ensures within { IfOk result (λ inputs. length inputs.events ≤ most_events) }
{
    let world_text = files.read_file(world).map_err(InputFault::Unread)?;
    let event_text = files.read_file(events).map_err(InputFault::Unread)?;
    let world = world_of(alloc, world_text.as_slice())?;
    let events = events_of(alloc, &world, event_text.as_slice())?;
    Ok(Inputs {
        world_text,
        world,
        events,
    })
}

/// Returns the number that a word of decimal digits denotes. `None` if the word is empty or has another byte, or if
/// the number is 2^64 or more.
pub fn number(word: &str) -> Option<u64>
    ensures { result ≡ number_of word.now }
{
    if word.starts_with('+') {
        return None;
    }
    word.parse::<u64>().ok()
}

/// Why a word is not a number up to a limit.
#[derive(Clone, Copy)]
pub enum NumberFault {
    /// It is not a number below 2^64 in decimal digits.
    NoNumber,
    /// It is this number, which is above the limit.
    Above(u64),
}

/// Returns the number that a word denotes, if it is at most `most`; `unnamed` if there is no word.
pub fn number_up_to(word: Option<&str>, unnamed: u64, most: u64) -> Result<u64, NumberFault>
    ensures is { result ≡ number_up_to_of unnamed most (option_map (λ w. w.now) word.entry) }
    ensures within { unnamed ≤ most → IfOk result (λ n. n ≤ most) }
{
    let Some(word) = word else {
        return Ok(unnamed);
    };
    match number(word) {
        Some(number) if number <= most => Ok(number),
        Some(number) => Err(NumberFault::Above(number)),
        None => Err(NumberFault::NoNumber),
    }
}
