//! The answers to a page.

ghost use Rattle.page.specs.Answers.{AreServed, IsAnswered, IsGiven};
ghost use Rattle.page.specs.Files.{files_of};

use crate::files::TextFiles;
use crate::nobody::Nobody;
use crate::words::words_in;
use commands::serve;
use inputs::WordsFault;
use kernel::WriteSink;
use std::alloc::Global;
use std::hash::RandomState;

/// The output and the exit status of a command.
#[derive(Drop)]
pub struct Answer {
    /// The bytes of standard output.
    pub put: Vec<u8>,
    /// The bytes of standard error.
    pub told: Vec<u8>,
    pub status: u8,
}

/// Runs the command with these arguments, or with the reason why there are none.
fn served(
    alloc: Global,
    words: Result<&[&str], WordsFault>,
    files: &TextFiles<'_>,
    keys: Option<RandomState>,
) -> Answer
    ensures { AreServed (files_of files.now.trace.now files.now.world.now files.now.events.now) words.entry result.put.items result.status }
{
    let mut out = WriteSink::new(Vec::<u8>::new(alloc));
    let mut err = WriteSink::new(Vec::<u8>::new(alloc));
    let status = serve(alloc, words, files, keys, &mut out, &mut err, &mut Nobody);
    Answer {
        put: out.into_writer(),
        told: err.into_writer(),
        status,
    }
}

/// Runs the command with the arguments in a text, each of which ends with a zero byte.
pub fn answer_to(
    alloc: Global,
    words: &[u8],
    files: &TextFiles<'_>,
    keys: Option<RandomState>,
) -> Answer
    ensures { IsAnswered words.now files.now.trace.now files.now.world.now files.now.events.now result.put.items result.status }
{
    match words_in(alloc, words) {
        Ok(words) => served(alloc, Ok(words.as_slice()), files, keys),
        Err(fault) => served(alloc, Err(fault), files, keys),
    }
}

/// Copies bytes to the beginning of a buffer, if all of them fit. Returns the number of bytes, even if they don't fit.
pub fn give(bytes: &[u8], room: &mut [u8]) -> usize
    ensures { IsGiven bytes.now room.old room.new result }
{
    let count = bytes.len();
    if count <= room.len() {
        room[..count].copy_from_slice(bytes);
    }
    count
}
