//! An event text that comes in pieces.

ghost use Rattle.std.specs.Prelude.{◌≤◌};

use crate::USAGE;
use inputs::{FileFailure, ReadFiles, named_file, tell};
use kernel::Sink;
use std::alloc::Global;
use text::{EventReader, TextFault};

/// The length of a piece, in bytes.
const PIECE: usize = 7;

/// Reports what the reader returned.
fn tell_answer<O: Sink>(answer: Result<(), TextFault>, out: &mut O) {
    match answer {
        Ok(()) => tell("ok", out),
        Err(fault) => tell(fault, out),
    }
}

/// Feeds an event text for a world of two consoles to a reader, in pieces of seven bytes. Goes on after a fault,
/// because the reader must return it again. Reports what each piece returned, and at the end the number of events, or
/// the fault.
fn feed<O: Sink>(alloc: Global, text: &[u8], out: &mut O) {
    let mut reader = EventReader::new(alloc, 2);
    for piece in text.chunks(PIECE) {
        tell_answer(reader.feed(piece), out);
    }
    match reader.finish() {
        Ok(events) => tell(format_args!("{} events", events.len()), out),
        Err(fault) => tell(fault, out),
    }
}

/// Feeds the file that the arguments name to a reader. Returns the exit status.
pub fn serve_feed<'a, F: ReadFiles, O: Sink, E: Sink>(
    alloc: Global,
    words: &'a [&'a str],
    files: &F,
    out: &mut O,
    err: &mut E,
) -> u8 {
    let name = match named_file(alloc, "feed", "events", words) {
        Ok(name) => name,
        Err(why) => return FileFailure::from(why).end(USAGE, err),
    };
    match files.read_file(name) {
        Ok(text) => {
            feed(alloc, text.as_slice(), out);
            0
        }
        Err(why) => FileFailure::Unread(why).end(USAGE, err),
    }
}
