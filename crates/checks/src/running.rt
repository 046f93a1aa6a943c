//! Runs on a table of processes in a vector.

use crate::USAGE;
use crate::sorted_table::SortedTable;
use inputs::{FileFailure, ReadFiles, named_world_and_events, read_inputs, tell};
use kernel::{Sink, run_read};
use std::alloc::Global;

/// Runs the two files that the arguments name, as `jobk run` does. Returns the exit status.
pub fn serve_run<'a, F: ReadFiles, O: Sink, E: Sink>(
    alloc: Global,
    words: &'a [&'a str],
    files: &F,
    out: &mut O,
    err: &mut E,
) -> u8 {
    let (world, events) = match named_world_and_events(alloc, "run", words) {
        Ok(names) => names,
        Err(why) => return FileFailure::from(why).end(USAGE, err),
    };
    let inputs = match read_inputs(alloc, files, world, events) {
        Ok(inputs) => inputs,
        Err(why) => {
            why.tell(err);
            return why.status();
        }
    };
    match run_read::<SortedTable, _>(alloc, &inputs.world, &inputs.events, out) {
        Ok(_) => 0,
        Err(why) => {
            tell(format_args!("jobk: {why}"), err);
            3
        }
    }
}
