//! Tests of what the output of `jobk` can't show: reads of slots, texts in pieces, failed allocations. The program is
//! for tests over files: it runs a world on another table of processes than `jobk`, or feeds an event text to its
//! reader in pieces.
//!
//! `SortedTable`, a vector of records in rising order, has the contracts of `ProcessTable`. It counts no slots, and
//! keeps no memory of removed processes, so a child's reused memory is compared with fresh memory. `RefusingTable`
//! fails at a chosen count, because `Global` has no state and cannot be made to refuse. A test has one assertion, of a
//! conjunction or in a loop: each is a branch that carries all that is known, so proof time grows faster than their
//! number.
#![tactic(auto)]

#[cfg(test)]
mod counts;
#[cfg(test)]
mod explorations;
mod feeding;
#[cfg(test)]
mod group_counts;
#[cfg(test)]
mod pieces;
#[cfg(test)]
mod refusals;
#[cfg(test)]
mod refusing_table;
mod running;
mod sorted_table;

use crate::feeding::serve_feed;
use crate::running::serve_run;
use inputs::{FileFailure, HostFiles, ReadFiles, WordsFault, as_texts, read_words};
use kernel::{Sink, WriteSink};
use std::alloc::Global;
use std::process::ExitCode;

const USAGE: &[u8] = b"usage: checks run WORLD EVENTS | checks feed EVENTS\n";

/// Does what the arguments ask for. Returns the exit status.
fn serve<F: ReadFiles, O: Sink, E: Sink>(
    alloc: Global,
    words: &[&str],
    files: &F,
    out: &mut O,
    err: &mut E,
) -> u8 {
    match words {
        [command, more @ ..] if *command == "run" => serve_run(alloc, more, files, out, err),
        [command, more @ ..] if *command == "feed" => serve_feed(alloc, more, files, out, err),
        _ => FileFailure::Usage.end(USAGE, err),
    }
}

/// Does what the command line asks for. Returns the exit status, or an error if the arguments aren't text, or there is
/// no memory for them.
fn serve_host(rt: &HostRuntime) -> Result<u8, WordsFault> {
    let words = read_words(rt)?;
    let texts = as_texts(rt.alloc(), words.as_slice())?;
    let mut out = WriteSink::new(rt.stdout());
    let mut err = WriteSink::new(rt.stderr());
    Ok(serve(
        rt.alloc(),
        texts.as_slice(),
        &HostFiles { rt },
        &mut out,
        &mut err,
    ))
}

fn main(rt: HostRuntime) -> ExitCode {
    let status = match serve_host(&rt) {
        Ok(status) => status,
        Err(WordsFault::NotText) => 2,
        Err(WordsFault::Memory) => {
            FileFailure::Memory.end(USAGE, &mut WriteSink::new(rt.stderr()))
        }
    };
    ExitCode::from(status)
}
