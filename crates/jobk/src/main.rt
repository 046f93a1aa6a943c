//! `jobk`: runs a world of small programs over a list of events, and prints the trace; audits and explains a trace;
//! explores all schedules; shows the state at an event.
//!
//! No clause: that `main` hands the host's arguments, files and outputs to `serve`, and exits with the status that it
//! returns. Every case of `tests/run` tests it. Branches that lend different things cannot meet again, so `main` calls
//! `serve_host` in three places.
#![tactic(auto)]

mod person;

use commands::serve;
use inputs::{HostFiles, WordsFault, as_texts, read_words};
use kernel::WriteSink;
use person::Person;
use std::hash::RandomState;
use std::process::ExitCode;

/// Runs what the arguments ask for, and returns the exit status.
fn serve_host(rt: &HostRuntime, words: Result<&[&str], WordsFault>) -> u8 {
    let mut out = WriteSink::new(rt.stdout());
    let mut err = WriteSink::new(rt.stderr());
    serve(
        rt.alloc(),
        words,
        &HostFiles { rt },
        RandomState::new(rt).ok(),
        &mut out,
        &mut err,
        &mut Person::new(rt),
    )
}

fn main(rt: HostRuntime) -> ExitCode {
    let status = match read_words(&rt) {
        Ok(words) => match as_texts(rt.alloc(), words.as_slice()) {
            Ok(texts) => serve_host(&rt, Ok(texts.as_slice())),
            Err(fault) => serve_host(&rt, Err(fault)),
        },
        Err(fault) => serve_host(&rt, Err(fault)),
    };
    ExitCode::from(status)
}
