//! The command `show`: its messages and exit statuses.

ghost use Rattle.std.specs.Prelude.{◌≡◌, ◌≤◌, IfOk, MatchResult, None, Some, length, option_map};
ghost use Rattle.inputs.specs.Numbers.{number_asked};
ghost use Rattle.text.specs.EventTexts.{most_events};
ghost use Rattle.showing.specs.Statuses.{status_of};

use crate::hearing::Telling;
use crate::replay::{Replay, past_at, run_to};
use crate::run_explainer::TOLD_AT_ONCE;
use crate::state::put_state;
use crate::stepping::{Ask, Steps, put_text};
use crate::words::{Request, requested};
use inputs::{
    InputFault, Inputs, NoRequest, NumberFault, ReadFault, ReadFiles, number, number_up_to,
    read_inputs, tell,
};
use kernel::{Sink, SinkFault};
use posix::Pid;
use std::alloc::{AllocError, Global};
use telling::{Teller, View};
use text::EventList;
use thiserror::Error;
use wording::{Listing, Prose, process_in};

/// An error, for which the program exits with a status other than 0.
#[derive(Clone, Copy, Debug, Error)]
pub enum Failure<'a> {
    #[error("usage: jobk show WORLD EVENTS [--at E] [--calls | --trace] [--process P].. [--step]")]
    Usage,
    #[error("jobk: --at: expected an event number, or 0 for the start")]
    At,
    #[error("jobk: --at {0}: expected at most {1}, the number of events")]
    AtAbove(u64, u64),
    #[error("jobk: --process: expected a process number")]
    Process,
    #[error("jobk: --step needs a terminal, and cannot be combined with --at, --calls or --trace")]
    Step,
    #[error("jobk: {0}")]
    Input(#[from] InputFault<'a>),
    #[error("jobk: out of memory")]
    Memory,
    #[error("jobk: cannot write")]
    Write,
    #[error("jobk: {0}")]
    Unread(#[from] ReadFault<'a>),
}

impl From<AllocError> for Failure<'_> {
    fn from(_: AllocError) -> Self {
        Failure::Memory
    }
}

impl From<SinkFault> for Failure<'_> {
    fn from(_: SinkFault) -> Self {
        Failure::Write
    }
}

impl From<NoRequest> for Failure<'_> {
    fn from(why: NoRequest) -> Self {
        match why {
            NoRequest::Usage => Failure::Usage,
            NoRequest::Memory => Failure::Memory,
        }
    }
}

impl Failure<'_> {
    /// Returns the exit status of the program.
    fn status(self) -> u8
        ensures least { 1 ≤ result }
        ensures most { result ≤ 3 }
        ensures is { result ≡ status_of self.entry }
    {
        match self {
            Failure::Input(why) => why.status(),
            Failure::Usage
            | Failure::At
            | Failure::AtAbove(_, _)
            | Failure::Process
            | Failure::Step => 2,
            Failure::Unread(_) | Failure::Memory | Failure::Write => 3,
        }
    }
}

/// Returns the number of the event after which the state is shown: the value of `--at`, or the last event.
fn at_of<'a>(word: Option<&str>, events: u64) -> Result<u64, Failure<'a>>
    ensures within { IfOk result (λ at. at ≤ events) }
    ensures asked { MatchResult result
        (λ at. number_asked events events (option_map (λ w. w.now) word.entry) ≡ Some at)
        (λ why. (status_of why ≡ 2) × (number_asked events events (option_map (λ w. w.now) word.entry) ≡ None)) }
{
    match number_up_to(word, events, events) {
        Ok(at) => Ok(at),
        Err(NumberFault::NoNumber) => Err(Failure::At),
        Err(NumberFault::Above(at)) => Err(Failure::AtAbove(at, events)),
    }
}

/// Returns the processes with the numbers in these words.
fn processes_of<'a>(alloc: Global, words: &[&str]) -> Result<Vec<Pid>, Failure<'a>> {
    let mut pids = Vec::new(alloc);
    for word in words {
        let Some(pid) = number(word).and_then(|number| process_in(number.into())) else {
            return Err(Failure::Process);
        };
        pids.push(pid).map_err(|_| Failure::Memory)?;
    }
    Ok(pids)
}

/// Runs the events up to the event with number `last`, and puts their lines.
fn put_events<'a, O: Sink>(
    replay: &mut Replay,
    telling: &mut Telling<'_, '_>,
    events: &EventList,
    last: u64,
    out: &mut O,
) -> Result<(), Failure<'a>>
    requires { length events.now ≤ most_events }
{
    for _ in 0..=last / TOLD_AT_ONCE {
        let next = replay.kernel.events().saturating_add(TOLD_AT_ONCE);
        run_to(replay, events, next.min(last), telling)?;
        put_text(&mut telling.teller.text, out)?;
    }
    Ok(())
}

/// Puts the current state.
fn put_now<'a, O: Sink>(
    view: View<'_, '_>,
    replay: &mut Replay,
    out: &mut O,
) -> Result<(), Failure<'a>> {
    let mut text = Prose::new(view.alloc);
    put_state(view, &mut text, replay)?;
    put_text(&mut text, out)
}

/// Lets a person step through a run.
fn serve_steps<'a, 't, O: Sink, A: Ask>(
    view: View<'_, 't>,
    replay: &mut Replay,
    inputs: &'t Inputs,
    out: &mut O,
    ask: &mut A,
) -> Result<(), Failure<'a>>
    requires { length inputs.now.events ≤ most_events }
{
    let mut steps = Steps::new(view, &inputs.world, &inputs.events);
    let done = steps.follow_all(replay, ask, out);
    drop(steps);
    done
}

/// Puts the lines of the events up to the event with number `last`.
fn serve_calls<'a, 't, O: Sink>(
    view: View<'_, 't>,
    replay: &mut Replay,
    inputs: &'t Inputs,
    last: u64,
    out: &mut O,
) -> Result<(), Failure<'a>>
    requires { length inputs.now.events ≤ most_events }
{
    let mut telling = Telling::new(Teller::new(view, inputs.world.programs()));
    let done = put_events(replay, &mut telling, &inputs.events, last, out);
    drop(telling);
    done
}

/// Serves a request for a world and its events: lets a person step through the run, puts the lines of the events, or
/// puts the state.
fn serve_inputs<'a, 't, O: Sink, A: Ask>(
    alloc: Global,
    request: &Request<'a>,
    only: &'t [Pid],
    inputs: &'t Inputs,
    out: &mut O,
    ask: &mut A,
) -> Result<(), Failure<'a>>
    requires { length inputs.now.events ≤ most_events }
{
    let listing = Listing::new(alloc, inputs.world_text.as_slice())?;
    let last = at_of(request.at, inputs.events.len())?;
    let view = View {
        alloc,
        listing: &listing,
        events: inputs.events.len(),
        traced: request.trace,
        only,
    };
    // The lines of events begin with the first event.
    let is_told = request.step || request.tells();
    let from = if is_told { 0 } else { last };
    let mut replay = past_at(alloc, &inputs.world, &inputs.events, from)?;
    let done = if request.step {
        serve_steps(view, &mut replay, inputs, out, ask)
    } else if is_told {
        serve_calls(view, &mut replay, inputs, last, out)
    } else {
        put_now(view, &mut replay, out)
    };
    drop(replay);
    done
}

/// Parses the arguments, reads the inputs, and serves the request.
fn serve_words<'a, F: ReadFiles, O: Sink, A: Ask>(
    alloc: Global,
    words: &'a [&'a str],
    files: &F,
    out: &mut O,
    ask: &mut A,
) -> Result<(), Failure<'a>> {
    let request = requested(alloc, words)?;
    if request.step && (request.tells() || request.at.is_some() || !ask.is_terminal()) {
        return Err(Failure::Step);
    }
    let only = processes_of(alloc, request.processes.as_slice())?;
    let inputs = read_inputs(alloc, files, request.world, request.events)?;
    serve_inputs(alloc, &request, only.as_slice(), &inputs, out, ask)
}

/// Puts the message of a failure. Allocates no memory. A failure of `err` is ignored.
fn tell_failure<E: Sink>(failure: Failure<'_>, err: &mut E) {
    match failure {
        Failure::Input(why) => why.tell(err),
        _ => tell(failure, err),
    }
}

/// Runs `show` with these arguments, without the program's name.
///
/// Returns the exit status: 0 on success, 1 if an input is rejected, 2 for a usage error, 3 if a file cannot be read,
/// `out` or the terminal fails, or memory runs out. A failure of `err` does not change the status.
pub fn serve<'a, F: ReadFiles, O: Sink, E: Sink, A: Ask>(
    alloc: Global,
    words: &'a [&'a str],
    files: &F,
    out: &mut O,
    err: &mut E,
    ask: &mut A,
) -> u8
    ensures { result ≤ 3 }
{
    match serve_words(alloc, words, files, out, ask) {
        Ok(()) => 0,
        Err(failure) => {
            tell_failure(failure, err);
            failure.status()
        }
    }
}
