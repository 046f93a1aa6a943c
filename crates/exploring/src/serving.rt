//! Serves the command line: the output, the messages and the exit status.

ghost use Rattle.std.specs.Prelude.{◌≡◌, ◌⊎◌, ◌+◌, ◌≤◌, ◌||◌, All, false, true, Bool, ℕ, List, [], length, Result, MatchResult, IfOk, IfSome, IsNone, None, OnErr, OnOk, Some, map, option_map};
ghost use Rattle.std.specs.String.{string_bytes};
ghost use Rattle.trace.specs.Sinks.{BreaksOff, TakesAll};
ghost use Rattle.posix.specs.declared.event.Event.{Event as EventValue};
ghost use Rattle.text.specs.declared.fault.TextFault.{TextFault as TextFaultValue};
ghost use Rattle.text.specs.EventTexts.{event_text, most_events};
ghost use Rattle.text.specs.Reading.{IsFaultOf};
ghost use Rattle.schedules.specs.Families.{family as family_of};
ghost use Rattle.counting.specs.Counts.{book_over};
ghost use Rattle.counting.specs.Samples.{CanBeShown};
ghost use Rattle.exploring.specs.Reports.{bytes_put};
ghost use Rattle.exploring.specs.Serving.{OneIsUnmatchable, Means, answer_of, is_found as has_found, all_halt as have_halted, is_told as told_by, status_of};
ghost use Rattle.exploring.specs.Words.{are_run, are_run_each as each_is_run, asked_by_parts, can_be_put, loose_asked, only, parted_as, request_of_words, run_each, said, states_asked, ticks_asked, upto_asked, written_asked};

use crate::unmatchable::{Unmatchable, find_unmatchable};
use crate::words::{Parts, Request, Written, parts_of, requested};
use crate::written::text_of;
use counting::{Book, Family, Progress, event_at, explore};
use inputs::{InputFault, NoRequest, NumberFault, ReadFiles, number_up_to, read_inputs, tell};
use kernel::{Sink, SinkFault, put_all};
use merging::{Stop, merge};
use posix::Event;
use schedules::{MOST_LOOSE, MOST_TICKS, family_size};
use std::alloc::{AllocError, Global};
use text::{TextFault, read_events};
use thiserror::Error;

/// A failure, with its message. The exit status is 1, 2 or 3.
#[derive(Clone, Copy, Debug, Error)]
enum Failure<'a> {
    #[error("usage: jobk explore WORLD EVENTS [--ticks K] [--upto N] [--states N] [--anywhere EVENT].. [--find TEXT].. [--must-halt] [--all] [--outcomes] [--write WHICH]")]
    Usage,
    #[error("jobk: --ticks: expected a number from 0 to {0}")]
    Ticks(usize),
    #[error("jobk: --upto: expected a number of events")]
    Upto,
    #[error("jobk: --states: expected a number from 0 to {0}")]
    States(u64),
    #[error("jobk: --upto {0}: expected at most {1}, the number of events")]
    UptoAbove(u64, u64),
    #[error("jobk: --anywhere: expected one event of this world, such as `key 1 1A`")]
    NotOneEvent,
    #[error("jobk: --anywhere: expected at most {0} events")]
    TooManyAnywhere(usize),
    #[error("jobk: --anywhere: expected an event to insert before; there are no events, or --upto is 0")]
    NoEventBehind,
    #[error("jobk: --all cannot be combined with --anywhere")]
    AllAnywhere,
    #[error("jobk: --outcomes cannot be combined with --anywhere")]
    OutcomesAnywhere,
    #[error("jobk: --write: expected rest, going, find, or the number of an outcome")]
    Which,
    #[error("jobk: --find: {0}")]
    Unmatchable(Unmatchable<'a>),
    #[error("jobk: --outcomes: expected at most {0} schedules and {1} events in all; lower --ticks or --upto")]
    TooManyOutcomes(u64, u64),
    #[error("jobk: --outcomes: expected at most {0} schedules with --all; lower --ticks or --upto")]
    TooManyForAll(u64),
    #[error("jobk: --states {0} is too low after event {1}; raise it, or lower --ticks or --upto")]
    ManyStates(usize, u64),
    #[error("jobk: schedules would have up to {0} events, but a run has at most {1}; lower --ticks")]
    TooManyEvents(u64, u64),
    #[error("jobk: {0}")]
    Input(InputFault<'a>),
    #[error("jobk: out of memory")]
    Memory,
    #[error("jobk: cannot write")]
    Write,
}

/// The largest number that `--states` accepts.
const MOST_STATES: u64 = 10_000_000;

/// The most schedules that are run separately.
const MOST_OF_ALL: u64 = u64::MAX;

/// The most schedules that are run separately without `--all`.
const MOST_SCHEDULES: u64 = 10_000_000;

/// The most events of all schedules together, if they are run separately without `--all`.
const MOST_GIVEN: u64 = 10_000_000_000;

/// The most events of a run.
const MOST_EVENTS: u64 = 1_000_000_000_000;

impl From<AllocError> for Failure<'_> {
    ghost use Rattle.exploring.specs.declared.serving.Failure.TheVariants.{Memory};

    ghost from_gives = { λ _ failure. failure ≡ Memory };

    fn from(_: AllocError) -> Self {
        Failure::Memory
    }
}

impl From<SinkFault> for Failure<'_> {
    ghost use Rattle.exploring.specs.declared.serving.Failure.TheVariants.{Write};

    ghost from_gives = { λ _ failure. failure ≡ Write };

    fn from(_: SinkFault) -> Self {
        Failure::Write
    }
}

impl From<NoRequest> for Failure<'_> {
    ghost use Rattle.exploring.specs.Serving.{failure_of};

    ghost from_gives = { λ why failure. failure ≡ failure_of why };

    fn from(why: NoRequest) -> Self {
        match why {
            NoRequest::Usage => Failure::Usage,
            NoRequest::Memory => Failure::Memory,
        }
    }
}

impl From<Stop> for Failure<'_> {
    ghost use Rattle.exploring.specs.Serving.{failure_at};

    ghost from_gives = { λ why failure. failure ≡ failure_at why };

    fn from(why: Stop) -> Self {
        match why {
            Stop::Memory => Failure::Memory,
            Stop::States(most, place) => Failure::ManyStates(most, place),
        }
    }
}

impl<'a> From<InputFault<'a>> for Failure<'a> {
    ghost use Rattle.exploring.specs.declared.serving.Failure.TheVariants.{Input};

    ghost from_gives = { λ why failure. failure ≡ Input why };

    fn from(why: InputFault<'a>) -> Self {
        Failure::Input(why)
    }
}

impl Failure<'_> {
    /// Returns the exit status.
    fn status(self) -> u8
        ensures least { 1 ≤ result }
        ensures most { result ≤ 3 }
        ensures is { result ≡ status_of self.entry }
    {
        match self {
            Failure::Input(why) => why.status(),
            Failure::Usage
            | Failure::Ticks(_)
            | Failure::Upto
            | Failure::States(_)
            | Failure::UptoAbove(_, _)
            | Failure::NotOneEvent
            | Failure::TooManyAnywhere(_)
            | Failure::NoEventBehind
            | Failure::AllAnywhere
            | Failure::OutcomesAnywhere
            | Failure::Which
            | Failure::Unmatchable(_)
            | Failure::TooManyOutcomes(_, _)
            | Failure::TooManyForAll(_)
            | Failure::TooManyEvents(_, _) => 2,
            Failure::ManyStates(_, _) | Failure::Memory | Failure::Write => 3,
        }
    }
}

/// Returns the most ticks that a schedule inserts (default: 2). Fails if the word is not a number up to `MOST_TICKS`.
fn ticks_of<'a>(word: Option<&str>) -> Result<usize, Failure<'a>>
    ensures { MatchResult result
        (λ ticks. (ticks ≤ MOST_TICKS) × (ticks_asked (option_map (λ w. w.now) word.entry) ≡ Some ticks))
        (λ why. (status_of why ≡ 2) × (ticks_asked (option_map (λ w. w.now) word.entry) ≡ None)) }
{
    match number_up_to(word, 2, MOST_TICKS as u64) {
        Ok(ticks) => Ok(ticks as usize),
        Err(_) => Err(Failure::Ticks(MOST_TICKS)),
    }
}

/// Returns before how many events a schedule can insert (default: all). Fails if the word is not a number, or if there
/// are fewer events.
fn upto_of<'a>(word: Option<&str>, events: u64) -> Result<u64, Failure<'a>>
    ensures { MatchResult result
        (λ upto. (upto ≤ events) × (upto_asked events (option_map (λ w. w.now) word.entry) ≡ Some upto))
        (λ why. (status_of why ≡ 2) × (upto_asked events (option_map (λ w. w.now) word.entry) ≡ None)) }
{
    match number_up_to(word, events, events) {
        Ok(upto) => Ok(upto),
        Err(NumberFault::NoNumber) => Err(Failure::Upto),
        Err(NumberFault::Above(upto)) => Err(Failure::UptoAbove(upto, events)),
    }
}

/// Returns the most states that are kept before one event (default: 50,000). Fails if the word is not a number up to
/// `MOST_STATES`.
fn states_of<'a>(word: Option<&str>) -> Result<usize, Failure<'a>>
    ensures { MatchResult result
        (λ states. states_asked (option_map (λ w. w.now) word.entry) ≡ Some states)
        (λ why. (status_of why ≡ 2) × (states_asked (option_map (λ w. w.now) word.entry) ≡ None)) }
{
    match number_up_to(word, 50_000, MOST_STATES) {
        Ok(states) => Ok(states as usize),
        Err(_) => Err(Failure::States(MOST_STATES)),
    }
}

/// Returns what is written (default: the report). Fails if the word names no schedule.
fn written_of<'a>(word: Option<&str>) -> Result<Written, Failure<'a>>
    ensures { MatchResult result
        (λ written. written_asked (option_map (λ w. w.now) word.entry) ≡ Some written)
        (λ why. (status_of why ≡ 2) × (written_asked (option_map (λ w. w.now) word.entry) ≡ None)) }
{
    let Some(word) = word else {
        return Ok(Written::Report);
    };
    Written::named(word).ok_or(Failure::Which)
}

/// Rejects a text that no line can match, because a search for it would find nothing.
fn check_finds<'a>(alloc: Global, texts: &[&'a str]) -> Result<(), Failure<'a>>
    ensures { MatchResult result
        (λ _. All CanBeShown (map (λ t. t.now) texts.now))
        (λ why. (status_of why ≡ 3) ⊎ ((status_of why ≡ 2) × OneIsUnmatchable (map (λ t. t.now) texts.now))) }
{
    match find_unmatchable(alloc, texts) {
        Ok(None) => Ok(()),
        Ok(Some(why)) => Err(Failure::Unmatchable(why)),
        Err(_) => Err(Failure::Memory),
    }
}

/// Returns the failure for a word that was not read as one event. If memory ran out, the word itself may be right.
fn failure_of_word<'a>(fault: TextFault) -> Failure<'a>
    ensures { (meaning : Result (List EventValue) TextFaultValue) → IsFaultOf meaning fault
        → (status_of result ≡ 3) ⊎ ((status_of result ≡ 2) × (only meaning ≡ None)) }
{
    fault.unless_memory(Failure::NotOneEvent, Failure::Memory)
}

/// Returns the event of a word, in a world with this many consoles. Fails if the word is not the text of one event.
fn event_of<'a>(alloc: Global, consoles: u8, word: &str) -> Result<Event, Failure<'a>>
    ensures { MatchResult result
        (λ event. only (event_text consoles word.now) ≡ Some event)
        (λ why. (status_of why ≡ 3) ⊎ ((status_of why ≡ 2) × (only (event_text consoles word.now) ≡ None))) }
{
    let events = match read_events(alloc, consoles, word.as_bytes()) {
        Ok(events) => events,
        Err(fault) => return Err(failure_of_word(fault)),
    };
    if events.len() != 1 {
        return Err(Failure::NotOneEvent);
    }
    event_at(&events, 0).ok_or(Failure::NotOneEvent)
}

/// Returns the events of words. Fails if a word is not the text of one event.
fn events_of_words<'a>(
    alloc: Global,
    consoles: u8,
    words: &[&str],
) -> Result<Vec<Event>, Failure<'a>>
    ensures { MatchResult result
        (λ loose. loose_asked consoles (map (λ w. w.now) words.now) ≡ Some loose.items)
        (λ why. (status_of why ≡ 3) ⊎ ((status_of why ≡ 2) × (loose_asked consoles (map (λ w. w.now) words.now) ≡ None))) }
{
    let mut loose = Vec::new(alloc);
    for word in words {
        let event = event_of(alloc, consoles, word)?;
        if loose.push(event).is_err() {
            return Err(Failure::Memory);
        }
    }
    Ok(loose)
}

/// Rejects loose events that can't be inserted: more than `MOST_LOOSE`, if there is no event to insert before, or with
/// `--all` or `--outcomes`, for which schedules are run separately.
fn fit_in<'a>(loose: &[Event], upto: u64, all: bool, outcomes: bool) -> Result<(), Failure<'a>>
    ensures fit { MatchResult result
        (λ _. can_be_put (all || outcomes) upto (length loose.now) ≡ true)
        (λ why. (status_of why ≡ 2) × (can_be_put (all || outcomes) upto (length loose.now) ≡ false)) }
    ensures few { OnOk result (length loose.now ≤ MOST_LOOSE) }
    ensures placed { OnOk result (upto ≡ 0 → loose.now ≡ []) }
{
    if loose.len() > MOST_LOOSE {
        return Err(Failure::TooManyAnywhere(MOST_LOOSE));
    }
    if loose.is_empty() {
        return Ok(());
    }
    if upto == 0 {
        return Err(Failure::NoEventBehind);
    }
    if all {
        return Err(Failure::AllAnywhere);
    }
    if outcomes {
        return Err(Failure::OutcomesAnywhere);
    }
    Ok(())
}

/// Returns true if this many schedules, the longest with this many events, are run separately: with `--all`, or if
/// that takes little time.
fn are_run_each(size: u64, longest: u64, all: bool) -> bool
    requires { longest ≤ most_events }
    ensures { result ≡ each_is_run all size longest }
{
    all || (size <= MOST_SCHEDULES && size * longest <= MOST_GIVEN)
}

/// Returns the number of schedules, the longest with this many events, if they are run separately.
fn size_of_each(upto: u64, ticks: usize, loose: usize, longest: u64, all: bool) -> Option<u64>
    requires ticks { ticks ≤ MOST_TICKS }
    requires loose { loose ≤ MOST_LOOSE }
    requires upto { upto ≤ most_events }
    requires longest { longest ≤ most_events }
    ensures some { IfSome result (λ size. (size ≡ length (family_of upto ticks loose)) × (each_is_run all (length (family_of upto ticks loose)) longest ≡ true)) }
    ensures none { IsNone result → each_is_run all (length (family_of upto ticks loose)) longest ≡ false }
{
    let size = family_size(upto, ticks, loose, MOST_OF_ALL)?;
    if are_run_each(size, longest, all) {
        Some(size)
    } else {
        None
    }
}

/// Returns why `--outcomes` is rejected for schedules that are not run separately: there are too many.
fn no_outcomes<'a>(all: bool) -> Failure<'a>
    ensures { status_of result ≡ 2 }
{
    if all {
        Failure::TooManyForAll(MOST_OF_ALL)
    } else {
        Failure::TooManyOutcomes(MOST_SCHEDULES, MOST_GIVEN)
    }
}

/// Returns the number of schedules if they are run separately, and `None` if they are merged. Fails if a schedule would
/// be too long for a run, or if there are too many schedules for `--outcomes`.
fn size_of<'a>(
    upto: u64,
    ticks: usize,
    loose: usize,
    events: u64,
    all: bool,
    outcomes: bool,
) -> Result<Option<u64>, Failure<'a>>
    requires ticks { ticks ≤ MOST_TICKS }
    requires loose { loose ≤ MOST_LOOSE }
    requires upto { upto ≤ events }
    requires events { events ≤ most_events }
    ensures size { MatchResult result
        (λ size. (size ≡ run_each all loose (length (family_of upto ticks loose)) (events + (ticks + loose))) × (are_run all outcomes (length (family_of upto ticks loose)) (events + (ticks + loose)) ≡ true))
        (λ why. (status_of why ≡ 2) × (are_run all outcomes (length (family_of upto ticks loose)) (events + (ticks + loose)) ≡ false)) }
    ensures short { OnOk result (events + (ticks + loose) ≤ most_events) }
{
    let longest = events + (ticks + loose) as u64;
    if longest > MOST_EVENTS {
        return Err(Failure::TooManyEvents(longest, MOST_EVENTS));
    }
    match size_of_each(upto, ticks, loose, longest, all) {
        Some(size) if loose == 0 => Ok(Some(size)),
        None if outcomes => Err(no_outcomes(all)),
        _ => Ok(None),
    }
}

/// Returns the book of a family. Runs `size` schedules separately; if that is `None`, merges the schedules that reach
/// the same state.
fn book_of<'w, P: Progress>(
    alloc: Global,
    family: &Family<'_>,
    size: Option<u64>,
    texts: &[&'w str],
    progress: &mut P,
) -> Result<Book<'w>, Failure<'w>>
    requires { (all : Bool) × (longest : ℕ) × (size ≡ run_each all (length family.now.loose.now) (length (family_of family.now.upto family.now.ticks (length family.now.loose.now))) longest) }
    ensures { MatchResult result
        (λ book. book ≡ book_over family.now.world.now family.now.loose.now family.now.events.now (map (λ t. t.now) texts.now) (family_of family.now.upto family.now.ticks (length family.now.loose.now)))
        (λ why. status_of why ≡ 3) }
{
    match size {
        Some(size) => Ok(explore(alloc, family, size, texts, progress)?),
        None => Ok(merge(alloc, family, texts, progress)?),
    }
}

/// Returns true if a schedule has a text of `--find`.
fn is_found(book: &Book<'_>) -> bool
    ensures { result ≡ has_found book.now }
{
    book.finds()
        .iter()
        .any(|find| !find.tally().count().is_zero())
}

/// Returns true if all schedules halt.
fn all_halt(book: &Book<'_>) -> bool
    ensures { result ≡ have_halted book.now }
{
    book.endings().at_rest.count().is_zero() && book.endings().going.count().is_zero()
}

/// Returns true if a schedule has a text of `--find`, or if one doesn't halt although all must.
fn is_told(must_halt: bool, book: &Book<'_>) -> bool
    ensures { result ≡ told_by must_halt book.now }
{
    is_found(book) || (must_halt && !all_halt(book))
}

/// Prints to `err` that no schedule is what `--write` asks for. Needs no memory; ignores a failing `err`.
fn tell_missing<E: Sink>(written: Written, err: &mut E) {
    match written {
        Written::Report => {}
        Written::Rest => tell("jobk: no schedule comes to rest", err),
        Written::Going => tell("jobk: no schedule is still going", err),
        Written::Find => tell("jobk: no schedule matches --find", err),
        Written::Outcome(number) => tell(format_args!("jobk: there is no outcome {number}"), err),
    }
}

/// Writes a text to `out`. If there is none, prints a message to `err`, and ignores it if `err` fails.
fn put_text<O: Sink, E: Sink>(
    text: &Option<String>,
    written: Written,
    out: &mut O,
    err: &mut E,
) -> Result<(), SinkFault>
    ensures ok { OnOk result (TakesAll (O.seen out.old) (O.seen out.new) (bytes_put (option_map string_bytes text.now))) }
    ensures err { OnErr result (BreaksOff (O.seen out.old) (O.seen out.new) (bytes_put (option_map string_bytes text.now))) }
{
    let Some(text) = text else {
        tell_missing(written, err);
        return put_all(out, &[]);
    };
    put_all(out, text.as_str().as_bytes())
}

/// Serves a request. Returns true if a schedule has a text of `--find`, or if one doesn't halt although all must.
fn serve_request<'a, 'w, F: ReadFiles, O: Sink, E: Sink, P: Progress>(
    alloc: Global,
    request: &Request<'a, 'w>,
    files: &F,
    out: &mut O,
    err: &mut E,
    progress: &mut P,
) -> Result<bool, Failure<'a>>
    ensures { Means (F.contents files.now) (Some (said request.now)) out.old out.new (O.seen out.old) (O.seen out.new) (answer_of result) }
{
    let ticks = ticks_of(request.ticks)?;
    let written = written_of(request.write)?;
    check_finds(alloc, request.finds)?;
    let inputs = read_inputs(alloc, files, request.world, request.events)?;
    let upto = upto_of(request.upto, inputs.events.len())?;
    let states = states_of(request.states)?;
    let put_in = events_of_words(alloc, inputs.world.consoles(), request.anywhere)?;
    let loose = put_in.as_slice();
    let (all, outcomes) = (request.all, request.outcomes);
    fit_in(loose, upto, all, outcomes)?;
    let size = size_of(upto, ticks, loose.len(), inputs.events.len(), all, outcomes)?;
    let family = Family {
        world: &inputs.world,
        events: &inputs.events,
        loose,
        upto,
        ticks,
        states,
    };
    let book = book_of(alloc, &family, size, request.finds, progress)?;
    let world_text = inputs.world_text.as_slice();
    let made = text_of(alloc, &family, world_text, &book, written);
    let is_told = is_told(request.must_halt, &book);
    // A large value is dropped explicitly, by one function whose proof is short.
    drop(book);
    let text = made?;
    put_text(&text, written, out, err)?;
    Ok(is_told)
}

/// Prints a failure to `err`. Needs no memory; ignores a failing `err`.
fn tell_failure<E: Sink>(failure: Failure<'_>, err: &mut E) {
    match failure {
        Failure::Input(why) => why.tell(err),
        _ => tell(failure, err),
    }
}

/// Serves the arguments, after `parts_of` has separated the texts of options.
fn serve_parts<'a, 'w, F: ReadFiles, O: Sink, E: Sink, P: Progress>(
    alloc: Global,
    parts: &'a Parts<'w>,
    files: &F,
    out: &mut O,
    err: &mut E,
    progress: &mut P,
) -> Result<bool, Failure<'a>>
    ensures { Means (F.contents files.now) (asked_by_parts (parted_as parts.entry.now)) out.old out.new (O.seen out.old) (O.seen out.new) (answer_of result) }
{
    let request = requested(alloc, parts)?;
    serve_request(alloc, &request, files, out, err, progress)
}

/// Returns the exit status. Prints a failure to `err`.
fn told<E: Sink>(done: Result<bool, Failure<'_>>, err: &mut E) -> u8
    ensures most { result ≤ 4 }
    ensures is { result ≡ answer_of done.entry }
{
    match done {
        Ok(false) => 0,
        Ok(true) => 4,
        Err(failure) => {
            tell_failure(failure, err);
            failure.status()
        }
    }
}

/// Serves the arguments of the command line, without the program's name, and returns the exit status.
///
/// The status is 0 if all schedules were run, 1 for a rejected input, 2 for a usage error, and 3 for an I/O error, for
/// too many states, or if memory ran out. It is 4 if all schedules were run, and one has a text of `--find`, or doesn't
/// halt although all must. A failing `err` changes no status.
pub fn serve<'a, F: ReadFiles, O: Sink, E: Sink, P: Progress>(
    alloc: Global,
    words: &[&'a str],
    files: &F,
    out: &mut O,
    err: &mut E,
    progress: &mut P,
) -> u8
    ensures most { result ≤ 4 }
    ensures meaning { Means (F.contents files.now) (request_of_words (map (λ w. w.now) words.now)) out.old out.new (O.seen out.old) (O.seen out.new) result }
{
    match parts_of(alloc, words) {
        Ok(parts) => told(serve_parts(alloc, &parts, files, out, err, progress), err),
        Err(_) => told(Err(Failure::Memory), err),
    }
}
