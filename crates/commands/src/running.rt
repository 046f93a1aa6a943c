//! The commands `run` and `audit`: their output, messages and exit statuses.

ghost use Rattle.std.specs.Prelude.{◌≡◌, ◌≤◌, ◌++◌, IfErr, IfSome, OnErr, OnOk, Some, map};
ghost use Rattle.trace.specs.Sinks.{BreaksOff, TakesAll};
ghost use Rattle.inputs.specs.Reads.{AreInFiles};
ghost use Rattle.commands.specs.Running.{AreStored, AskFor, AskForAudit, EndsAudit, EndsRun, IsToldAs, MeansOfAudit, MeansOfRun, answer_of, fault_answer, faulty_answer, law_answer, line_and_law, status_of};
ghost use Rattle.commands.specs.Words.{audit_asked, run_asked};

use arrayvec::ArrayString;
use audit::{AuditFault, TraceFault, audit_text};
use inputs::{
    FileFailure, ReadFault, ReadFiles, named_file, named_world_and_events, put_both, tell,
};
use itoa::Buffer;
use judging::line_at;
use kernel::{RunError, Sink, SinkFault, put_all, run};
use std::alloc::Global;
use std::hash::RandomState;

/// Why the exit status is not 0.
#[derive(Clone, Copy)]
enum Failure<'a> {
    Unread(ReadFault<'a>),
    Run(RunError),
    /// An audit found a fault, and wrote it.
    Faulty,
}

/// The usage line of `run` and `audit`.
pub const USAGE: &[u8] = b"usage: jobk run WORLD EVENTS | jobk audit TRACE\n";

/// The usage line of `explain --audit`.
const USAGE_IN_WORDS: &[u8] = b"usage: jobk explain --audit TRACE\n";

/// The world that is run without arguments: a program that notes a number and exits.
const STORED_WORLD: &[u8] =
    b"pidmax 40\nconsoles 1\nprogram init\nset r1, 7\nnote r1\nsys exit\nend\n";

const STORED_EVENTS: &[u8] = b"step 3\n";

impl Failure<'_> {
    /// Returns the exit status.
    fn status(self) -> u8
        ensures { result ≡ status_of self.entry }
    {
        match self {
            Failure::Faulty | Failure::Run(RunError::World(_) | RunError::Events(_)) => 1,
            Failure::Unread(_) | Failure::Run(RunError::Memory | RunError::Write) => 3,
        }
    }
}

/// Runs a world and its events.
fn run_texts<'a, O: Sink>(
    alloc: Global,
    world: &[u8],
    events: &[u8],
    out: &mut O,
) -> Result<(), Failure<'a>>
    ensures { EndsRun (λ w e. (w ≡ world.now) × (e ≡ events.now))
        out.old out.new (O.seen out.old) (O.seen out.new) result }
{
    match run(alloc, world, events, out) {
        Ok(_) => Ok(()),
        Err(why) => Err(Failure::Run(why)),
    }
}

/// Runs two files. Reads both, the world first, before it checks either.
fn run_files<'a, F: ReadFiles, O: Sink>(
    alloc: Global,
    files: &F,
    world: &'a str,
    events: &'a str,
    out: &mut O,
) -> Result<(), Failure<'a>>
    ensures { EndsRun (AreInFiles (F.contents files.now) (world.entry.now, events.entry.now))
        out.old out.new (O.seen out.old) (O.seen out.new) result }
{
    let world_bytes = files.read_file(world).map_err(Failure::Unread)?;
    let event_bytes = files.read_file(events).map_err(Failure::Unread)?;
    run_texts(alloc, world_bytes.as_slice(), event_bytes.as_slice(), out)
}

/// Writes the answer of an audit.
fn put_answer<'a, O: Sink>(answer: &[u8], out: &mut O) -> Result<(), Failure<'a>>
    ensures ok { OnOk result (TakesAll (O.seen out.old) (O.seen out.new) answer.now) }
    ensures err { IfErr result (λ why. why ≡ Failure.Run RunError.Write) }
    ensures cut { OnErr result (BreaksOff (O.seen out.old) (O.seen out.new) answer.now) }
{
    put_all(out, answer).map_err(|_| Failure::Run(RunError::Write))
}

/// Returns the answer for a fault of a trace: the number of its line, and the number of the fault.
fn fault_line(why: TraceFault) -> ArrayString<64>
    ensures { result.bytes ≡ fault_answer why }
{
    let mut text = ArrayString::<64>::new();
    text.push_str("line ");
    text.push_str(Buffer::new().format(why.line));
    text.push_str(": fault ");
    text.push_str(Buffer::new().format(why.fault.number()));
    text.push_str("\n");
    text
}

/// Returns a line with the law that a faulty line of a trace breaks.
fn law_line(fault: AuditFault) -> ArrayString<64>
    ensures { result.bytes ≡ law_answer fault }
{
    let mut text = ArrayString::<64>::new();
    text.push_str("   ");
    text.push_str(fault.law());
    text.push_str("\n");
    text
}

/// Writes the first faulty line of a trace, and the law that it breaks.
fn put_law<'a, O: Sink>(why: TraceFault, trace: &[u8], out: &mut O) -> Result<(), Failure<'a>>
    ensures ok { OnOk result (TakesAll (O.seen out.old) (O.seen out.new) (line_and_law trace.now why)) }
    ensures err { IfErr result (λ why. why ≡ Failure.Run RunError.Write) }
    ensures cut { OnErr result (BreaksOff (O.seen out.old) (O.seen out.new) (line_and_law trace.now why)) }
{
    let line = line_at(trace, why.line).unwrap_or(&[]);
    put_both(out, line, law_line(why.fault).as_str().as_bytes()).map_err(|_| Failure::Run(
        RunError::Write,
    ))
}

/// Writes the answer for the first fault of a trace. If `tells_law` is true, also writes the line and the law.
fn put_fault<'a, O: Sink>(
    why: TraceFault,
    trace: &[u8],
    tells_law: bool,
    out: &mut O,
) -> Result<(), Failure<'a>>
    ensures ok { OnOk result (TakesAll (O.seen out.old) (O.seen out.new) (faulty_answer tells_law trace.now why)) }
    ensures err { IfErr result (λ why. why ≡ Failure.Run RunError.Write) }
    ensures cut { OnErr result (BreaksOff (O.seen out.old) (O.seen out.new) (faulty_answer tells_law trace.now why)) }
{
    put_answer(fault_line(why).as_str().as_bytes(), out)?;
    if tells_law {
        put_law(why, trace, out)
    } else {
        Ok(())
    }
}

/// Audits a trace. If `tells_law` is true, also writes the first faulty line and the law that it breaks.
fn audit_trace<'a, O: Sink>(
    alloc: Global,
    keys: Option<RandomState>,
    trace: &[u8],
    tells_law: bool,
    out: &mut O,
) -> Result<(), Failure<'a>>
    ensures { EndsAudit tells_law (λ t. t ≡ trace.now)
        out.old out.new (O.seen out.old) (O.seen out.new) result }
{
    let Some(keys) = keys else {
        return Err(Failure::Unread(ReadFault::CannotRead("random bytes")));
    };
    match audit_text(alloc, keys, trace) {
        Ok(()) => put_answer(b"ok\n", out),
        Err(why) if why.fault == AuditFault::Memory => Err(Failure::Run(RunError::Memory)),
        Err(why) => {
            put_fault(why, trace, tells_law, out)?;
            Err(Failure::Faulty)
        }
    }
}

/// Audits a file. If `tells_law` is true, also writes the first faulty line and the law that it breaks.
fn audit_file<'a, F: ReadFiles, O: Sink>(
    alloc: Global,
    files: &F,
    keys: Option<RandomState>,
    trace: &'a str,
    tells_law: bool,
    out: &mut O,
) -> Result<(), Failure<'a>>
    ensures { EndsAudit tells_law (λ t. IfSome (F.contents files.now trace.entry.now) (λ known. t ≡ known))
        out.old out.new (O.seen out.old) (O.seen out.new) result }
{
    let bytes = files.read_file(trace).map_err(Failure::Unread)?;
    audit_trace(alloc, keys, bytes.as_slice(), tells_law, out)
}

/// Writes the message about a failure, as far as the error output takes it. Allocates no memory.
fn tell_failure<E: Sink>(failure: Failure<'_>, err: &mut E) {
    match failure {
        Failure::Unread(why) => {
            let _ = why.tell(err);
        }
        Failure::Run(why) => tell(format_args!("jobk: {why}"), err),
        Failure::Faulty => {}
    }
}

/// Returns the exit status; reports a failure.
fn ended<E: Sink>(done: Result<(), Failure<'_>>, err: &mut E) -> u8
    ensures { result ≡ answer_of done.entry }
{
    match done {
        Ok(()) => 0,
        Err(failure) => {
            tell_failure(failure, err);
            failure.status()
        }
    }
}

/// Writes a text of the program, such as its help. Returns the exit status: 0, or 3 if it cannot be written.
pub fn put_own<O: Sink, E: Sink>(text: &[u8], out: &mut O, err: &mut E) -> u8
    ensures { IsToldAs text.now (O.seen out.old) (O.seen out.new) result }
{
    ended(put_answer(text, out), err)
}

/// Runs the stored world. The trace goes to `out`, and messages go to `err`.
///
/// Returns the exit status: 0 on success, 3 for an I/O error or if there is no memory. A failing `err` changes no
/// status.
pub fn serve_stored<O: Sink, E: Sink>(alloc: Global, out: &mut O, err: &mut E) -> u8
    ensures status { result ≤ 3 }
    ensures meaning { MeansOfRun AreStored (Some STORED_WORLD.now) out.old out.new (O.seen out.old) (O.seen out.new) result }
{
    ended(run_texts(alloc, STORED_WORLD, STORED_EVENTS, out), err)
}

/// Runs the two files that the arguments after `run` name. The trace goes to `out`, and messages go to `err`.
///
/// Returns the exit status: 0 on success, 1 for a rejected text, 2 for a usage error, 3 for an I/O error or if there is
/// no memory. A failing `err` changes no status.
pub fn serve_run<'a, F: ReadFiles, O: Sink, E: Sink>(
    alloc: Global,
    words: &'a [&'a str],
    files: &F,
    out: &mut O,
    err: &mut E,
) -> u8
    ensures status { result ≤ 3 }
    ensures meaning { let asked = run_asked (map (λ w. w.now) words.entry.now) in
        MeansOfRun (AskFor (F.contents files.now) asked) asked out.old out.new (O.seen out.old) (O.seen out.new) result }
{
    match named_world_and_events(alloc, "run", words) {
        Ok((world, events)) => ended(run_files(alloc, files, world, events, out), err),
        Err(why) => FileFailure::from(why).end(USAGE, err),
    }
}

/// Audits the file that the arguments after `audit` name. If `tells_law` is true, as for `explain --audit`, the answer
/// for a fault also has the faulty line and the law that it breaks. The answer goes to `out`, and messages go to `err`.
///
/// Returns the exit status: 0 if the laws of a trace hold, 1 for a faulty trace, 2 for a usage error. It is 3 for an
/// I/O error, if there is no memory, or if the host has no random bytes for `keys`. A failing `err` changes no status.
pub fn serve_audit<'a, F: ReadFiles, O: Sink, E: Sink>(
    alloc: Global,
    words: &'a [&'a str],
    files: &F,
    keys: Option<RandomState>,
    tells_law: bool,
    out: &mut O,
    err: &mut E,
) -> u8
    ensures status { result ≤ 3 }
    ensures meaning { let asked = audit_asked (map (λ w. w.now) words.entry.now) in
        MeansOfAudit tells_law (AskForAudit (F.contents files.now) asked) asked out.old out.new (O.seen out.old) (O.seen out.new) result }
{
    let usage: &[u8] = if tells_law { USAGE_IN_WORDS } else { USAGE };
    match named_file(alloc, "audit", "trace", words) {
        Ok(trace) => ended(audit_file(alloc, files, keys, trace, tells_law, out), err),
        Err(why) => FileFailure::from(why).end(usage, err),
    }
}
