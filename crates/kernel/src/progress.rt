//! Events, one after another, to a printed trace.

ghost use Rattle.std.specs.Prelude.{◌≡◌, ◌+◌, ◌≤◌, ◌++◌, length, IfOk, OnOk, OnErr};
ghost use Rattle.posix.specs.Common.{numbered, reported, reports_end as reports_end_of, print};
ghost use Rattle.text.specs.EventTexts.{most_events};
ghost use Rattle.trace.specs.Sinks.{Gathers, BreaksOff};
ghost use Rattle.kernel.specs.Progress.{Prints, WritesTrace, BreaksTrace};
ghost use Rattle.kernel.specs.Steps.{noted_lines};
ghost use Rattle.kernel.specs.PrintLaws.{lines_break, prints_none, prints_then};

use crate::driver::{Observer, drive};
use crate::kernel_on::KernelOn;
use life::Note;
use posix::{Entry, Pid};
use proctable::ProcessTable;
use text::EventList;
use trace::{LineBuffer, NoteWords, Sink, SinkFault};

/// Returns true if an entry says that a wait reported a termination.
fn reports_end(entry: &Entry) -> bool
    ensures { result ≡ reports_end_of entry.now }
{
    match entry {
        Entry::Reported {
            pid: _,
            call: _,
            child: _,
            status,
        } => status.tells_end(),
        _ => false,
    }
}

/// Prints the entries of an event. Returns the number of terminations that the lines report.
fn write_entries<S: Sink>(
    event: u64,
    entries: &[Entry],
    pending: &mut LineBuffer,
    out: &mut S,
) -> Result<u64, SinkFault>
    ensures ok { OnOk result (Gathers (S.seen out.old) pending.old (S.seen out.new) pending.new (print (numbered event entries.now))) }
    ensures ends { IfOk result (λ ends. reported (numbered event entries.now) ≡ ends) }
    ensures err { OnErr result (BreaksOff (S.seen out.old) (S.seen out.new) (pending.old ++ print (numbered event entries.now))) }
{
    let mut ends = 0;
    for entry in entries {
        pending.add(event, entry, out)?;
        ends += u64::from(reports_end(entry));
    }
    Ok(ends)
}

/// Prints the notes of a process.
fn write_notes<S: Sink>(
    pid: Pid,
    notes: &[Note],
    pending: &mut LineBuffer,
    out: &mut S,
) -> Result<(), SinkFault>
    ensures ok { OnOk result (Gathers (S.seen out.old) pending.old (S.seen out.new) pending.new (print (noted_lines pid notes.now))) }
    ensures err { OnErr result (BreaksOff (S.seen out.old) (S.seen out.new) (pending.old ++ print (noted_lines pid notes.now))) }
{
    if notes.is_empty() {
        return Ok(());
    }
    let words = NoteWords::new(pid);
    for note in notes {
        pending.add_note(note.step, &words, note.value, out)?;
    }
    Ok(())
}

/// An observer that prints: lines that are yet to be put, and how many terminations they and earlier lines report.
#[derive(Drop)]
struct Printer {
    pending: LineBuffer,
    ends: u64,
}

impl<S: Sink> Observer<S> for Printer {
    type Fault = SinkFault;

    ghost Hears = { λ p s q t lines. Prints (S.seen s) p.pending p.ends (S.seen t) q.pending q.ends lines };

    ghost Fails = { λ p s t lines. BreaksOff (S.seen s) (S.seen t) (p.pending ++ print lines) };

    ghost hears_none = { λ p s. prints_none (S.seen s) p.pending p.ends };

    ghost hears_then = { λ p q r s t u ls ms. prints_then (S.seen s) (S.seen t) (S.seen u) p.pending q.pending r.pending p.ends q.ends r.ends ls ms };

    ghost fails_then = { λ p q s t u ls ms w. lines_break (S.seen s) (S.seen t) (S.seen u) p.pending q.pending ls ms w.gathered };

    #[inline]
    fn hear(
        &mut self,
        pid: Pid,
        notes: &[Note],
        event: u64,
        entries: &[Entry],
        out: &mut S,
    ) -> Result<(), SinkFault> {
        write_notes(pid, notes, &mut self.pending, out)?;
        let ends = write_entries(event, entries, &mut self.pending, out)?;
        self.ends = self.ends.wrapping_add(ends);
        Ok(())
    }
}

/// Applies all events of a list to the kernel, at most 1,000,000,000,000 with earlier ones, and puts the printed trace.
/// Returns the number of terminations that the trace reports. After a put that failed, nothing is put, and the rest of
/// the events is not applied.
#[tactic(auto, using(crate::proofs::RunLemmas::trace_rules))]
pub fn write_trace<K: ProcessTable, S: Sink>(
    kernel: &mut KernelOn<K>,
    events: &EventList,
    out: &mut S,
) -> Result<u64, SinkFault>
    requires { kernel.old.events + length events.now ≤ most_events }
    ensures ok { IfOk result (WritesTrace (kernel.old.events + 1) kernel.old.state events.now kernel.new.state (S.seen out.old) (S.seen out.new)) }
    ensures err { OnErr result (BreaksTrace (kernel.old.events + 1) kernel.old.state events.now (S.seen out.old) (S.seen out.new)) }
    ensures events { OnOk result (kernel.new.events ≡ kernel.old.events + length events.now) }
{
    let mut printer = Printer {
        pending: LineBuffer::new(),
        ends: 0,
    };
    drive(kernel, events, &mut printer, out)?;
    printer.pending.flush(out)?;
    Ok(printer.ends)
}
