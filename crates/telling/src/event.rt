//! The lines of events: which process acted, what it did, and what the event changed in other processes.

use crate::process::{end_cell, put_carried, put_name};
use crate::reading::{Concern, Reading, Rows, row_of};
use crate::sending::{Row, Sent, Whom, fate_words, has_sent, is_taken};
use crate::view::View;
use posix::{Call, Entry, Event, Instr, Life, Pid, Register, Sig, SigSet, Target};
use proctable::{OwnPart, Snapshot};
use std::alloc::AllocError;
use std::fmt::Write;
use trace::print_entry;
use wording::{
    Arguments, Prose, Source, Written, place_of, process_in, put_call, put_look, put_moved,
    put_report, put_result, put_signal, put_status, signal_in,
};

/// A process that acts, and what it is about to do.
#[derive(Clone, Copy)]
pub struct Actor {
    snapshot: Snapshot,
    with: Arguments,
    /// Its first two arguments: the target and the signal of `kill` or `sigqueue`. The target of `setpgid` is the first
    /// argument, too.
    target: i64,
    sig: Option<Sig>,
    /// The index of its instruction in its program, if it is at an instruction.
    place: Option<usize>,
}

impl Actor {
    /// Returns what the current process is about to do.
    pub fn new(snapshot: Snapshot, own: &OwnPart) -> Actor {
        Actor {
            snapshot,
            with: Arguments::of(&own.cpu),
            target: own.cpu.register(Register::FIRST_ARGUMENT),
            sig: signal_in(own.cpu.register(Register::SECOND_ARGUMENT)),
            place: place_of(own.cpu.frame(SigSet::EMPTY).pc),
        }
    }
}

/// A writer of the lines of events. It compares the processes before and after each event.
#[derive(Drop)]
pub struct Teller<'l, 't> {
    pub view: View<'l, 't>,
    programs: &'t [umach::Program],
    /// The processes before the event.
    pub rows: Rows,
    /// The process that acts in the event, if one does.
    pub actor: Option<Actor>,
    /// True if the last event has a trace line.
    pub showed: bool,
    /// The line of the event.
    line: Prose,
    /// The lines written so far.
    pub text: Prose,
}

/// Returns the other process that a call changes: the child of `fork`, the process that `setpgid` moves, or the child
/// whose status change a wait consumes. `entries` are those of the event.
fn other_of(actor: &Actor, entries: &[Entry]) -> Option<Pid> {
    let word = match *entries.first()? {
        Entry::Called {
            call: Call::Fork,
            result,
            ..
        } => result,
        Entry::Called {
            call: Call::Setpgid,
            result: 0,
            ..
        } => actor.target,
        Entry::Reported { child, .. } => return Some(child),
        _ => return None,
    };
    process_in(word.into())
}

/// Writes a key event: the console, the byte and, in parentheses, the key.
fn put_key(text: &mut Prose, console: u8, byte: u8) {
    let _ = write!(text, "key {console} {byte:02X}");
    let (mark, typed) = match byte {
        0..=0x1f => (" (^", byte + 0x40),
        0x7f => (" (^", b'?'),
        0x21..=0x7e => (" (", byte),
        _ => return,
    };
    text.push_str(mark);
    text.push_byte(typed);
    text.push_str(")");
}

/// Writes a verb and a signal.
fn put_did(text: &mut Prose, did: &str, sig: Sig) {
    text.push_str(did);
    put_signal(text, sig);
}

/// Writes a verb, a signal, and the process that it concerns.
fn put_signal_of(text: &mut Prose, did: &str, sig: Sig, how: &str, pid: Pid) {
    put_did(text, did, sig);
    text.push_with(how, pid.number());
}

/// Writes that a process is reparented to `heir`. A new parent other than process 1 is a child subreaper.
fn put_given(text: &mut Prose, pid: Pid, heir: Pid) {
    text.push_with("; reparents ", pid.number());
    text.push_with(" to ", heir.number());
    if heir != Pid::INIT {
        text.push_str(", its subreaper");
    }
}

/// Writes that the event continued or woke a process. Returns true if it did.
fn put_new_life(text: &mut Prose, old: &Row, new: &Row) -> bool {
    let words = match (old.snapshot.life, new.snapshot.life) {
        (Life::Stopped, Life::Running) => "; continues ",
        _ if !old.can_act && new.can_act => "; wakes ",
        _ => return false,
    };
    text.push_with(words, new.snapshot.pid.number());
    true
}

/// Writes an entry. For the result of a call, the call itself is already written.
fn put_entry(text: &mut Prose, entry: &Entry) {
    match *entry {
        Entry::Noted { value, .. } => text.push_with(": ", value),
        Entry::Called { result, .. } => put_result(text, result),
        Entry::Moved { bytes, .. } => put_moved(text, &bytes),
        Entry::Reported {
            call,
            child,
            status,
            ..
        } => put_report(text, call, child.number(), status),
        Entry::Looked { child, status, .. } => put_look(text, child.number(), status),
        Entry::NoMemory { .. } => text.push_str(" = -11 EAGAIN, no memory"),
        Entry::Marked { mark, .. } => text.push_with(" = 0, mark ", u8::from(mark)),
        Entry::Handled {
            sig,
            value,
            sender,
            ..
        } => {
            put_did(text, "handles ", sig);
            put_carried(text, value, sender);
        }
        Entry::Discarded { sig, .. } => put_did(text, "discards ", sig),
        Entry::Stopped { sig, .. } => put_did(text, "stopped by ", sig),
        Entry::Returned { .. } => text.push_str("the handler has returned"),
        Entry::Ended { status, .. } => {
            text.push_str("terminates, ");
            put_status(text, status);
        }
        Entry::Halted => text.push_str("the machine halts"),
    }
}

/// Writes a line of the trace, without its line feed.
fn put_trace_line(text: &mut Prose, number: u64, entry: &Entry) {
    if let [line @ .., b'\n'] = print_entry(number, entry).as_slice() {
        text.push_bytes(line);
    }
}

/// Returns true if an entry is the result of an instruction or a call, so that its text follows that of the
/// instruction.
fn is_of_instruction(entry: &Entry) -> bool {
    matches!(
        entry,
        Entry::Noted { .. }
            | Entry::Called { .. }
            | Entry::Moved { .. }
            | Entry::Reported { .. }
            | Entry::Looked { .. }
            | Entry::NoMemory { .. }
            | Entry::Marked { .. }
    )
}

impl<'l, 't> Teller<'l, 't> {
    /// Returns a teller that has written nothing.
    pub fn new(view: View<'l, 't>, programs: &'t [umach::Program]) -> Teller<'l, 't> {
        Teller {
            view,
            programs,
            rows: Rows::new(view.alloc),
            actor: None,
            showed: false,
            line: Prose::new(view.alloc),
            text: Prose::new(view.alloc),
        }
    }

    /// Returns the process that acted in the last event, if one did.
    pub fn acted(&self) -> Option<Pid> {
        self.actor.as_ref().map(|actor| actor.snapshot.pid)
    }

    /// Returns the call that an actor attempts, if its instruction is a call or it is blocked in one.
    fn call_of_actor(&self, actor: &Actor) -> Option<Call> {
        if let Some(blocked) = actor.snapshot.blocked {
            return Some(blocked.call());
        }
        let program = self.programs.get(usize::from(actor.snapshot.program))?;
        match program.get(actor.place?)? {
            Instr::Sys(call) => Some(call),
            _ => None,
        }
    }

    /// Returns the source of the program of an actor.
    fn source_of(&self, actor: &Actor) -> Option<&'l Source<'t>> {
        let listing = self.view.listing;
        listing.program(usize::from(actor.snapshot.program))
    }

    /// Returns the instruction of an actor, as the world file has it.
    fn written_of(&self, actor: &Actor) -> Option<Written<'t>> {
        self.source_of(actor)?.at(actor.place?)
    }

    /// Writes the call or the instruction of an actor.
    fn put_instruction(&mut self, actor: &Actor) {
        if let Some(call) = self.call_of_actor(actor) {
            let (source, listing) = (self.source_of(actor), self.view.listing);
            return put_call(&mut self.line, call, actor.with, source, listing);
        }
        let written = self.written_of(actor);
        let text = written.map_or("no instruction", |written| written.text);
        self.line.push_str(text);
    }

    /// Writes which process acts, and at which line of the world. Writes nothing after a trace line, which names the
    /// process.
    fn put_actor(&mut self, actor: &Actor) {
        if self.view.traced {
            return;
        }
        let source = self.source_of(actor);
        put_name(&mut self.line, actor.snapshot.pid, source);
        let start = self.line.len();
        if let Some(written) = self.written_of(actor) {
            self.line.push_with("line ", written.line);
        }
        end_cell(&mut self.line, start, 10);
    }

    /// Writes the outcome of a call without a trace line: it blocks the process, or it begins again.
    fn put_silence(&mut self, new: &[Row], actor: &Actor) {
        if self.call_of_actor(actor).is_some() {
            let waits = self.waits(new);
            self.line.push_str(match (waits, actor.snapshot.blocked) {
                (true, None) => " blocks",
                (true, Some(_)) => " still blocks",
                (false, _) => " begins again",
            });
        }
    }

    /// Writes what an actor did.
    fn put_act(&mut self, new: &[Row], actor: &Actor, entries: &[Entry]) {
        self.put_actor(actor);
        let is_signal = actor.snapshot.chosen.is_some()
            && matches!(entries, [first, ..] if !is_of_instruction(first));
        if !is_signal {
            self.put_instruction(actor);
        }
        if entries.is_empty() {
            self.put_silence(new, actor);
        }
        let mut mark = if is_signal { "" } else { "; " };
        for entry in entries {
            if !is_of_instruction(entry) {
                self.line.push_str(mark);
            }
            put_entry(&mut self.line, entry);
            mark = "; ";
        }
    }

    /// Writes the event, and what the current process did in it.
    fn put_event(&mut self, event: Event, entries: &[Entry], new: &[Row]) {
        match (event, self.actor) {
            (Event::Tick, _) => self.line.push_str("tick"),
            (Event::Key { console, byte }, _) => put_key(&mut self.line, console, byte),
            (Event::Hangup { console }, _) => self.line.push_with("hangup ", console),
            (Event::Step, Some(actor)) => self.put_act(new, &actor, entries),
            (Event::Step, None) => self.line.push_str("no current process"),
        }
    }

    /// Writes which pending signals of a process were discarded by the event. Signals that the process itself took are
    /// left out. Returns true if it wrote any.
    fn put_discarded(&mut self, old: &Row, new: &Row, entries: &[Entry]) -> bool {
        let pid = new.snapshot.pid;
        let mut is_told = false;
        for sig in (1..65u8).filter_map(Sig::new) {
            let is_gone = old.pending.contains(sig) && !new.pending.contains(sig);
            if is_gone && !is_taken(entries, pid, sig) {
                put_signal_of(&mut self.line, "; discards ", sig, " pending for ", pid);
                is_told = true;
            }
        }
        is_told
    }

    /// Writes which signals a process was sent, including `sent`. Returns true if it wrote any.
    fn put_sent(&mut self, old: &Row, new: &Row, hears: bool, sent: Option<Sig>) -> bool {
        let mut is_told = false;
        for sig in (1..65u8).filter_map(Sig::new) {
            if let Some(words) = fate_words(old, new, hears, sent == Some(sig), sig) {
                put_signal_of(&mut self.line, "; sends ", sig, " to ", new.snapshot.pid);
                self.line.push_str(words);
                is_told = true;
            }
        }
        is_told
    }

    /// Writes how the event changed the signals of a process. Returns true if it wrote anything.
    fn put_signals(
        &mut self,
        old: &Row,
        new: &Row,
        entries: &[Entry],
        all: &[Row],
        sent: Option<&Sent>,
    ) -> bool {
        let sent = sent.filter(|sent| sent.is_to(old)).map(|sent| sent.sig);
        let hears = old.pending.contains(Sig::CHLD) && self.hears(new, entries, all);
        let is_same = old.pending.bits() == new.pending.bits() && old.queued == new.queued;
        if is_same && sent.is_none() && !hears {
            return false;
        }
        let is_zombie = matches!(new.snapshot.life, Life::Zombie(_));
        let is_discarded = !is_zombie && self.put_discarded(old, new, entries);
        let is_sent = self.put_sent(old, new, hears, sent);
        is_discarded || is_sent
    }

    /// Returns true if `parent` was the parent of a process before the event.
    fn is_child(&self, pid: Pid, parent: Pid) -> bool {
        matches!(self.rows.of(pid), Some(row) if row.snapshot.parent == parent)
    }

    /// Returns true if a process is sent SIGCHLD, because the event terminates, stops or continues a child.
    fn hears(&self, hearer: &Row, entries: &[Entry], all: &[Row]) -> bool {
        let parent = hearer.snapshot.pid;
        let has_changed = entries.iter().any(|entry| match *entry {
            Entry::Ended { pid, .. } => hearer.hears_ends && self.is_child(pid, parent),
            Entry::Stopped { pid, .. } => hearer.hears_changes && self.is_child(pid, parent),
            _ => false,
        });
        has_changed || (hearer.hears_changes && self.has_continued(parent, all))
    }

    /// Returns true if the event continued a child of a process.
    fn has_continued(&self, parent: Pid, all: &[Row]) -> bool {
        all.iter().any(|row| {
            let new = &row.snapshot;
            new.parent == parent
                && matches!(new.life, Life::Running)
                && matches!(self.rows.of(new.pid), Some(old) if matches!(old.snapshot.life, Life::Stopped))
        })
    }

    /// Writes how the event changed a process. Returns true if the event changed or created it.
    fn put_effect(
        &mut self,
        new: &Row,
        entries: &[Entry],
        all: &[Row],
        sent: Option<&Sent>,
    ) -> bool {
        let Some(old) = self.rows.of(new.snapshot.pid) else {
            return true;
        };
        let has_signals = self.put_signals(&old, new, entries, all, sent);
        let is_given = old.snapshot.parent != new.snapshot.parent;
        if is_given {
            put_given(&mut self.line, new.snapshot.pid, new.snapshot.parent);
        }
        let is_new = put_new_life(&mut self.line, &old, new);
        has_signals || is_given || is_new
    }

    /// Writes which processes were removed without a report. Returns true if a process that is shown was removed, with
    /// or without a report.
    fn put_gone(&mut self, gone: &[Pid], entries: &[Entry]) -> bool {
        let mut is_shown = false;
        for pid in gone {
            is_shown = is_shown || self.view.has(*pid);
            let mut entries = entries.iter();
            if !entries.any(
                |entry| matches!(entry, Entry::Reported { child, .. } if child == pid),
            ) {
                self.line.push_with("; drops ", pid.number());
            }
        }
        is_shown
    }

    /// Returns the signal that an event sends, and its targets. A step sends what the call of its actor sends. A key
    /// sends to the foreground process group `told`, a hangup to the session leader `told`; 0 is none. A tick sends
    /// SIGALRM to the processes whose alarms ring when `ticks` ticks have passed. `entries` are those of the event.
    pub fn sent(&self, event: Event, entries: &[Entry], told: Pid, ticks: u64) -> Option<Sent> {
        let (sig, whom) = match event {
            Event::Tick => (Sig::ALRM, Whom::Ringing(ticks)),
            Event::Key { byte: 0x03, .. } => (Sig::INT, Whom::Group(told)),
            Event::Key { byte: 0x1c, .. } => (Sig::QUIT, Whom::Group(told)),
            Event::Key { byte: 0x1a, .. } => (Sig::TSTP, Whom::Group(told)),
            Event::Key { .. } => return None,
            Event::Hangup { .. } => (Sig::HUP, Whom::Leader(told)),
            Event::Step => return self.sent_by(self.actor.as_ref()?, entries),
        };
        Some(Sent { sig, whom })
    }

    /// Returns the signal that the call of an actor sends. A terminal call without a trace line signals the caller's
    /// process group, or blocks.
    fn sent_by(&self, actor: &Actor, entries: &[Entry]) -> Option<Sent> {
        let (sig, whom) = match self.call_of_actor(actor)? {
            Call::Kill if has_sent(entries) => {
                let target = Target::from_word(actor.target);
                (actor.sig?, Whom::Named(actor.snapshot, target))
            }
            Call::Sigqueue if has_sent(entries) => {
                let target = Target::process_from_word(actor.target);
                (actor.sig?, Whom::Named(actor.snapshot, target))
            }
            Call::Read if entries.is_empty() => (Sig::TTIN, Whom::Group(actor.snapshot.group)),
            Call::Write | Call::Tcsetpgrp | Call::Settostop if entries.is_empty() => {
                (Sig::TTOU, Whom::Group(actor.snapshot.group))
            }
            _ => return None,
        };
        Some(Sent { sig, whom })
    }

    /// Returns the processes that a step of an actor may have changed, by its entries and the signal that it sent.
    fn concern_of(&self, actor: &Actor, entries: &[Entry], sent: Option<Sent>) -> Concern {
        let snapshot = &actor.snapshot;
        let (mut hears, mut ended) = (Pid::NONE, Pid::NONE);
        for entry in entries {
            match entry {
                Entry::Ended { .. } => (hears, ended) = (snapshot.parent, snapshot.pid),
                Entry::Stopped { .. } => hears = snapshot.parent,
                _ => {}
            }
        }
        let has_ended = ended != Pid::NONE;
        let other = other_of(actor, entries).unwrap_or(Pid::NONE);
        let target = sent.as_ref().map_or(Pid::NONE, Sent::target);
        let continues = sent.as_ref().is_some_and(|sent| sent.sig == Sig::CONT);
        let hangs_up = has_ended && snapshot.session == snapshot.pid;
        Concern {
            few: [snapshot.pid, hears, other, target],
            ended,
            sent: if target == Pid::NONE { sent } else { None },
            all: hangs_up || ((has_ended || continues) && self.rows.have_stopped()),
        }
    }

    /// Returns the processes that must be read again after an event with these entries and this signal, in the order of
    /// their numbers.
    pub fn concerned(
        &self,
        entries: &[Entry],
        sent: Option<Sent>,
        new: &Reading,
    ) -> Result<Vec<Pid>, AllocError> {
        let concern = match &self.actor {
            Some(actor) => self.concern_of(actor, entries, sent),
            None => Concern {
                few: [Pid::NONE; 4],
                ended: Pid::NONE,
                sent,
                all: false,
            },
        };
        self.rows.concerned(self.view.alloc, &concern, new)
    }

    /// Returns true if the actor is now blocked in a call.
    fn waits(&self, new: &[Row]) -> bool {
        let Some(pid) = self.acted() else {
            return false;
        };
        matches!(row_of(new, pid), Some(row) if row.snapshot.blocked.is_some())
    }

    /// Begins the line of an event. Writes the number of the event, except after a trace line, which has it.
    fn begin_line(&mut self, number: u64) {
        self.line.clear();
        if !self.view.traced {
            let _ = write!(self.line, "{number:>6}  ");
        }
    }

    /// Writes the line of the world at which the actor acted.
    fn put_place(&mut self) {
        let Some(actor) = self.actor else {
            return;
        };
        if let Some(written) = self.written_of(&actor) {
            self.line.push_with(", at line ", written.line);
        }
    }

    /// Adds the trace lines of an event, with its description after the first one.
    fn put_traced(&mut self, number: u64, entries: &[Entry]) -> Result<(), AllocError> {
        let Some((first, others)) = entries.split_first() else {
            return Ok(());
        };
        self.put_place();
        put_trace_line(&mut self.text, number, first);
        self.text.push_around("   ", self.line.as_bytes()?, "\n");
        for entry in others {
            put_trace_line(&mut self.text, number, entry);
            self.text.push_str("\n");
        }
        Ok(())
    }

    /// Adds the line of an event.
    fn put_line(&mut self, number: u64, entries: &[Entry]) -> Result<(), AllocError> {
        if self.view.traced {
            return self.put_traced(number, entries);
        }
        self.text.push_around("", self.line.as_bytes()?, "\n");
        Ok(())
    }

    /// Adds the line of an event, if it is shown. The line is made from the number of the event, its entries, the
    /// processes read after it, and the signal that it sent.
    pub fn tell(
        &mut self,
        number: u64,
        event: Event,
        entries: &[Entry],
        reading: &Reading,
        sent: Option<&Sent>,
    ) -> Result<(), AllocError> {
        let new = reading.rows.as_slice();
        self.showed = !entries.is_empty();
        self.begin_line(number);
        self.put_event(event, entries, new);
        let is_shown = self.put_effects(new, entries, sent);
        let is_gone = self.put_gone(reading.gone.as_slice(), entries);
        let view = self.view;
        let has_actor = self
            .acted()
            .map_or(view.only.is_empty(), |pid| view.has(pid));
        if is_shown || is_gone || has_actor {
            return self.put_line(number, entries);
        }
        Ok(())
    }

    /// Writes how the event changed the processes that were read again. Returns true if the event changed one that is
    /// shown.
    fn put_effects(&mut self, new: &[Row], entries: &[Entry], sent: Option<&Sent>) -> bool {
        let sent = if self.waits(new) { None } else { sent };
        let mut is_shown = false;
        for row in new {
            let is_told = self.put_effect(row, entries, new, sent);
            is_shown |= is_told && self.view.has(row.snapshot.pid);
        }
        is_shown
    }
}
