//! The meaning of the numbers in a line of a trace.

use crate::known::Known;
use posix::{Bytes, Call, Entry, Pid, Sig, Status};
use std::alloc::AllocError;
use wording::{Kind, Prose, name_of, process_in, put_byte, put_signal, put_status};

/// Returns true if a wait status is that of a termination, of a stop by any signal, or of a continue.
fn is_status(status: Status) -> bool {
    let word = status.word();
    let by = u8::try_from(word / 256).ok().and_then(Sig::new);
    status.is_end() || status.is_continuation() || (word % 256 == 127 && by.is_some())
}

/// Writes the meaning of a wait status, if it has one.
fn put_if_status(text: &mut Prose, status: Status) {
    if is_status(status) {
        put_status(text, status);
    }
}

/// Writes bytes as a string in C, in quotation marks. A carriage return is written `\x0d`.
fn put_bytes(text: &mut Prose, bytes: &Bytes) {
    text.push_str("\"");
    for byte in bytes.as_slice() {
        match byte {
            b'\r' => text.push_str("\\x0d"),
            _ => put_byte(text, *byte),
        }
    }
    text.push_str("\"");
}

/// Writes the name of the error with which a call failed, if the error has a name.
fn put_refusal(text: &mut Prose, call: Call, value: i64) {
    let Some(name) = name_of(Kind::Errno, value.saturating_neg()) else {
        return;
    };
    text.push_str(name);
    if name == "EAGAIN" && matches!(call, Call::Kill | Call::Sigqueue) {
        text.push_str(", the queue is full");
    }
}

/// Writes the meaning of the result of a call, if it has one, and records what later lines need.
fn put_called(
    text: &mut Prose,
    known: &mut Known,
    pid: Pid,
    call: Call,
    value: i64,
) -> Result<(), AllocError> {
    if value < 0 {
        put_refusal(text, call, value);
        return Ok(());
    }
    match call {
        Call::Sigqueue if value == 0 => known.queue(pid)?,
        Call::Waitpid | Call::Waitid if value == 0 => text.push_str("nothing to report"),
        Call::Read if value == 0 => text.push_str("end of file, or count 0"),
        Call::Fork => {
            if let Some(child) = process_in(value.into()) {
                known.bear(pid, child)?;
            }
        }
        _ => {}
    }
    Ok(())
}

/// Writes the sender of a signal: that it is the machine, or `words` and the process ID.
pub fn put_sender(text: &mut Prose, words: &str, sender: Pid) {
    if sender == Pid::NONE {
        text.push_str(" from the machine");
    } else {
        text.push_with(words, sender.number());
    }
}

/// Writes the meaning of the value of SIGCHLD as a wait status, if it can be one. If the sender has called
/// `sigqueue` (`queues`), the value may also come from there.
fn put_notice(text: &mut Prose, value: i64, queues: bool) {
    if value == 0 {
        text.push_str(", exit 0 or sent by kill");
        if queues {
            text.push_str(" or sigqueue");
        }
        return;
    }
    let Ok(word) = u16::try_from(value) else {
        return;
    };
    let status = Status::from_word(word);
    if is_status(status) {
        text.push_str(", ");
        put_status(text, status);
        if queues {
            text.push_str(" or sent by sigqueue");
        }
    }
}

/// Writes the meaning of the value of a signal, if it is SIGCHLD and a child may have caused it.
pub fn put_notice_of(text: &mut Prose, known: &Known, pid: Pid, sig: Sig, value: i64, sender: Pid) {
    if sig == Sig::CHLD && sender != pid && sender > Pid::INIT {
        put_notice(text, value, known.queues(sender));
    }
}

/// Writes whether a process is a child subreaper.
fn put_mark(text: &mut Prose, mark: bool) {
    text.push_str(if mark { "a" } else { "not a" });
    text.push_str(" child subreaper");
}

/// Writes the meaning of a line, if it is more than the line shows, and records what later lines need.
pub fn put_meaning(text: &mut Prose, known: &mut Known, entry: &Entry) -> Result<(), AllocError> {
    match *entry {
        Entry::Called { pid, call, result } => put_called(text, known, pid, call, result)?,
        Entry::Moved { bytes, .. } => put_bytes(text, &bytes),
        Entry::Reported { status, .. } | Entry::Looked { status, .. } => {
            put_if_status(text, status);
        }
        Entry::NoMemory { .. } => text.push_str("EAGAIN, the host has no memory"),
        Entry::Marked { pid, mark } => {
            known.mark(pid, mark)?;
            put_mark(text, mark);
        }
        Entry::Handled {
            pid,
            sig,
            value,
            sender,
        } => {
            put_signal(text, sig);
            put_sender(text, " from process ", sender);
            put_notice_of(text, known, pid, sig, value, sender);
        }
        Entry::Discarded { sig, .. } | Entry::Stopped { sig, .. } => put_signal(text, sig),
        Entry::Ended { pid, status } => {
            put_if_status(text, status);
            known.end(pid, text)?;
        }
        Entry::Noted { .. } | Entry::Returned { .. } | Entry::Halted => {}
    }
    Ok(())
}
