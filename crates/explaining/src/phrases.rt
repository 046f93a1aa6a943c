//! The words of a row of a picture: those of its trace line, with names in place of numbers.

use crate::known::Known;
use crate::meaning::{put_meaning, put_notice_of, put_sender};
use posix::{Call, Entry, Pid, Sig, Status, WaitCall};
use std::alloc::AllocError;
use wording::{Prose, put_signal};

/// Writes a call, its result, and the meaning of the result, if it has one.
fn put_called(text: &mut Prose, call: Call, value: i64, meaning: &[u8]) {
    text.push_bytes(call.name());
    text.push_with(" = ", value);
    put_behind(text, ": ", meaning);
}

/// Writes `before` and the words, if there are any words.
fn put_behind(text: &mut Prose, before: &str, words: &[u8]) {
    if !words.is_empty() {
        text.push_word(before, words);
    }
}

/// Writes a signal that is handled, and its sender. Then writes the meaning of its value, or the value itself if it has
/// no meaning and is not 0.
fn put_handled(text: &mut Prose, known: &Known, pid: Pid, sig: Sig, value: i64, sender: Pid) {
    text.push_str("handle ");
    put_signal(text, sig);
    put_sender(text, " from ", sender);
    let len = text.len();
    put_notice_of(text, known, pid, sig, value, sender);
    if text.len() == len && value != 0 {
        text.push_with(", value ", value);
    }
}

/// Writes a child, and the meaning of its status, or the status itself if it has no meaning.
fn put_child(text: &mut Prose, child: Pid, status: Status, meaning: &[u8]) {
    text.push_number(child.number());
    if meaning.is_empty() {
        text.push_with(" status ", status.word());
    }
    put_behind(text, ": ", meaning);
}

/// Writes the words of a line, with its meaning in place of its numbers.
fn put_with_meaning(text: &mut Prose, entry: &Entry, meaning: &[u8]) {
    match *entry {
        Entry::Noted { value, .. } => text.push_with("note ", value),
        Entry::Called { call, result, .. } => put_called(text, call, result, meaning),
        Entry::Moved { call, bytes, .. } => {
            put_called(text, call, bytes.as_slice().len() as i64, meaning);
        }
        Entry::Reported {
            call,
            child,
            status,
            ..
        } => {
            text.push_str(match call {
                WaitCall::Waitpid => "waitpid = ",
                WaitCall::Waitid => "waitid = take ",
            });
            put_child(text, child, status, meaning);
        }
        Entry::Looked { child, status, .. } => {
            text.push_str("waitid = look ");
            put_child(text, child, status, meaning);
        }
        Entry::NoMemory { call, .. } => put_called(text, call, -11, meaning),
        Entry::Marked { .. } => put_called(text, Call::Subreaper, 0, meaning),
        Entry::Discarded { .. } => put_behind(text, "discard ", meaning),
        Entry::Stopped { .. } => put_behind(text, "stop ", meaning),
        Entry::Ended { .. } => put_behind(text, "end: ", meaning),
        Entry::Returned { .. } => text.push_str("return"),
        Entry::Halted => text.push_str("halt"),
        Entry::Handled { .. } => {}
    }
}

/// Writes the words of a line, and records what later lines need.
pub fn put_phrase(text: &mut Prose, known: &mut Known, entry: &Entry) -> Result<(), AllocError> {
    if let Entry::Handled {
        pid,
        sig,
        value,
        sender,
    } = *entry
    {
        put_handled(text, known, pid, sig, value, sender);
        return Ok(());
    }
    let mut meaning = Prose::new(text.alloc());
    put_meaning(&mut meaning, known, entry)?;
    put_with_meaning(text, entry, meaning.as_bytes()?);
    Ok(())
}
