//! Guesses of what a line says, from its words by position. A guess may be nonsense: the caller
//! tests it, prints it and compares.

ghost use Rattle.std.specs.Prelude.{◌≡◌};
ghost use Rattle.trace.specs.Guesses.{child_and_status as child_and_status_of, guess as guess_of, guess_call as guess_call_of, guess_discard as guess_discard_of, guess_end as guess_end_of, guess_entry as guess_entry_of, guess_handler as guess_handler_of, guess_note as guess_note_of, guess_result as guess_result_of, guess_stop as guess_stop_of};

use crate::words::{bytes_in, integer, pid_in, sig_in, split_word, status_in};
use posix::{Call, Entry, Pid, Status, WaitCall, decimal_value};

/// Guesses a note, after its first word.
#[tactic(auto, unfolding(crate::specs::Guesses::guess_note))]
fn guess_note(words: &[u8]) -> Option<Entry>
    ensures { result ≡ guess_note_of words.now }
{
    let (pid, value) = split_word(words);
    Some(Entry::Noted {
        pid: pid_in(pid)?,
        value: integer(value)?,
    })
}

/// What a line says of the result of a call.
#[derive(Clone, Copy)]
enum Shown {
    Value,
    Bytes,
    Status,
    Take,
    Look,
    NoMemory,
    Mark,
}

impl Shown {
    ghost use Rattle.trace.specs.Guesses.{shown_by, shown_text};

    /// All of them.
    const ALL: [Shown; 7] = [
        Shown::Value,
        Shown::Bytes,
        Shown::Status,
        Shown::Take,
        Shown::Look,
        Shown::NoMemory,
        Shown::Mark,
    ];

    /// Returns the word after a call's result that names it.
    fn text(self) -> &'static [u8]
        ensures { result.now ≡ shown_text self }
    {
        match self {
            Shown::Value => b"",
            Shown::Bytes => b"bytes",
            Shown::Status => b"status",
            Shown::Take => b"take",
            Shown::Look => b"look",
            Shown::NoMemory => b"memory",
            Shown::Mark => b"mark",
        }
    }

    /// Returns the one that a word names, if any.
    #[tactic(auto, unfolding(crate::specs::Guesses::shown_by))]
    fn named(word: &[u8]) -> Option<Shown>
        ensures { result ≡ shown_by word.now }
    {
        Shown::ALL
            .iter()
            .copied()
            .find(|shown| word == shown.text())
    }
}

/// Guesses a child and its wait status, with a word between them.
#[tactic(auto, unfolding(crate::specs::Guesses::child_and_status))]
fn child_and_status(words: &[u8]) -> Option<(Pid, Status)>
    ensures { result ≡ child_and_status_of words.now }
{
    let (child, words) = split_word(words);
    let (_, status) = split_word(words);
    Some((pid_in(child)?, status_in(status)?))
}

/// Guesses the entry of a call, from the process, the call, the result and what follows.
#[tactic(auto, unfolding(crate::specs::Guesses::guess_result))]
fn guess_result(pid: Pid, call: Call, value: &[u8], words: &[u8]) -> Option<Entry>
    ensures { result ≡ guess_result_of pid call value.now words.now }
{
    let (shown, last) = split_word(words);
    match Shown::named(shown)? {
        Shown::Value => Some(Entry::Called {
            pid,
            call,
            result: integer(value)?,
        }),
        Shown::Bytes => Some(Entry::Moved {
            pid,
            call,
            bytes: bytes_in(last)?,
        }),
        Shown::Status => Some(Entry::Reported {
            pid,
            call: WaitCall::Waitpid,
            child: pid_in(value)?,
            status: status_in(last)?,
        }),
        Shown::Take => {
            let (child, status) = child_and_status(last)?;
            Some(Entry::Reported {
                pid,
                call: WaitCall::Waitid,
                child,
                status,
            })
        }
        Shown::Look => {
            let (child, status) = child_and_status(last)?;
            Some(Entry::Looked { pid, child, status })
        }
        Shown::NoMemory => Some(Entry::NoMemory { pid, call }),
        Shown::Mark => Some(Entry::Marked {
            pid,
            mark: last == b"1".as_slice(),
        }),
    }
}

/// Guesses the entry of a call, after its first word.
#[tactic(auto, unfolding(crate::specs::Guesses::guess_call))]
fn guess_call(words: &[u8]) -> Option<Entry>
    ensures { result ≡ guess_call_of words.now }
{
    let (pid, words) = split_word(words);
    let (name, words) = split_word(words);
    let (_, words) = split_word(words);
    let (value, words) = split_word(words);
    guess_result(pid_in(pid)?, Call::named(name)?, value, words)
}

/// Guesses the entry of a handler, after its first word.
#[tactic(auto, unfolding(crate::specs::Guesses::guess_handler))]
fn guess_handler(words: &[u8]) -> Option<Entry>
    ensures { result ≡ guess_handler_of words.now }
{
    let (pid, words) = split_word(words);
    let (sig, words) = split_word(words);
    let (value, sender) = split_word(words);
    Some(Entry::Handled {
        pid: pid_in(pid)?,
        sig: sig_in(sig)?,
        value: integer(value)?,
        sender: pid_in(sender)?,
    })
}

/// Guesses a discarded signal, after its first word.
#[tactic(auto, unfolding(crate::specs::Guesses::guess_discard))]
fn guess_discard(words: &[u8]) -> Option<Entry>
    ensures { result ≡ guess_discard_of words.now }
{
    let (pid, sig) = split_word(words);
    Some(Entry::Discarded {
        pid: pid_in(pid)?,
        sig: sig_in(sig)?,
    })
}

/// Guesses a stop by a signal, after its first word.
#[tactic(auto, unfolding(crate::specs::Guesses::guess_stop))]
fn guess_stop(words: &[u8]) -> Option<Entry>
    ensures { result ≡ guess_stop_of words.now }
{
    let (pid, sig) = split_word(words);
    Some(Entry::Stopped {
        pid: pid_in(pid)?,
        sig: sig_in(sig)?,
    })
}

/// Guesses a termination, after its first word.
#[tactic(auto, unfolding(crate::specs::Guesses::guess_end))]
fn guess_end(words: &[u8]) -> Option<Entry>
    ensures { result ≡ guess_end_of words.now }
{
    let (pid, status) = split_word(words);
    Some(Entry::Ended {
        pid: pid_in(pid)?,
        status: status_in(status)?,
    })
}

/// The form of a line, which its first word names.
#[derive(Clone, Copy)]
enum Form {
    Note,
    Call,
    Handler,
    Discard,
    Stop,
    Return,
    End,
    Halt,
}

impl Form {
    ghost use Rattle.trace.specs.Guesses.{form_named, form_text};

    /// All forms.
    const ALL: [Form; 8] = [
        Form::Note,
        Form::Call,
        Form::Handler,
        Form::Discard,
        Form::Stop,
        Form::Return,
        Form::End,
        Form::Halt,
    ];

    /// Returns the first word of the form.
    fn text(self) -> &'static [u8]
        ensures { result.now ≡ form_text self }
    {
        match self {
            Form::Note => b"note",
            Form::Call => b"call",
            Form::Handler => b"handle",
            Form::Discard => b"discard",
            Form::Stop => b"stop",
            Form::Return => b"return",
            Form::End => b"end",
            Form::Halt => b"halt",
        }
    }

    /// Returns the form that a first word names, if any.
    #[tactic(auto, unfolding(crate::specs::Guesses::form_named))]
    fn named(word: &[u8]) -> Option<Form>
        ensures { result ≡ form_named word.now }
    {
        Form::ALL.iter().copied().find(|form| word == form.text())
    }
}

/// Guesses an entry of a form, after its first word.
fn guess_entry(form: Form, words: &[u8]) -> Option<Entry>
    ensures { result ≡ guess_entry_of form words.now }
{
    match form {
        Form::Note => guess_note(words),
        Form::Call => guess_call(words),
        Form::Handler => guess_handler(words),
        Form::Discard => guess_discard(words),
        Form::Stop => guess_stop(words),
        Form::Return => Some(Entry::Returned {
            pid: pid_in(words)?,
        }),
        Form::End => guess_end(words),
        Form::Halt => Some(Entry::Halted),
    }
}

/// Guesses the event number and the entry of a line, if its words may be those of one.
#[tactic(auto, unfolding(crate::specs::Guesses::guess))]
pub fn guess(text: &[u8]) -> Option<(u64, Entry)>
    ensures { result ≡ guess_of text.now }
{
    let (event, words) = split_word(text);
    let (name, words) = split_word(words);
    let entry = guess_entry(Form::named(name)?, words)?;
    Some((decimal_value(event), entry))
}
