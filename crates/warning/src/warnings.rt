//! Warnings about probable mistakes, and their messages.

ghost use Rattle.wording.specs.Proses.{Grows};

use posix::{Call, Sig, SigSet};
use wording::{Prose, Source, put_address, put_set, put_signal};

/// A probable mistake in an accepted world.
#[derive(Clone, Copy)]
pub enum Warning {
    /// A call uses the number of a signal as a set.
    NumberForSet(Call, Sig),
    /// The handler of a signal, at this code address, runs off the end of its program.
    NoReturn(Sig, i64),
    /// A sigaction sets the handler of the first signal to the old handler of the second signal.
    HandlerOfAnother(Sig, Sig),
    /// A store has its registers exchanged: the first has a word that is an address, the second a word outside the
    /// memory.
    Exchanged {
        registers: (usize, usize),
        word: i64,
        outside: i64,
    },
}

/// Writes that a call uses the number of a signal as a set.
fn put_number_for_set(text: &mut Prose, call: Call, sig: Sig)
    ensures { Grows text.old.text text.new.text }
{
    let number = i64::from(sig.number());
    text.push_bytes(call.name());
    text.push_str(match call {
        Call::Sigaction => " takes a signal set as its mask: ",
        _ => " takes a signal set: ",
    });
    text.push_number(number);
    text.push_str(" is the number of ");
    put_signal(text, sig);
    text.push_str(", and as a set it is ");
    put_set(text, SigSet::from_word(number));
    text.push_with(
        "; for a set of only that signal, use ",
        SigSet::just(sig).word(),
    );
}

/// Writes that a handler never reaches sigreturn.
fn put_no_return(text: &mut Prose, source: &Source<'_>, sig: Sig, address: i64)
    ensures { Grows text.old.text text.new.text }
{
    text.push_str("handler ");
    put_address(text, Some(source), address);
    text.push_str(" of ");
    put_signal(text, sig);
    text.push_str(" never reaches sigreturn: it runs off the end of the program");
}

/// Writes that a sigaction sets the old handler of another signal.
fn put_handler_of_another(text: &mut Prose, sig: Sig, other: Sig)
    ensures { Grows text.old.text text.new.text }
{
    text.push_str("sigaction sets the handler of ");
    put_signal(text, sig);
    text.push_str(" to the old handler of ");
    put_signal(text, other);
    text.push_str("; r2 still holds the result of the previous sigaction");
}

/// Writes a store of one register at the address in another, with the contents of both.
fn put_store(text: &mut Prose, value: usize, address: usize, stored: i64, at: i64)
    ensures { Grows text.old.text text.new.text }
{
    text.push_with("st r", value);
    text.push_with(", r", address);
    text.push_with(" stores ", stored);
    text.push_with(" at ", at);
}

impl Warning {
    /// Writes the message.
    fn put(&self, text: &mut Prose, source: &Source<'_>)
        ensures { Grows text.old.text text.new.text }
    {
        match *self {
            Warning::NumberForSet(call, sig) => put_number_for_set(text, call, sig),
            Warning::NoReturn(sig, address) => put_no_return(text, source, sig, address),
            Warning::HandlerOfAnother(sig, other) => put_handler_of_another(text, sig, other),
            Warning::Exchanged {
                registers: (value, address),
                word,
                outside,
            } => {
                put_store(text, value, address, word, outside);
                text.push_str(", which is not an address (0 to 255); swap the registers: ");
                put_store(text, address, value, outside, word);
            }
        }
    }

    /// Writes a line with the message about the instruction at a place.
    pub fn put_line(&self, text: &mut Prose, source: &Source<'_>, place: usize)
        ensures { Grows text.old.text text.new.text }
    {
        if let Some(written) = source.at(place) {
            text.push_with("line ", written.line);
            text.push_str(": ");
            self.put(text, source);
            text.push_str("\n");
        }
    }
}
