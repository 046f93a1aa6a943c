//! Reads event texts in pieces.

ghost use Rattle.std.specs.Prelude.{◌≡◌, ◌≢◌, ◌-◌, ◌^◌, ◌<◌, ◌≤◌, [], ◌∷◌, ◌++◌, length, List, ℕ, Some, None, Ok, Err, MatchResult, IfOk, IfErr, IfSome, IsOk, IsSome};
ghost use Rattle.text.specs.Words.{words};
ghost use Rattle.text.specs.Reading.{Answers, IsFaultOf};
ghost use Rattle.text.specs.EventTexts.{Adds, EndsLine, Meets, HasRead, event_line as event_line_of, counted as counted_of, keys as keys_of, hangup as hangup_of, bytes_within as bytes_within_of, event_text, most_events};

use crate::event_list::EventList;
use crate::fault::{Reason, TextFault};
use crate::numbers::{byte_in, number_in};
use crate::words::{MAX_LINE_LEN, first_word, next_word, no_more_words, words_within};
use arrayvec::ArrayVec;
use posix::Event;
use std::alloc::Global;
use std::marker::Model;

/// The largest number of events of a text.
const MAX_EVENTS: u64 = 1_000_000_000_000;

/// Adds the events of `step N` or `tick N`, N from 1 to 1,000,000. `line` is the part after the first word. More events
/// than a text may have are `OutOfRange`. After an error, the list is unchanged.
#[tactic(auto, unfolding(crate::specs::EventTexts::counted))]
fn add_counted(list: &mut EventList, event: Event, line: &[u8]) -> Result<(), Reason>
    requires { length list.old ≤ most_events }
    ensures adds { Adds list.old list.new result (counted_of (most_events - length list.old) event (words line.now)) }
    ensures within { length list.new ≤ most_events }
    ensures some { counted_of (most_events - length list.old) event (words line.now) ≢ Ok [] }
{
    let (word, rest) = first_word(line)?;
    let count = u64::from(number_in(1, 1_000_000, word)?);
    if count > MAX_EVENTS - list.len() {
        return Err(Reason::OutOfRange);
    }
    no_more_words(rest)?;
    list.push(event, count)?;
    Ok(())
}

/// Room for the bytes of a line, each in two digits.
const MAX_KEYS: usize = MAX_LINE_LEN / 2;

/// Returns the bytes in the words of a line, of which there may be at most `room`. A word that is not a byte is
/// `BadNumber`, and one more byte is `OutOfRange`.
fn bytes_within(room: u64, line: &[u8]) -> Result<ArrayVec<u8, MAX_KEYS>, Reason>
    requires { length line.now ≤ 200 }
    ensures bytes { MatchResult result (λ bytes. bytes_within_of room (words line.now) ≡ Ok bytes.items) (λ reason. bytes_within_of room (words line.now) ≡ Err reason) }
    ensures within { IfOk result (λ bytes. length bytes.items ≤ room) }
{
    let mut bytes = ArrayVec::new();
    let mut rest = line;
    while let Some((_, word, behind)) = next_word(rest) {
        let byte = byte_in(word)?;
        if bytes.len() as u64 == room {
            return Err(Reason::OutOfRange);
        }
        bytes.push(byte);
        rest = behind;
    }
    Ok(bytes)
}

/// Adds the events of `key C B ..`, C from 1 to the number of consoles: a key for each of one or more bytes B. `line`
/// is the part after the first word. A missing word is `UnknownWord`. A C that is not a number, or a B that is not a
/// byte, is `BadNumber`. A C out of range, or a B that is one event more than a text may have, is `OutOfRange`. After
/// an error, the list is unchanged.
///
/// All bytes are collected, and room is reserved for all, before the first becomes an event. So a line is read whole or
/// not at all, even if there is no memory.
#[tactic(auto, unfolding(crate::specs::EventTexts::keys))]
fn add_keys(list: &mut EventList, consoles: u8, line: &[u8]) -> Result<(), Reason>
    requires events { length list.old ≤ most_events }
    requires short { length line.now ≤ 200 }
    ensures adds { Adds list.old list.new result (keys_of consoles (most_events - length list.old) (words line.now)) }
    ensures within { length list.new ≤ most_events }
    ensures some { keys_of consoles (most_events - length list.old) (words line.now) ≢ Ok [] }
{
    let (word, rest) = first_word(line)?;
    let console = number_in(1, u32::from(consoles), word)? as u8;
    let bytes = bytes_within(MAX_EVENTS - list.len(), rest)?;
    if bytes.is_empty() {
        return Err(Reason::UnknownWord);
    }
    list.push_keys(console, bytes.as_slice())?;
    Ok(())
}

/// Adds the event of `hangup C`, C from 1 to the number of consoles. `line` is the part after the first word. If this
/// is one event more than a text may have, C is `OutOfRange`. After an error, the list is unchanged.
#[tactic(auto, unfolding(crate::specs::EventTexts::hangup))]
fn add_hangup(list: &mut EventList, consoles: u8, line: &[u8]) -> Result<(), Reason>
    requires { length list.old ≤ most_events }
    ensures adds { Adds list.old list.new result (hangup_of consoles (most_events - length list.old) (words line.now)) }
    ensures within { length list.new ≤ most_events }
    ensures some { hangup_of consoles (most_events - length list.old) (words line.now) ≢ Ok [] }
{
    let (word, rest) = first_word(line)?;
    let console = number_in(1, u32::from(consoles), word)? as u8;
    if list.len() == MAX_EVENTS {
        return Err(Reason::OutOfRange);
    }
    no_more_words(rest)?;
    list.push(Event::Hangup { console }, 1)?;
    Ok(())
}

/// Adds the events of a line in a world with this number of consoles. After an error, the list is unchanged. A line
/// without events takes no memory, so it never fails.
fn add_line(list: &mut EventList, consoles: u8, line: &[u8]) -> Result<(), Reason>
    requires { length list.old ≤ most_events }
    ensures adds { Adds list.old list.new result (event_line_of consoles (most_events - length list.old) line.now) }
    ensures within { length list.new ≤ most_events }
    ensures none { event_line_of consoles (most_events - length list.old) line.now ≡ Ok [] → IsOk result }
{
    let Some((_, word, rest)) = next_word(words_within(line)?) else {
        return Ok(());
    };
    if word == b"step".as_slice() {
        add_counted(list, Event::Step, rest)
    } else if word == b"tick".as_slice() {
        add_counted(list, Event::Tick, rest)
    } else if word == b"key".as_slice() {
        add_keys(list, consoles, rest)
    } else if word == b"hangup".as_slice() {
        add_hangup(list, consoles, rest)
    } else {
        Err(Reason::UnknownWord)
    }
}

/// A reader of an event text that arrives in pieces, no matter how it is cut.
///
/// A line is `step N` or `tick N`, N from 1 to 1,000,000: N events; or `key C B ..`, C from 1 to the number of
/// consoles, with one or more bytes B of two hexadecimal digits each: a key for each byte; or `hangup C`, with such a
/// C. A text has at most 1,000,000,000,000 events.
#[derive(Drop)]
pub struct EventReader {
    consoles: u8,
    events: EventList,
    /// The number of complete lines.
    lines: u64,
    /// The incomplete line, up to one byte above the limit.
    partial: ArrayVec<u8, 201>,
    fault: Option<TextFault>,
}

impl Model for EventReader {
    ghost use Rattle.std.specs.Prelude.{◌≤◌, length};
    ghost use Rattle.text.specs.EventTexts.{Progress, most_events};

    ghost Value = { Progress };

    ghost view = { λ r. record { consoles = r.consoles; reading = record { lines = r.lines; events = r.events; fault = r.fault }; partial = r.partial.items } };

    ghost invariant = { λ r. length r.events ≤ most_events };
}

impl EventReader {
    /// Returns the reader before the first piece of a text, for a world with this number of consoles.
    pub fn new(alloc: Global, consoles: u8) -> EventReader
        ensures read { HasRead [] result }
        ensures consoles { result.consoles ≡ consoles }
        ensures fault { result.reading.fault ≡ None }
    {
        EventReader {
            consoles,
            events: EventList::new(alloc),
            lines: 0,
            partial: ArrayVec::new(),
            fault: None,
        }
    }

    /// Returns the number of consoles of the world that the text is for.
    pub fn consoles(&self) -> u8
        ensures { result ≡ self.now.consoles }
    {
        self.consoles
    }

    /// Ends the incomplete line, and checks it. A line without events has no fault, unless there are more lines than 64
    /// bits can count.
    fn end_line(&mut self)
        requires { self.old.reading.fault ≡ None }
        ensures ends { EndsLine self.old self.new }
        ensures consoles { self.new.consoles ≡ self.old.consoles }
        ensures none { self.old.reading.lines < 2 ^ 64 - 1 → event_line_of self.old.consoles (most_events - length self.old.reading.events) self.old.partial ≡ Ok [] → self.new.reading.fault ≡ None }
    {
        if self.lines == u64::MAX {
            self.fault = Some(TextFault {
                line: u64::MAX,
                reason: Reason::Memory,
            });
            return;
        }
        let line = self.lines + 1;
        let judged = add_line(&mut self.events, self.consoles, self.partial.as_slice());
        self.partial.clear();
        match judged {
            Ok(()) => self.lines = line,
            Err(reason) => self.fault = Some(TextFault { line, reason }),
        }
    }

    /// Reads one byte of the text.
    fn feed_byte(&mut self, byte: u8)
        ensures read { (text : List ℕ) → HasRead text self.old → HasRead (text ++ byte ∷ []) self.new }
        ensures consoles { self.new.consoles ≡ self.old.consoles }
        ensures stays { IsSome self.old.reading.fault → self.new ≡ self.old }
    {
        if self.fault.is_some() {
            return;
        }
        if byte == b'\n' {
            self.end_line();
            return;
        }
        if self.partial.is_full() {
            return;
        }
        self.partial.push(byte);
    }

    /// Reads the next piece of the text.
    ///
    /// Returns a fault as soon as a faulty line is complete. Its reason is `Memory` if there is no memory, or if there
    /// are too many lines to count. From then on, the reader does not change, and each call returns the same fault.
    pub fn feed(&mut self, piece: &[u8]) -> Result<(), TextFault>
        ensures read { (text : List ℕ) → HasRead text self.old → HasRead (text ++ piece.now) self.new }
        ensures fault { MatchResult result (λ _. self.new.reading.fault ≡ None) (λ f. self.new.reading.fault ≡ Some f) }
        ensures answer { IfErr result (λ f. (text more : List ℕ) → HasRead text self.old → IsFaultOf (event_text self.old.consoles (text ++ piece.now ++ more)) f) }
        ensures stays { IsSome self.old.reading.fault → self.new ≡ self.old }
        ensures consoles { self.new.consoles ≡ self.old.consoles }
    {
        for byte in piece {
            self.feed_byte(*byte);
        }
        if let Some(fault) = self.fault {
            return Err(fault);
        }
        Ok(())
    }

    /// Checks the last line, if it lacks its line feed.
    fn end_text(&mut self)
        ensures meets { (text : List ℕ) → HasRead text self.old → Meets self.new.reading (event_text self.old.consoles text) }
        ensures stays { IsSome self.old.reading.fault → self.new ≡ self.old }
    {
        if self.fault.is_some() {
            return;
        }
        if self.partial.is_empty() {
            return;
        }
        self.end_line();
    }

    /// Returns the events of the text, or its first faulty line and the reason. If `feed` returned a fault before, this
    /// is that fault.
    pub fn finish(mut self) -> Result<EventList, TextFault>
        ensures answer { (text : List ℕ) → HasRead text self → Answers result (event_text self.consoles text) }
        ensures fault { IfSome self.reading.fault (λ f. result ≡ Err f) }
        ensures within { IfOk result (λ list. length list ≤ most_events) }
    {
        self.end_text();
        match self.fault {
            Some(fault) => Err(fault),
            None => Ok(self.events),
        }
    }
}

/// Returns the events of a whole text for a world with this number of consoles, or its first faulty line and the
/// reason.
pub fn read_events(alloc: Global, consoles: u8, text: &[u8]) -> Result<EventList, TextFault>
    ensures answer { Answers result (event_text consoles text.now) }
    ensures within { IfOk result (λ list. length list ≤ most_events) }
{
    let mut reader = EventReader::new(alloc, consoles);
    reader.feed(text)?;
    reader.finish()
}
