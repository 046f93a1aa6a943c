//! Lines of events.

use crate::fault::{Fault, Number, Refusal, Stop, Verdict, refuse};
use crate::lines::Line;
use crate::numbers::{judge_end, judge_number};
use crate::words::is_byte;
use text::{MAX_LINE_LEN, Reason};

/// Checks a line `key`.
fn judge_keys<'a>(line: Line<'a>, consoles: u8) -> Verdict<'a> {
    judge_number(line, 1, Number::KeyConsole(consoles))?;
    let count = line.count();
    if count < 3 {
        return refuse(Reason::UnknownWord, 2, Fault::ByteMissing);
    }
    match (2..count).find(|place| !is_byte(line.word(*place))) {
        Some(place) => refuse(Reason::BadNumber, place, Fault::NoByte),
        None => Ok(()),
    }
}

/// Checks a line `hangup`.
fn judge_hangup<'a>(line: Line<'a>, consoles: u8) -> Verdict<'a> {
    judge_number(line, 1, Number::HangupConsole(consoles))?;
    if line.count() > 2 {
        return refuse(Reason::UnknownWord, 2, Fault::ManyConsoles);
    }
    Ok(())
}

/// Checks a line of events for a world with so many consoles.
fn judge_line(text: &[u8], consoles: u8) -> Verdict<'_> {
    if text.len() > MAX_LINE_LEN {
        return refuse(Reason::LineTooLong, 0, Fault::LongLine);
    }
    let line = Line::new(text);
    if !line.has_words() {
        return Ok(());
    }
    match line.first() {
        b"key" => judge_keys(line, consoles),
        b"hangup" => judge_hangup(line, consoles),
        b"step" | b"tick" => {
            judge_number(line, 1, Number::Count)?;
            judge_end(line, 2)
        }
        _ => refuse(Reason::UnknownWord, 0, Fault::NoEvent),
    }
}

/// Returns why a line of events is rejected. If nothing is wrong with the line itself, there are too many events, and
/// the result has the given reason.
pub fn refusal_of(text: &[u8], consoles: u8, reason: Reason) -> Refusal<'_> {
    match judge_line(text, consoles) {
        Err(Stop::Refused(refusal)) => refusal,
        Ok(()) | Err(Stop::Memory) => Refusal {
            reason,
            place: 0,
            fault: Fault::ManyEvents,
        },
    }
}
