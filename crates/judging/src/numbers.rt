//! Numbers in a line.

use crate::fault::{Fault, Number, Verdict, refuse};
use crate::lines::Line;
use posix::Uid;
use text::{Reason, integer};

impl Number {
    /// Returns the lowest and the largest number allowed.
    pub fn range(self) -> (u64, u64) {
        match self {
            Number::Pidmax => (2, 4_194_304),
            Number::Consoles => (0, 64),
            Number::Id => (0, u64::from(Uid::MAX)),
            Number::Count => (1, 1_000_000),
            Number::KeyConsole(count) | Number::HangupConsole(count) => (1, u64::from(count)),
        }
    }

    /// Returns true if a number is in the range.
    fn has(self, number: i64) -> bool {
        let (low, high) = self.range();
        u64::try_from(number).is_ok_and(|number| low <= number && number <= high)
    }
}

/// Checks the number at a place.
pub fn judge_number<'a>(line: Line<'a>, place: usize, number: Number) -> Verdict<'a> {
    let word = line.word(place);
    if word.is_empty() {
        return refuse(Reason::UnknownWord, place, Fault::Missing(number));
    }
    match integer(word) {
        Ok(value) if number.has(value) => Ok(()),
        Err(Reason::BadNumber) => refuse(Reason::BadNumber, place, Fault::NoNumber(number)),
        _ => refuse(Reason::OutOfRange, place, Fault::OutOfRange(number)),
    }
}

/// Checks that a line has at most so many words.
pub fn judge_end<'a>(line: Line<'a>, most: usize) -> Verdict<'a> {
    if line.count() > most {
        refuse(Reason::UnknownWord, most, Fault::TooMany)
    } else {
        Ok(())
    }
}
