//! A picture of a trace as text: a lane for each process, side by side, and arrows from lane to lane.

ghost use Rattle.std.specs.Prelude.{IfErr};
ghost use Rattle.explaining.specs.Drawings.{IsCutOff};

use crate::rows::{Arrow, Cause, Mark, Row, Rows, State, digits};
use inputs::FileFailure;
use showing::PIECE;
use std::alloc::AllocError;
use trace::{Sink, put_all};
use wording::Prose;

/// A picture, written row by row.
#[derive(Drop)]
pub struct Picture<'r> {
    rows: &'r Rows,
    /// The state of each lane above the next row.
    states: Vec<State>,
    text: Prose,
    /// The index in the text at which the line begins.
    start: usize,
}

/// Returns the character of which an arrow is drawn.
fn stroke(arrow: Option<Arrow>) -> u8 {
    if arrow.is_some_and(|arrow| matches!(arrow.cause, Cause::Look)) {
        b'.'
    } else {
        b'-'
    }
}

/// Returns the lane to which the arrow of a row points, if the row has an arrow.
fn tip(row: &Row) -> Option<usize> {
    let arrow = row.arrow?;
    match arrow.cause {
        Cause::Birth => Some(arrow.lane),
        Cause::News | Cause::Look => Some(row.lane),
    }
}

/// Returns the character of a row in a lane other than that of its process. `state` is the state of the lane above the
/// row.
fn cell(row: &Row, lane: usize, state: State) -> u8 {
    let (left, right) = row.ends();
    match (row.arrow, row.mark, state) {
        (Some(arrow), _, _) if arrow.lane == lane => match arrow.cause {
            Cause::Birth => b'o',
            Cause::News | Cause::Look => b'+',
        },
        (_, Mark::Halts, State::Lives) => b'=',
        (arrow, _, State::Empty) if left < lane && lane < right => stroke(arrow),
        (_, _, State::Empty) => b' ',
        (_, _, State::Lives) => b'|',
        (_, _, State::Ended) => b':',
    }
}

impl<'r> Picture<'r> {
    /// Returns a picture without rows.
    fn new(rows: &'r Rows) -> Result<Picture<'r>, AllocError> {
        let mut states = Vec::new(rows.alloc);
        for lane in &rows.lanes {
            states.push(State::first(lane.pid))?;
        }
        Ok(Picture {
            rows,
            states,
            text: Prose::new(rows.alloc),
            start: 0,
        })
    }

    /// Fills the line with a byte up to a column.
    fn pad(&mut self, column: usize, byte: u8) {
        self.text.pad_to(self.start.saturating_add(column), byte);
    }

    /// Writes the headings of the lanes.
    fn put_head(&mut self) {
        self.pad(self.rows.margin.saturating_sub(5), b' ');
        self.text.push_str("event");
        for (place, lane) in self.rows.lanes.iter().enumerate() {
            self.pad(self.rows.column(place), b' ');
            self.text.push_number(lane.pid.number());
        }
        self.text.push_str("\n");
    }

    /// Writes the mark and the words of a row, in the lane of its process.
    fn put_own(&mut self, row: &Row) {
        self.pad(self.rows.column(row.lane), b' ');
        self.text.push_str(match row.mark {
            Mark::Does => "* ",
            Mark::Ends => "x ",
            Mark::Halts => "= ",
        });
        self.text.push_bytes(row.words.as_slice());
        if row.lane < row.ends().1 {
            self.text.push_str(" ");
        }
    }

    /// Writes the part of a row in a lane.
    fn put_cell(&mut self, row: &Row, lane: usize, state: State) {
        if lane == row.lane {
            return self.put_own(row);
        }
        let byte = cell(row, lane, state);
        if byte != b' ' {
            self.pad(self.rows.column(lane), b' ');
            self.text.push_byte(byte);
        }
    }

    /// Writes the part of an arrow between a lane and the next one.
    fn put_stroke(&mut self, row: &Row, lane: usize) {
        let (left, right) = row.ends();
        if lane < left || lane >= right {
            return;
        }
        let next = lane.saturating_add(1);
        if lane == left && tip(row) == Some(left) {
            self.text.push_str("<");
        }
        let column = self.rows.column(next);
        if next == right && tip(row) == Some(right) {
            self.pad(column.saturating_sub(1), stroke(row.arrow));
            self.text.push_str(">");
        } else {
            self.pad(column, stroke(row.arrow));
        }
    }

    /// Writes a row.
    fn put_row(&mut self, row: &Row) {
        self.start = self.text.len();
        self.pad(self.rows.margin.saturating_sub(digits(row.event)), b' ');
        self.text.push_number(row.event);
        for lane in 0..self.states.len() {
            let state = self.states.get(lane).copied();
            self.put_cell(row, lane, state.unwrap_or(State::Empty));
            self.put_stroke(row, lane);
            self.turn(lane, row.makes(lane));
        }
        self.text.push_str("\n");
    }

    /// Sets the state of a lane below a row, if the row changes it.
    fn turn(&mut self, lane: usize, made: Option<State>) {
        if let (Some(state), Some(made)) = (self.states.get_mut(lane), made) {
            *state = made;
        }
    }
}

/// Puts and clears the text if it holds 8 KiB or more.
pub fn put_if_full<'a, O: Sink>(text: &mut Prose, out: &mut O) -> Result<(), FileFailure<'a>>
    ensures { IfErr result IsCutOff }
{
    if text.len() >= PIECE {
        put_all(out, text.as_bytes()?)?;
        text.clear();
    }
    Ok(())
}

/// Puts the picture of rows as text.
pub fn put_picture<'a, O: Sink>(rows: &Rows, out: &mut O) -> Result<(), FileFailure<'a>>
    ensures { IfErr result IsCutOff }
{
    let mut picture = Picture::new(rows)?;
    picture.put_head();
    for row in &rows.rows {
        picture.put_row(row);
        put_if_full(&mut picture.text, out)?;
    }
    put_all(out, picture.text.as_bytes()?)?;
    Ok(())
}
