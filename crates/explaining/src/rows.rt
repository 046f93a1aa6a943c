//! The rows and lanes of a picture of a trace.

use crate::known::Known;
use crate::phrases::put_phrase;
use posix::{Call, Entry, Pid};
use std::alloc::{AllocError, Global};
use std::collections::BTreeMap;
use wording::{Prose, process_in};

/// The mark before the words of a row, in the lane of its process.
#[derive(Clone, Copy)]
pub enum Mark {
    /// The process does what the words say.
    Does,
    /// The process terminates.
    Ends,
    /// The machine halts.
    Halts,
}

/// The reason for an arrow.
#[derive(Clone, Copy)]
pub enum Cause {
    /// The process of the other lane is forked. The arrow points to it; all other arrows come from the other lane.
    Birth,
    /// The process of the other lane sent a signal, or a wait consumed a status change of that process.
    News,
    /// A `waitid` with WNOWAIT reported a status change of the other process. The arrow is dotted.
    Look,
}

/// An arrow between the lane of a row and another one.
#[derive(Clone, Copy)]
pub struct Arrow {
    /// The index of the other lane.
    pub lane: usize,
    pub cause: Cause,
}

/// The state of a lane below a row.
#[derive(Clone, Copy, PartialEq, Eq)]
pub enum State {
    Empty,
    Lives,
    /// The process is a zombie, and a row further down reports its termination.
    Ended,
}

/// A row, which shows a line of the trace.
#[derive(Drop)]
pub struct Row {
    /// The number of its event.
    pub event: u64,
    /// The index of the lane of its process, or of the first lane if the machine halts.
    pub lane: usize,
    pub mark: Mark,
    pub words: Vec<u8>,
    pub arrow: Option<Arrow>,
    /// True if a row further down reports this termination.
    is_told: bool,
    /// True if this is the last row that reports the termination of the process in the other lane.
    is_last: bool,
}

impl State {
    /// Returns the state of a process's lane above the first row.
    pub fn first(pid: Pid) -> State {
        if pid == Pid::INIT {
            State::Lives
        } else {
            State::Empty
        }
    }
}

impl Row {
    /// Returns the indexes of its leftmost and rightmost lanes.
    pub fn ends(&self) -> (usize, usize) {
        match self.arrow {
            Some(arrow) if arrow.lane < self.lane => (arrow.lane, self.lane),
            Some(arrow) => (self.lane, arrow.lane),
            None => (self.lane, self.lane),
        }
    }

    /// Returns the state of the lane of its process below the row. After a halt all lanes are empty.
    fn below(&self) -> State {
        match self.mark {
            Mark::Does => State::Lives,
            Mark::Ends if self.is_told => State::Ended,
            Mark::Ends | Mark::Halts => State::Empty,
        }
    }

    /// Returns the new state of the other lane of its arrow, if the row changes it.
    fn other_below(&self) -> Option<State> {
        match self.arrow?.cause {
            Cause::Birth => Some(State::Lives),
            Cause::News | Cause::Look if self.is_last => Some(State::Empty),
            Cause::News | Cause::Look => None,
        }
    }

    /// Returns the new state of a lane, if the row changes it.
    pub fn makes(&self, lane: usize) -> Option<State> {
        match (self.mark, self.arrow) {
            (Mark::Halts, _) => Some(State::Empty),
            (_, Some(arrow)) if arrow.lane == lane => self.other_below(),
            _ if self.lane == lane => Some(self.below()),
            _ => None,
        }
    }
}

/// The lane of a process ID. Above the first row, process 1 is alive and all other lanes are empty.
#[derive(Clone, Copy)]
pub struct Lane {
    pub pid: Pid,
    /// The number of its columns.
    pub width: usize,
    /// The number of columns that its heading and words take.
    pub reach: usize,
    /// The row of a termination, until a row reports that a wait reaped the process.
    ended: Option<usize>,
    /// The last row that reported this termination.
    told: Option<usize>,
}

/// The rows and the lanes of a picture.
#[derive(Drop)]
pub struct Rows {
    pub alloc: Global,
    pub rows: Vec<Row>,
    /// In the order in which the processes first act or are forked.
    pub lanes: Vec<Lane>,
    /// The index of the lane of each process ID.
    places: BTreeMap<u32, usize>,
    /// The column at which each lane begins, and the column after the last lane.
    columns: Vec<usize>,
    /// The number of columns for the event numbers and their heading.
    pub margin: usize,
}

/// Returns the number of digits of a number.
pub fn digits(number: u64) -> usize {
    let log = number.checked_ilog10().unwrap_or(0);
    (log as usize).saturating_add(1)
}

/// Returns the other process that a line names, and the reason for an arrow.
fn named(entry: &Entry) -> Option<(Pid, Cause)> {
    match *entry {
        Entry::Called {
            call: Call::Fork,
            result,
            ..
        } => Some((process_in(result.into())?, Cause::Birth)),
        Entry::Reported { child, .. } => Some((child, Cause::News)),
        Entry::Looked { child, .. } => Some((child, Cause::Look)),
        Entry::Handled { sender, .. } => Some((sender, Cause::News)),
        _ => None,
    }
}

impl Rows {
    /// Returns a picture without rows, and with the lane of process 1.
    pub fn new(alloc: Global) -> Result<Rows, AllocError> {
        let mut rows = Rows {
            alloc,
            rows: Vec::new(alloc),
            lanes: Vec::new(alloc),
            places: BTreeMap::new(alloc),
            columns: Vec::new(alloc),
            margin: 5,
        };
        rows.lane_of(Pid::INIT)?;
        Ok(rows)
    }

    /// Returns the index of the lane of a process ID. Adds a lane if it has none.
    fn lane_of(&mut self, pid: Pid) -> Result<usize, AllocError> {
        if let Some(place) = self.place_of(pid) {
            return Ok(place);
        }
        let place = self.lanes.len();
        let reach = digits(u64::from(pid.number()));
        self.lanes.push(Lane {
            pid,
            width: reach.saturating_add(2),
            reach,
            ended: None,
            told: None,
        })?;
        self.places.insert(pid.number(), place)?;
        Ok(place)
    }

    /// Returns the index of the lane of a process ID, if it has one.
    fn place_of(&self, pid: Pid) -> Option<usize> {
        self.places.get(&pid.number()).copied()
    }

    /// Adds the row of a line.
    pub fn add(&mut self, known: &mut Known, event: u64, entry: &Entry) -> Result<(), AllocError> {
        let lane = self.lane_of(entry.process().unwrap_or(Pid::INIT))?;
        let mut words = Prose::new(self.alloc);
        put_phrase(&mut words, known, entry)?;
        let words = words.finish()?;
        let mark = match entry {
            Entry::Ended { .. } => Mark::Ends,
            Entry::Halted => Mark::Halts,
            _ => Mark::Does,
        };
        self.begin(lane, mark, words.len());
        let arrow = self.arrow_of(lane, entry)?;
        let is_last = self.tell(arrow, entry);
        self.margin = self.margin.max(digits(event));
        self.rows.push(Row {
            event,
            lane,
            mark,
            words,
            arrow,
            is_told: false,
            is_last,
        })?;
        Ok(())
    }

    /// Makes room in a lane for the next row, and records a termination. Forgets an earlier termination in this lane,
    /// because the process ID is in use again.
    fn begin(&mut self, lane: usize, mark: Mark, words: usize) {
        let row = self.rows.len();
        if let Some(lane) = self.lanes.get_mut(lane) {
            lane.width = lane.width.max(words.saturating_add(5));
            lane.reach = lane.reach.max(words.saturating_add(2));
            lane.ended = None;
            if matches!(mark, Mark::Ends) {
                lane.ended = Some(row);
                lane.told = None;
            }
        }
    }

    /// Returns the arrow of a line in a lane. There is none to the lane itself. There is none to a process without a
    /// lane, unless it is forked.
    fn arrow_of(&mut self, lane: usize, entry: &Entry) -> Result<Option<Arrow>, AllocError> {
        let Some((pid, cause)) = named(entry) else {
            return Ok(None);
        };
        let other = match cause {
            Cause::Birth => Some(self.lane_of(pid)?),
            Cause::News | Cause::Look => self.place_of(pid),
        };
        let other = other.filter(|other| *other != lane);
        Ok(other.map(|lane| Arrow { lane, cause }))
    }

    /// Records what the next row, with this arrow, reports of the other process. Returns true if it reports a
    /// termination: it is the last such row so far.
    fn tell(&mut self, arrow: Option<Arrow>, entry: &Entry) -> bool {
        let Some(arrow) = arrow else {
            return false;
        };
        let row = self.rows.len();
        let Some(lane) = self.lanes.get_mut(arrow.lane) else {
            return false;
        };
        match entry {
            Entry::Called { .. } => {
                lane.ended = None;
                false
            }
            Entry::Reported { .. } | Entry::Looked { .. } => {
                let (ended, told) = (lane.ended, lane.told);
                if ended.is_some() {
                    lane.told = Some(row);
                }
                if matches!(entry, Entry::Reported { .. }) {
                    lane.ended = None;
                }
                self.turn_told(ended, told)
            }
            _ => false,
        }
    }

    /// Records that the next row reports a termination, if there is one, and that `told` is no longer the last row to
    /// do so. Returns true if there is one.
    fn turn_told(&mut self, ended: Option<usize>, told: Option<usize>) -> bool {
        let Some(ended) = ended else {
            return false;
        };
        if let Some(end) = self.rows.get_mut(ended) {
            end.is_told = true;
        }
        if let Some(told) = told {
            if let Some(before) = self.rows.get_mut(told) {
                before.is_last = false;
            }
        }
        true
    }

    /// Lays out the lanes side by side, after all rows are added.
    pub fn lay_out(&mut self) -> Result<(), AllocError> {
        let mut column = self.margin.saturating_add(2);
        for lane in &self.lanes {
            self.columns.push(column)?;
            column = column.saturating_add(lane.width);
        }
        self.columns.push(column)?;
        Ok(())
    }

    /// Returns the column at which a lane begins.
    pub fn column(&self, lane: usize) -> usize {
        self.columns.get(lane).copied().unwrap_or(0)
    }
}
