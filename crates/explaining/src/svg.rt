//! A picture of a trace as SVG. A column of the text is 8 pixels wide, and a line is 20 pixels high.

ghost use Rattle.std.specs.Prelude.{IfErr};
ghost use Rattle.explaining.specs.Drawings.{IsCutOff};

use crate::picture::put_if_full;
use crate::rows::{Arrow, Cause, Mark, Row, Rows, State, digits};
use inputs::FileFailure;
use std::alloc::AllocError;
use trace::{Sink, put_all};
use wording::Prose;

/// A point in the picture, in pixels.
#[derive(Clone, Copy)]
struct Point {
    x: usize,
    y: usize,
}

impl Point {
    /// Returns the point this far to the right and this far down.
    fn by(self, right: isize, down: isize) -> Point {
        Point {
            x: self.x.saturating_add_signed(right),
            y: self.y.saturating_add_signed(down),
        }
    }
}

/// Returns the point this many columns to the right.
fn behind(place: Point, columns: usize) -> Point {
    Point {
        x: place.x.saturating_add(columns.saturating_mul(8)),
        y: place.y,
    }
}

/// Returns `by` for the direction to the right, and its negation for the left.
fn toward(is_right: bool, by: isize) -> isize {
    if is_right { by } else { by.saturating_neg() }
}

/// Writes a straight line.
fn put_wire(text: &mut Prose, from: Point, to: Point, dashes: &str) {
    text.push_with("<line x1=\"", from.x);
    text.push_with("\" y1=\"", from.y);
    text.push_with("\" x2=\"", to.x);
    text.push_with("\" y2=\"", to.y);
    text.push_str("\" stroke=\"#666666\"");
    text.push_str(dashes);
    text.push_str("/>\n");
}

/// Writes `before` and a corner of an arrowhead.
fn put_corner(text: &mut Prose, before: &str, corner: Point) {
    text.push_with(before, corner.x);
    text.push_with(",", corner.y);
}

/// Writes an arrowhead with this tip, and with `back` as the middle of its back.
fn put_point(text: &mut Prose, tip: Point, back: Point) {
    put_corner(text, "<polygon points=\"", tip);
    put_corner(text, " ", back.by(0, -4));
    put_corner(text, " ", back.by(0, 4));
    text.push_str("\"/>\n");
}

/// Writes a dot.
fn put_dot(text: &mut Prose, middle: Point, fill: &str) {
    text.push_with("<circle cx=\"", middle.x);
    text.push_with("\" cy=\"", middle.y);
    text.push_str("\" r=\"4\" fill=\"");
    text.push_str(fill);
    text.push_str("\" stroke=\"#000000\"/>\n");
}

/// Writes the bar at the end of a lane.
fn put_bar(text: &mut Prose, middle: Point) {
    let corner = middle.by(-5, -2);
    text.push_with("<rect x=\"", corner.x);
    text.push_with("\" y=\"", corner.y);
    text.push_str("\" width=\"10\" height=\"4\"/>\n");
}

/// Writes the beginning of a text that takes this many columns.
fn begin_words(text: &mut Prose, place: Point, columns: usize) {
    text.push_with("<text x=\"", place.x);
    text.push_with("\" y=\"", place.by(0, 4).y);
    text.push_with("\" textLength=\"", columns.saturating_mul(8));
    text.push_str("\">");
}

/// Writes a text.
fn put_words(text: &mut Prose, place: Point, words: &[u8]) {
    begin_words(text, place, words.len());
    for byte in words {
        match byte {
            b'&' => text.push_str("&amp;"),
            b'<' => text.push_str("&lt;"),
            b'>' => text.push_str("&gt;"),
            _ => text.push_byte(*byte),
        }
    }
    text.push_str("</text>\n");
}

/// Writes a number.
fn put_number(text: &mut Prose, place: Point, number: u64) {
    begin_words(text, place, digits(number));
    text.push_number(number);
    text.push_str("</text>\n");
}

/// Returns the height of a row, measured downward. The first row has the headings of the lanes, which begin half a row
/// below it.
fn height(row: usize) -> usize {
    row.saturating_mul(20).saturating_add(18)
}

/// The state of a lane, and the height at which it begins.
#[derive(Clone, Copy)]
struct Since {
    state: State,
    height: usize,
}

/// A picture, written piece by piece.
#[derive(Drop)]
pub struct Svg<'r> {
    rows: &'r Rows,
    lanes: Vec<Since>,
    text: Prose,
}

impl<'r> Svg<'r> {
    /// Returns an empty picture.
    fn new(rows: &'r Rows) -> Result<Svg<'r>, AllocError> {
        let mut lanes = Vec::new(rows.alloc);
        for lane in &rows.lanes {
            let state = State::first(lane.pid);
            lanes.push(Since { state, height: 28 })?;
        }
        Ok(Svg {
            rows,
            lanes,
            text: Prose::new(rows.alloc),
        })
    }

    /// Returns the point of a lane at a height.
    fn at(&self, lane: usize, height: usize) -> Point {
        Point {
            x: self.rows.column(lane).saturating_mul(8),
            y: height,
        }
        .by(12, 0)
    }

    /// Changes the state of a lane from a height on, and draws the lane above it.
    fn turn(&mut self, lane: usize, state: State, height: usize) {
        let Some(since) = self.lanes.get(lane).copied() else {
            return;
        };
        if since.state == state {
            return;
        }
        let (from, to) = (self.at(lane, since.height), self.at(lane, height));
        match since.state {
            State::Empty => {}
            State::Lives => put_wire(&mut self.text, from, to, ""),
            State::Ended => put_wire(&mut self.text, from, to, " stroke-dasharray=\"2,4\""),
        }
        if let Some(lane) = self.lanes.get_mut(lane) {
            *lane = Since { state, height };
        }
    }

    /// Draws the end, at a height, of each lane with a live process.
    fn end_lanes(&mut self, height: usize) {
        for lane in 0..self.lanes.len() {
            if matches!(self.lanes.get(lane), Some(since) if since.state == State::Lives) {
                let place = self.at(lane, height);
                put_bar(&mut self.text, place);
            }
        }
    }

    /// Makes all lanes empty from a height on.
    fn empty_lanes(&mut self, height: usize) {
        for lane in 0..self.lanes.len() {
            self.turn(lane, State::Empty, height);
        }
    }

    /// Changes the state of a lane as a row does.
    fn pass(&mut self, row: &Row, lane: usize, height: usize) {
        if let Some(state) = row.makes(lane) {
            self.turn(lane, state, height);
        }
    }

    /// Changes the states of the lanes as a row does, and draws what ends there.
    fn draw_beside(&mut self, row: &Row, height: usize) {
        if matches!(row.mark, Mark::Halts) {
            self.end_lanes(height);
            return self.empty_lanes(height);
        }
        self.pass(row, row.lane, height);
        if let Some(arrow) = row.arrow {
            self.pass(row, arrow.lane, height);
        }
    }

    /// Draws the arrow of a row.
    fn draw_arrow(&mut self, row: &Row, arrow: Arrow, height: usize) {
        let (own, other) = (self.at(row.lane, height), self.at(arrow.lane, height));
        let is_right = row.lane < arrow.lane;
        let near = if is_right {
            behind(own.by(20, 0), row.words.len())
        } else {
            own.by(-5, 0)
        };
        if let Cause::Birth = arrow.cause {
            let tip = other.by(toward(is_right, -5), 0);
            put_wire(&mut self.text, near, tip, "");
            put_point(&mut self.text, tip, tip.by(toward(is_right, -8), 0));
            put_dot(&mut self.text, other, "#ffffff");
        } else {
            let dashes = match arrow.cause {
                Cause::Look => " stroke-dasharray=\"4,4\"",
                Cause::Birth | Cause::News => "",
            };
            put_wire(&mut self.text, near, other, dashes);
            put_point(&mut self.text, near, near.by(toward(is_right, 8), 0));
        }
    }

    /// Draws a row: its event number, its words, its arrow and its mark.
    fn draw_row(&mut self, row: &Row, height: usize) {
        let place = self.at(row.lane, height);
        let indent = self.rows.margin.saturating_sub(digits(row.event));
        let margin = behind(Point { x: 8, y: height }, indent);
        put_number(&mut self.text, margin, row.event);
        put_words(&mut self.text, place.by(12, 0), row.words.as_slice());
        if let Some(arrow) = row.arrow {
            self.draw_arrow(row, arrow, height);
        }
        match row.mark {
            Mark::Does => put_dot(&mut self.text, place, "#000000"),
            Mark::Ends | Mark::Halts => put_bar(&mut self.text, place),
        }
    }

    /// Draws the headings of the lanes.
    fn draw_heads(&mut self) {
        let top = height(0);
        put_words(&mut self.text, Point { x: 8, y: top }, b"event");
        for (place, lane) in self.rows.lanes.iter().enumerate() {
            let place = self.at(place, top).by(-4, 0);
            put_number(&mut self.text, place, u64::from(lane.pid.number()));
        }
    }

    /// Returns the number of columns of the picture.
    fn width(&self) -> usize {
        let lanes = self.rows.lanes.iter().enumerate();
        let ends = lanes.map(|(place, lane)| self.rows.column(place).saturating_add(lane.reach));
        ends.max().unwrap_or(0)
    }

    /// Writes the beginning of the picture: its size, and a white background.
    fn begin(&mut self) {
        let width = self.width().saturating_add(2).saturating_mul(8);
        let height = height(self.rows.rows.len()).saturating_add(20);
        self.text
            .push_str("<?xml version=\"1.0\" encoding=\"UTF-8\"?>\n");
        self.text.push_with(
            "<svg xmlns=\"http://www.w3.org/2000/svg\" version=\"1.1\" width=\"",
            width,
        );
        self.text.push_with("\" height=\"", height);
        self.text.push_str(
            "\" font-family=\"monospace\" font-size=\"13\" fill=\"#000000\" xml:space=\"preserve\">\n",
        );
        self.text.push_with("<rect width=\"", width);
        self.text.push_with("\" height=\"", height);
        self.text.push_str("\" fill=\"#ffffff\"/>\n");
    }

    /// Puts the lanes.
    fn put_lanes<O: Sink>(&mut self, out: &mut O) -> Result<(), FileFailure<'static>>
        ensures { IfErr result IsCutOff }
    {
        for (place, row) in self.rows.rows.iter().enumerate() {
            self.draw_beside(row, height(place.saturating_add(1)));
            put_if_full(&mut self.text, out)?;
        }
        self.empty_lanes(height(self.rows.rows.len()).saturating_add(10));
        Ok(())
    }

    /// Puts the rows.
    fn put_rows<O: Sink>(&mut self, out: &mut O) -> Result<(), FileFailure<'static>>
        ensures { IfErr result IsCutOff }
    {
        for (place, row) in self.rows.rows.iter().enumerate() {
            self.draw_row(row, height(place.saturating_add(1)));
            put_if_full(&mut self.text, out)?;
        }
        Ok(())
    }
}

/// Puts the picture of rows as SVG.
pub fn put_svg<'a, O: Sink>(rows: &Rows, out: &mut O) -> Result<(), FileFailure<'a>>
    ensures { IfErr result IsCutOff }
{
    let mut svg = Svg::new(rows)?;
    svg.begin();
    svg.put_lanes(out)?;
    svg.draw_heads();
    svg.put_rows(out)?;
    svg.text.push_str("</svg>\n");
    put_all(out, svg.text.as_bytes()?)?;
    Ok(())
}
