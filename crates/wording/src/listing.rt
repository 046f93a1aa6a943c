//! The lines of a world, by program and instruction.

use std::alloc::{AllocError, Global};
use std::str;
use text::{Lines, is_separator, split_comment};

/// An instruction as its world writes it.
#[derive(Clone, Copy)]
pub struct Written<'t> {
    /// The number of its line, from 1.
    pub line: u64,
    pub text: &'t str,
}

/// A label, and the place of the instruction after it.
#[derive(Clone, Copy)]
pub struct Label<'t> {
    pub name: &'t str,
    pub place: usize,
}

/// A program as its world writes it.
#[derive(Drop)]
pub struct Source<'t> {
    pub name: &'t str,
    /// The instructions, in their order.
    instructions: Vec<Written<'t>>,
    /// The labels, in the order of their places.
    labels: Vec<Label<'t>>,
}

/// The programs of a world as it writes them.
#[derive(Drop)]
pub struct Listing<'t> {
    programs: Vec<Source<'t>>,
}

/// Returns a line without its comment and without the whitespace around it; an empty text if it is not UTF-8.
fn code_of(line: &[u8]) -> &str {
    let (code, _) = split_comment(line);
    str::from_utf8(code).unwrap_or("").trim()
}

/// Returns the first and the second word of a line; an empty text for a missing word.
fn first_words(code: &str) -> (&str, &str) {
    let mut words = code
        .split(|c| u8::try_from(c).is_ok_and(|b| is_separator(b)))
        .filter(|word| !word.is_empty());
    let first = words.next().unwrap_or("");
    (first, words.next().unwrap_or(""))
}

impl<'t> Source<'t> {
    /// Returns a program without instructions and labels.
    fn new(alloc: Global, name: &'t str) -> Source<'t> {
        Source {
            name,
            instructions: Vec::new(alloc),
            labels: Vec::new(alloc),
        }
    }

    /// Returns the instruction at a place, from 0; `None` if there is none.
    pub fn at(&self, place: usize) -> Option<Written<'t>> {
        self.instructions.get(place).copied()
    }

    /// Returns the last label at or before the instruction at a place.
    pub fn label_of(&self, place: usize) -> Option<Label<'t>> {
        let before = self.labels.iter().filter(|label| label.place <= place);
        before.last().copied()
    }

    /// Adds the next of its lines.
    fn take(&mut self, line: u64, code: &'t str) -> Result<(), AllocError> {
        let (first, _) = first_words(code);
        let place = self.instructions.len();
        if let Some(name) = first.strip_suffix(":") {
            self.labels.push(Label { name, place })?;
        } else {
            self.instructions.push(Written { line, text: code })?;
        }
        Ok(())
    }
}

impl<'t> Listing<'t> {
    /// Returns the programs of a world text.
    pub fn new(alloc: Global, text: &'t [u8]) -> Result<Listing<'t>, AllocError> {
        let mut listing = Listing {
            programs: Vec::new(alloc),
        };
        let mut is_open = false;
        for (number, line) in (1u64..).zip(Lines(text)) {
            let code = code_of(line);
            match first_words(code) {
                ("", _) => {}
                ("program", name) if !is_open => {
                    listing.programs.push(Source::new(alloc, name))?;
                    is_open = true;
                }
                ("end", _) => is_open = false,
                _ if is_open => listing.take(number, code)?,
                _ => {}
            }
        }
        Ok(listing)
    }

    /// Adds a line to the last program.
    fn take(&mut self, line: u64, code: &'t str) -> Result<(), AllocError> {
        match self.programs.last_mut() {
            Some(source) => source.take(line, code),
            None => Ok(()),
        }
    }

    /// Returns the program with a number, from 0; `None` if there is none.
    pub fn program(&self, number: usize) -> Option<&Source<'t>> {
        self.programs.get(number)
    }
}
