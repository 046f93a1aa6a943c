//! The warnings about a world.

ghost use Rattle.wording.specs.Proses.{Grows};

use crate::addresses::Addresses;
use crate::known::Known;
use crate::rules::{exchanged, handler_of_another, no_return, number_for_set};
use crate::targets::Targets;
use crate::warnings::Warning;
use crate::ways::Ways;
use posix::Instr;
use std::alloc::{AllocError, Global};
use umach::{Program, World};
use wording::{Listing, Prose, Source};

/// A program, its source, and what is known of the whole program.
#[derive(Drop)]
struct View<'a, 't> {
    program: &'a Program,
    source: &'a Source<'t>,
    ways: Ways,
    addresses: Addresses,
}

impl View<'_, '_> {
    /// Adds a line for a warning about the instruction at a place, if there is one.
    fn put(&self, text: &mut Prose, place: usize, warning: Option<Warning>)
        ensures { Grows text.old.text text.new.text }
    {
        if let Some(warning) = warning {
            warning.put_line(text, self.source, place);
        }
    }

    /// Adds the warnings about an instruction.
    fn put_instr(&self, text: &mut Prose, place: usize, known: &Known, instr: &Instr)
        ensures { Grows text.old.text text.new.text }
    {
        self.put(text, place, exchanged(known, instr, &self.addresses));
        if let Instr::Sys(call) = *instr {
            self.put(text, place, number_for_set(known, call));
            self.put(
                text,
                place,
                no_return(known, call, self.program, &self.ways),
            );
            self.put(text, place, handler_of_another(known, call));
        }
    }
}

/// Adds the warnings about a program.
fn put_program(
    alloc: Global,
    program: &Program,
    source: &Source<'_>,
    text: &mut Prose,
) -> Result<(), AllocError>
    ensures { Grows text.old.text text.new.text }
{
    let targets = Targets::new(alloc, program)?;
    let view = View {
        program,
        source,
        ways: Ways::new(alloc, program)?,
        addresses: Addresses::new(program, &targets),
    };
    let mut known = Known::nothing();
    for place in 0..program.len() {
        known.come_to(&targets, place);
        if let Some(instr) = program.get(place) {
            view.put_instr(text, place, &known, &instr);
            known.run(&instr);
        }
    }
    Ok(())
}

/// Adds a line for each warning about a world, in the order of its lines.
pub fn put_warnings(
    alloc: Global,
    world: &World,
    world_text: &[u8],
    text: &mut Prose,
) -> Result<(), AllocError>
    ensures { Grows text.old.text text.new.text }
{
    let listing = Listing::new(alloc, world_text)?;
    for (number, program) in world.programs().iter().enumerate() {
        if let Some(source) = listing.program(number) {
            put_program(alloc, program, source, text)?;
        }
    }
    Ok(())
}
