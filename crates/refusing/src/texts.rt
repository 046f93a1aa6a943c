//! A world and its events, which may have names, and the report if one of them is rejected.

ghost use Rattle.std.specs.Prelude.{◌≡◌, ◌≢◌, ◌⊎◌, IfErr, IfOk, IfSome, MatchOption};
ghost use Rattle.text.specs.declared.fault.Reason.TheVariants.{Memory};
ghost use Rattle.naming.specs.Texts.{IsNamed};
ghost use Rattle.refusing.specs.Telling.{IsToldOf, ShowsLine};
ghost use Rattle.refusing.specs.declared.telling.Shown.{Shown};
ghost use Rattle.refusing.specs.Faults.{HasFault, HasNoFault, Tells, without_line as without_line_of};
ghost use Rattle.refusing.specs.Texts.{AreAccepted, IsInput, IsRefused, IsUnread, input_of};

use crate::printing::printed;
use crate::telling::{Refused, told_of_events, told_of_world};
use inputs::{FileFailure, ReadFault, ReadFiles};
use naming::{Named, name_text};
use std::alloc::{AllocError, Global};
use text::{TextFault, next_line, read_events, read_world};

/// The largest number of faults that are reported after the first.
const OTHERS: u8 = 9;

/// The text of a file, and the same text with numbers for its names.
#[derive(Drop)]
pub struct Input<'a> {
    /// The name of the file.
    pub name: &'a str,
    pub given: Vec<u8>,
    pub named: Named,
}

impl<'a> Input<'a> {
    /// Reads a file, and makes its text with numbers for names.
    fn read<F: ReadFiles>(
        alloc: Global,
        files: &F,
        name: &'a str,
    ) -> Result<Input<'a>, FileFailure<'a>>
        ensures ok { IfOk result (λ i. IsInput (F.contents files.now) (input_of i)) }
        ensures name { IfOk result (λ i. i.name.now ≡ name.entry.now) }
        ensures err { IfErr result IsUnread }
    {
        let given = files.read_file(name).map_err(FileFailure::Unread)?;
        let named = name_text(alloc, given.as_slice())?;
        Ok(Input { name, given, named })
    }

    /// Reads a file, or `other` if it can't be read. If neither can be read, the error names the first.
    fn read_either<F: ReadFiles>(
        alloc: Global,
        files: &F,
        name: &'a str,
        other: &'a str,
    ) -> Result<Input<'a>, FileFailure<'a>>
        ensures ok { IfOk result (λ i. IsInput (F.contents files.now) (input_of i)) }
        ensures name { IfOk result (λ i. (i.name.now ≡ name.entry.now) ⊎ (i.name.now ≡ other.entry.now)) }
        ensures err { IfErr result IsUnread }
    {
        match Input::read(alloc, files, name) {
            Err(why @ FileFailure::Unread(ReadFault::CannotRead(_))) => {
                match Input::read(alloc, files, other) {
                    Err(FileFailure::Unread(ReadFault::CannotRead(_))) => Err(why),
                    read => read,
                }
            }
            read => read,
        }
    }

    /// Returns a copy of the text with numbers for its names.
    fn copy_named<'n>(&self, alloc: Global) -> Result<Vec<u8>, ReadFault<'n>>
        ensures ok { IfOk result (λ copy. copy.items ≡ self.now.named.text.items) }
        ensures err { IfErr result (λ why. why ≡ ReadFault.Memory) }
    {
        Vec::from_slice(alloc, self.named.text.as_slice()).map_err(|_| ReadFault::Memory)
    }

    /// Returns the report of this fault, the first of the text, and the number of the line to empty before the next
    /// fault is looked for, if it is. `consoles` is that of the world if the text has events, and `None` if it is a
    /// world.
    fn told_first(
        &self,
        alloc: Global,
        consoles: Option<u8>,
        fault: TextFault,
    ) -> Result<(Vec<u8>, Option<u64>), AllocError>
        ensures { IfOk result (λ t. (shown : Shown) × IsToldOf self.now.name.now self.now.given.items self.now.named.text.items fault shown t.0.items × IfSome t.1 (ShowsLine shown)) }
    {
        let refused = Refused {
            given: self.given.as_slice(),
            named: self.named.text.as_slice(),
            told: self.named.told.as_slice(),
            fault,
        };
        let told = match consoles {
            Some(consoles) => told_of_events(alloc, &refused, consoles)?,
            None => told_of_world(alloc, &refused)?,
        };
        Ok((printed(alloc, self.name, &told)?, told.left_out()))
    }

    /// Returns the text with the line of this number emptied.
    fn without(&self, alloc: Global, number: u64) -> Result<Input<'a>, AllocError>
        ensures name { IfOk result (λ i. i.name.now ≡ self.now.name.now) }
        ensures given { IfOk result (λ i. i.given.items ≡ without_line_of number self.now.given.items) }
        ensures named { IfOk result (λ i. IsNamed i.given.items i.named.text.items i.named.told.items) }
    {
        let given = without_line(alloc, self.given.as_slice(), number)?;
        let named = name_text(alloc, given.as_slice())?;
        Ok(Input {
            name: self.name,
            given,
            named,
        })
    }

    /// Returns the report of the text, whose first fault this is. At most `others` more faults follow, each found
    /// after the line that was shown before is emptied.
    fn told(
        &self,
        alloc: Global,
        consoles: Option<u8>,
        fault: TextFault,
        others: u8,
    ) -> Result<Vec<u8>, AllocError>
        ensures { IfOk result (λ out. Tells others consoles self.now.name.now self.now.given.items self.now.named.text.items fault out.items) }
    {
        let (mut out, left_out) = self.told_first(alloc, consoles, fault)?;
        let Some(number) = left_out else {
            return Ok(out);
        };
        if others == 0 {
            return Ok(out);
        }
        let left = self.without(alloc, number)?;
        let Some(next) = fault_of(alloc, consoles, left.named.text.as_slice())? else {
            return Ok(out);
        };
        let more = left.told(alloc, consoles, next, others - 1)?;
        out.extend_from_slice(more.as_slice())?;
        Ok(out)
    }
}

/// Returns the first fault of a world or, if `consoles` is given, of events for a world with so many consoles.
fn fault_of(
    alloc: Global,
    consoles: Option<u8>,
    text: &[u8],
) -> Result<Option<TextFault>, AllocError>
    ensures { IfOk result (λ fault. MatchOption fault (HasNoFault consoles text.now) (HasFault consoles text.now)) }
{
    let read = match consoles {
        Some(consoles) => read_events(alloc, consoles, text).err(),
        None => read_world(alloc, text).err(),
    };
    match read {
        Some(fault) => Ok(Some(own_fault(fault)?)),
        None => Ok(None),
    }
}

/// Returns a text with the line of this number, from 1, emptied. Each line of the result ends with a line feed.
fn without_line(alloc: Global, text: &[u8], number: u64) -> Result<Vec<u8>, AllocError>
    ensures { IfOk result (λ v. v.items ≡ without_line_of number text.now) }
{
    let mut all = Vec::new(alloc);
    let mut rest = text;
    let mut left = number;
    while let Some((line, more)) = next_line(rest) {
        if left != 1 {
            all.extend_from_slice(line)?;
        }
        all.push(b'\n')?;
        left = left.saturating_sub(1);
        rest = more;
    }
    Ok(all)
}

/// Returns the fault, or an error if its reason is that memory ran out.
fn own_fault(fault: TextFault) -> Result<TextFault, AllocError>
    ensures { IfOk result (λ own. (own ≡ fault) × (fault.reason ≢ Memory)) }
{
    fault.unless_memory(Ok(fault), Err(AllocError))
}

/// A world and its events. With numbers for names, they are the files `world` and `events`, and there are no others.
#[derive(Drop)]
pub struct Texts<'a> {
    alloc: Global,
    pub world: Input<'a>,
    pub events: Input<'a>,
}

impl ReadFiles for Texts<'_> {
    ghost use Rattle.refusing.specs.Texts.{named_files};

    ghost contents = { λ texts. named_files texts };

    fn read_file<'a>(&self, name: &'a str) -> Result<Vec<u8>, ReadFault<'a>> {
        match name {
            "world" => self.world.copy_named(self.alloc),
            "events" => self.events.copy_named(self.alloc),
            _ => Err(ReadFault::CannotRead(name)),
        }
    }
}

impl<'a> Texts<'a> {
    /// Reads a world from the first of two files, or from the second if the first can't be read, and then its events.
    pub fn read<F: ReadFiles>(
        alloc: Global,
        files: &F,
        world: (&'a str, &'a str),
        events: &'a str,
    ) -> Result<Texts<'a>, FileFailure<'a>>
        ensures ok { IfOk result (λ t. IsInput (F.contents files.now) (input_of t.world) × IsInput (F.contents files.now) (input_of t.events)) }
        ensures names { IfOk result (λ t. ((t.world.name.now ≡ world.entry.0.now) ⊎ (t.world.name.now ≡ world.entry.1.now)) × (t.events.name.now ≡ events.entry.now)) }
        ensures err { IfErr result IsUnread }
    {
        let world = Input::read_either(alloc, files, world.0, world.1)?;
        let events = Input::read(alloc, files, events)?;
        Ok(Texts {
            alloc,
            world,
            events,
        })
    }

    /// Returns the report of the world or, if that is accepted, of the events: which words are rejected, why, and what
    /// to write. Returns `None` if both are accepted.
    pub fn told(&self) -> Result<Option<Vec<u8>>, AllocError>
        ensures { IfOk result (λ told. MatchOption told (AreAccepted (input_of self.now.world) (input_of self.now.events))
            (λ out. IsRefused (input_of self.now.world) (input_of self.now.events) out.items)) }
    {
        let known = match read_world(self.alloc, self.world.named.text.as_slice()) {
            Ok(known) => known,
            Err(fault) => {
                let fault = own_fault(fault)?;
                let out = self.world.told(self.alloc, None, fault, OTHERS)?;
                return Ok(Some(out));
            }
        };
        let consoles = Some(known.consoles());
        match fault_of(self.alloc, consoles, self.events.named.text.as_slice())? {
            Some(fault) => {
                let out = self.events.told(self.alloc, consoles, fault, OTHERS)?;
                Ok(Some(out))
            }
            None => Ok(None),
        }
    }
}
