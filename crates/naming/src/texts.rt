//! Texts with numbers in place of their names.

ghost use Rattle.std.specs.Prelude.{◌≡◌, ℕ, List, IfOk, OnOk};
ghost use Rattle.naming.specs.Lines.{IsOneLine, IsOneLineOutcome, IsTold, IsToldIf, said};
ghost use Rattle.naming.specs.Texts.{AddsLine, IsNamed, plain_renamed, renamed};

use crate::fault::Fault;
use crate::key_line::key_line;
use crate::line::{Outcome, Sort, is_plain, sort_of};
use crate::set_line::set_line;
use crate::type_line::type_line;
use std::alloc::{AllocError, Global};
use trace::next_line;
use wording::Prose;

/// A text with numbers in place of its names, and the messages about rejected names.
#[derive(Drop)]
pub struct Named {
    pub text: Vec<u8>,
    /// A line for each rejected name, key or text; empty if there is none.
    pub told: Vec<u8>,
}

/// Returns what replaces a line without names, the `number`-th of its text. Reports a line `type`, because it lacks its
/// text.
fn plain_line(number: u64, sort: Sort, told: &mut Prose) -> Outcome
    ensures is { (line : List ℕ) → said line result ≡ plain_renamed sort line }
    ensures told { IsTold result told.old told.new }
    ensures one_line { IsOneLineOutcome result }
{
    match sort {
        Sort::Typed => {
            Fault::NoText.tell(number, told);
            Outcome::Refused
        }
        Sort::Set | Sort::Key | Sort::Other => Outcome::Same,
    }
}

/// Returns what replaces the `number`-th line of a text.
#[tactic(auto, unfolding(crate::specs::Texts::renamed))]
fn named_line(
    alloc: Global,
    number: u64,
    line: &[u8],
    told: &mut Prose,
) -> Result<Outcome, AllocError>
    ensures is { IfOk result (λ o. (said line.now o).text ≡ (renamed line.now).text) }
    ensures told { OnOk result (IsToldIf (renamed line.now).is_refused told.old told.new) }
    ensures one_line { IsOneLine line.now → IfOk result IsOneLineOutcome }
{
    let sort = sort_of(line);
    if is_plain(line) {
        return Ok(plain_line(number, sort, told));
    }
    match sort {
        Sort::Set => set_line(alloc, number, line, told),
        Sort::Key => Ok(Outcome::Named(key_line(alloc, number, line, told)?)),
        Sort::Typed => type_line(alloc, number, line, told),
        Sort::Other => Ok(Outcome::Same),
    }
}

/// Adds the line that replaces a line, the `number`-th of its text.
fn push_line(
    alloc: Global,
    number: u64,
    line: &[u8],
    text: &mut Vec<u8>,
    told: &mut Prose,
) -> Result<(), AllocError>
    requires { IsOneLine line.now }
    ensures { OnOk result (AddsLine line.now text.old.items text.new.items told.old told.new) }
{
    let outcome = named_line(alloc, number, line, told)?;
    text.extend_from_slice(outcome.text(line))
}

/// Returns a text with numbers in place of its names, and the messages about rejected names.
pub fn name_text(alloc: Global, text: &[u8]) -> Result<Named, AllocError>
    ensures { IfOk result (λ n. IsNamed text.now n.text.items n.told.items) }
{
    let mut named = Vec::new(alloc);
    let mut told = Prose::new(alloc);
    let mut rest = text;
    let mut number: u64 = 1;
    while let Some((line, more)) = next_line(rest) {
        push_line(alloc, number, line, &mut named, &mut told)?;
        named.push(b'\n')?;
        number = number.saturating_add(1);
        rest = more;
    }
    push_line(alloc, number, rest, &mut named, &mut told)?;
    let told = told.finish()?;
    Ok(Named { text: named, told })
}
