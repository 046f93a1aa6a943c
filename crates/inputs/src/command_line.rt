//! The arguments of the command line.

ghost use Rattle.std.specs.Prelude.{◌≡◌, IfOk, map};
ghost use Rattle.std.specs.String.{string_bytes};

use std::alloc::Global;
use std::rt::Env;
use std::{env, io};

/// Why the arguments cannot be read.
#[derive(Clone, Copy)]
pub enum WordsFault {
    /// An argument is not UTF-8.
    NotText,
    /// There was no memory for the arguments.
    Memory,
}

/// Returns the arguments of the command line, without the name of the program. Fails if an argument is not UTF-8, or if
/// the host has no memory for them.
pub fn read_words<R: Env + AllocGlobal>(rt: &R) -> Result<Vec<String>, WordsFault> {
    let args = env::args(rt).map_err(|e| {
        if e.kind() == io::ErrorKind::OutOfMemory {
            WordsFault::Memory
        } else {
            WordsFault::NotText
        }
    })?;
    args.skip(1)
        .collect(rt.alloc())
        .map_err(|_| WordsFault::Memory)
}

/// Returns the arguments as string slices, in their order. Fails if the host has no memory for the list.
pub fn as_texts(alloc: Global, words: &[String]) -> Result<Vec<&str>, WordsFault>
    ensures { IfOk result (λ texts. map (λ t. t.now) texts.items ≡ map string_bytes words.now) }
{
    let mut texts = Vec::new(alloc);
    for word in words {
        texts.push(word.as_str()).map_err(|_| WordsFault::Memory)?;
    }
    Ok(texts)
}
