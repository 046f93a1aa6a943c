//! The files of a page.

ghost use Rattle.std.specs.Prelude.{◌≡◌, IfErr, IfOk, IfSome, MatchResult, None, Some, option_map};
ghost use Rattle.inputs.specs.Failures.{IsReadFault};
ghost use Rattle.page.specs.Files.{files_of};

use inputs::{ReadFault, ReadFiles};
use std::alloc::Global;

/// Three texts in memory, as the files `trace`, `world` and `events`.
#[derive(Drop)]
pub struct TextFiles<'a> {
    pub alloc: Global,
    pub trace: &'a [u8],
    pub world: &'a [u8],
    pub events: &'a [u8],
}

impl TextFiles<'_> {
    /// Returns the contents of the file with this name, if there is such a file.
    fn text(&self, name: &str) -> Option<&[u8]>
        ensures { option_map (λ text. text.now) result ≡ files_of self.now.trace.now self.now.world.now self.now.events.now name.now }
    {
        match name {
            "trace" => Some(self.trace),
            "world" => Some(self.world),
            "events" => Some(self.events),
            _ => None,
        }
    }
}

impl ReadFiles for TextFiles<'_> {
    ghost contents = { λ files name. files_of files.trace.now files.world.now files.events.now name };

    fn read_file<'a>(&self, name: &'a str) -> Result<Vec<u8>, ReadFault<'a>>
        ensures ok { IfOk result (λ read. IfSome (files_of self.now.trace.now self.now.world.now self.now.events.now name.entry.now) (λ text. read.items ≡ text)) }
        ensures err { IfErr result (IsReadFault name.entry) }
        ensures exact { MatchResult result
            (λ read. files_of self.now.trace.now self.now.world.now self.now.events.now name.entry.now ≡ Some read.items)
            (λ why. why ≡ ReadFault.CannotRead name.entry → files_of self.now.trace.now self.now.world.now self.now.events.now name.entry.now ≡ None) }
    {
        let Some(text) = self.text(name) else {
            return Err(ReadFault::CannotRead(name));
        };
        Vec::from_slice(self.alloc, text).map_err(|_| ReadFault::Memory)
    }
}
