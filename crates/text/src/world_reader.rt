//! Reads world texts.

ghost use Rattle.text.specs.Reading.{Answers};
ghost use Rattle.text.specs.WorldTexts.{world_text};

use crate::draft::Draft;
use crate::fault::TextFault;
use crate::words::next_line;
use std::alloc::Global;
use umach::World;

/// Returns the world that a text describes, or its first faulty line and the reason.
///
/// The first line with words is `pidmax N`, N from 2 to 4,194,304, and the second is `consoles N`, N from 0 to 64. Then
/// 1 to 32 programs follow. A program begins with the line `program NAME`, optionally with `setuid U` and then
/// `setgid G` after the name, IDs from 0 to 2,147,483,647. It ends with the line `end`. Each line between is a label
/// `NAME:` for the code address of the next instruction, or one of at most 1,000 instructions.
///
/// An instruction is `set rA, V`, V a decimal i64, `@label` or `$program`; `mov`, `add`, `sub`, `mul`, `div`, `rem`,
/// `and`, `or`, `xor`, `ld` or `st` and then `rA, rB`; `jmp label`; `jz`, `jnz` or `jlt` and then `rA, label`;
/// `note rA`; or `sys` and the name of a call. `$program` is the number of the program, from 0. A name is a letter a to
/// z, and then at most 15 of a to z, 0 to 9 and `_`. A label belongs to its program. Labels and programs may be used
/// before they are defined.
///
/// A misplaced line is `UnknownWord` at its first word. A 33rd program and a 1,001st instruction are `OutOfRange` at
/// their first word. A name that is used and never defined is `NameUnknown` at the line that uses it. In a line that is
/// rejected for another reason, and after it, no name is looked up, and none counts as defined. `EndMissing` and
/// `NoProgram` have the number of lines plus one. `Memory` has the line at which there was no memory, and can replace
/// any other result.
#[tactic(auto, unfolding(crate::specs::WorldTexts::world_text))]
pub fn read_world(alloc: Global, text: &[u8]) -> Result<World, TextFault>
    ensures { Answers result (world_text text.now) }
{
    let mut draft = Draft::new(alloc);
    let mut rest = text;
    let mut lines: u64 = 0;
    while let Some((line, more)) = next_line(rest) {
        rest = more;
        lines += 1;
        if let Err(reason) = draft.take_line(lines, line) {
            let fault = TextFault {
                line: lines,
                reason,
            };
            return Err(draft.refused(fault));
        }
    }
    draft.finish(lines + 1)
}
