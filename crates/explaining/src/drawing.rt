//! Pictures of traces.

ghost use Rattle.std.specs.Prelude.{IfErr, IfOk};
ghost use Rattle.explaining.specs.Drawings.{IsCutOff, IsTraceUpTo};

use crate::known::Known;
use crate::picture::put_picture;
use crate::rows::Rows;
use crate::svg::put_svg;
use inputs::FileFailure;
use std::alloc::{AllocError, Global};
use trace::{Sink, next_line, read_line};

/// Adds a row for each line of a trace, up to the first line that is not a trace line. Returns the number of that line,
/// or `None` if there is none.
fn read_rows(alloc: Global, rows: &mut Rows, trace: &[u8]) -> Result<Option<u64>, AllocError>
    ensures { IfOk result (λ other. IsTraceUpTo trace.now other) }
{
    let mut known = Known::new(alloc)?;
    let mut number: u64 = 1;
    let mut rest = trace;
    while let Some((line, more)) = next_line(rest) {
        let Some((event, entry)) = read_line(line) else {
            return Ok(Some(number));
        };
        rows.add(&mut known, event, &entry)?;
        rest = more;
        number += 1;
    }
    if rest.is_empty() {
        return Ok(None);
    }
    Ok(Some(number))
}

/// Puts a picture of a trace, as text or SVG: a lane for each process, a row for each line, and arrows from lane to
/// lane. The picture ends before the first line that is not a trace line. Returns the number of that line, or `None` if
/// there is none. Fails if `out` fails or memory runs out.
pub fn draw_trace<'a, O: Sink>(
    alloc: Global,
    trace: &[u8],
    is_svg: bool,
    out: &mut O,
) -> Result<Option<u64>, FileFailure<'a>>
    ensures ok { IfOk result (λ other. IsTraceUpTo trace.now other) }
    ensures err { IfErr result IsCutOff }
{
    let mut rows = Rows::new(alloc)?;
    let other = read_rows(alloc, &mut rows, trace)?;
    rows.lay_out()?;
    if is_svg {
        put_svg(&rows, out)?;
    } else {
        put_picture(&rows, out)?;
    }
    Ok(other)
}
