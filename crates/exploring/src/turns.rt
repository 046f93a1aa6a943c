//! Comments on the ticks that a schedule inserts: which process each of them preempts.

ghost use Rattle.std.specs.Prelude.{◌≡◌, ◌+◌, ◌≤◌, length};
ghost use Rattle.posix.specs.Common.{IsRegular, IsSettled};
ghost use Rattle.text.specs.EventTexts.{most_events};
ghost use Rattle.schedules.specs.Families.{IsSchedule};

use counting::{Family, events_between, run_all, run_one};
use kernel::Kernel;
use posix::SigSet;
use schedules::{Remark, is_tick, place_of, put_at};
use std::alloc::{AllocError, Global};
use wording::{Listing, Prose, put_place};

/// Writes which process a tick preempts now, and the line of the world that this process has reached.
fn put_turn(text: &mut Prose, kernel: &mut Kernel, listing: &Listing<'_>)
    ensures state { kernel.new.state ≡ kernel.old.state }
    ensures events { kernel.new.events ≡ kernel.old.events }
{
    let acting = if kernel.is_halted() {
        None
    } else {
        kernel.current()
    };
    let Some(pid) = acting else {
        return text.push_str("while no process is runnable");
    };
    if let Some(it) = kernel.snapshot(pid) {
        text.push_with("preempts process ", pid.number());
        text.push_str(" ");
        let source = listing.program(usize::from(it.program));
        put_place(text, source, kernel.look(pid).cpu.frame(SigSet::EMPTY).pc);
    }
}

/// Adds a comment on the tick that is inserted at a spot; adds nothing for a loose event. `place` is the place of the
/// tick in the schedule.
fn add_turn(
    alloc: Global,
    turns: &mut Vec<Remark>,
    family: &Family<'_>,
    listing: &Listing<'_>,
    kernel: &mut Kernel,
    spot: u64,
    place: u64,
) -> Result<(), AllocError>
    ensures state { kernel.new.state ≡ kernel.old.state }
    ensures events { kernel.new.events ≡ kernel.old.events }
{
    if !is_tick(family.loose.len(), spot) {
        return Ok(());
    }
    let mut turn = Prose::new(alloc);
    put_turn(&mut turn, kernel, listing);
    let text = String::from_utf8_lossy(alloc, turn.as_bytes()?)?;
    turns.push(Remark { place, text })?;
    Ok(())
}

/// Runs a schedule of a family up to its last spot, and adds a comment on each inserted tick.
fn add_turns(
    alloc: Global,
    turns: &mut Vec<Remark>,
    family: &Family<'_>,
    listing: &Listing<'_>,
    kernel: &mut Kernel,
    spots: &[u64],
) -> Result<(), AllocError>
    requires few { length family.now.events.now + length spots.now ≤ most_events }
    requires start { kernel.old.events ≡ 0 }
    requires regular { IsRegular kernel.old.state }
    requires settled { IsSettled kernel.old.state }
{
    let mut lines = Vec::new(alloc);
    let mut given = 0;
    for (before, spot) in spots.iter().enumerate() {
        let place = place_of(family.loose.len(), *spot);
        let part = events_between(alloc, family.events, given, place)?;
        given += part.len();
        lines.clear();
        run_all(kernel, &part, &mut lines)?;
        add_turn(
            alloc,
            turns,
            family,
            listing,
            kernel,
            *spot,
            given + before as u64,
        )?;
        run_one(kernel, put_at(family.loose, *spot), &mut lines)?;
    }
    Ok(())
}

/// Returns a comment on each tick that a schedule inserts: which process the tick preempts, and the line of the world
/// that this process has reached. Fails if memory runs out, also for a call of a process.
pub fn turns_of(
    alloc: Global,
    family: &Family<'_>,
    listing: &Listing<'_>,
    spots: &[u64],
) -> Result<Vec<Remark>, AllocError>
    requires { IsSchedule family.now.upto family.now.ticks (length family.now.loose.now) spots.now }
{
    let mut turns = Vec::new(alloc);
    let mut kernel = Kernel::boot(alloc, family.world)?;
    let added = add_turns(alloc, &mut turns, family, listing, &mut kernel, spots);
    // A kernel is dropped explicitly, by one function whose proof is short.
    drop(kernel);
    added?;
    Ok(turns)
}
