//! The progress that `explore` reports.

use counting::{Family, Progress, explore};
use schedules::family_size;
use std::alloc::{AllocError, Global};
use std::process::Abort;
use std::test::Fail;
use text::{EventList, World, read_events, read_world};

const NOTE_AND_EXIT: &[u8] =
    b"pidmax 40\nconsoles 1\nprogram init\nset r1, 7\nnote r1\nsys exit\nend\n";

/// Counts the calls of `run`, and keeps the arguments of the last one.
#[derive(Drop)]
struct Heard {
    times: u64,
    last: (u64, u64),
}

impl Progress for Heard {
    fn run(&mut self, done: u64, size: u64) {
        self.times = self.times.wrapping_add(1);
        self.last = (done, size);
    }

    fn reach(&mut self, _place: u64, _upto: u64, _states: u64) {}
}

/// Returns what is reported for the ten schedules of two ticks before three events.
fn heard_of(alloc: Global, world: &World, events: &EventList) -> Result<Heard, AllocError> {
    let mut heard = Heard {
        times: 0,
        last: (0, 0),
    };
    if events.len() == 3
        && let Some(size) = family_size(3, 2, 0, 10)
    {
        let family = Family {
            world,
            events,
            loose: &[],
            upto: 3,
            ticks: 2,
            states: 10,
        };
        drop(explore(alloc, &family, size, &[], &mut heard)?);
    }
    Ok(heard)
}

#[test]
fn each_schedule_is_heard_of(rt: HostRuntime) -> Result<(), Fail> {
    let world = read_world(rt.alloc(), NOTE_AND_EXIT)?;
    let events = read_events(rt.alloc(), world.consoles(), b"step 3\n")?;
    let heard = heard_of(rt.alloc(), &world, &events)?;
    assert!(rt; heard.times == 10 && heard.last == (10, 10));
    Ok(())
}
