//! Events that read few slots of the process table although many processes sleep. No clause of `KernelOn::event` counts
//! these reads.

use kernel::Kernel;
use posix::Event;
use std::alloc::Global;
use std::process::Abort;
use std::test::Fail;
use text::read_world;

/// Process 1, which ignores SIGCHLD, has 900 children that pause. Then it repeats rounds of twenty steps. A round has a
/// note, a getpid, SIGCHLD to the last sleeper, SIGSTOP, a yield, SIGCONT, a fork, a yield, and a wait for any child
/// that doesn't block. It includes the two steps of the child, which exits and leaves no zombie, and the step in which
/// the last sleeper stops.
const SLEEPERS: &[u8] = b"\
pidmax 1000
consoles 1
program init
set r1, 17
set r2, 1
sys sigaction
set r2, 17
set r5, 900
set r6, 1
again:
sys fork
jz r0, sleeper
sub r5, r6
jnz r5, again
mov r7, r0
mov r1, r7
sys sched_yield
loop:
note r1
sys getpid
sys kill
set r2, 19
sys kill
sys sched_yield
set r2, 18
sys kill
sys fork
jz r0, child
sys sched_yield
set r1, -1
set r2, 1
sys waitpid
mov r1, r7
set r2, 17
jmp loop
child:
sys exit
sleeper:
sys pause
end
";

/// Process 1 has 300 children in its process group, and three in another one. It waits for those three, first without
/// blocking.
const GROUP_BESIDE_CHILDREN: &[u8] = b"\
pidmax 1000
consoles 0
program init
set r6, 300
set r7, 1
more:
sys fork
jz r0, kid
sub r6, r7
jnz r6, more
set r6, 3
set r5, 302
jobs:
sys fork
jz r0, kid
mov r1, r0
mov r2, r5
sys setpgid
sub r6, r7
jnz r6, jobs
set r1, -302
set r2, 1
sys waitpid
set r2, 0
sys waitpid
kid:
sys pause
end
";

/// Process 1 stops and continues a child that waits for its 300 children, and then waits for it with WCONTINUED.
const NEWS_OF_A_WAITER: &[u8] = b"\
pidmax 1000
consoles 0
program init
sys fork
jz r0, waiter
sys sched_yield
set r1, 2
set r2, 19
sys kill
sys sched_yield
set r2, 18
sys kill
set r1, 2
set r2, 8
sys waitpid
sys pause
waiter:
set r6, 300
set r7, 1
more:
sys fork
jz r0, sleeper
sub r6, r7
jnz r6, more
set r1, 0
set r2, 0
sys waitpid
sleeper:
sys pause
end
";

/// Three processes in the foreground process group read, and 900 others pause. Process 1 has an alarm at each tick.
const READERS_BESIDE_SLEEPERS: &[u8] = b"\
pidmax 1000
consoles 1
program init
set r1, 22
set r2, 1
sys sigaction
set r1, 1
sys setctty
set r5, 900
set r6, 1
more:
sys fork
jz r0, sleeper
sub r5, r6
jnz r5, more
set r5, 3
set r7, 902
jobs:
sys fork
jz r0, job
mov r1, r0
mov r2, r7
sys setpgid
sub r5, r6
jnz r5, jobs
mov r1, r7
sys tcsetpgrp
set r1, 14
set r2, @ring
sys sigaction
loop:
set r1, 1
sys alarm
sys pause
jmp loop
ring:
sys sigreturn
job:
set r1, 2
set r2, @interrupt
sys sigaction
set r1, 0
set r2, 16
read:
sys read
jmp read
interrupt:
sys sigreturn
sleeper:
sys pause
end
";

/// Process 1 reads from console 1, and 901 other processes are blocked in a read from console 2.
const SLEEPING_READERS: &[u8] = b"\
pidmax 1000
consoles 2
program init
set r1, 1
sys setctty
sys fork
jz r0, readers
set r1, 0
set r2, 16
loop:
sys read
jmp loop
readers:
sys setsid
set r1, 2
sys setctty
set r1, 0
set r2, 16
set r5, 900
set r6, 1
again:
sys fork
jz r0, reader
sub r5, r6
jnz r5, again
reader:
sys read
jmp reader
end
";

/// Process 1 reads from console 1.
const LINE_EDITING: &[u8] = b"\
pidmax 40
consoles 1
program init
set r1, 1
sys setctty
set r1, 0
set r2, 16
again:
sys read
jmp again
end
";

/// Rounds of events after some steps of a world, with the number of living processes. Each event has a number of times,
/// and the number of entries that these show together.
#[derive(Clone, Copy)]
struct Beside<'a> {
    world: &'a [u8],
    steps: u64,
    living: u64,
    rounds: u64,
    events: &'a [(Event, u64, usize)],
}

/// Returns the kernel after `steps` steps of a world.
fn after_steps(alloc: Global, world: &[u8], steps: u64) -> Result<Kernel, Fail> {
    let world = read_world(alloc, world)?;
    let mut kernel = Kernel::boot(alloc, &world)?;
    for _ in 0..steps {
        slots_of(&mut kernel, Event::Step);
    }
    Ok(kernel)
}

/// Runs one of the first 10,000 events. Returns how many entries it shows, and how many slots of the table it reads.
fn slots_of(kernel: &mut Kernel, event: Event) -> (usize, u128) {
    if kernel.events() >= 10_000 {
        return (0, 0);
    }
    let before = kernel.visits();
    let shown = kernel.event(event).len();
    (shown, kernel.visits().wrapping_sub(before))
}

/// Returns true if `count` equal events show `wanted` entries, each event reads at most 16 slots, and each step that
/// shows an entry reads at least one.
fn read_few(kernel: &mut Kernel, event: Event, count: u64, wanted: usize) -> bool {
    let mut shown: usize = 0;
    for _ in 0..count {
        let (entries, slots) = slots_of(kernel, event);
        if slots > 16 || slots == 0 && event == Event::Step && entries > 0 {
            return false;
        }
        shown = shown.wrapping_add(entries);
    }
    shown == wanted
}

/// Returns true if the events of all rounds read few slots and show the right number of entries, and if all processes
/// live before each round.
fn all_read_few(kernel: &mut Kernel, beside: &Beside<'_>) -> bool {
    for _ in 0..beside.rounds {
        if kernel.census().living != beside.living {
            return false;
        }
        for (event, count, shown) in beside.events {
            if !read_few(kernel, *event, *count, *shown) {
                return false;
            }
        }
    }
    true
}

/// Returns how many slots a last event reads, or `None` if the events before it do not read and show what they should.
fn slots_behind(alloc: Global, beside: &Beside<'_>, last: Event) -> Result<Option<u128>, Fail> {
    let mut kernel = after_steps(alloc, beside.world, beside.steps)?;
    let slots = if all_read_few(&mut kernel, beside) {
        Some(slots_of(&mut kernel, last).1)
    } else {
        None
    };
    // A kernel is dropped explicitly, by one function whose proof is short.
    drop(kernel);
    Ok(slots)
}

#[test]
fn sleepers_are_not_asked(rt: HostRuntime) -> Result<(), Fail> {
    let beside = Beside {
        world: SLEEPERS,
        steps: 5409,
        living: 901,
        rounds: 10,
        // A line for each call of the round, the note, the stop and the exit.
        events: &[(Event::Step, 20, 11), (Event::Tick, 1, 0)],
    };
    assert!(rt; slots_behind(rt.alloc(), &beside, Event::Tick)? == Some(0));
    Ok(())
}

#[test]
fn a_wait_for_a_group_looks_at_its_members_alone(rt: HostRuntime) -> Result<(), Fail> {
    let beside = Beside {
        world: GROUP_BESIDE_CHILDREN,
        steps: 1227,
        living: 304,
        rounds: 1,
        events: &[(Event::Step, 1, 1), (Event::Step, 2, 0)],
    };
    assert!(rt; slots_behind(rt.alloc(), &beside, Event::Tick)? == Some(0));
    Ok(())
}

#[test]
fn a_waiter_that_continues_finds_a_child_at_once(rt: HostRuntime) -> Result<(), Fail> {
    let beside = Beside {
        world: NEWS_OF_A_WAITER,
        steps: 1815,
        living: 302,
        rounds: 1,
        // SIGCONT continues process 2, which waits for the members of its process group: its 300 children are in it.
        events: &[(Event::Step, 1, 1)],
    };
    assert!(rt; slots_behind(rt.alloc(), &beside, Event::Tick)? == Some(0));
    Ok(())
}

/// Returns a key on a console.
fn key(console: u8, byte: u8) -> Event {
    Event::Key { console, byte }
}

#[test]
fn sleepers_are_asked_by_no_event(rt: HostRuntime) -> Result<(), Fail> {
    let beside = Beside {
        world: READERS_BESIDE_SLEEPERS,
        steps: 5460,
        living: 904,
        rounds: 1,
        events: &[
            // SIGINT for the foreground process group: it interrupts each read, the handler runs, and each reads again.
            (key(1, 0x03), 1, 0),
            (Event::Step, 12, 9),
            // A line, which one of the three reads.
            (key(1, b'a'), 1, 0),
            (key(1, b'\n'), 1, 0),
            (Event::Step, 5, 1),
            // SIGALRM is generated, and the alarm is set again.
            (Event::Tick, 1, 0),
            (Event::Step, 6, 4),
        ],
    };
    assert!(rt; slots_behind(rt.alloc(), &beside, key(1, b'a'))? == Some(0));
    Ok(())
}

#[test]
fn sleeping_readers_are_not_asked(rt: HostRuntime) -> Result<(), Fail> {
    let beside = Beside {
        world: SLEEPING_READERS,
        steps: 5500,
        living: 902,
        rounds: 20,
        events: &[
            (key(1, b'a'), 1, 0),
            (key(1, b'\n'), 1, 0),
            (Event::Step, 3, 1),
        ],
    };
    // A line on the other console wakes all 901 readers.
    assert!(rt; slots_behind(rt.alloc(), &beside, key(2, b'\n'))? >= Some(901));
    Ok(())
}

#[test]
fn a_key_on_a_console_that_is_not_there_does_nothing(rt: HostRuntime) -> Result<(), Fail> {
    let beside = Beside {
        world: LINE_EDITING,
        steps: 5,
        living: 1,
        rounds: 1,
        events: &[
            (key(0, b'\n'), 1, 0),
            (Event::Step, 1, 0),
            (key(2, b'\n'), 1, 0),
            (Event::Step, 1, 0),
            (key(255, b'\n'), 1, 0),
            (Event::Step, 1, 0),
            (key(1, b'\n'), 1, 0),
            (Event::Step, 1, 1),
        ],
    };
    assert!(rt; slots_behind(rt.alloc(), &beside, key(0, b'\n'))? == Some(0));
    Ok(())
}
