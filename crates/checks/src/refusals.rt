//! Runs in which the host has no memory for a process or a queue.

use crate::refusing_table::RefusingTable;
use kernel::{RunError, Summary, WriteSink, run_on};
use proctable::ProcessTable;
use std::alloc::Global;
use std::process::Abort;

/// The inputs of a run, and its expected trace and summary.
#[derive(Clone, Copy)]
struct Run {
    world: &'static [u8],
    events: &'static [u8],
    trace: &'static [u8],
    summary: Summary,
}

/// A summary that counts nothing.
const NOTHING: Summary = Summary {
    events: 0,
    births: 0,
    living: 0,
    zombies: 0,
    reported: 0,
    dropped: 0,
    halted: false,
};

const TWO_FORKS: &[u8] = b"pidmax 40\nconsoles 1\nprogram init\nsys fork\nsys fork\nend\n";

const FIRST_FORK_REFUSED: Run = Run {
    world: TWO_FORKS,
    events: b"step 2\n",
    trace: b"1 call 1 fork = -11 memory\n2 call 1 fork = 2\n",
    summary: Summary {
        events: 2,
        births: 2,
        living: 2,
        ..NOTHING
    },
};

const SECOND_FORK_REFUSED: Run = Run {
    trace: b"1 call 1 fork = 2\n2 call 1 fork = -11 memory\n",
    ..FIRST_FORK_REFUSED
};

const NO_FORK_REFUSED: Run = Run {
    trace: b"1 call 1 fork = 2\n2 call 1 fork = 3\n",
    summary: Summary {
        events: 2,
        births: 3,
        living: 3,
        ..NOTHING
    },
    ..FIRST_FORK_REFUSED
};

const KEPT_WORD: Run = Run {
    world: b"\
pidmax 40
consoles 1
program init
set r1, 5
st r1, r1
sys fork
note r0
ld r2, r1
note r2
sys fork
end
",
    events: b"step 7\n",
    trace: b"3 call 1 fork = -11 memory\n4 note 1 -11\n6 note 1 5\n7 call 1 fork = 2\n",
    summary: Summary {
        events: 7,
        births: 2,
        living: 2,
        ..NOTHING
    },
};

const REFUSED_QUEUING: Run = Run {
    world: b"\
pidmax 40
consoles 1
program init
set r1, 35
set r2, @h
sys sigaction
set r1, 2
set r2, -1
sys sigprocmask
set r1, 1
set r2, 35
set r3, 9
sys sigqueue
sys sigpending
note r1
set r1, 1
sys sigqueue
sys sigpending
note r1
h:
sys sigreturn
end
",
    events: b"step 16\n",
    trace: b"\
3 call 1 sigaction = 0
6 call 1 sigprocmask = 0
10 call 1 sigqueue = -11 memory
11 call 1 sigpending = 0
12 note 1 0
14 call 1 sigqueue = 0
15 call 1 sigpending = 0
16 note 1 17179869184
",
    summary: Summary {
        events: 16,
        births: 1,
        living: 1,
        ..NOTHING
    },
};

/// Runs a world over this table of processes. Returns the result, and the trace.
fn run_over<K: ProcessTable>(
    alloc: Global,
    world: &[u8],
    events: &[u8],
) -> (Result<Summary, RunError>, Vec<u8>) {
    let mut out = WriteSink::new(Vec::<u8>::new(alloc));
    let answer = run_on::<K, _>(alloc, world, events, &mut out);
    (answer, out.into_writer())
}

/// Returns true if a run over this table of processes has the expected summary and trace.
fn comes_out<K: ProcessTable>(alloc: Global, run: &Run) -> bool {
    let (answer, put) = run_over::<K>(alloc, run.world, run.events);
    answer == Ok(run.summary) && put.as_slice() == run.trace
}

#[test]
fn a_fork_without_memory_changes_only_its_result(rt: HostRuntime) {
    // The first attempt is for process 1, at the start.
    let well = comes_out::<RefusingTable<2>>(rt.alloc(), &FIRST_FORK_REFUSED)
        && comes_out::<RefusingTable<3>>(rt.alloc(), &SECOND_FORK_REFUSED)
        && comes_out::<RefusingTable<4>>(rt.alloc(), &NO_FORK_REFUSED)
        && comes_out::<RefusingTable<2>>(rt.alloc(), &KEPT_WORD);
    assert!(rt; well);
}

#[test]
fn a_sigqueue_without_memory_changes_only_its_result(rt: HostRuntime) {
    assert!(rt; comes_out::<RefusingTable<2>>(rt.alloc(), &REFUSED_QUEUING));
}

#[test]
fn a_start_without_memory_is_an_error(rt: HostRuntime) {
    let (answer, put) = run_over::<RefusingTable<1>>(rt.alloc(), TWO_FORKS, b"step 2\n");
    assert!(rt; answer == Err(RunError::Memory) && put.is_empty());
}
