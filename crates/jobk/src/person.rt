//! The user at the terminal, if there is one.

use exploring::Progress;
use inputs::ReadFault;
use showing::Ask;
use std::io::{Input, IsTerminal};
use std::rt::Clock;
use std::time::{Duration, Instant};

/// A user, who sees the progress of schedules: once a second if the error output is a terminal, otherwise every ten
/// seconds. Also reads the commands of the user.
#[derive(Drop)]
pub struct Person<'a> {
    rt: &'a HostRuntime,
    every: Duration,
    /// When the program started, and when it last printed its progress; `None` if the clock fails.
    times: Option<(Instant, Instant)>,
}

impl<'a> Person<'a> {
    pub fn new(rt: &'a HostRuntime) -> Self {
        let seconds = if rt.stderr().is_terminal() { 1 } else { 10 };
        let times = match Instant::now(rt) {
            Ok(now) => Some((now, now)),
            Err(_) => None,
        };
        Person {
            rt,
            every: Duration::from_secs(seconds),
            times,
        }
    }
}

/// Estimates how many seconds the rest takes, if `done` of `size` took `passed`.
fn seconds_left(passed: Duration, done: u64, size: u64) -> u128 {
    let left = size.saturating_sub(done);
    let all = u128::from(passed.as_secs()) * u128::from(left);
    all.checked_div(u128::from(done)).unwrap_or(0)
}

impl Person<'_> {
    /// Returns how long the program has run, if it is time to print its progress.
    fn passed(&mut self) -> Option<Duration> {
        let (began, told) = self.times?;
        let Ok(now) = Instant::now(self.rt) else {
            self.times = None;
            return None;
        };
        if now.duration_since(told) < self.every {
            return None;
        }
        self.times = Some((began, now));
        Some(now.duration_since(began))
    }
}

impl Progress for Person<'_> {
    fn run(&mut self, done: u64, size: u64) {
        if let Some(passed) = self.passed() {
            let left = seconds_left(passed, done, size);
            let _ = eprintln!(self.rt;
                "jobk: {done} of {size} schedules, about {left} seconds left"
            );
        }
    }

    fn reach(&mut self, events: u64, upto: u64, states: u64) {
        if let Some(passed) = self.passed() {
            let left = seconds_left(passed, events, upto);
            let _ = eprintln!(self.rt;
                "jobk: {events} of {upto} events, {states} states, about {left} seconds left"
            );
        }
    }
}

impl Ask for Person<'_> {
    fn is_terminal(&self) -> bool {
        self.rt.stdin().is_terminal()
    }

    fn ask(&mut self, line: &mut String) -> Result<bool, ReadFault<'static>> {
        match self.rt.stdin().read_line(line) {
            Ok(count) => Ok(count != 0),
            Err(e) => Err(ReadFault::of(&e, "the terminal")),
        }
    }
}
