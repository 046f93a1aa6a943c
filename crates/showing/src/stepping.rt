//! A run through which a person steps, event by event (`show --step`).

ghost use Rattle.std.specs.Prelude.{◌≤◌, length};
ghost use Rattle.text.specs.EventTexts.{most_events};

use crate::hearing::Telling;
use crate::replay::{Replay, Silent, run_to};
use crate::serving::Failure;
use crate::state::{put_head, put_state};
use inputs::ReadFault;
use kernel::{Sink, put_all};
use posix::Pid;
use std::alloc::{AllocError, Global};
use telling::{Teller, View};
use text::{EventList, World};
use wording::{Prose, process_in};

/// A terminal at which a person types commands.
pub trait Ask {
    /// Returns true if standard input is a terminal.
    fn is_terminal(&self) -> bool;

    /// Appends the next line to `line`. Returns true if there was a line. Fails if the device fails, the line is not
    /// UTF-8, or there is no memory for it.
    fn ask(&mut self, line: &mut String) -> Result<bool, ReadFault<'static>>;
}

/// A command that a person can type.
#[derive(Clone, Copy)]
enum Command {
    /// Runs this many events.
    Next(u64),
    /// Goes back this many events.
    Back(u64),
    /// Goes to the state after this event.
    Go(u64),
    /// Runs until this process acts or, if it is `None`, until an event has a trace line.
    Until(Option<Pid>),
    /// Prints the state.
    State,
    /// A command `p` with a number that no process can have.
    NoProcess,
    Quit,
    Help,
}

const HELP: &str =
    "n [N]  run N events (default: 1); an empty line runs one event\nb [N]  go back N events (default: 1)\ng E    go to the state after event E\np P    run until process P acts\nl      run until an event has a trace line\ns      print the state\nq      quit\n";

const NO_PROCESS: &str = "p: expected a process number\n";

/// Returns the command of a word without a number.
fn command_alone(word: &str) -> Command {
    match word {
        "n" => Command::Next(1),
        "b" => Command::Back(1),
        "l" => Command::Until(None),
        "s" => Command::State,
        "q" => Command::Quit,
        _ => Command::Help,
    }
}

/// Returns the command of a word with a number.
fn command_with(word: &str, number: u64) -> Command {
    match word {
        "n" => Command::Next(number),
        "b" => Command::Back(number),
        "g" => Command::Go(number),
        "p" => process_in(number.into()).map_or(
            Command::NoProcess,
            |pid| Command::Until(Some(pid)),
        ),
        _ => Command::Help,
    }
}

/// Returns the command of a line. An empty line is `n`.
fn command_of(line: &str) -> Command {
    let mut words = line.split_whitespace();
    let word = words.next().unwrap_or("n");
    let number = words.next().map(str::parse::<u64>);
    match (number, words.next()) {
        (None, _) => command_alone(word),
        (Some(Ok(number)), None) => command_with(word, number),
        _ => Command::Help,
    }
}

/// Returns the next command. The end of the input is `q`.
fn next_command<A: Ask>(alloc: Global, ask: &mut A) -> Result<Command, ReadFault<'static>> {
    let mut line = String::new(alloc);
    if ask.ask(&mut line)? {
        Ok(command_of(line.as_str()))
    } else {
        Ok(Command::Quit)
    }
}

/// Puts a text, and clears it.
pub fn put_text<'a, O: Sink>(text: &mut Prose, out: &mut O) -> Result<(), Failure<'a>> {
    put_all(out, text.as_bytes()?)?;
    text.clear();
    Ok(())
}

/// A run through which a person steps.
#[derive(Drop)]
pub struct Steps<'l, 't> {
    view: View<'l, 't>,
    world: &'t World,
    events: &'t EventList,
    telling: Telling<'l, 't>,
    ghost few: { length events.now ≤ most_events },
}

impl<'l, 't> Steps<'l, 't> {
    /// Returns a run before its first event.
    pub fn new(view: View<'l, 't>, world: &'t World, events: &'t EventList) -> Steps<'l, 't>
        requires { length events.now ≤ most_events }
    {
        Steps {
            view,
            world,
            events,
            telling: Telling::new(Teller::new(view, world.programs())),
        }
    }

    /// Runs up to an event, or to the last event, and writes the lines of the events.
    fn go_on(&mut self, replay: &mut Replay, event: u64) -> Result<(), AllocError> {
        run_to(replay, self.events, event, &mut self.telling)
    }

    /// Goes to the state after an event. Goes back by running the world again.
    fn go(&mut self, replay: &mut Replay, event: u64) -> Result<(), AllocError> {
        if event < replay.kernel.events() {
            replay.restart(self.view.alloc, self.world)?;
        }
        run_to(replay, self.events, event, &mut Silent)
    }

    /// Runs until this process has acted or, for `None`, until an event has a trace line. Keeps only the last event's
    /// line.
    fn go_until(&mut self, replay: &mut Replay, pid: Option<Pid>) -> Result<(), AllocError> {
        for _ in replay.kernel.events()..self.events.len() {
            self.telling.teller.text.clear();
            let next = replay.kernel.events().saturating_add(1);
            self.go_on(replay, next)?;
            let is_found = match pid {
                Some(pid) => self.telling.teller.acted() == Some(pid),
                None => self.telling.teller.showed,
            };
            if is_found {
                return Ok(());
            }
        }
        Ok(())
    }

    /// Executes a command.
    fn follow(&mut self, replay: &mut Replay, command: Command) -> Result<(), AllocError> {
        let now = replay.kernel.events();
        match command {
            Command::Next(count) => self.go_on(replay, now.saturating_add(count)),
            Command::Back(count) => self.go(replay, now.saturating_sub(count)),
            Command::Go(event) => self.go(replay, event),
            Command::Until(pid) => self.go_until(replay, pid),
            Command::State => put_state(self.view, &mut self.telling.teller.text, replay),
            Command::NoProcess => Ok(self.telling.teller.text.push_str(NO_PROCESS)),
            Command::Help => Ok(self.telling.teller.text.push_str(HELP)),
            Command::Quit => Ok(()),
        }
    }

    /// Puts the text written so far, the first line of the state, and a prompt.
    fn put_prompt<'a, O: Sink>(&mut self, replay: &Replay, out: &mut O) -> Result<(), Failure<'a>> {
        let text = &mut self.telling.teller.text;
        put_head(text, &replay.kernel, self.view.events);
        text.push_str("> ");
        put_text(text, out)
    }

    /// Reads and executes commands until `q` or the end of the input.
    pub fn follow_all<'a, A: Ask, O: Sink>(
        &mut self,
        replay: &mut Replay,
        ask: &mut A,
        out: &mut O,
    ) -> Result<(), Failure<'a>> {
        for _ in 0..u64::MAX {
            self.put_prompt(replay, out)?;
            let command = next_command(self.view.alloc, ask)?;
            if let Command::Quit = command {
                return Ok(());
            }
            self.follow(replay, command)?;
        }
        Ok(())
    }
}
