//! Explains a trace by a run of its world, which shows what each event did.

ghost use Rattle.std.specs.Prelude.{◌≤◌, length};
ghost use Rattle.text.specs.EventTexts.{most_events};

use crate::hearing::Telling;
use crate::lines::Explain;
use crate::replay::{Replay, past_at, run_to};
use std::alloc::{AllocError, Global};
use telling::{Teller, View};
use text::{EventList, World};
use trace::next_line;
use wording::{Listing, Prose};

/// The number of events that are run before their lines are put or read. A limit keeps the memory for the lines small.
pub const TOLD_AT_ONCE: u64 = 1_000;

/// A run of a world that explains the lines of its trace. What an event did is the explanation of the event's first
/// line.
#[derive(Drop)]
pub struct RunExplainer<'l, 't> {
    replay: Replay,
    telling: Telling<'l, 't>,
    events: &'t EventList,
    /// The number of bytes of the teller's text that have been read.
    read: usize,
    ghost few: { length events.now ≤ most_events },
}

impl<'l, 't> RunExplainer<'l, 't> {
    /// Returns a run before its first event. Its text has trace lines, because `explain` looks for them.
    pub fn new(
        alloc: Global,
        listing: &'l Listing<'t>,
        world: &'t World,
        events: &'t EventList,
    ) -> Result<RunExplainer<'l, 't>, AllocError>
        requires { length events.now ≤ most_events }
    {
        let view = View {
            alloc,
            listing,
            events: events.len(),
            traced: true,
            only: &[],
        };
        Ok(RunExplainer {
            replay: past_at(alloc, world, events, 0)?,
            telling: Telling::new(Teller::new(view, world.programs())),
            events,
            read: 0,
        })
    }

    /// Runs events until there is a line to read, or no event is left. Does nothing if a line is still unread.
    fn read_on(&mut self) -> Result<(), AllocError> {
        for _ in 0..=self.events.len() / TOLD_AT_ONCE {
            if self.read < self.telling.teller.text.len() {
                break;
            }
            self.telling.teller.text.clear();
            self.read = 0;
            let next = self.replay.kernel.events().saturating_add(TOLD_AT_ONCE);
            run_to(&mut self.replay, self.events, next, &mut self.telling)?;
        }
        Ok(())
    }
}

impl Explain for RunExplainer<'_, '_> {
    fn explain(&mut self, line: &[u8], words: &mut Prose) -> Result<(), AllocError> {
        self.read_on()?;
        let text = self.telling.teller.text.as_bytes()?;
        let Some((told, more)) = next_line(text.get(self.read..).unwrap_or(&[])) else {
            return Ok(());
        };
        self.read = text.len() - more.len();
        // In the run that was compared, a call may have failed for lack of memory. Then the lines can differ here.
        if let Some([b' ', b' ', b' ', said @ ..]) = told.strip_prefix(line) {
            words.push_bytes(said);
        }
        Ok(())
    }
}
