//! Events.

ghost use Rattle.posix.specs.Ranges.{IsEvent};

/// An event, which changes the machine from outside, in one atomic step (own).
#[derive(Clone, Copy, PartialEq, Eq)]
pub enum Event {
    /// The current process runs for one step.
    Step,
    /// The clock advances by one tick, and the current process moves to the end of the run queue.
    Tick,
    /// A byte is typed at a console; consoles are numbered from 1.
    Key { console: u8, byte: u8 },
    /// A console is hung up (XBD 11.1.10 Modem Disconnect); consoles are numbered from 1.
    Hangup { console: u8 },
}

impl Event {
    /// Does nothing. Its contract states what the type of an event ensures: a key event carries a byte.
    #[inline]
    pub fn range_holds(self)
        ensures { IsEvent self }
    {
        if let Event::Key { console: _, byte } = self {
            let _ = byte;
        }
    }
}
