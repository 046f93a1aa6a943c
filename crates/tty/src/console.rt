//! A console: the keys that are typed at it, the lines that they make, and the session whose terminal it is.

ghost use Rattle.std.specs.Prelude.{◌≡◌, ◌≤◌, ◌==◌, ◌||◌, ◌++◌, not, length, true, IfOk};
ghost use Rattle.posix.specs.Common.{unused_console, keyed, keyed_by, key_signal, signal_typed, disconnected, session_told, edit as edited_by, finish_line, flushed, erased, with_byte, line_taken, acquired, released, with_foreground, with_tostop};
ghost use Rattle.tty.specs.Limits.{IsWithinLimits};
ghost use Rattle.tty.specs.Lines.{Takes};

use crate::lines::LineQueue;
use arrayvec::ArrayVec;
use posix::{Pid, Sig};
use std::alloc::{AllocError, Global};
use std::marker::Model;

/// INTR, ^C (XBD 11.1.9; the values of these keys are own, as on most systems).
const INTR: u8 = 0x03;

/// EOF, ^D.
const EOF: u8 = 0x04;

/// NL, the newline.
const NL: u8 = 0x0a;

/// KILL, ^U.
const KILL: u8 = 0x15;

/// SUSP, ^Z.
const SUSP: u8 = 0x1a;

/// QUIT, ^\.
const QUIT: u8 = 0x1c;

/// ERASE, the key DEL.
const ERASE: u8 = 0x7f;

/// Returns true if a key ends the edited line: NL or EOF (XBD 11.1.9).
pub fn ends_line(key: u8) -> bool
    ensures { result ≡ (key == 10 || key == 4) }
{
    key == NL || key == EOF
}

/// Returns the signal that a key sends: SIGINT for INTR, SIGQUIT for QUIT, SIGTSTP for SUSP (XBD 11.1.9).
#[tactic(auto, unfolding(posix::specs::Consoles::key_signal))]
fn signal_of(key: u8) -> Option<Sig>
    ensures { result ≡ key_signal key }
{
    match key {
        INTR => Some(Sig::INT),
        QUIT => Some(Sig::QUIT),
        SUSP => Some(Sig::TSTP),
        _ => None,
    }
}

/// A terminal in canonical mode (XBD 11.1.6). Allocates only in [`Console::new`].
#[derive(Drop)]
pub struct Console {
    /// The session whose controlling terminal it is.
    session: Pid,
    /// The foreground process group.
    foreground: Pid,
    /// The finished lines that have not been read yet.
    lines: LineQueue,
    /// The line that is edited, at most 255 bytes.
    edited: ArrayVec<u8, 255>,
    tostop: bool,
    /// Whether it is hung up.
    hung_up: bool,
}

impl Model for Console {
    ghost use Rattle.posix.specs.Consoles.{Console};
    ghost use Rattle.tty.specs.Limits.{AreWithinLimits};

    ghost Value = { Console };

    ghost view = { λ c. record { session = c.session; foreground = c.foreground; lines = c.lines; edited = c.edited.items; tostop = c.tostop; hung_up = c.hung_up } };

    ghost invariant = { λ c. AreWithinLimits c.lines c.edited.items };
}

impl Console {
    /// Creates a console with no session and no input. Fails if the host has no memory for it.
    #[tactic(auto, using(crate::proofs::LimitLemmas::few_none))]
    pub fn new(alloc: Global) -> Result<Console, AllocError>
        ensures { IfOk result (λ c. c ≡ unused_console) }
    {
        let lines = LineQueue::new(alloc)?;
        Ok(Console {
            session: Pid::NONE,
            foreground: Pid::NONE,
            lines,
            edited: ArrayVec::new(),
            tostop: false,
            hung_up: false,
        })
    }

    // ---- the session

    /// Returns the session whose controlling terminal it is, [`Pid::NONE`] for none (XBD 11.1.3).
    pub fn session(&self) -> Pid
        ensures is { result ≡ self.now.session }
        ensures limits { IsWithinLimits self.now }
    {
        self.session
    }

    /// Returns its foreground process group, [`Pid::NONE`] for none (XBD 11.1.2).
    pub fn foreground(&self) -> Pid
        ensures is { result ≡ self.now.foreground }
        ensures limits { IsWithinLimits self.now }
    {
        self.foreground
    }

    /// Returns true if a write from the background stops the writer, TOSTOP (XBD 11.2.5).
    pub fn tostop(&self) -> bool
        ensures is { result ≡ self.now.tostop }
        ensures limits { IsWithinLimits self.now }
    {
        self.tostop
    }

    /// Returns true if the console is hung up (XBD 11.1.10 Modem Disconnect).
    pub fn is_hung_up(&self) -> bool
        ensures is { result ≡ self.now.hung_up }
        ensures limits { IsWithinLimits self.now }
    {
        self.hung_up
    }

    /// Returns true if another console has the same session, foreground process group, input and settings.
    pub fn is_same(&self, other: &Console) -> bool
        ensures { result ≡ true → self.now ≡ other.now }
    {
        self.session == other.session
            && self.foreground == other.foreground
            && self.tostop == other.tostop
            && self.hung_up == other.hung_up
            && self.lines.is_same(&other.lines)
            && self.edited() == other.edited()
    }

    /// Makes the console the controlling terminal of a session, with a foreground process group (XBD 11.1.3). Its input
    /// stays, and a hangup is over (own).
    #[tactic(auto, unfolding(posix::specs::Consoles::acquired))]
    pub fn acquire(&mut self, session: Pid, group: Pid)
        ensures { self.new ≡ acquired session group self.old }
    {
        self.session = session;
        self.foreground = group;
        self.hung_up = false;
    }

    /// Disconnects the console: discards all input, and hangs it up if it is a session's terminal. It stays hung up
    /// until it is acquired again. Returns the session whose terminal it is, if there is one. Nothing happens if the
    /// console is hung up already (XBD 11.1.10; own).
    ///
    /// A console stays hung up until the next setctty, even after the session leader terminates, because a terminal must
    /// be opened again.
    #[tactic(auto, unfolding(posix::specs::Consoles::disconnected, posix::specs::Consoles::flushed))]
    pub fn hang_up(&mut self) -> Option<Pid>
        ensures console { self.new ≡ disconnected self.old }
        ensures told { result ≡ session_told self.old }
    {
        if self.hung_up {
            return None;
        }
        self.flush();
        if self.session == Pid::NONE {
            return None;
        }
        self.hung_up = true;
        Some(self.session)
    }

    /// Makes the console the controlling terminal of no session. Its input stays (own).
    #[tactic(auto, unfolding(posix::specs::Consoles::released))]
    pub fn release(&mut self)
        ensures { self.new ≡ released self.old }
    {
        self.session = Pid::NONE;
        self.foreground = Pid::NONE;
    }

    /// Sets the foreground process group (XBD 11.1.2).
    #[tactic(auto, unfolding(posix::specs::Consoles::with_foreground))]
    pub fn set_foreground(&mut self, group: Pid)
        ensures { self.new ≡ with_foreground group self.old }
    {
        self.foreground = group;
    }

    /// Sets or clears TOSTOP (XBD 11.2.5).
    #[tactic(auto, unfolding(posix::specs::Consoles::with_tostop))]
    pub fn set_tostop(&mut self, tostop: bool)
        ensures { self.new ≡ with_tostop tostop self.old }
    {
        self.tostop = tostop;
    }

    // ---- typing

    /// Returns the bytes of the edited line.
    pub fn edited(&self) -> &[u8]
        ensures { result.now ≡ self.now.edited }
    {
        &self.edited
    }

    /// Returns how many finished lines wait to be read.
    pub fn finished_lines(&self) -> usize
        ensures { result ≡ length self.now.lines }
    {
        self.lines.len()
    }

    /// Types a key, and returns the signal for the foreground process group, if the key sends one (XBD 11.1.6, 11.1.9).
    ///
    /// A signal key discards all input, edited and finished. ERASE and KILL edit the line. NL and EOF finish it; EOF
    /// isn't added to it. A finished line without room, as the 65th or beyond 1,024 bytes, is dropped whole (own). Any
    /// other byte is added to the line, or dropped if the line has 255 bytes (own). While the console is hung up,
    /// nothing changes and no signal is sent.
    #[tactic(auto, unfolding(posix::specs::Consoles::keyed, posix::specs::Consoles::signal_typed))]
    pub fn key(&mut self, byte: u8) -> Option<Sig>
        ensures console { self.new ≡ keyed byte self.old }
        ensures signal { result ≡ signal_typed byte self.old }
    {
        if self.is_hung_up() {
            return None;
        }
        self.typed(byte)
    }

    /// Types a key at a console that isn't hung up, and returns the signal that the key sends, if any.
    fn typed(&mut self, byte: u8) -> Option<Sig>
        ensures console { self.new ≡ keyed_by (key_signal byte) byte self.old }
        ensures signal { result ≡ key_signal byte }
    {
        let signal = signal_of(byte);
        match signal {
            Some(_) => self.flush(),
            None => self.edit(byte),
        }
        signal
    }

    /// Discards all input.
    #[tactic(auto, using(crate::proofs::LimitLemmas::few_none), unfolding(posix::specs::Consoles::flushed))]
    fn flush(&mut self)
        ensures { self.new ≡ flushed self.old }
    {
        self.lines.clear();
        self.edited.clear();
    }

    /// Types a key that sends no signal.
    #[tactic(auto, unfolding(posix::specs::Consoles::edit))]
    fn edit(&mut self, byte: u8)
        ensures { self.new ≡ edited_by byte self.old }
    {
        match byte {
            ERASE => self.erase(),
            KILL => self.edited.clear(),
            NL => self.finish(&[NL]),
            EOF => self.finish(&[]),
            _ => self.insert(byte),
        }
    }

    /// Erases the last byte of the edited line, if there is one.
    #[tactic(auto, unfolding(posix::specs::Consoles::erased))]
    fn erase(&mut self)
        ensures { self.new ≡ record self.old { edited = erased self.old.edited } }
    {
        let _ = self.edited.pop();
    }

    /// Appends a byte to the edited line, if there is room.
    #[tactic(auto, unfolding(posix::specs::Consoles::with_byte))]
    fn insert(&mut self, byte: u8)
        ensures { self.new ≡ record self.old { edited = with_byte byte self.old.edited } }
    {
        let _ = self.edited.try_push(byte);
    }

    /// Finishes the edited line, with an end. Without room among the finished lines, it is dropped.
    #[tactic(auto, unfolding(posix::specs::Consoles::finish_line))]
    fn finish(&mut self, end: &[u8])
        requires { length end.now ≤ 1 }
        ensures { self.new ≡ finish_line (self.old.edited ++ end.now) self.old }
    {
        self.lines.push(&self.edited, end);
        self.edited.clear();
    }

    // ---- reading

    /// Returns true if a finished line waits to be read.
    pub fn has_line(&self) -> bool
        ensures is { result ≡ not (length self.now.lines == 0) }
        ensures limits { IsWithinLimits self.now }
    {
        !self.lines.is_empty()
    }

    /// Reads as many bytes of the first finished line as fit in `out`, and returns their number. Returns `None` and
    /// changes nothing if no line is finished. The rest of `out` is unchanged, and the rest of the line stays.
    ///
    /// A line with nothing left is removed. This includes the empty line that EOF makes: it reads as 0 bytes, the end
    /// of file. Any other line read into an empty `out` also returns 0, but stays (XBD 11.1.6, 11.1.9).
    #[tactic(auto, unfolding(posix::specs::Consoles::line_taken))]
    pub fn take(&mut self, out: &mut [u8]) -> Option<usize>
        ensures taken { Takes self.old.lines out.old out.new result }
        ensures console { self.new ≡ line_taken (length out.old) self.old }
    {
        self.lines.take(out)
    }
}
