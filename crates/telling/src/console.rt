//! Descriptions of consoles and of the run queue.

use posix::Pid;
use tty::Console;
use wording::{Prose, plural, put_quoted};

/// Writes the run queue, unless it is empty.
pub fn put_turns(text: &mut Prose, turns: &[Pid]) {
    if turns.is_empty() {
        return;
    }
    text.push_str("run queue:");
    for pid in turns {
        text.push_with(" ", pid.number());
    }
    text.push_str("\n");
}

/// Writes a piece, a count, and a noun in the singular or plural.
pub fn put_counted(text: &mut Prose, piece: &str, count: u64, word: &str) {
    text.push_with(piece, count);
    text.push_word(" ", word.as_bytes());
    text.push_str(plural(count));
}

/// Writes the session and the foreground process group of a console.
fn put_owner(text: &mut Prose, session: Pid, foreground: Pid, is_living: bool) {
    if session == Pid::NONE {
        return text.push_str("no session");
    }
    text.push_with("session ", session.number());
    if foreground == Pid::NONE {
        return text.push_str(", no foreground group");
    }
    text.push_with(", foreground ", foreground.number());
    if !is_living {
        text.push_str(" (only zombies)");
    }
}

/// Writes the line of the console with this number. `is_living` is true if any process in its foreground process group
/// is not a zombie.
pub fn put_console(text: &mut Prose, number: usize, console: &Console, is_living: bool) {
    text.push_with("console ", number);
    text.push_str(": ");
    put_owner(text, console.session(), console.foreground(), is_living);
    text.push_str(", edited ");
    put_quoted(text, console.edited());
    put_counted(text, ", ", console.finished_lines() as u64, "finished line");
    if console.tostop() {
        text.push_str(", TOSTOP");
    }
    text.push_str(if console.is_hung_up() {
        ", hung up\n"
    } else {
        "\n"
    });
}
