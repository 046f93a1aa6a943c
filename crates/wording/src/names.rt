//! The names of signals, sets, errors, statuses and options.

ghost use Rattle.std.specs.Prelude.{◌≡◌, ◌⊎◌, ◌<◌, ◌<ℤ◌, ◌≤ℤ◌, IfSome, None, pos};
ghost use Rattle.posix.specs.Common.{signal_in as signal_number_in};
ghost use Rattle.wording.specs.Proses.{Grows};

use crate::prose::Prose;
use crate::table::{Kind, SIGRTMIN, name_of};
use bitflags::Flags;
use posix::{Pid, Sig, SigSet, Status};

/// The number of signals.
const SIGNAL_COUNT: usize = 62;

/// Writes the name of a number of a kind; the number if it has no name.
pub fn put_name(text: &mut Prose, kind: Kind, number: i64)
    ensures { Grows text.old.text text.new.text }
{
    match name_of(kind, number) {
        Some(name) => text.push_str(name),
        None => text.push_number(number),
    }
}

/// Writes the name of a signal.
pub fn put_signal(text: &mut Prose, sig: Sig)
    ensures { Grows text.old.text text.new.text }
{
    match sig.number() {
        number @ 35..=63 => text.push_with("SIGRTMIN+", number - SIGRTMIN),
        number => put_name(text, Kind::Signal, i64::from(number)),
    }
}

/// Returns the signal with this number; `None` if there is none.
pub fn signal_in(word: i64) -> Option<Sig>
    ensures signal { result ≡ signal_number_in word }
    ensures word { IfSome result (λ sig. word ≡ pos sig) }
{
    Sig::new(u8::try_from(word).ok()?)
}

/// Returns the process ID with this number; `None` if no process can have it.
pub fn process_in(number: i128) -> Option<Pid>
    ensures some { IfSome result (λ pid. (number ≡ pos pid) × (0 < pid)) }
    ensures none { result ≡ None → (number ≤ℤ pos 0) ⊎ (pos 2147483647 <ℤ number) }
{
    let pid = Pid::new(u32::try_from(number).ok()?)?;
    Some(pid).filter(|pid| *pid != Pid::NONE)
}

/// Writes the name of the signal with this number; the number if there is none.
pub fn put_signal_word(text: &mut Prose, word: i64) {
    match signal_in(word) {
        Some(sig) => put_signal(text, sig),
        None => text.push_number(word),
    }
}

/// Writes the signals that are in a set, or those that are not in it, with spaces between them.
fn put_signals(text: &mut Prose, set: SigSet, is_in: bool)
    ensures { Grows text.old.text text.new.text }
{
    let start = text.len();
    for sig in (1..65u8).filter_map(Sig::new) {
        if set.contains(sig) == is_in {
            if text.len() != start {
                text.push_str(" ");
            }
            put_signal(text, sig);
        }
    }
}

/// Returns the number of signals in a set.
fn count_of(set: SigSet) -> usize {
    let signals = (1..65u8).filter_map(Sig::new);
    signals.filter(|sig| set.contains(*sig)).count()
}

/// Writes a set of signals: `{SIGINT SIGCHLD}`; or `~{SIGKILL SIGSTOP}`, all but these, if it has more than half of
/// all.
pub fn put_set(text: &mut Prose, set: SigSet)
    ensures { Grows text.old.text text.new.text }
{
    let most = count_of(set) > SIGNAL_COUNT / 2;
    text.push_str(if most { "~{" } else { "{" });
    put_signals(text, set, !most);
    text.push_str("}");
}

/// Writes a set of signals; `-` for the empty set.
pub fn put_set_or_none(text: &mut Prose, set: SigSet) {
    if count_of(set) == 0 {
        text.push_str("-");
    } else {
        put_set(text, set);
    }
}

/// Writes a wait status: `exit 1`, `killed by SIGTERM`, `stopped by SIGTSTP` or `continued`.
pub fn put_status(text: &mut Prose, status: Status) {
    let word = status.word();
    let (low, high) = (word % 256, word / 256);
    match low {
        0 => text.push_with("exit ", high),
        127 => {
            text.push_str("stopped by ");
            put_signal_word(text, i64::from(high));
        }
        255 => text.push_str("continued"),
        _ => {
            text.push_str("killed by ");
            put_signal_word(text, i64::from(low));
        }
    }
}

/// Writes the names of flags, joined by `|`; `0` for none.
pub fn put_flags<F: Flags>(text: &mut Prose, flags: &F) {
    let start = text.len();
    for (name, _) in flags.iter_names() {
        if text.len() != start {
            text.push_str("|");
        }
        text.push_str(name);
    }
    if text.len() == start {
        text.push_str("0");
    }
}

/// Writes the names of the flags of a word; the word if it is not a combination of flags.
pub fn put_flags_or<F: Flags>(text: &mut Prose, flags: Option<F>, word: i64) {
    match flags {
        Some(flags) => put_flags(text, &flags),
        None => text.push_number(word),
    }
}
