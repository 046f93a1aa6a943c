//! Printing the lines of a trace.
//!
//! A line is written into a buffer with enough room, from an index on. Each function returns the index after what it
//! wrote, so that no line is moved.

ghost use Rattle.std.specs.Prelude.{◌≡◌, ◌+◌, ◌*◌, ◌<◌, ◌≤◌, ◌++◌, length, ◌∷◌, take, codes, decimal};
ghost use Rattle.std.specs.List.{join_with_byte};
ghost use Rattle.std.specs.Fmt.{signed_decimal};
ghost use Rattle.posix.specs.Common.{call_text, bit, hex, printed, words_of};

use arrayvec::ArrayVec;
use hex::encode_to_slice;
use itoa::write_digits;
use posix::{Bytes, Call, Entry, Pid, Sig, Status, WaitCall};

/// Writes bytes.
#[inline(always)]
pub(crate) fn put(room: &mut [u8], at: usize, bytes: &[u8]) -> usize
    requires { at + length bytes.now ≤ length room.old }
    ensures text { take result room.new ≡ take at room.old ++ bytes.now }
    ensures end { result ≡ at + length bytes.now }
{
    let end = at + bytes.len();
    room[at..end].copy_from_slice(bytes);
    end
}

/// Writes a number. Its digits end in the middle of an array, so that always 20 bytes are copied; those after the
/// digits are overwritten by what follows.
#[inline]
pub(crate) fn put_number(room: &mut [u8], at: usize, number: u64) -> usize
    requires { at + 20 ≤ length room.old }
    ensures text { take result room.new ≡ take at room.old ++ decimal number }
    ensures end { result ≤ at + 20 }
{
    let mut digits = [0; 40];
    let start = write_digits(number, &mut digits, 20);
    room[at..at + 20].copy_from_slice(&digits[start..start + 20]);
    at + (20 - start)
}

/// Writes a signed number.
#[inline]
pub(crate) fn put_signed(room: &mut [u8], at: usize, number: i64) -> usize
    requires { at + 21 ≤ length room.old }
    ensures text { take result room.new ≡ take at room.old ++ signed_decimal number }
    ensures end { result ≤ at + 21 }
{
    if number >= 0 {
        return put_number(room, at, number.unsigned_abs());
    }
    let at = put(room, at, b"-");
    put_number(room, at, number.unsigned_abs())
}

/// Writes a space and a number.
#[inline]
fn put_next(room: &mut [u8], at: usize, number: u64) -> usize
    requires { at + 21 ≤ length room.old }
    ensures text { take result room.new ≡ take at room.old ++ 32 ∷ decimal number }
    ensures end { result ≤ at + 21 }
{
    let at = put(room, at, b" ");
    put_number(room, at, number)
}

/// Writes a space and a signed number.
#[inline]
fn put_next_signed(room: &mut [u8], at: usize, number: i64) -> usize
    requires { at + 22 ≤ length room.old }
    ensures text { take result room.new ≡ take at room.old ++ 32 ∷ signed_decimal number }
    ensures end { result ≤ at + 22 }
{
    let at = put(room, at, b" ");
    put_signed(room, at, number)
}

/// Writes bytes in lower case hexadecimal, two digits per byte.
fn put_hex(room: &mut [u8], at: usize, bytes: &[u8]) -> usize
    requires { at + 2 * length bytes.now ≤ length room.old }
    ensures text { take result room.new ≡ take at room.old ++ hex bytes.now }
    ensures end { result ≡ at + 2 * length bytes.now }
{
    let end = at + 2 * bytes.len();
    let _ = encode_to_slice(bytes, &mut room[at..end]);
    end
}

/// Writes a process ID and a signal number, each after a space.
#[inline]
fn put_pid_and_sig(room: &mut [u8], at: usize, pid: Pid, sig: Sig) -> usize
    requires { at + 42 ≤ length room.old }
    ensures text { take result room.new ≡ take at room.old ++ codes " " ++ decimal pid ++ codes " " ++ decimal sig }
    ensures end { result ≤ at + 42 }
{
    let at = put_next(room, at, u64::from(pid.number()));
    put_next(room, at, u64::from(sig.number()))
}

/// Writes the words of a process's call, up to its result.
#[inline(always)]
fn put_call(room: &mut [u8], at: usize, pid: Pid, call: Call) -> usize
    requires { at + 45 ≤ length room.old }
    ensures text { take result room.new ≡ take at room.old ++ codes " call " ++ decimal pid ++ codes " " ++ call_text call ++ codes " =" }
    ensures end { result ≤ at + 45 }
{
    let at = put(room, at, b" call");
    let at = put_next(room, at, u64::from(pid.number()));
    let at = put(room, at, b" ");
    let at = put(room, at, call.name());
    put(room, at, b" =")
}

/// Writes the words of a note.
fn put_note(room: &mut [u8], at: usize, pid: Pid, value: i64) -> usize
    requires { at + 106 ≤ length room.old }
    ensures text { take result room.new ≡ take at room.old ++ 32 ∷ join_with_byte 32 (words_of (Entry.Noted pid value)) }
    ensures end { result ≤ at + 106 }
{
    let at = put(room, at, b" note");
    let at = put_next(room, at, u64::from(pid.number()));
    put_next_signed(room, at, value)
}

/// Writes the words of a call that returned a result.
fn put_result(room: &mut [u8], at: usize, pid: Pid, call: Call, value: i64) -> usize
    requires { at + 106 ≤ length room.old }
    ensures text { take result room.new ≡ take at room.old ++ 32 ∷ join_with_byte 32 (words_of (Entry.Called pid call value)) }
    ensures end { result ≤ at + 106 }
{
    let at = put_call(room, at, pid, call);
    put_next_signed(room, at, value)
}

/// Writes the words of a call that moved bytes.
fn put_moved(room: &mut [u8], at: usize, pid: Pid, call: Call, bytes: Bytes) -> usize
    requires { at + 106 ≤ length room.old }
    ensures text { take result room.new ≡ take at room.old ++ 32 ∷ join_with_byte 32 (words_of (Entry.Moved pid call bytes)) }
    ensures end { result ≤ at + 106 }
{
    let bytes = bytes.as_slice();
    let at = put_call(room, at, pid, call);
    let at = put_next(room, at, bytes.len() as u64);
    let at = put(room, at, b" bytes ");
    put_hex(room, at, bytes)
}

/// Writes the words of a waitpid that reported a child's wait status.
fn put_report(room: &mut [u8], at: usize, pid: Pid, child: Pid, status: Status) -> usize
    requires { at + 106 ≤ length room.old }
    ensures text { take result room.new ≡ take at room.old ++ 32 ∷ join_with_byte 32 (words_of (Entry.Reported pid WaitCall.Waitpid child status)) }
    ensures end { result ≤ at + 106 }
{
    let at = put_call(room, at, pid, Call::Waitpid);
    let at = put_next(room, at, u64::from(child.number()));
    let at = put(room, at, b" status");
    put_next(room, at, u64::from(status.word()))
}

/// Writes the words of a waitid that reported a child's wait status; `done` says whether it consumed the report.
fn put_waitid(
    room: &mut [u8],
    at: usize,
    pid: Pid,
    done: &[u8],
    child: Pid,
    status: Status,
) -> usize
    requires room { at + 106 ≤ length room.old }
    requires done { length done.now ≡ 8 }
    ensures text { take result room.new ≡ take at room.old ++ codes " call " ++ decimal pid ++ codes " waitid =" ++ done.now ++ decimal child ++ codes " status " ++ decimal status }
    ensures end { result ≤ at + 106 }
{
    let at = put_call(room, at, pid, Call::Waitid);
    let at = put(room, at, done);
    let at = put_number(room, at, u64::from(child.number()));
    let at = put(room, at, b" status");
    put_next(room, at, u64::from(status.word()))
}

/// Writes the words of a waitid that consumed what it reported.
fn put_take(room: &mut [u8], at: usize, pid: Pid, child: Pid, status: Status) -> usize
    requires { at + 106 ≤ length room.old }
    ensures text { take result room.new ≡ take at room.old ++ 32 ∷ join_with_byte 32 (words_of (Entry.Reported pid WaitCall.Waitid child status)) }
    ensures end { result ≤ at + 106 }
{
    put_waitid(room, at, pid, b" 0 take ", child, status)
}

/// Writes the words of a waitid with WNOWAIT, which left what it reported.
fn put_look(room: &mut [u8], at: usize, pid: Pid, child: Pid, status: Status) -> usize
    requires { at + 106 ≤ length room.old }
    ensures text { take result room.new ≡ take at room.old ++ 32 ∷ join_with_byte 32 (words_of (Entry.Looked pid child status)) }
    ensures end { result ≤ at + 106 }
{
    put_waitid(room, at, pid, b" 0 look ", child, status)
}

/// Writes the words of a call that failed for lack of memory.
fn put_no_memory(room: &mut [u8], at: usize, pid: Pid, call: Call) -> usize
    requires { at + 106 ≤ length room.old }
    ensures text { take result room.new ≡ take at room.old ++ 32 ∷ join_with_byte 32 (words_of (Entry.NoMemory pid call)) }
    ensures end { result ≤ at + 106 }
{
    let at = put_call(room, at, pid, call);
    put(room, at, b" -11 memory")
}

/// Writes 1 for a mark that is set, 0 for one that is cleared.
fn put_bit(room: &mut [u8], at: usize, mark: bool) -> usize
    requires { at + 1 ≤ length room.old }
    ensures text { take result room.new ≡ take at room.old ++ bit mark }
    ensures end { result ≡ at + 1 }
{
    if mark {
        return put(room, at, b"1");
    }
    put(room, at, b"0")
}

/// Writes the words of a subreaper mark that is set or cleared.
fn put_mark(room: &mut [u8], at: usize, pid: Pid, mark: bool) -> usize
    requires { at + 106 ≤ length room.old }
    ensures text { take result room.new ≡ take at room.old ++ 32 ∷ join_with_byte 32 (words_of (Entry.Marked pid mark)) }
    ensures end { result ≤ at + 106 }
{
    let at = put_call(room, at, pid, Call::Subreaper);
    let at = put(room, at, b" 0 mark ");
    put_bit(room, at, mark)
}

/// Writes the words of a handler that is entered.
fn put_handler(room: &mut [u8], at: usize, pid: Pid, sig: Sig, carried: i64, sender: Pid) -> usize
    requires { at + 106 ≤ length room.old }
    ensures text { take result room.new ≡ take at room.old ++ 32 ∷ join_with_byte 32 (words_of (Entry.Handled pid sig carried sender)) }
    ensures end { result ≤ at + 106 }
{
    let at = put(room, at, b" handle");
    let at = put_pid_and_sig(room, at, pid, sig);
    let at = put_next_signed(room, at, carried);
    put_next(room, at, u64::from(sender.number()))
}

/// Writes the words of a signal that is discarded.
fn put_discard(room: &mut [u8], at: usize, pid: Pid, sig: Sig) -> usize
    requires { at + 106 ≤ length room.old }
    ensures text { take result room.new ≡ take at room.old ++ 32 ∷ join_with_byte 32 (words_of (Entry.Discarded pid sig)) }
    ensures end { result ≤ at + 106 }
{
    let at = put(room, at, b" discard");
    put_pid_and_sig(room, at, pid, sig)
}

/// Writes the words of a stop by a signal.
fn put_stop(room: &mut [u8], at: usize, pid: Pid, sig: Sig) -> usize
    requires { at + 106 ≤ length room.old }
    ensures text { take result room.new ≡ take at room.old ++ 32 ∷ join_with_byte 32 (words_of (Entry.Stopped pid sig)) }
    ensures end { result ≤ at + 106 }
{
    let at = put(room, at, b" stop");
    put_pid_and_sig(room, at, pid, sig)
}

/// Writes the words of a return from a handler.
fn put_return(room: &mut [u8], at: usize, pid: Pid) -> usize
    requires { at + 106 ≤ length room.old }
    ensures text { take result room.new ≡ take at room.old ++ 32 ∷ join_with_byte 32 (words_of (Entry.Returned pid)) }
    ensures end { result ≤ at + 106 }
{
    let at = put(room, at, b" return");
    put_next(room, at, u64::from(pid.number()))
}

/// Writes the words of a termination.
fn put_end(room: &mut [u8], at: usize, pid: Pid, status: Status) -> usize
    requires { at + 106 ≤ length room.old }
    ensures text { take result room.new ≡ take at room.old ++ 32 ∷ join_with_byte 32 (words_of (Entry.Ended pid status)) }
    ensures end { result ≤ at + 106 }
{
    let at = put(room, at, b" end");
    let at = put_next(room, at, u64::from(pid.number()));
    put_next(room, at, u64::from(status.word()))
}

/// Writes the words of an entry.
fn put_entry(room: &mut [u8], at: usize, entry: &Entry) -> usize
    requires { at + 106 ≤ length room.old }
    ensures text { take result room.new ≡ take at room.old ++ 32 ∷ join_with_byte 32 (words_of entry.now) }
    ensures end { result ≤ at + 106 }
{
    match entry {
        Entry::Noted { pid, value } => put_note(room, at, *pid, *value),
        Entry::Called { pid, call, result } => put_result(room, at, *pid, *call, *result),
        Entry::Moved { pid, call, bytes } => put_moved(room, at, *pid, *call, *bytes),
        Entry::Reported {
            pid,
            call: WaitCall::Waitpid,
            child,
            status,
        } => put_report(room, at, *pid, *child, *status),
        Entry::Reported {
            pid,
            call: WaitCall::Waitid,
            child,
            status,
        } => put_take(room, at, *pid, *child, *status),
        Entry::Looked { pid, child, status } => put_look(room, at, *pid, *child, *status),
        Entry::NoMemory { pid, call } => put_no_memory(room, at, *pid, *call),
        Entry::Marked { pid, mark } => put_mark(room, at, *pid, *mark),
        Entry::Handled {
            pid,
            sig,
            value,
            sender,
        } => put_handler(room, at, *pid, *sig, *value, *sender),
        Entry::Discarded { pid, sig } => put_discard(room, at, *pid, *sig),
        Entry::Stopped { pid, sig } => put_stop(room, at, *pid, *sig),
        Entry::Returned { pid } => put_return(room, at, *pid),
        Entry::Ended { pid, status } => put_end(room, at, *pid, *status),
        Entry::Halted => put(room, at, b" halt"),
    }
}

/// Writes one line of a trace, with its line feed, from an index on: the event number and the words of the entry,
/// separated by one space. Needs room for 128 bytes. Returns the index after the line.
#[inline]
pub fn write_entry(room: &mut [u8], at: usize, event: u64, entry: &Entry) -> usize
    requires { at + 128 ≤ length room.old }
    ensures text { take result room.new ≡ take at room.old ++ printed event entry.now }
    ensures end { result ≤ at + 128 }
{
    let at = put_number(room, at, event);
    let at = put_entry(room, at, entry);
    put(room, at, b"\n")
}

/// Returns one line of a trace, as [`write_entry`] writes it.
pub fn print_entry(event: u64, entry: &Entry) -> ArrayVec<u8, 128>
    ensures { result.items ≡ printed event entry.now }
{
    let mut room = [0; 128];
    let end = write_entry(&mut room, 0, event, entry);
    let mut line = ArrayVec::new();
    let _ = line.try_extend_from_slice(&room[..end]);
    line
}
