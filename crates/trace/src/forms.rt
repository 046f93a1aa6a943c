//! The forms of a trace line, and the ranges of their values.

ghost use Rattle.std.specs.Prelude.{◌≡◌, ◌&&◌, length, nat_le};
ghost use Rattle.std.specs.List.{list_all};
ghost use Rattle.posix.specs.Common.{line, is_stop_signal as is_stop_signal_of, asks_memory as asks_memory_of};
ghost use Rattle.laws.specs.Kinds.{is_byte};
ghost use Rattle.laws.specs.TraceLines.{is_entry as is_entry_of, is_line as is_line_of, is_number, is_result as is_result_of, moves_bytes as moves_bytes_of};

use posix::{Call, DefaultAction, Entry, Pid, Sig};

/// The largest event number.
const MAX_EVENT: u64 = 1_000_000_000_000;

/// Returns true if it is the ID of a process, and not 0.
fn is_process(pid: Pid) -> bool
    ensures { result ≡ is_number pid }
{
    pid.number() >= 1
}

/// Returns true if a call that prints only its result may return this one.
fn is_result(call: Call, value: i64) -> bool
    ensures { result ≡ is_result_of call value }
{
    match call {
        Call::Exit | Call::Sigreturn | Call::Subreaper => false,
        Call::Waitpid | Call::Read | Call::Write => value <= 0,
        Call::Fork => value <= i64::from(Pid::MAX),
        _ => true,
    }
}

/// Returns true if a call moves bytes.
fn moves_bytes(call: Call) -> bool
    ensures { result ≡ moves_bytes_of call }
{
    matches!(call, Call::Read | Call::Write)
}

/// Returns true if a call can move these bytes: 1 to 16 of them.
fn can_be_moved(bytes: &[u8]) -> bool
    ensures { result ≡ (nat_le 1 (length bytes.now) && nat_le (length bytes.now) 16 && list_all is_byte bytes.now) }
{
    matches!(bytes.len(), 1..=16)
}

/// Returns true if a call may need memory from the host, and can fail for lack of it.
fn asks_memory(call: Call) -> bool
    ensures { result ≡ asks_memory_of call }
{
    matches!(call, Call::Fork | Call::Kill | Call::Sigqueue)
}

/// Returns true if a signal stops by default.
fn is_stop_signal(sig: Sig) -> bool
    ensures { result ≡ is_stop_signal_of sig }
{
    matches!(sig.default_action(), DefaultAction::Stop)
}

/// Returns true if an entry has one of the forms.
fn is_entry(entry: Entry) -> bool
    ensures { result ≡ is_entry_of entry }
{
    match entry {
        Entry::Noted { pid, value: _ } => is_process(pid),
        Entry::Called { pid, call, result } => is_process(pid) && is_result(call, result),
        Entry::Moved { pid, call, bytes } => {
            is_process(pid) && moves_bytes(call) && can_be_moved(bytes.as_slice())
        }
        Entry::Reported { pid, child, .. } | Entry::Looked { pid, child, .. } => {
            is_process(pid) && is_process(child)
        }
        Entry::NoMemory { pid, call } => is_process(pid) && asks_memory(call),
        Entry::Marked { pid, mark: _ } => is_process(pid),
        Entry::Handled { pid, .. } => is_process(pid),
        Entry::Discarded { pid, sig: _ } => is_process(pid),
        Entry::Stopped { pid, sig } => is_process(pid) && is_stop_signal(sig),
        Entry::Returned { pid } => is_process(pid),
        Entry::Ended { pid, status } => is_process(pid) && status.is_end(),
        Entry::Halted => true,
    }
}

/// Returns true if a line has one of the forms.
pub fn is_line(event: u64, entry: Entry) -> bool
    ensures { result ≡ is_line_of (line event entry) }
{
    (1..=MAX_EVENT).contains(&event) && is_entry(entry)
}
