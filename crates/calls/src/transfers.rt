//! Bytes moved between a process and its terminal (XSH read, write).

ghost use Rattle.std.specs.Prelude.{◌≡◌, ◌≢◌, ◌+◌, ◌≤◌, length, IsSome, Some, Ok, option_map};
ghost use Rattle.posix.specs.Common.{Process, Console, console_of, line_taken, process, change, IsRegular, change_console, finish_moved as finish_moved_of, with_bytes, read as reading, read_in, read_from, write as writing, write_in, waits_to_read};
ghost use Rattle.proctable.specs.Records.{snapshot_of};
ghost use Rattle.life.specs.Callers.{caller_of};
ghost use Rattle.life.specs.Consoles.{terminal_of};
ghost use Rattle.life.specs.Machines.{AreSame};
ghost use Rattle.calls.specs.Outcomes.{Comes};
ghost use Rattle.calls.specs.Terminals.{first_bytes};

use crate::attempts::{finish_shown, finish_with, refuse};
use crate::background::{Access, read_access, signal_own_group, write_access};
use crate::entries::Entries;
use crate::outcome::Attempt;
use life::{Caller, Machine, Terminal};
use posix::{Blocked, Bytes, Call, Entry, Errno, Pid, Sig, Span};
use proctable::{ProcessTable, Snapshot};

/// Completes the call of an existing process that moved these bytes, with their number. If there are none, the entry
/// shows only that number.
fn finish_moved<K: ProcessTable>(
    machine: &mut Machine<K>,
    pid: Pid,
    call: Call,
    bytes: Bytes,
    entries: &mut Entries,
) -> Attempt
    requires there { IsSome (process machine.old.state pid) }
    requires room { length entries.old.items ≤ 3 }
    ensures comes { Comes machine.old.state (finish_moved_of machine.old.state pid call bytes) result entries.old.items entries.new.items machine.new.state }
    ensures no_fewer { machine.old.visits ≤ machine.new.visits }
{
    let count = bytes.as_slice().len();
    if count == 0 {
        return finish_with(machine, pid, call, 0, entries);
    }
    let entry = Entry::Moved { pid, call, bytes };
    finish_shown(machine, pid, count as i64, entry, entries)
}

// ---- read

/// Stores bytes in the words of an existing process, from an address on.
#[tactic(auto, unfolding(posix::specs::Terminals::with_bytes))]
fn store<K: ProcessTable>(machine: &mut Machine<K>, pid: Pid, address: u16, bytes: &[u8])
    requires there { IsSome (process machine.old.state pid) }
    requires within { address + length bytes.now ≤ 256 }
    ensures state { machine.new.state ≡ change machine.old.state pid (with_bytes address bytes.now) }
    ensures no_fewer { machine.old.visits ≤ machine.new.visits }
{
    machine.own(pid).cpu.store(address, bytes);
}

/// Takes at most `most` bytes, up to 16, of the first finished line of a session's terminal. The rest of the line
/// stays. Returns `None`, and changes nothing, if no line is finished.
fn take_bytes<K: ProcessTable>(machine: &mut Machine<K>, session: Pid, most: u8) -> Option<Bytes>
    requires session { session ≢ 0 }
    requires terminal { IsSome (console_of session machine.old.state.consoles) }
    requires few { most ≤ 16 }
    ensures bytes { (c : Console) → console_of session machine.old.state.consoles ≡ Some c → result ≡ first_bytes most c.lines }
    ensures state { machine.new.state ≡ change_console machine.old.state session (line_taken most) }
    ensures no_fewer { machine.old.visits ≤ machine.new.visits }
{
    let mut buffer = [0; Span::MOST as usize];
    let part = &mut buffer[..usize::from(most)];
    let count = machine.take_line(session, part)?;
    Some(Bytes::new(&part[..count]))
}

/// Reads into the words of a span of an existing caller, whose session has a terminal. If no line is finished, the
/// caller has to wait.
fn read_line<K: ProcessTable>(
    machine: &mut Machine<K>,
    me: &Caller,
    span: Span,
    entries: &mut Entries,
) -> Attempt
    requires regular { IsRegular machine.old.state }
    requires there { IsSome (process machine.old.state me.now.pid) }
    requires caller { (r : Process) → process machine.old.state me.now.pid ≡ Some r → me.now ≡ caller_of r }
    requires terminal { IsSome (console_of me.now.session machine.old.state.consoles) }
    requires few { span.count ≤ 16 }
    requires within { span.address + span.count ≤ 256 }
    requires room { length entries.old.items ≤ 1 }
    ensures comes { (r : Process) (c : Console) → process machine.old.state me.now.pid ≡ Some r → console_of r.session machine.old.state.consoles ≡ Some c → Comes machine.old.state (read_from machine.old.state r span c.lines) result entries.old.items entries.new.items machine.new.state }
    ensures no_fewer { machine.old.visits ≤ machine.new.visits }
{
    let Some(bytes) = take_bytes(machine, me.session, span.count) else {
        return Attempt::Block(Blocked::Read);
    };
    store(machine, me.pid, span.address, bytes.as_slice());
    finish_moved(machine, me.pid, Call::Read, bytes, entries)
}

/// Reads into the words of a span of an existing caller with this terminal. A count of 0 takes nothing.
fn read_span<K: ProcessTable>(
    machine: &mut Machine<K>,
    me: &Caller,
    terminal: &Terminal,
    span: Span,
    entries: &mut Entries,
) -> Attempt
    requires regular { IsRegular machine.old.state }
    requires there { IsSome (process machine.old.state me.now.pid) }
    requires caller { (r : Process) → process machine.old.state me.now.pid ≡ Some r → me.now ≡ caller_of r }
    requires terminal { IsSome (console_of me.now.session machine.old.state.consoles) }
    requires few { span.count ≤ 16 }
    requires within { span.address + span.count ≤ 256 }
    requires room { length entries.old.items ≤ 1 }
    ensures comes { (r : Process) (c : Console) → process machine.old.state me.now.pid ≡ Some r → console_of r.session machine.old.state.consoles ≡ Some c → terminal.now ≡ terminal_of c → Comes machine.old.state (read_in machine.old.state r c (Ok span)) result entries.old.items entries.new.items machine.new.state }
    ensures no_fewer { machine.old.visits ≤ machine.new.visits }
{
    if terminal.hung_up {
        return finish_with(machine, me.pid, Call::Read, 0, entries);
    }
    match read_access(machine, me, terminal) {
        Access::Allowed if span.count == 0 => finish_with(machine, me.pid, Call::Read, 0, entries),
        Access::Allowed => read_line(machine, me, span, entries),
        Access::Refused => refuse(machine, me.pid, Call::Read, Errno::EIO, entries),
        Access::Signalled => signal_own_group(machine, me, Sig::TTIN),
    }
}

/// Takes at most r2 bytes of the first finished line of the caller's terminal into the words from address r1 on, and
/// returns their number. The rest of the line stays. If no line is finished, the caller has to wait. Returns 0 at the
/// end of file, and from a terminal that is hung up, even in the background (XBD 11.1.10).
///
/// Fails with ENOTTY if the caller's session has no terminal; with EINVAL if the count is not 0 to 16; with EFAULT if a
/// word is outside the memory of the process. In the background, fails with EIO, or generates SIGTTIN for the caller's
/// process group and restarts (XBD 11.1.4, 11.1.6, XSH read).
#[tactic(auto, unfolding(posix::specs::Terminals::read))]
pub fn read<K: ProcessTable>(machine: &mut Machine<K>, pid: Pid, entries: &mut Entries) -> Attempt
    requires there { IsSome (process machine.old.state pid) }
    requires room { length entries.old.items ≤ 1 }
    ensures comes { (me : Process) → process machine.old.state pid ≡ Some me → Comes machine.old.state (reading machine.old.state me) result entries.old.items entries.new.items machine.new.state }
    ensures no_fewer { machine.old.visits ≤ machine.new.visits }
{
    let me = machine.caller(pid);
    let Some(terminal) = machine.terminal(me.session) else {
        return refuse(machine, pid, Call::Read, Errno::ENOTTY, entries);
    };
    match me.span() {
        Ok(span) => read_span(machine, &me, &terminal, span, entries),
        Err(errno) => refuse(machine, pid, Call::Read, errno, entries),
    }
}

/// Returns true if a read of an existing process, with this snapshot, would have to wait: its process group is the
/// foreground one of its controlling terminal, which isn't hung up; it asks for bytes; and no line is finished (XBD
/// 11.1.4, 11.1.6, 11.1.10).
#[tactic(auto, unfolding(posix::specs::Terminals::waits_to_read))]
pub fn has_to_read<K: ProcessTable>(machine: &mut Machine<K>, pid: Pid, snapshot: Snapshot) -> bool
    requires there { IsSome (process machine.old.state pid) }
    requires snapshot { Some snapshot ≡ option_map snapshot_of (process machine.old.state pid) }
    ensures value { (me : Process) → process machine.old.state pid ≡ Some me → result ≡ waits_to_read machine.old.state.consoles me }
    ensures same { AreSame machine.old machine.new }
    ensures visits { machine.new.visits ≤ machine.old.visits + 1 }
    ensures no_fewer { machine.old.visits ≤ machine.new.visits }
{
    let Some(terminal) = machine.terminal(snapshot.session) else {
        return false;
    };
    match machine.caller(pid).span() {
        Ok(span) => {
            snapshot.group == terminal.foreground
                && span.count != 0
                && !terminal.hung_up
                && !terminal.has_line
        }
        Err(_) => false,
    }
}

// ---- write

/// Writes the words of a span of an existing caller with this terminal.
fn write_span<K: ProcessTable>(
    machine: &mut Machine<K>,
    me: &Caller,
    terminal: &Terminal,
    span: Span,
    entries: &mut Entries,
) -> Attempt
    requires there { IsSome (process machine.old.state me.now.pid) }
    requires caller { (r : Process) → process machine.old.state me.now.pid ≡ Some r → me.now ≡ caller_of r }
    requires few { span.count ≤ 16 }
    requires within { span.address + span.count ≤ 256 }
    requires room { length entries.old.items ≤ 1 }
    ensures comes { (r : Process) (c : Console) → process machine.old.state me.now.pid ≡ Some r → terminal.now ≡ terminal_of c → Comes machine.old.state (write_in machine.old.state r c (Ok span)) result entries.old.items entries.new.items machine.new.state }
    ensures no_fewer { machine.old.visits ≤ machine.new.visits }
{
    if terminal.hung_up {
        return refuse(machine, me.pid, Call::Write, Errno::EIO, entries);
    }
    match write_access(machine, me, terminal) {
        Access::Allowed => {
            let bytes = machine.look(me.pid).cpu.bytes(span);
            finish_moved(machine, me.pid, Call::Write, bytes, entries)
        }
        Access::Refused => refuse(machine, me.pid, Call::Write, Errno::EIO, entries),
        Access::Signalled => signal_own_group(machine, me, Sig::TTOU),
    }
}

/// Writes the r2 words from address r1 on to the caller's terminal, each as its low 8 bits, and returns their number.
///
/// Fails with ENOTTY if the caller's session has no terminal; with EINVAL if the count is not 0 to 16; with EFAULT if a
/// word is outside the memory of the process; with EIO if the terminal is hung up (XBD 11.1.10). In the background, if
/// TOSTOP is set, fails with EIO, or generates SIGTTOU for the caller's process group and restarts, unless the caller
/// blocks or ignores SIGTTOU (XBD 11.1.4, XSH write).
#[tactic(auto, unfolding(posix::specs::Terminals::write))]
pub fn write<K: ProcessTable>(machine: &mut Machine<K>, pid: Pid, entries: &mut Entries) -> Attempt
    requires there { IsSome (process machine.old.state pid) }
    requires room { length entries.old.items ≤ 1 }
    ensures comes { (me : Process) → process machine.old.state pid ≡ Some me → Comes machine.old.state (writing machine.old.state me) result entries.old.items entries.new.items machine.new.state }
    ensures no_fewer { machine.old.visits ≤ machine.new.visits }
{
    let me = machine.caller(pid);
    let Some(terminal) = machine.terminal(me.session) else {
        return refuse(machine, pid, Call::Write, Errno::ENOTTY, entries);
    };
    match me.span() {
        Ok(span) => write_span(machine, &me, &terminal, span, entries),
        Err(errno) => refuse(machine, pid, Call::Write, errno, entries),
    }
}
