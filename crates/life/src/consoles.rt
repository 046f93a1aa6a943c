//! Consoles: which session's terminal each is, which processes are blocked in a read from it, and what a key, a hangup
//! and a foreground process group without members do (XBD 11.1).

ghost use Rattle.std.specs.Prelude.{◌≡◌, ◌≢◌, ◌==◌, ◌+◌, ◌<◌, ◌≤◌, ◌||◌, ℕ, List, IfOk, IfSome, Some, None, [], count_by, length, false, true, if◌then◌else◌, option_map, map, replicate, slice_get, slice_set};
ghost use Rattle.std.specs.Option.{option_copied};
ghost use Rattle.posix.specs.Common.{Process, process, is_in, without, Console as ConsoleValue, unused_console, console_of, changed_console, keyed, key_signal, signal_typed, session_told, disconnected, acquired, released, with_foreground, with_tostop, line_taken, is_group_of, hang_up as hanging_up, wakes, refreshed, clear_foregrounds as clearing_foregrounds, NoWakeIsLost, key as keying, hangup as hanging, AreConsoles, AreGrouped, IsRegular, members_in, pids};
ghost use Rattle.pidset.specs.Numbers.{with_number};
ghost use Rattle.pidset.specs.Indexes.{IsMoved, IsNextPair, is_pair_in};
ghost use Rattle.life.specs.Machines.{AreTerminals, Costs, Finds, IsThere, IfThere, with_consoles, IfConsole, AreWatched};
ghost use Rattle.life.specs.Rechecks.{NeedNoChild, WaitForNoChild};
ghost use Rattle.proctable.specs.Records.{snapshot_of};
ghost use Rattle.life.specs.Foregrounds.{also_in as also_in_by, is_unchecked as is_unchecked_by, AreFreshBut};
ghost use Rattle.life.specs.Consoles.{terminal_of, hangs_up as hangs_up_with, reads as reads_from, reads_in as reads_in_session, IsTerminalIndex, AreReaders, CanChange, HasChanged, foreground_members, slots_of_key, slots_of_hangup};
ghost use Rattle.tty.specs.Lines.{Takes};

use crate::machine::Machine;
use jobs::IndexedTable;
use pidset::Index;
use posix::{Blocked, Life, Pid, Sig};
use proctable::{ProcessTable, Snapshot};
use std::alloc::{AllocError, Global};
use tty::{Console, ends_line};

/// The controlling terminal of a session, as its processes see it (XBD 11.1.3).
#[derive(Clone, Copy)]
pub struct Terminal {
    /// Its foreground process group, or number 0 if it has none.
    pub foreground: Pid,
    /// True if TOSTOP is set.
    pub tostop: bool,
    /// True if a finished line is there to be read.
    pub has_line: bool,
    /// True if it is hung up (XBD 11.1.10).
    pub hung_up: bool,
}

/// The consoles whose foreground process group may have lost its members since such groups were last cleared.
#[derive(Clone, Copy)]
pub enum Unchecked {
    /// No console.
    Nothing,
    /// The terminal of this session; if the number is 0, which is no session, any console.
    In(Pid),
    /// Any console.
    All,
}

/// Returns what is unchecked once the foreground process group of a session's terminal was set, or may have lost a
/// member.
pub(crate) fn also_in(unchecked: &Unchecked, session: Pid) -> Unchecked
    ensures { result ≡ also_in_by session unchecked.now }
{
    match unchecked {
        Unchecked::Nothing => Unchecked::In(session),
        Unchecked::In(other) => {
            if *other == session {
                Unchecked::In(session)
            } else {
                Unchecked::All
            }
        }
        Unchecked::All => Unchecked::All,
    }
}

// ---- at boot

/// Returns `count` unused consoles. Fails if the host has no memory for them.
pub(crate) fn unused(alloc: Global, count: u8) -> Result<Vec<Console>, AllocError>
    ensures { IfOk result (λ cs. cs.items ≡ replicate count unused_console) }
{
    let mut consoles = Vec::with_capacity(alloc, usize::from(count))?;
    for _ in 0..count {
        consoles.push(Console::new(alloc)?)?;
    }
    Ok(consoles)
}

/// Returns the number of the console with this index. Numbers start at 1.
fn number_of(console_index: usize) -> Pid
    requires { console_index < 64 }
    ensures { result ≡ console_index + 1 }
{
    match Pid::new(console_index as u32 + 1) {
        Some(number) => number,
        None => unreachable!(),
    }
}

/// Returns an index of `count` consoles that are no session's terminal. Fails if the host has no memory for it.
pub(crate) fn nobodys(alloc: Global, count: u8) -> Result<Index, AllocError>
    requires { count ≤ 64 }
    ensures { IfOk result (λ t. AreTerminals (replicate count unused_console) t.pairs) }
{
    let mut terminals = Index::new(alloc);
    terminals.reserve(usize::from(count))?;
    for console_index in 0..usize::from(count) {
        terminals.insert(0, number_of(console_index));
    }
    Ok(terminals)
}

/// Returns the session from whose terminal a process with this snapshot is blocked reading, if it is not in the run
/// queue.
#[inline]
pub fn reads_in(snapshot: &Snapshot) -> Option<Pid>
    ensures { (r : Process) → snapshot.now ≡ snapshot_of r → result ≡ reads_in_session (Some r) }
{
    match (snapshot.life, snapshot.blocked) {
        (Life::Running, Some(Blocked::Read)) => Some(snapshot.session),
        _ => None,
    }
}

/// Returns true if a process with this snapshot hangs up its terminal when it terminates: it leads its session, and
/// isn't process 1.
fn hangs_up(snapshot: &Snapshot) -> bool
    ensures { result ≡ hangs_up_with snapshot.now }
{
    snapshot.pid != Pid::INIT && snapshot.session == snapshot.pid
}

/// Clears the foreground process group of a console if the group has no member in the console's session.
fn refresh<K: ProcessTable>(console: &mut Console, table: &mut IndexedTable<K>)
    requires { AreGrouped table.old.processes }
    ensures console { console.new ≡ refreshed table.old.processes console.old }
    ensures processes { table.new.processes ≡ table.old.processes }
    ensures visits { table.new.visits ≤ table.old.visits + 1 }
    ensures no_fewer { table.old.visits ≤ table.new.visits }
{
    let foreground = console.foreground();
    if foreground == Pid::NONE {
        return;
    }
    let group = u64::from(foreground.number());
    if table.group_of(console.session(), group).is_none() {
        console.set_foreground(Pid::NONE);
    }
}

/// Refreshes each console.
fn refresh_all<K: ProcessTable>(consoles: &mut Vec<Console>, table: &mut IndexedTable<K>)
    requires { AreGrouped table.old.processes }
    ensures consoles { consoles.new.items ≡ map (refreshed table.old.processes) consoles.old.items }
    ensures processes { table.new.processes ≡ table.old.processes }
    ensures visits { table.new.visits ≤ table.old.visits + length consoles.old.items }
    ensures no_fewer { table.old.visits ≤ table.new.visits }
{
    for console_index in 0..consoles.len() {
        refresh(&mut consoles[console_index], table);
    }
}

/// Returns the index of the console that is a session's terminal. Looks at no console.
fn index_in(terminals: &Index, session: Pid) -> Option<usize>
    ensures { (cs : List ConsoleValue) → AreTerminals cs terminals.now.pairs → IsTerminalIndex session cs result }
{
    match terminals.next(u64::from(session.number()), Pid::NONE) {
        Some(number) => Some(number.number() as usize - 1),
        None => None,
    }
}

/// Refreshes the unchecked consoles. If only one session's terminal is unchecked, looks only at that console.
fn refresh_unchecked<K: ProcessTable>(
    consoles: &mut Vec<Console>,
    terminals: &Index,
    unchecked: &Unchecked,
    table: &mut IndexedTable<K>,
)
    requires grouped { AreGrouped table.old.processes }
    requires apart { AreConsoles (length consoles.old.items) consoles.old.items }
    requires terminals { AreTerminals consoles.old.items terminals.now.pairs }
    requires fresh { AreFreshBut unchecked.now table.old.processes consoles.old.items }
    ensures consoles { consoles.new.items ≡ map (refreshed table.old.processes) consoles.old.items }
    ensures processes { table.new.processes ≡ table.old.processes }
    ensures visits { table.new.visits ≤ table.old.visits + count_by (is_unchecked_by unchecked.now) consoles.old.items }
    ensures no_fewer { table.old.visits ≤ table.new.visits }
{
    match unchecked {
        Unchecked::Nothing => {}
        Unchecked::In(session) if *session != Pid::NONE => {
            if let Some(console_index) = index_in(terminals, *session) {
                refresh(&mut consoles[console_index], table);
            }
        }
        _ => refresh_all(consoles, table),
    }
}

impl<K: ProcessTable> Machine<K> {
    // ---- queries

    /// Returns the index of the console that is a session's terminal. Looks at no console.
    fn terminal_index(&self, session: Pid) -> Option<usize>
        ensures { IsTerminalIndex session self.now.state.consoles result }
    {
        index_in(&self.terminals, session)
    }

    /// Returns the controlling terminal of a session, or `None` if it has none.
    pub fn terminal(&self, session: Pid) -> Option<Terminal>
        ensures value { result ≡ option_map terminal_of (console_of session self.now.state.consoles) }
    {
        let console_index = self.terminal_index(session)?;
        let console = &self.consoles[console_index];
        Some(Terminal {
            foreground: console.foreground(),
            tostop: console.tostop(),
            has_line: console.has_line(),
            hung_up: console.is_hung_up(),
        })
    }

    /// Returns the console with this index, or `None` if there is none.
    pub fn console(&self, console_index: usize) -> Option<&Console>
        ensures value { option_copied result ≡ slice_get self.now.state.consoles console_index }
    {
        self.consoles.get(console_index)
    }

    /// Returns the session whose controlling terminal the console with this index is, or number 0 if it is no
    /// session's. Returns `None` if there is no such console.
    pub fn session_at(&self, console_index: usize) -> Option<Pid>
        ensures value { result ≡ option_map (λ (c : ConsoleValue). c.session) (slice_get self.now.state.consoles console_index) }
    {
        Some(self.consoles.get(console_index)?.session())
    }

    /// Returns the largest process ID of the world.
    pub fn pidmax(&self) -> u32
        ensures { result ≡ self.now.state.world.pidmax }
    {
        self.world.pidmax()
    }

    /// Returns the process group with this ID if a process of the session is a member of it, zombies included.
    pub fn group_of(&mut self, session: Pid, group: u64) -> Option<Pid>
        ensures { Finds 1 self.old self.new (result ≡ (if is_group_of session group self.old.state.processes then Some group else None)) }
    {
        self.table.group_of(session, group)
    }

    // ---- blocked readers

    /// Takes an existing process that need not enter the run queue off the recheck list. `session` is the session from
    /// whose terminal it is blocked reading, if it is: from now on it is listed there, and nowhere else.
    pub fn finish_recheck(&mut self, pid: Pid, session: Option<Pid>)
        requires there { IsThere pid self.old }
        requires waits { IfThere pid self.old (λ r. wakes self.old.state r ≡ false) }
        requires session { session ≡ reads_from self.old.state pid }
        ensures rest { self.new ≡ record (self.old) { to_recheck = without pid self.old.to_recheck; readers = self.new.readers } }
        ensures regular { IsRegular self.old.state }
    {
        self.readers.put(pid, session);
        self.to_recheck.remove(pid);
    }

    /// Puts a listed reader of a session's terminal on the recheck list, and removes it from the readers.
    fn recheck_reader(&mut self, session: Pid, pid: Pid)
        requires { is_pair_in session pid self.old.readers.pairs ≡ true }
        ensures rest { self.new ≡ record (self.old) { to_recheck = with_number pid self.old.to_recheck; readers = self.new.readers } }
        ensures forgotten { IsMoved pid None self.old.readers.pairs self.new.readers.pairs }
    {
        self.to_recheck.insert(pid);
        self.readers.put(pid, None);
    }

    /// Puts each process that is blocked reading from a session's terminal on the recheck list, and removes it from the
    /// readers. Without the list of readers, each line would cost a walk over all processes, with a slot for each.
    fn recheck_readers(&mut self, session: Pid)
        ensures rest { self.new ≡ record (self.old) { to_recheck = self.new.to_recheck; readers = self.new.readers } }
        ensures to_recheck { AreReaders self.new.state session self.new.to_recheck }
        ensures those { (p : ℕ) → is_in p self.new.to_recheck ≡ true → (is_in p self.old.to_recheck || is_pair_in session p self.old.readers.pairs) ≡ true }
        ensures watched { AreWatched self.old }
        ensures regular { IsRegular self.old.state }
    {
        let mut next = self.next_reader(session, Pid::NONE);
        while let Some(pid) = next {
            self.recheck_reader(session, pid);
            next = self.next_reader(session, pid);
        }
    }

    /// Returns the process with the lowest ID above `after` that may be blocked reading from a session's terminal.
    fn next_reader(&self, session: Pid, after: Pid) -> Option<Pid>
        ensures is { IsNextPair session after self.now.readers.pairs result }
        ensures watched { AreWatched self.now }
        ensures regular { IsRegular self.now.state }
    {
        let _ = &self.table;
        self.readers.next(session, after)
    }

    /// Changes the console with this index by a closure, and returns the closure's result. Returns `None`, and changes
    /// nothing, if there is no such console. All changes of one console go through this function, except
    /// [`Machine::take_line`] and the one that clears a foreground process group without members.
    fn change_console<T, F: FnOnce(&mut Console) -> T>(
        &mut self,
        console_index: usize,
        change: F,
    ) -> Option<T>
        requires callable { F.IsAlwaysCallable change }
        requires can { CanChange F.FnOnce change self.old console_index }
        ensures rest { self.new ≡ record (self.old) { state = self.new.state } }
        ensures state { HasChanged F.FnOnce change self.old.state self.new.state console_index result }
        ensures regular { IsRegular self.old.state }
    {
        let console = self.consoles.get_mut(console_index)?;
        let before = u64::from(console.session().number());
        let result = change(console);
        let after = u64::from(console.session().number());
        self.terminals
            .replace(number_of(console_index), Some(before), Some(after));
        Some(result)
    }

    // ---- controlling terminals

    /// Makes the console with this index, which is no session's terminal, that of a session without one, with this
    /// foreground process group. Input that was typed before stays (XBD 11.1.3).
    pub fn acquire_console(&mut self, console_index: usize, session: Pid, group: Pid)
        requires free { IfSome (slice_get self.old.state.consoles console_index) (λ c. c.session ≡ 0) }
        requires none { console_of session self.old.state.consoles ≡ None }
        ensures state { IfConsole console_index self.old (λ c. self.new.state ≡ with_consoles self.old.state (slice_set self.old.state.consoles console_index (acquired session group c))) }
        ensures costs { Costs 0 self.old self.new }
        ensures to_recheck { self.new.to_recheck ≡ self.old.to_recheck }
    {
        // No process is blocked reading from it: until now, each read of its session failed.
        self.foregrounds_unchecked = also_in(&self.foregrounds_unchecked, session);
        self.change_console(console_index, |console| console.acquire(session, group));
    }

    /// Sets the foreground process group of a session's terminal (XSH tcsetpgrp).
    pub fn set_foreground(&mut self, session: Pid, group: Pid)
        requires { session ≢ 0 }
        ensures state { self.new.state ≡ with_consoles self.old.state (changed_console session (with_foreground group) self.old.state.consoles) }
        ensures costs { Costs 0 self.old self.new }
        ensures those { (p : ℕ) → is_in p self.new.to_recheck ≡ true → (is_in p self.old.to_recheck || is_pair_in session p self.old.readers.pairs) ≡ true }
    {
        let _ = &self.table;
        if let Some(console_index) = self.terminal_index(session) {
            self.recheck_readers(session);
            self.foregrounds_unchecked = also_in(&self.foregrounds_unchecked, session);
            self.change_console(console_index, |console| console.set_foreground(group));
        }
    }

    /// Sets or clears TOSTOP of a session's terminal (XBD 11.2.5).
    pub fn set_tostop(&mut self, session: Pid, tostop: bool)
        requires { session ≢ 0 }
        ensures rest { self.new ≡ record (self.old) { state = self.new.state } }
        ensures state { self.new.state ≡ with_consoles self.old.state (changed_console session (with_tostop tostop) self.old.state.consoles) }
    {
        if let Some(console_index) = self.terminal_index(session) {
            self.change_console(console_index, |console| console.set_tostop(tostop));
        }
    }

    /// Moves as many bytes of the first finished line of a session's terminal into `out` as fit, and returns their
    /// number. The rest of the line stays. Returns `None`, and changes nothing, if no line is finished or the session
    /// has no terminal (XBD 11.1.6).
    pub fn take_line(&mut self, session: Pid, out: &mut [u8]) -> Option<usize>
        requires { session ≢ 0 }
        ensures taken { (c : ConsoleValue) → console_of session self.old.state.consoles ≡ Some c → Takes c.lines out.old out.new result }
        ensures rest { self.new ≡ record (self.old) { state = self.new.state } }
        ensures state { self.new.state ≡ with_consoles self.old.state (changed_console session (line_taken (length out.old)) self.old.state.consoles) }
    {
        let console_index = self.terminal_index(session)?;
        self.consoles[console_index].take(out)
    }

    // ---- keys, hangups, foreground process groups

    /// Rechecks the readers of a session's terminal, as [`Machine::recheck_readers`] does, if the byte ends a line.
    fn recheck_at_line_end(&mut self, session: Pid, byte: u8)
        ensures rest { self.new ≡ record (self.old) { to_recheck = self.new.to_recheck; readers = self.new.readers } }
        ensures to_recheck { (byte == 10 || byte == 4) ≡ true → AreReaders self.new.state session self.new.to_recheck }
        ensures those { (p : ℕ) → is_in p self.new.to_recheck ≡ true → (is_in p self.old.to_recheck || is_pair_in session p self.old.readers.pairs) ≡ true }
        ensures quiet { (byte == 10 || byte == 4) ≡ false → self.new.to_recheck ≡ self.old.to_recheck }
        ensures watched { AreWatched self.old }
        ensures regular { IsRegular self.old.state }
    {
        let _ = &self.table;
        if ends_line(byte) {
            self.recheck_readers(session);
        }
    }

    /// Types a byte on the console with this index. Returns the signal that the byte generates, if any.
    fn type_byte(&mut self, console_index: usize, byte: u8) -> Option<Sig>
        ensures none { slice_get self.old.state.consoles console_index ≡ None → (result ≡ None) × (self.new.state ≡ self.old.state) }
        ensures state { IfConsole console_index self.old (λ c. self.new.state ≡ with_consoles self.old.state (slice_set self.old.state.consoles console_index (keyed byte c))) }
        ensures signal { IfConsole console_index self.old (λ c. result ≡ signal_typed byte c) }
        ensures foregrounds_unchecked { self.new.foregrounds_unchecked ≡ self.old.foregrounds_unchecked }
        ensures quiet { key_signal byte ≢ None → self.new.to_recheck ≡ self.old.to_recheck }
        ensures readers { self.old.to_recheck ≡ [] → NoWakeIsLost self.old.state → IfConsole console_index self.old (λ c. NeedNoChild self.new.state.processes self.new.to_recheck × (length self.new.to_recheck ≤ length (members_in c.foreground self.old.state.processes))) }
        ensures costs { Costs 0 self.old self.new }
    {
        let _ = &self.table;
        let session = self.session_at(console_index)?;
        self.recheck_at_line_end(session, byte);
        let _ = &self.table;
        self.change_console(console_index, |console| console.key(byte))
            .flatten()
    }

    /// Types a byte on a console; numbers start at 1. INTR, QUIT and SUSP discard all input, and generate SIGINT,
    /// SIGQUIT or SIGTSTP for each member of the foreground process group. Any other byte goes to the line that is
    /// edited. Does nothing if the console doesn't exist or is hung up (XBD 11.1.9).
    ///
    /// If the byte generates a signal, reads one slot for each member. If the recheck list was empty and no wake-up was
    /// lost, each process that is then on it is a member of the foreground process group, and has a chosen signal or is
    /// in a read.
    pub fn key(&mut self, console: u8, byte: u8)
        ensures state { self.new.state ≡ keying self.old.state console byte }
        ensures foregrounds_unchecked { self.new.foregrounds_unchecked ≡ self.old.foregrounds_unchecked }
        ensures brief { self.old.to_recheck ≡ [] → NoWakeIsLost self.old.state → NeedNoChild self.new.state.processes self.new.to_recheck × (length self.new.to_recheck ≤ length (foreground_members console self.old.state)) }
        ensures costs { Costs (slots_of_key console byte self.old) self.old self.new }
    {
        let _ = &self.table;
        let Some(console_index) = usize::from(console).checked_sub(1) else {
            return;
        };
        let Some(console) = self.consoles.get(console_index) else {
            return;
        };
        let foreground = console.foreground();
        if let Some(sig) = self.type_byte(console_index, byte) {
            self.signal_group(foreground, sig);
        }
    }

    /// Disconnects the console with this index. Returns the session to notify, if there is one. Puts each process that
    /// is blocked reading from the console on the recheck list.
    fn lose_line(&mut self, console_index: usize) -> Option<Pid>
        ensures none { slice_get self.old.state.consoles console_index ≡ None → (result ≡ None) × (self.new.state ≡ self.old.state) }
        ensures state { IfConsole console_index self.old (λ c. self.new.state ≡ with_consoles self.old.state (slice_set self.old.state.consoles console_index (disconnected c))) }
        ensures told { IfConsole console_index self.old (λ c. result ≡ session_told c) }
        ensures foregrounds_unchecked { self.new.foregrounds_unchecked ≡ self.old.foregrounds_unchecked }
        ensures readers { self.old.to_recheck ≡ [] → NoWakeIsLost self.old.state → IfConsole console_index self.old (λ c. WaitForNoChild self.new.state.processes self.new.to_recheck × (length self.new.to_recheck ≤ length (members_in c.foreground self.old.state.processes))) }
        ensures costs { Costs 0 self.old self.new }
    {
        let _ = &self.table;
        let session = self.session_at(console_index)?;
        self.recheck_readers(session);
        let _ = &self.table;
        self.change_console(console_index, |console| console.hang_up())
            .flatten()
    }

    /// Hangs up a console; numbers start at 1. Discards all input, and generates SIGHUP for the leader of the session
    /// whose terminal it is. A process that is blocked reading from it finds end of file. Does nothing if the console
    /// doesn't exist or is already hung up (XBD 11.1.10).
    ///
    /// Reads at most two slots. If the recheck list was empty and no wake-up was lost, each process that is then on it
    /// is the leader, which got a signal, or a member of the foreground process group, which is in a read.
    pub fn hangup(&mut self, console: u8)
        ensures state { self.new.state ≡ hanging self.old.state console }
        ensures foregrounds_unchecked { self.new.foregrounds_unchecked ≡ self.old.foregrounds_unchecked }
        ensures brief { self.old.to_recheck ≡ [] → NoWakeIsLost self.old.state → NeedNoChild self.new.state.processes self.new.to_recheck × (length self.new.to_recheck ≤ 1 + length (foreground_members console self.old.state)) }
        ensures costs { Costs 2 self.old self.new }
    {
        let _ = &self.table;
        let Some(console_index) = usize::from(console).checked_sub(1) else {
            return;
        };
        if self.session_at(console_index).is_none() {
            return;
        }
        if let Some(leader) = self.lose_line(console_index) {
            self.signal_process(leader, Sig::HUP);
        }
    }

    /// Hangs up the terminal of a session that an existing process, other than process 1, leads: generates SIGHUP for
    /// each member of the foreground process group, and makes the console no session's terminal (XSH _exit). Does
    /// nothing if the process leads no session with a terminal. Reads no slot if no session with the process's ID has a
    /// terminal. If a terminal is hung up, reads one slot for the process, and one for each member.
    ///
    /// Releases the console before it signals the foreground process group. The definition does both at once. The
    /// result is the same, because no signal depends on a console. In this order, what is known of blocked readers
    /// still holds when they are rechecked. Callers call this before [`Machine::end`], so that the contract of `end`
    /// holds for any new parent.
    pub fn hang_up(&mut self, pid: Pid)
        requires { IsThere pid self.old }
        ensures state { IfThere pid self.old (λ me. self.new.state ≡ hanging_up self.old.state me) }
        ensures costs { IfThere pid self.old (λ me. Costs (1 + slots_of_hangup me self.old) self.old self.new) }
        ensures those { (me : Process) (p : ℕ) (c : ConsoleValue) → process self.old.state pid ≡ Some me → console_of me.session self.old.state.consoles ≡ Some c → is_in p self.new.to_recheck ≡ true → ((is_in p self.old.to_recheck || is_pair_in me.session p self.old.readers.pairs) || is_in p (pids (members_in c.foreground self.old.state.processes))) ≡ true }
    {
        let _ = &self.table;
        let Some(console_index) = self.terminal_index(pid) else {
            return;
        };
        let Some(snapshot) = self.snapshot(pid) else {
            return;
        };
        if !hangs_up(&snapshot) {
            return;
        }
        let foreground = self.consoles[console_index].foreground();
        self.release(pid, console_index);
        self.signal_group(foreground, Sig::HUP);
    }

    /// Makes the console with this index, a session's terminal, no session's. Input that was typed before stays.
    fn release(&mut self, session: Pid, console_index: usize)
        requires { IfConsole console_index self.old (λ c. c.session ≡ session) }
        ensures state { IfConsole console_index self.old (λ c. self.new.state ≡ with_consoles self.old.state (slice_set self.old.state.consoles console_index (released c))) }
        ensures costs { Costs 0 self.old self.new }
        ensures those { (p : ℕ) → is_in p self.new.to_recheck ≡ true → (is_in p self.old.to_recheck || is_pair_in session p self.old.readers.pairs) ≡ true }
    {
        self.recheck_readers(session);
        self.change_console(console_index, |console| console.release());
    }

    /// Clears the foreground process group of each console if the group has no member left in the console's session.
    /// Reads one slot for each console whose foreground process group may have lost its members since the last time.
    /// Looks at no other console.
    pub fn clear_foregrounds(&mut self)
        ensures state { self.new.state ≡ clearing_foregrounds self.old.state }
        ensures to_recheck { self.new.to_recheck ≡ self.old.to_recheck }
        ensures foregrounds_unchecked { self.new.foregrounds_unchecked ≡ Unchecked.Nothing }
        ensures visits { self.new.visits ≤ self.old.visits + count_by (is_unchecked_by self.old.foregrounds_unchecked) self.old.state.consoles }
        ensures no_fewer { self.old.visits ≤ self.new.visits }
    {
        refresh_unchecked(
            &mut self.consoles,
            &self.terminals,
            &self.foregrounds_unchecked,
            &mut self.table,
        );
        self.foregrounds_unchecked = Unchecked::Nothing;
    }
}
