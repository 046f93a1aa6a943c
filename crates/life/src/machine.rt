//! The machine: the whole state of a world.

ghost use Rattle.std.specs.Prelude.{◌≡◌, ◌≢◌, ◌+◌, ◌<◌, ◌≤◌, ◌^◌, ◌++◌, ◌∷◌, [], ⊤, IfOk, IfSome, OnOk, option_map, replicate, false, true, if◌then◌else◌};
ghost use Rattle.posix.specs.Common.{unused_console, first_process, boot as boot_of, process, change, current as current_of, lose_place as losing_place, go_last as going_last, has_place as has_place_in, is_in, IsRegular, IsPlaced, exec_one as executed, StaysUnlessRun, can_act, code_of, set_cpu, is_in_read};
ghost use Rattle.pidalloc.specs.Rows.{IsPids, born_in, unborne_table};
ghost use mathlib.Core.Option.{none};
ghost use Rattle.std.specs.Borrow.{sem, Lends, follows_so};
ghost use Rattle.proctable.specs.Records.{snapshot_of, own_of, own_row};
ghost use Rattle.life.specs.contracts.machine.Machine.{the_row as machine_row};
ghost use Rattle.life.specs.Loans.{lent, looked};
ghost use Rattle.life.specs.Machines.{AreTerminals, FindsAndCounts, Runs, IsThere, IfThere};
ghost use Rattle.life.specs.NotedBursts.{most_notes, exec_with_notes};
ghost use Rattle.pidset.specs.Numbers.{with_number};
ghost use Rattle.pidset.specs.Rows.{HasRoom};
ghost use Rattle.pidalloc.specs.Places.{next_behind};

use crate::consoles::{Unchecked, nobodys, unused};
use crate::noted_bursts::{Notes, run_with_notes};
use crate::rechecks::recheck_later;
use jobs::IndexedTable;
use pidalloc::{Order, PidTable};
use pidset::{Index, PidSet};
use posix::{Pid, Sig, Trap};
use proctable::{GrantedPools, OwnPart, ProcessTable, Record, Snapshot};
use std::alloc::{AllocError, Global};
use std::marker::Model;
use tty::Console;
use umach::World;

/// The state of a world over a table of processes.
#[derive(Drop)]
pub struct Machine<K: ProcessTable> {
    pub(crate) world: World,
    pub(crate) table: IndexedTable<K>,
    pub(crate) pids: PidTable,
    pub(crate) order: Order,
    /// The recheck list: the processes to be tested, after this event, for whether they are runnable. Each process that
    /// has to enter the run queue is on it.
    pub(crate) to_recheck: PidSet,
    /// While a process terminates: the process groups that it and its children kept from being orphaned.
    pub(crate) groups_at_risk: PidSet,
    pub(crate) consoles: Vec<Console>,
    /// The consoles, by number from 1, each under the session whose terminal it is, or under number 0 if it is no
    /// session's.
    pub(crate) terminals: Index,
    /// The processes blocked in a read, each in the list of its session. The lists are exact except for the processes
    /// to recheck.
    pub(crate) readers: pidset::Lists,
    /// The consoles whose foreground process group may have lost its members: a record was removed, a process changed
    /// its group or session, or the foreground process group was set.
    pub(crate) foregrounds_unchecked: Unchecked,
    /// Pools for the queues of real-time signals.
    pub(crate) granted_pools: GrantedPools,
    pub(crate) births: u64,
    pub(crate) ticks: u64,
    pub(crate) dropped: u64,
    pub(crate) halted: bool,
}

impl<K: ProcessTable> Model for Machine<K> {
    ghost use Rattle.life.specs.Machines.{MachineView, state_of, IsMachine};

    ghost Value = { MachineView };

    ghost view = { λ m. record { state = state_of m.world (m.table.processes) m.consoles.items m.pids m.order m.births m.ticks m.dropped m.halted; visits = m.table.visits; to_recheck = m.to_recheck.pids; groups_at_risk = m.groups_at_risk.pids; foregrounds_unchecked = m.foregrounds_unchecked; readers = m.readers } };

    ghost invariant = { λ m. IsMachine (state_of m.world (m.table.processes) m.consoles.items m.pids m.order m.births m.ticks m.dropped m.halted) m.pids m.order m.to_recheck m.groups_at_risk (record { readers = m.readers; foregrounds_unchecked = m.foregrounds_unchecked; terminals = m.terminals.pairs }) };
}

/// The lists that a machine keeps beside its table: the IDs in use, the run queue, the recheck list, and the process
/// groups that a termination may orphan.
#[derive(Drop)]
struct Lists {
    pids: PidTable,
    order: Order,
    to_recheck: PidSet,
    groups_at_risk: PidSet,
}

impl Lists {
    /// Returns the lists at boot, when process 1 is the only process. Fails if the host has no memory for them.
    #[tactic(auto, unfolding(posix::specs::States::is_in))]
    fn first(alloc: Global, pidmax: u32) -> Result<Lists, AllocError>
        requires { (2 ≤ pidmax) × (pidmax ≤ 4194304) }
        ensures pids { IfOk result (λ l. l.pids ≡ record (born_in (unborne_table pidmax) 1 1 1) { sizes = l.pids.sizes }) }
        ensures last { IfOk result (λ l. l.pids.last ≡ 1) }
        ensures pidmax { IfOk result (λ l. l.pids.pidmax ≡ pidmax) }
        ensures kept { IfOk result (λ l. IsPids l.pids) }
        ensures order { IfOk result (λ l. l.order.pids ≡ 1 ∷ []) }
        ensures places { IfOk result (λ l. HasRoom l.order.sizes 1) }
        ensures nobody { IfOk result (λ l. l.to_recheck.pids ≡ []) }
        ensures rechecks { IfOk result (λ l. l.to_recheck.room ≡ 2) }
        ensures no_group { IfOk result (λ l. l.groups_at_risk.pids ≡ []) }
        ensures groups { IfOk result (λ l. l.groups_at_risk.room ≡ 2) }
    {
        let mut pids = PidTable::new(alloc, pidmax);
        pids.reserve(Pid::INIT)?;
        pids.bear_all(Pid::INIT, Pid::INIT, Pid::INIT);
        let mut order = Order::new(alloc);
        order.reserve(Pid::INIT)?;
        order.place(Pid::INIT);
        Ok(Lists {
            pids,
            order,
            to_recheck: room_for(alloc, 2)?,
            groups_at_risk: room_for(alloc, 2)?,
        })
    }
}

/// The terminals of a machine, and the processes blocked reading from them.
#[derive(Drop)]
struct Terminals {
    consoles: Vec<Console>,
    terminals: Index,
    readers: pidset::Lists,
}

impl Terminals {
    /// Returns `count` consoles that no session has, from which no process is blocked reading. Fails if the host has no
    /// memory for them.
    fn unused(alloc: Global, count: u8) -> Result<Terminals, AllocError>
        requires { count ≤ 64 }
        ensures consoles { IfOk result (λ t. t.consoles.items ≡ replicate count unused_console) }
        ensures terminals { IfOk result (λ t. AreTerminals (replicate count unused_console) t.terminals.pairs) }
        ensures nobody { IfOk result (λ t. t.readers.pairs ≡ []) }
        ensures room { IfOk result (λ t. HasRoom t.readers.sizes 1) }
    {
        let consoles = unused(alloc, count)?;
        let terminals = nobodys(alloc, count)?;
        let mut readers = pidset::Lists::new(alloc);
        readers.reserve(Pid::INIT)?;
        Ok(Terminals {
            consoles,
            terminals,
            readers,
        })
    }
}

/// Returns an empty set with room for `capacity` numbers. Fails if the host has no memory for it.
fn room_for(alloc: Global, capacity: usize) -> Result<PidSet, AllocError>
    requires { capacity < 2 ^ 63 }
    ensures pids { IfOk result (λ s. s.pids ≡ []) }
    ensures room { IfOk result (λ s. s.room ≡ capacity) }
{
    let mut set = PidSet::new(alloc);
    set.reserve(capacity)?;
    Ok(set)
}

/// Inserts process 1 into an empty table. Fails if the host has no memory for it.
#[tactic(auto, using(jobs::proofs::NumberLemmas::nobody_there), unfolding(posix::specs::Tables::children_in))]
fn put_first<K: ProcessTable>(table: &mut IndexedTable<K>, alloc: Global) -> Result<(), AllocError>
    requires { table.old.processes ≡ [] }
    ensures processes { OnOk result (table.new.processes ≡ first_process ∷ []) }
    ensures visits { OnOk result (table.new.visits ≤ table.old.visits + 1) }
{
    table.reserve(Pid::INIT)?;
    table.insert(Pid::INIT, Pid::NONE, Record::first(alloc)?);
    Ok(())
}

/// Returns a table with only process 1. Fails if the host has no memory for it.
fn first_table<K: ProcessTable>(alloc: Global) -> Result<IndexedTable<K>, AllocError>
    ensures processes { IfOk result (λ t. t.processes ≡ first_process ∷ []) }
    ensures visits { IfOk result (λ t. t.visits ≤ 1) }
{
    let mut table = IndexedTable::empty(alloc);
    put_first(&mut table, alloc)?;
    Ok(table)
}

impl<K: ProcessTable> Machine<K> {
    /// Returns the machine at boot. Fails if the host has no memory for it.
    #[tactic(auto, using(jobs::proofs::NumberLemmas::nobody_there), unfolding(posix::specs::States::is_in, posix::specs::Tables::children_in))]
    pub fn boot(alloc: Global, world: &World) -> Result<Self, AllocError>
        ensures state { IfOk result (λ m. m.state ≡ boot_of world.now) }
        ensures visits { IfOk result (λ m. m.visits ≤ 1) }
        ensures to_recheck { IfOk result (λ m. m.to_recheck ≡ []) }
        ensures foregrounds_unchecked { IfOk result (λ m. m.foregrounds_unchecked ≡ Unchecked.Nothing) }
        ensures regular { IfOk result (λ m. IsRegular m.state) }
    {
        let world = world.try_clone(alloc)?;
        let pidmax = world.pidmax();
        let table = first_table(alloc)?;
        let terminals = Terminals::unused(alloc, world.consoles())?;
        let lists = Lists::first(alloc, pidmax)?;
        Ok(Machine {
            world,
            table,
            pids: lists.pids,
            order: lists.order,
            to_recheck: lists.to_recheck,
            groups_at_risk: lists.groups_at_risk,
            consoles: terminals.consoles,
            terminals: terminals.terminals,
            readers: terminals.readers,
            foregrounds_unchecked: Unchecked::Nothing,
            granted_pools: GrantedPools::new(alloc),
            births: 1,
            ticks: 0,
            dropped: 0,
            halted: false,
        })
    }

    // ---- queries

    /// Returns the number of slots of the table that have been read, up to the largest u128, or 0 if the table doesn't
    /// count them.
    pub fn visits(&self) -> u128
        ensures { result ≡ self.now.visits }
    {
        self.table.visits()
    }

    /// Returns the number of consoles: 0 to 64.
    pub fn consoles(&self) -> u8
        ensures { result ≡ self.now.state.world.consoles }
    {
        self.world.consoles()
    }

    /// Returns true if the machine has halted.
    pub fn is_halted(&self) -> bool
        ensures value { result ≡ self.now.state.halted }
        ensures regular { IsRegular self.now.state }
    {
        self.halted
    }

    /// Returns the number of processes that were created, process 1 included.
    pub fn births(&self) -> u64
        ensures { result ≡ self.now.state.births }
    {
        self.births
    }

    /// Returns the number of ticks that have passed.
    pub fn ticks(&self) -> u64
        ensures { result ≡ self.now.state.ticks }
    {
        self.ticks
    }

    /// Returns the number of zombies that were dropped without a wait.
    pub fn dropped(&self) -> u64
        ensures { result ≡ self.now.state.dropped }
    {
        self.dropped
    }

    /// Returns the current process, the first in the run queue.
    pub fn current(&self) -> Option<Pid>
        ensures { result ≡ current_of self.now.state }
    {
        self.order.current()
    }

    /// Returns the process after `pid` in the run queue, or `None` if `pid` is the last one or not in the run queue.
    pub fn behind(&self, pid: Pid) -> Option<Pid>
        ensures { result ≡ next_behind pid self.now.state.order }
    {
        self.order.behind(pid)
    }

    /// Returns true if a process is in the run queue.
    pub fn has_place(&self, pid: Pid) -> bool
        ensures { result ≡ has_place_in self.now.state pid }
    {
        self.order.has(pid)
    }

    /// Returns the small fields of a process, or `None` if it doesn't exist.
    #[inline(always)]
    pub fn snapshot(&mut self, pid: Pid) -> Option<Snapshot>
        ensures { FindsAndCounts K.one_more self.old self.new result (result ≡ option_map snapshot_of (process self.old.state pid)) }
    {
        self.table.get(pid)
    }

    /// Returns the parent of an existing process, or number 0 for process 1. Reads no slot.
    pub fn parent(&self, pid: Pid) -> Pid
        requires { IsThere pid self.now }
        ensures value { IfThere pid self.now (λ me. result ≡ me.parent) }
        ensures there { pid ≢ 1 → IsThere result self.now }
    {
        self.table.parent(pid)
    }

    // ---- one process

    /// Lends what an existing process may change of itself, and puts the process on the recheck list if it is not in
    /// the run queue. Nothing else changes.
    ///
    /// Lends only what the machine's invariant doesn't depend on. The blocked call is lent, too: no invariant reads it,
    /// and code that leaves a call changes it together with the processor or the signals.
    pub fn own(&mut self, pid: Pid) -> &mut OwnPart
        requires { IsThere pid self.old }
        ensures* lends { sem 𝓛 (Lends (machine_row K.row K.ProcessTable) own_row self.entry result (lent K.one_more self.old pid)) }
        ensures value { IfSome (process self.old.state pid) (λ me. result.now ≡ own_of me) }
        ensures regular { IsRegular self.old.state }
    {
        recheck_later(&mut self.to_recheck, &self.order, pid);
        self.table.own(pid)
    }

    /// Runs the instruction at the pc of an existing process that runs this program. A system call and a machine fault
    /// change nothing.
    pub fn exec_one(&mut self, pid: Pid, program: u8) -> Trap
        requires there { IsThere pid self.old }
        requires program { IfThere pid self.old (λ me. me.program ≡ program) }
        ensures trap { IfThere pid self.old (λ me. result ≡ (executed (code_of self.old.state me) me.cpu).trap) }
        ensures state { IfThere pid self.old (λ me. self.new.state ≡ change self.old.state pid (set_cpu (executed (code_of self.old.state me) me.cpu).cpu)) }
        ensures stays { StaysUnlessRun result self.old.state self.new.state }
        ensures runs { Runs pid self.old self.new }
    {
        match self.world.programs().get(usize::from(program)) {
            Some(program) => {
                recheck_later(&mut self.to_recheck, &self.order, pid);
                self.table.own(pid).cpu.exec_one(program)
            }
            None => Trap::Fault(Sig::SEGV),
        }
    }

    /// Runs instructions of an existing process that runs this program, while they are plain or give a note: the steps
    /// after number `before` up to number `last`. Stops after 32 notes, which are added to an empty list. Returns the
    /// number of the last step taken, and how the instruction after it came out: a system call or a machine fault,
    /// which changes nothing, or `Next` if that instruction wasn't looked at.
    #[inline]
    pub fn run_with_notes(
        &mut self,
        pid: Pid,
        program: u8,
        before: u64,
        last: u64,
        notes: &mut Notes,
    ) -> (u64, Trap)
        requires there { IsThere pid self.old }
        requires program { IfThere pid self.old (λ me. me.program ≡ program) }
        requires some { before < last }
        requires none { notes.old.items ≡ [] }
        ensures taken { IfThere pid self.old (λ me. (exec_with_notes (code_of self.old.state me) most_notes before last me.cpu).taken ≡ record { last = result.0; notes = notes.new.items; trap = result.1 }) }
        ensures state { IfThere pid self.old (λ me. self.new.state ≡ change self.old.state pid (set_cpu (exec_with_notes (code_of self.old.state me) most_notes before last me.cpu).cpu)) }
        ensures from { before ≤ result.0 }
        ensures within { result.0 ≤ last }
        ensures short { result.1 ≢ Trap.Next → result.0 < last }
        ensures regular { IsRegular self.new.state }
        ensures runs { Runs pid self.old self.new }
    {
        match self.world.programs().get(usize::from(program)) {
            Some(program) => {
                recheck_later(&mut self.to_recheck, &self.order, pid);
                run_with_notes(&mut self.table.own(pid).cpu, program, before, last, notes)
            }
            None => (before, Trap::Fault(Sig::SEGV)),
        }
    }

    /// Returns a view of what an existing process may change of itself. Changes nothing.
    pub fn look(&mut self, pid: Pid) -> &OwnPart
        requires { IsThere pid self.old }
        ensures* lends { sem 𝓛 (follows_so (machine_row K.row K.ProcessTable) (machine_row K.row K.ProcessTable) self.entry.ghost_name none (λ _ _. ⊤) (λ n. n ≡ looked K.one_more self.old)) }
        ensures value { IfSome (process self.old.state pid) (λ me. result.now ≡ own_of me) }
        ensures regular { IsRegular self.old.state }
    {
        &self.table.look(pid).own
    }

    // ---- the run queue

    /// Appends a live process that is on the recheck list, but not in the run queue, to the run queue.
    pub fn place(&mut self, pid: Pid)
        requires there { IsPlaced self.old.state.processes pid }
        requires none { has_place_in self.old.state pid ≡ false }
        requires to_recheck { is_in pid self.old.to_recheck ≡ true }
        ensures { self.new ≡ record (self.old) { state = record (self.old.state) { order = self.old.state.order ++ pid ∷ [] } } }
    {
        self.order.place(pid);
    }

    /// Removes a process from the run queue and puts it on the recheck list. Does nothing if it is not in the run
    /// queue.
    pub fn lose_place(&mut self, pid: Pid)
        ensures is { self.new ≡ record (self.old) { state = losing_place self.old.state pid; to_recheck = if has_place_in self.old.state pid then with_number pid self.old.to_recheck else self.old.to_recheck } }
        ensures regular { IsRegular self.old.state }
    {
        if self.order.has(pid) {
            self.to_recheck.insert(pid);
            self.order.drop_place(pid);
        }
    }

    /// Removes a process that isn't runnable, and isn't in a read, from the run queue, but doesn't put it on the
    /// recheck list. For a process that has just looked and must wait, so that settling doesn't look again.
    pub fn sleep(&mut self, pid: Pid)
        requires rests { IfThere pid self.old (λ r. can_act self.old.state r ≡ false) }
        requires unread { IfThere pid self.old (λ r. is_in_read r.blocked ≡ false) }
        ensures is { self.new ≡ record (self.old) { state = losing_place self.old.state pid } }
        ensures regular { IsRegular self.old.state }
    {
        self.order.drop_place(pid);
    }

    /// Moves a process in the run queue to its end.
    pub fn go_last(&mut self, pid: Pid)
        requires { has_place_in self.old.state pid ≡ true }
        ensures { self.new ≡ record (self.old) { state = going_last self.old.state pid } }
    {
        self.order.go_last(pid);
    }
}
