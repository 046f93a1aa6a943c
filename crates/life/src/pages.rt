//! The memory for IDs that are no longer in use.

ghost use Rattle.std.specs.Prelude.{◌≡◌, ◌/◌, ℕ, true};
ghost use Rattle.posix.specs.Common.{is_in};
ghost use Rattle.pidset.specs.Lists.{IsPageUnused, without_page_of};
ghost use Rattle.pidset.specs.Rows.{IsOnAnotherPage, sizes_without};
ghost use Rattle.pidalloc.specs.Rows.{is_free_in};
ghost use Rattle.jobs.specs.IndexedTables.{AreOnOtherPages};
ghost use Rattle.life.specs.Machines.{AreSameButRoom};

use crate::machine::Machine;
use jobs::IndexedTable;
use pidalloc::{Order, PidTable};
use pidset::Lists;
use posix::Pid;
use proctable::ProcessTable;

/// Frees the room for an ID in the parts of a machine, and for all other IDs on its page of 1,024. A function of its
/// own, because few births and terminations get this far.
#[inline(never)]
fn give_up_page<K: ProcessTable>(
    pids: &mut PidTable,
    order: &mut Order,
    table: &mut IndexedTable<K>,
    readers: &mut Lists,
    pid: Pid,
)
    requires pids { (q : ℕ) → q / 1024 ≡ pid / 1024 → is_free_in pids.old.rows q ≡ true }
    requires order { (p : ℕ) → is_in p order.old.pids ≡ true → IsOnAnotherPage p pid }
    requires table { AreOnOtherPages pid table.old.processes }
    requires readers { IsPageUnused pid readers.old.pairs }
    ensures pids { pids.new ≡ record (pids.old) { sizes = sizes_without pids.old.sizes pid } }
    ensures order { order.new ≡ record (order.old) { sizes = sizes_without order.old.sizes pid } }
    ensures table { table.new ≡ record (table.old) { sizes = sizes_without table.old.sizes pid } }
    ensures readers { readers.new ≡ without_page_of pid readers.old }
{
    pids.give_up_page(pid);
    order.give_up_page(pid);
    table.give_up_page(pid);
    readers.give_up_page(pid);
}

impl<K: ProcessTable> Machine<K> {
    /// Frees the memory for an ID, and for all other IDs on its page of 1,024, if none of them is in use and the last
    /// ID assigned isn't among them. Reads no slot.
    #[inline(always)]
    pub(crate) fn give_up_unborne_page(&mut self, pid: Pid)
        ensures same { AreSameButRoom self.old self.new }
        ensures visits { self.new.visits ≡ self.old.visits }
    {
        if self.pids.can_give_up_page(pid) {
            give_up_page(
                &mut self.pids,
                &mut self.order,
                &mut self.table,
                &mut self.readers,
                pid,
            );
        }
    }

    /// Frees that memory for each of the IDs that a process had.
    #[inline(always)]
    pub(crate) fn give_up_unborne_pages(&mut self, pid: Pid, group: Pid, session: Pid)
        ensures same { AreSameButRoom self.old self.new }
        ensures visits { self.new.visits ≡ self.old.visits }
    {
        self.give_up_unborne_page(pid);
        self.give_up_unborne_page(group);
        self.give_up_unborne_page(session);
    }
}
