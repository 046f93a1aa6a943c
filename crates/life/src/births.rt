//! Births (XSH fork).

ghost use Rattle.std.specs.Prelude.{◌≡◌, ◌+◌, ◌<◌, ◌≤◌, ◌^◌, Some, OnOk, OnErr};
ghost use Rattle.posix.specs.Common.{next_pid as next_pid_of, born, IsPlaced};
ghost use Rattle.pidset.specs.Numbers.{with_number};
ghost use Rattle.life.specs.Machines.{Costs, AreSameButRoom, IfThere};
ghost use Rattle.life.specs.Rechecks.{rechecks};

use crate::machine::Machine;
use crate::rechecks::recheck_later;
use pidset::PidSet;
use posix::Pid;
use proctable::ProcessTable;
use std::alloc::AllocError;

/// Makes room for `count` numbers in both sets. Their contents stay, even if the host has no memory. Usually there is
/// room already, and the second set isn't looked at.
fn make_room(
    to_recheck: &mut PidSet,
    groups_at_risk: &mut PidSet,
    count: usize,
) -> Result<(), AllocError>
    requires few { count < 2 ^ 32 }
    requires groups { to_recheck.old.room ≤ groups_at_risk.old.room }
    ensures ok { OnOk result (count ≤ to_recheck.new.room) }
    ensures grows { to_recheck.old.room ≤ to_recheck.new.room }
    ensures groups { to_recheck.new.room ≤ groups_at_risk.new.room }
    ensures to_recheck { to_recheck.new.pids ≡ to_recheck.old.pids }
    ensures groups_at_risk { groups_at_risk.new.pids ≡ groups_at_risk.old.pids }
{
    if count <= to_recheck.room() {
        return Ok(());
    }
    groups_at_risk.reserve(2 * count)?;
    to_recheck.reserve(2 * count)
}

impl<K: ProcessTable> Machine<K> {
    /// Returns the process ID that the next child gets, if one is free (XSH fork).
    pub fn next_pid(&mut self) -> Option<Pid>
        ensures value { result ≡ next_pid_of self.old.state }
        ensures same { self.new ≡ self.old }
    {
        self.pids.next()
    }

    /// Creates a child of a live process, as a copy of its parent, with the ID that [`Machine::next_pid`] returns (XSH
    /// fork). Fails if the host has no memory for it. Then nothing has changed, except that there may be more room: all
    /// memory is taken before the first change.
    #[tactic(auto, using(crate::proofs::RecheckLemmas::has_room, crate::proofs::RoomLemmas::same_but_room))]
    pub fn fork(&mut self, parent: Pid, child: Pid) -> Result<(), AllocError>
        requires parent { IsPlaced self.old.state.processes parent }
        requires child { next_pid_of self.old.state ≡ Some child }
        requires births { self.old.state.births + 1 < 2 ^ 64 }
        ensures ok { OnOk result (IfThere parent self.old (λ me. self.new.state ≡ born self.old.state me child)) }
        ensures err { OnErr result (AreSameButRoom self.old self.new) }
        ensures to_recheck { OnOk result (self.new.to_recheck ≡ with_number child (rechecks parent self.old)) }
        ensures costs { Costs 2 self.old self.new }
    {
        let before = self.pids.last();
        self.table.reserve(child)?;
        self.pids.reserve(child)?;
        self.order.reserve(child)?;
        self.readers.reserve(child)?;
        let count = self.table.len() + 2;
        make_room(&mut self.to_recheck, &mut self.groups_at_risk, count)?;
        let fields = self.table.newborn(parent, self.births + 1)?;
        self.pids.bear_all(child, fields.group, fields.session);
        self.table.insert(child, parent, fields);
        recheck_later(&mut self.to_recheck, &self.order, parent);
        self.to_recheck.insert(child);
        self.births += 1;
        self.give_up_unborne_page(before);
        Ok(())
    }
}
