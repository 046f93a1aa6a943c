//! The children of processes, in rising order, and their reparenting.

ghost use Rattle.std.specs.Prelude.{◌≡◌, ◌≢◌, ◌+◌, ◌≤◌, List, length, None, IsSome};
ghost use Rattle.posix.specs.Common.{Process, lookup, above, adopted, children_in, first_pid};
ghost use Rattle.pidset.specs.Indexes.{AreTurned};
ghost use Rattle.jobs.specs.Indexes.{child_key};
ghost use Rattle.jobs.specs.IndexedTables.{AreKin, AreWithin, Spends};

use crate::indexes::{IndexedFields, anchor_key, of_snapshot};
use pidset::Lists;
use posix::Pid;
use proctable::ProcessTable;

/// Returns the child of an existing process with the lowest ID above `after`, zombies included.
#[tactic(auto, using(crate::proofs::ChildLemmas::next_kid))]
#[inline]
pub(crate) fn next_child(children: &Lists, parent: Pid, after: Pid) -> Option<Pid>
    ensures { (rs : List Process) → AreKin rs children.now.pairs → IsSome (lookup parent rs) → result ≡ first_pid (above after (children_in parent rs)) }
{
    children.next(parent, after)
}

/// Reparents the children of `from` to `to`, which has the fields `heir`, and updates the index of anchors. Reads each
/// child once. The caller updates `children`.
pub(crate) fn give_children<K: ProcessTable>(
    table: &mut K,
    children: &Lists,
    anchors: &mut Lists,
    from: Pid,
    to: Pid,
    heir: &IndexedFields,
)
    requires there { IsSome (lookup from (K.contents table.old)) }
    requires apart { from ≢ to }
    requires within { AreWithin anchors.old.sizes (K.contents table.old) }
    requires kin { AreKin (K.contents table.old) children.now.pairs }
    ensures turned { AreTurned from (child_key heir.now) (K.contents table.old) anchors.old.pairs anchors.new.pairs }
    ensures sizes { anchors.new.sizes ≡ anchors.old.sizes }
    ensures contents { K.contents table.new ≡ adopted from to (K.contents table.old) }
    ensures costs { Spends (length (children_in from (K.contents table.old))) K.room K.visits table.old table.new }
{
    let mut next = next_child(children, from, Pid::NONE);
    while let Some(child) = next {
        let it = of_snapshot(&table.set_parent(child, to));
        anchors.put(child, anchor_key(&it, &Some(*heir)));
        next = next_child(children, from, child);
    }
}
