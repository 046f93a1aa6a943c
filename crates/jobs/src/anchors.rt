//! Anchors, the processes that keep their process groups from being orphaned (XBD 3): updates of their index.

ghost use Rattle.std.specs.Prelude.{◌≡◌, ◌≢◌, ℕ, ◌+◌, ◌*◌, ◌<◌, ◌≤◌, ◌⊎◌, List, length, None, Some, IsSome, option_map, if◌then◌else◌};
ghost use Rattle.posix.specs.Common.{Process, lookup, children_in, parent_of};
ghost use Rattle.pidset.specs.Indexes.{AreTurned, IsAnchorIndex, IsMoved};
ghost use Rattle.jobs.specs.Indexes.{seen_of, child_key, keeps_group_and_session as keeps_group_and_session_in};
ghost use Rattle.jobs.specs.IndexedTables.{AreKin, AreWithin, Spends};

use crate::children::next_child;
use crate::indexes::{Change, IndexedFields, anchor_key, is_dead, of_record, of_snapshot};
use pidset::Lists;
use posix::Pid;
use proctable::ProcessTable;

/// Returns the indexed fields of a process, if it exists.
fn seen_in<K: ProcessTable>(table: &mut K, pid: Pid) -> Option<IndexedFields>
    ensures value { result ≡ option_map seen_of (lookup pid (K.contents table.old)) }
    ensures contents { K.contents table.new ≡ K.contents table.old }
    ensures costs { Spends 1 K.room K.visits table.old table.new }
{
    Some(of_snapshot(&table.get(pid)?))
}

/// Returns the indexed fields of an existing process.
#[tactic(auto, using(proctable::proofs::RecordLemmas::same_record))]
#[inline]
pub(crate) fn seen_there<K: ProcessTable>(table: &mut K, pid: Pid) -> IndexedFields
    requires { IsSome (lookup pid (K.contents table.old)) }
    ensures value { option_map seen_of (lookup pid (K.contents table.old)) ≡ Some result }
    ensures contents { K.contents table.new ≡ K.contents table.old }
    ensures costs { Spends 1 K.room K.visits table.old table.new }
{
    of_record(table.update(pid))
}

/// Returns true if a process stays in its process group and its session, and isn't revived.
fn keeps_group_and_session(before: &IndexedFields, after: &IndexedFields) -> bool
    ensures { result ≡ keeps_group_and_session_in before.now after.now }
{
    before.group == after.group
        && before.session == after.session
        && (is_dead(after) || !is_dead(before))
}

/// Updates the index of anchors for an existing process whose parent has these fields.
fn update_anchor<K: ProcessTable>(
    table: &mut K,
    anchors: &mut Lists,
    pid: Pid,
    parent: &IndexedFields,
)
    requires there { IsSome (lookup pid (K.contents table.old)) }
    requires none { lookup 0 (K.contents table.old) ≡ None }
    requires within { AreWithin anchors.old.sizes (K.contents table.old) }
    ensures moved { (r : Process) → lookup pid (K.contents table.old) ≡ Some r → IsMoved pid (child_key parent.now r) anchors.old.pairs anchors.new.pairs }
    ensures sizes { anchors.new.sizes ≡ anchors.old.sizes }
    ensures contents { K.contents table.new ≡ K.contents table.old }
    ensures costs { Spends 1 K.room K.visits table.old table.new }
{
    let it = seen_there(table, pid);
    anchors.put(pid, anchor_key(&it, &Some(*parent)));
}

/// Updates the index of anchors for the children of an existing process that has these fields now.
pub(crate) fn update_anchors_of_children<K: ProcessTable>(
    table: &mut K,
    children: &Lists,
    anchors: &mut Lists,
    pid: Pid,
    parent: &IndexedFields,
)
    requires there { IsSome (lookup pid (K.contents table.old)) }
    requires within { AreWithin anchors.old.sizes (K.contents table.old) }
    requires kin { AreKin (K.contents table.old) children.now.pairs }
    ensures turned { AreTurned pid (child_key parent.now) (K.contents table.old) anchors.old.pairs anchors.new.pairs }
    ensures sizes { anchors.new.sizes ≡ anchors.old.sizes }
    ensures contents { K.contents table.new ≡ K.contents table.old }
    ensures costs { Spends (1 + 2 * length (children_in pid (K.contents table.old))) K.room K.visits table.old table.new }
{
    let mut next = next_child(children, pid, Pid::NONE);
    while let Some(child) = next {
        update_anchor(table, anchors, child, parent);
        next = next_child(children, pid, child);
    }
}

/// Updates the index of anchors for a process that has changed, and for its children.
pub(crate) fn update_anchors<K: ProcessTable>(
    table: &mut K,
    children: &Lists,
    anchors: &mut Lists,
    pid: Pid,
    change: &Change,
)
    requires kin { AreKin (K.contents table.old) children.now.pairs }
    requires after { option_map seen_of (lookup pid (K.contents table.old)) ≡ Some change.now.after }
    requires parent { change.now.parent ≡ parent_of pid (K.contents table.old) }
    requires within { AreWithin anchors.old.sizes (K.contents table.old) }
    ensures index { (rs : List Process) → ((q : ℕ) → q ≢ pid → lookup q (K.contents table.old) ≡ lookup q rs) → option_map seen_of (lookup pid rs) ≡ Some change.now.before → parent_of pid rs ≡ change.now.parent → IsAnchorIndex rs anchors.old.pairs → IsAnchorIndex (K.contents table.old) anchors.new.pairs }
    ensures sizes { anchors.new.sizes ≡ anchors.old.sizes }
    ensures contents { K.contents table.new ≡ K.contents table.old }
    ensures costs { Spends (if keeps_group_and_session_in change.now.before change.now.after then 0 else 2 + 2 * length (children_in pid (K.contents table.old))) K.room K.visits table.old table.new }
{
    let Change {
        parent,
        before,
        after,
    } = change;
    if !keeps_group_and_session(before, after) {
        let parent = seen_in(table, *parent);
        anchors.put(pid, anchor_key(after, &parent));
        update_anchors_of_children(table, children, anchors, pid, after);
    } else if is_dead(after) {
        anchors.put(pid, None);
    }
}
