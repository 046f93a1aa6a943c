//! The children of each process, in doubly linked lists of records, so that a termination visits
//! only that process's children.

ghost use Rattle.std.specs.Prelude.{◌≡◌, ◌≢◌, ◌≤◌, true, nat_lt, is_some, OnOk, OnErr, None};
ghost use Rattle.audit.specs.Records.{record_in, Become};
ghost use Rattle.audit.specs.Children.{AreLinked, put_behind as is_put_behind, joined, IsGiven, AreAllGiven, AreGivenOn, IsBegun, first_of, parent_in};

use crate::records::{Link, Record, Records, State, behind_by, first_by, relink};
use posix::Pid;
use std::alloc::AllocError;

/// Returns true if a process has a list of its children. ID 0 has none, and process 1 has none, because its children
/// are never reparented.
fn has_list(parent: Pid) -> bool
    ensures { result ≡ nat_lt 1 parent }
{
    parent.number() > 1
}

/// Makes one process the next sibling of another, or the first child of a parent if there is no other.
fn put_behind(records: &mut Records, parent: Pid, before: Pid, behind: Pid)
    ensures { Become (is_put_behind parent before behind) records.old.entries records.new.entries }
{
    if before == Pid::NONE {
        relink(records, parent, Link::First(behind));
    } else {
        relink(records, before, Link::Behind(behind));
    }
}

/// Makes two children of a process adjacent. ID 0 comes before the first child and after the last.
fn join(records: &mut Records, parent: Pid, before: Pid, behind: Pid)
    ensures { Become (joined parent before behind) records.old.entries records.new.entries }
{
    put_behind(records, parent, before, behind);
    relink(records, behind, Link::Before(before));
}

/// Makes a process that has no parent the first child of another process.
pub(crate) fn put_in(records: &mut Records, pid: Pid, parent: Pid)
    requires linked { AreLinked (record_in records.old.entries) }
    requires apart { parent_in (record_in records.old.entries) pid ≡ 0 }
    requires pid { 1 ≤ pid }
    requires there { is_some (record_in records.old.entries pid) ≡ true }
    requires parent { 2 ≤ parent → is_some (record_in records.old.entries parent) ≡ true }
    ensures { IsGiven pid parent records.old.entries records.new.entries }
{
    if !has_list(parent) {
        relink(records, pid, Link::Parent(parent));
        return;
    }
    let behind = first_by(relink(records, parent, Link::First(pid)));
    relink(records, pid, Link::Place { parent, behind });
    relink(records, behind, Link::Before(pid));
}

/// Reparents the children of a process, of which `first_child` is the first, and returns the last of them. Their
/// order stays, but the process has no first child any more. ID 0 means no process.
fn give_all(records: &mut Records, pid: Pid, first_child: Pid, heir: Pid) -> Pid
    requires linked { AreLinked (record_in records.old.entries) }
    requires pid { 2 ≤ pid }
    requires first_child { first_child ≡ first_of (record_in records.old.entries) pid }
    requires other { heir ≢ pid }
    ensures { AreAllGiven pid heir first_child result (record_in records.old.entries) (record_in records.new.entries) }
{
    relink(records, pid, Link::First(Pid::NONE));
    let mut last = Pid::NONE;
    let mut child = first_child;
    while child != Pid::NONE {
        last = child;
        child = behind_by(relink(records, child, Link::Parent(heir)));
    }
    last
}

/// Reparents the children of a process, of which `first_child` is the first, or 0 if there is none.
/// Process 1 keeps its children.
pub(crate) fn give_on(records: &mut Records, pid: Pid, first_child: Pid, heir: Pid)
    requires linked { AreLinked (record_in records.old.entries) }
    requires pid { 1 ≤ pid }
    requires first_child { first_child ≡ first_of (record_in records.old.entries) pid }
    requires first { pid ≡ 1 → heir ≡ 1 }
    requires other { pid ≢ 1 → heir ≢ pid }
    requires heir { 2 ≤ heir → is_some (record_in records.old.entries heir) ≡ true }
    ensures { AreGivenOn pid heir records.old.entries records.new.entries }
{
    if pid == Pid::INIT {
        return;
    }
    if first_child == Pid::NONE {
        return;
    }
    let last = give_all(records, pid, first_child, heir);
    if has_list(heir) {
        let behind = first_by(relink(records, heir, Link::First(first_child)));
        join(records, heir, last, behind);
    }
}

/// Begins a life of a process ID, without a parent. Fails if there is no memory, which leaves the records unchanged;
/// then the ID had no record.
pub(crate) fn begin(records: &mut Records, pid: Pid) -> Result<(), AllocError>
    requires linked { AreLinked (record_in records.old.entries) }
    requires pid { 1 ≤ pid }
    ensures ok { OnOk result (IsBegun pid records.old.entries records.new.entries) }
    ensures err { OnErr result (records.new.entries ≡ records.old.entries) }
    ensures new_number { OnErr result (record_in records.old.entries pid ≡ None) }
{
    let Some(was) = relink(records, pid, Link::Begins) else {
        let record = Record {
            parent: Pid::NONE,
            before: Pid::NONE,
            behind: Pid::NONE,
            first: Pid::NONE,
            state: State::newborn(),
        };
        records.insert(pid.number(), record)?;
        return Ok(());
    };
    if has_list(was.parent) {
        join(records, was.parent, was.before, was.behind);
    }
    Ok(())
}
