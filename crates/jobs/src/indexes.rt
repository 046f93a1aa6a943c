//! The indexes that a table of jobs keeps of its processes.

ghost use Rattle.std.specs.Prelude.{◌≡◌, ◌≢◌, ◌<◌, ◌≤◌, ◌^◌, ◌&&◌, [], List, filter, Some, OnOk, true};
ghost use Rattle.posix.specs.Common.{Process, is_zombie, IsRising, above, adopted, children_in, first_pid, wanted_in};
ghost use Rattle.pidset.specs.Indexes.{has_within, IsNextPair};
ghost use Rattle.pidset.specs.Lists.{IsPageUnused, without_page_of};
ghost use Rattle.pidset.specs.Rows.{Grows, HasRoom};
ghost use Rattle.jobs.specs.Indexes.{AreIndexes, record_seen, snapshot_seen, member_in, anchor_in, is_of_sort, report_in, sort_of, list_of_parent, sorted, stopped_in, alarm_in, marked_in, CanMove, IsInside, AreMoved, least};

use bitflags::Flags;
use pidset::{Index, Lists};
use posix::{Life, News, Pid, WaitidOptions};
use proctable::{Record, Snapshot};
use std::alloc::{AllocError, Global};

/// The fields of a process that the indexes use, except its parent.
#[derive(Clone, Copy, PartialEq, Eq)]
pub struct IndexedFields {
    /// Its process group.
    pub group: Pid,
    /// Its session, by the ID of the leader.
    pub session: Pid,
    /// Whether it is running, stopped or a zombie.
    pub life: Life,
    /// The status change that no wait has reported yet.
    pub news: News,
    /// The tick at which its alarm is due.
    pub alarm: Option<u64>,
    /// Whether it is a child subreaper.
    pub is_subreaper: bool,
}

/// A change of a process that its parent and the indexes see.
#[derive(Clone, Copy)]
pub struct Change {
    /// The parent of the process; 0 for none.
    pub parent: Pid,
    /// The fields before the change.
    pub before: IndexedFields,
    /// The fields after the change.
    pub after: IndexedFields,
}

/// A kind of status change that a child can report.
#[derive(Clone, Copy)]
enum Sort {
    /// Termination.
    End,
    /// A stop that no wait has reported yet.
    Stop,
    /// A continue that no wait has reported yet.
    Continue,
}

/// The indexes of a table of jobs.
///
/// `insert` and `remove` update all of these. `change_seen` updates all but `children`; `adopt` updates only `anchors`,
/// `reporting` and `children`; `change` updates only `alarmed`.
#[derive(Drop)]
pub struct Indexes {
    /// The processes by parent, zombies included. A process without a parent is in no list.
    pub children: Lists,
    /// The processes by process group, zombies included.
    pub members: Lists,
    /// The processes that keep their process groups from being orphaned, by group.
    pub anchors: Lists,
    /// The children that have a status change to report, by parent and kind of change.
    pub reporting: Index,
    /// The stopped processes, by process group.
    pub stopped: Index,
    /// The processes whose alarm is set, by the tick at which it is due.
    pub alarmed: Index,
    /// The living child subreapers, all under one key.
    pub subreapers: Index,
}

/// Returns the indexed fields of a record.
#[inline(always)]
pub(crate) fn of_record(fields: &Record) -> IndexedFields
    ensures { result ≡ record_seen fields.now }
{
    IndexedFields {
        group: fields.group,
        session: fields.session,
        life: fields.life,
        news: fields.news,
        alarm: fields.alarm,
        is_subreaper: fields.is_subreaper,
    }
}

/// Returns the indexed fields of a snapshot.
pub(crate) fn of_snapshot(snapshot: &Snapshot) -> IndexedFields
    ensures { result ≡ snapshot_seen snapshot.now }
{
    IndexedFields {
        group: snapshot.group,
        session: snapshot.session,
        life: snapshot.life,
        news: snapshot.news,
        alarm: snapshot.alarm,
        is_subreaper: snapshot.is_subreaper,
    }
}

/// Returns true if a process is a zombie.
#[inline(always)]
pub(crate) fn is_dead(it: &IndexedFields) -> bool
    ensures { result ≡ is_zombie it.now.life }
{
    matches!(it.life, Life::Zombie(_))
}

/// Returns a process ID as a key.
#[inline(always)]
pub(crate) fn key(pid: Pid) -> u64
    ensures { result ≡ pid }
{
    u64::from(pid.number())
}

/// Returns the list of a process among the members of process groups.
#[inline(always)]
fn member_key(it: &Option<IndexedFields>) -> Option<Pid>
    ensures { result ≡ member_in it.now }
{
    Some(it.as_ref()?.group)
}

/// Returns the list of the children of a process; `None` for 0.
#[inline(always)]
pub(crate) fn parent_list(parent: Pid) -> Option<Pid>
    ensures { result ≡ list_of_parent parent }
{
    if parent == Pid::NONE {
        None
    } else {
        Some(parent)
    }
}

/// Returns the list of a process among the anchors, which keep their process groups from being orphaned. An anchor is
/// alive, and its parent is in another group of the same session.
#[inline(always)]
pub(crate) fn anchor_key(it: &IndexedFields, parent: &Option<IndexedFields>) -> Option<Pid>
    ensures { result ≡ anchor_in it.now parent.now }
{
    match parent {
        Some(parent) if !is_dead(it) && parent.session == it.session && parent.group != it.group =>
            { Some(it.group) }
        _ => None,
    }
}

/// Returns the kind of status change that a process has to report, if any.
#[inline(always)]
fn sort_to_report(it: &IndexedFields) -> Option<Sort>
    ensures { result ≡ sort_of it.now.life it.now.news }
{
    match (it.life, it.news) {
        (Life::Zombie(_), _) => Some(Sort::End),
        (Life::Running | Life::Stopped, News::StoppedBy(_)) => Some(Sort::Stop),
        (Life::Running | Life::Stopped, News::Continued) => Some(Sort::Continue),
        (Life::Running | Life::Stopped, News::Nothing) => None,
    }
}

/// Returns the key of the children of a process that report this kind of status change.
///
/// Terminations have the lowest key, because changes at low keys move little. One index of all kinds costs no more at a
/// fork than an index without kinds; reparenting changes three keys.
#[inline(always)]
fn sorted_key(parent: Pid, sort: Sort) -> u64
    ensures { result ≡ sorted parent sort }
{
    let ends = key(parent) * 256;
    match sort {
        Sort::End => ends,
        Sort::Stop => ends + 1,
        Sort::Continue => ends + 2,
    }
}

/// Returns the key of a process among those that have a status change to report.
#[inline(always)]
fn report_key(parent: Pid, it: &Option<IndexedFields>) -> Option<u64>
    ensures { result ≡ report_in parent it.now }
{
    Some(sorted_key(parent, sort_to_report(it.as_ref()?)?))
}

/// Returns the key of a process among the stopped processes.
#[inline(always)]
fn stopped_key(it: &Option<IndexedFields>) -> Option<u64>
    ensures { result ≡ stopped_in it.now }
{
    match it {
        Some(it) if it.life == Life::Stopped => Some(key(it.group)),
        _ => None,
    }
}

/// Returns the key of a process in the index of set alarms.
#[inline(always)]
fn alarm_key(it: &Option<IndexedFields>) -> Option<u64>
    ensures { result ≡ alarm_in it.now }
{
    it.as_ref()?.alarm
}

/// Returns the key of a process among the living child subreapers, which all have the same key.
#[inline(always)]
fn marked_key(it: &Option<IndexedFields>) -> Option<u64>
    ensures { result ≡ marked_in it.now }
{
    match it {
        Some(it) if it.is_subreaper && !is_dead(it) => Some(0),
        _ => None,
    }
}

/// Returns the lower of two IDs, or the only one.
fn lesser(a: Option<Pid>, b: Option<Pid>) -> Option<Pid>
    ensures { result ≡ least a b }
{
    match (a, b) {
        (Some(one), Some(other)) => if other < one { b } else { a },
        (Some(_), None) => a,
        (None, _) => b,
    }
}

impl Indexes {
    /// Creates the indexes of no processes. Allocates nothing.
    #[tactic(auto, using(pidset::proofs::IndexLemmas::indexed_none), unfolding(posix::specs::Tables::lookup, pidset::specs::Indexes::is_pair_in))]
    pub(crate) fn new(alloc: Global) -> Indexes
        ensures indexes { AreIndexes [] result }
        ensures anchors { result.anchors.pairs ≡ [] }
        ensures children { result.children.pairs ≡ [] }
    {
        Indexes {
            children: Lists::new(alloc),
            members: Lists::new(alloc),
            anchors: Lists::new(alloc),
            reporting: Index::new(alloc),
            stopped: Index::new(alloc),
            alarmed: Index::new(alloc),
            subreapers: Index::new(alloc),
        }
    }

    /// Makes room for `most` processes, one of which may have this ID. The indexes are unchanged, even if this fails
    /// for lack of memory.
    pub(crate) fn reserve(&mut self, most: usize, pid: Pid) -> Result<(), AllocError>
        requires { most < 2 ^ 63 }
        ensures members { self.new.members.pairs ≡ self.old.members.pairs }
        ensures anchors { self.new.anchors.pairs ≡ self.old.anchors.pairs }
        ensures children { self.new.children.pairs ≡ self.old.children.pairs }
        ensures reporting { self.new.reporting.pairs ≡ self.old.reporting.pairs }
        ensures stopped { self.new.stopped.pairs ≡ self.old.stopped.pairs }
        ensures alarmed { self.new.alarmed.pairs ≡ self.old.alarmed.pairs }
        ensures subreapers { self.new.subreapers.pairs ≡ self.old.subreapers.pairs }
        ensures grows_members { Grows self.old.members.sizes self.new.members.sizes }
        ensures grows_anchors { Grows self.old.anchors.sizes self.new.anchors.sizes }
        ensures grows_children { Grows self.old.children.sizes self.new.children.sizes }
        ensures grows_reporting { self.old.reporting.room ≤ self.new.reporting.room }
        ensures grows_stopped { self.old.stopped.room ≤ self.new.stopped.room }
        ensures grows_alarmed { self.old.alarmed.room ≤ self.new.alarmed.room }
        ensures grows_subreapers { self.old.subreapers.room ≤ self.new.subreapers.room }
        ensures ok { OnOk result (HasRoom self.new.members.sizes pid × HasRoom self.new.anchors.sizes pid × HasRoom self.new.children.sizes pid × (most ≤ self.new.reporting.room) × (most ≤ self.new.stopped.room) × (most ≤ self.new.alarmed.room) × (most ≤ self.new.subreapers.room)) }
    {
        self.members.reserve(pid)?;
        self.anchors.reserve(pid)?;
        self.children.reserve(pid)?;
        self.reporting.reserve(most)?;
        self.stopped.reserve(most)?;
        self.alarmed.reserve(most)?;
        self.subreapers.reserve(most)
    }

    /// Frees the memory for an ID and for all others on its page of 1,024 IDs.
    pub(crate) fn give_up_page(&mut self, pid: Pid)
        requires members { IsPageUnused pid self.old.members.pairs }
        requires anchors { IsPageUnused pid self.old.anchors.pairs }
        requires children { IsPageUnused pid self.old.children.pairs }
        ensures { self.new ≡ record self.old { members = without_page_of pid self.old.members; anchors = without_page_of pid self.old.anchors; children = without_page_of pid self.old.children } }
    {
        self.members.give_up_page(pid);
        self.anchors.give_up_page(pid);
        self.children.give_up_page(pid);
    }

    /// Updates the indexes except `anchors` and `children` for a process with this parent whose fields change. `None`
    /// is a process that doesn't exist. Otherwise only `change` and reparenting change these indexes.
    #[inline(always)]
    pub(crate) fn reindex(
        &mut self,
        pid: Pid,
        parent: Pid,
        before: &Option<IndexedFields>,
        after: &Option<IndexedFields>,
    )
        requires can { CanMove pid parent before.now self.old }
        requires pid { 1 ≤ pid }
        requires inside { IsInside pid after.now self.old }
        ensures moved { AreMoved pid parent after.now self.old self.new }
        ensures anchors { self.new.anchors ≡ self.old.anchors }
        ensures children { self.new.children ≡ self.old.children }
    {
        self.members.put(pid, member_key(after));
        self.reporting
            .replace(pid, report_key(parent, before), report_key(parent, after));
        self.stopped
            .replace(pid, stopped_key(before), stopped_key(after));
        self.alarmed
            .replace(pid, alarm_key(before), alarm_key(after));
        self.subreapers
            .replace(pid, marked_key(before), marked_key(after));
    }

    /// Returns true if a child of a process has a status change to report.
    fn has_report(&self, parent: Pid) -> bool
        ensures { result ≡ has_within (sorted parent Sort.End) (sorted parent Sort.Continue) self.now.reporting.pairs }
    {
        let (least, greatest) = (
            sorted_key(parent, Sort::End),
            sorted_key(parent, Sort::Continue),
        );
        self.reporting.has_within(least, greatest)
    }

    /// Moves the children that have a status change to report from one parent to another. Usually there are none.
    pub(crate) fn reparent(&mut self, from: Pid, to: Pid)
        requires { from ≢ to }
        ensures indexes { (rs : List Process) → AreIndexes rs self.old → AreIndexes (adopted from to rs) self.new }
        ensures room { self.new.reporting.room ≡ self.old.reporting.room }
        ensures rest { self.new ≡ record self.old { reporting = self.new.reporting } }
    {
        if !self.has_report(from) {
            return;
        }
        self.reporting
            .rekey(sorted_key(from, Sort::End), sorted_key(to, Sort::End));
        self.reporting
            .rekey(sorted_key(from, Sort::Stop), sorted_key(to, Sort::Stop));
        self.reporting.rekey(
            sorted_key(from, Sort::Continue),
            sorted_key(to, Sort::Continue),
        );
    }

    /// Returns the child with the lowest ID above `after` that reports this kind of status change, if that kind is
    /// wanted.
    fn next_of_sort(&self, parent: Pid, sort: Sort, is_wanted: bool, after: Pid) -> Option<Pid>
        ensures { (rs : List Process) → IsRising rs → AreIndexes rs self.now → result ≡ first_pid (above after (filter (λ r. is_wanted && is_of_sort sort r) (children_in parent rs))) }
    {
        if is_wanted {
            self.reporting.next(sorted_key(parent, sort), after)
        } else {
            None
        }
    }

    /// Returns the child with the lowest ID above `after` that has a status change to report to a wait with these
    /// options. Looks only at children with a wanted kind of status change.
    pub(crate) fn next_wanted(&self, parent: Pid, options: WaitidOptions, after: Pid) -> Option<Pid>
        ensures { (rs : List Process) → IsRising rs → AreIndexes rs self.now → result ≡ first_pid (above after (wanted_in options.0 parent rs)) }
    {
        let ends = options.contains(WaitidOptions::WEXITED);
        let stops = options.contains(WaitidOptions::WSTOPPED);
        let continues = options.contains(WaitidOptions::WCONTINUED);
        // Usually no child has a status change to report, and one search shows that.
        if ends && stops && continues && !self.has_report(parent) {
            return None;
        }
        let ended = self.next_of_sort(parent, Sort::End, ends, after);
        let stopped = self.next_of_sort(parent, Sort::Stop, stops, after);
        let continued = self.next_of_sort(parent, Sort::Continue, continues, after);
        lesser(lesser(ended, stopped), continued)
    }
}
