//! Counts of the members of a process group, for which no slot of the table is read.

use jobs::IndexedTable;
use posix::{Life, Pid, Status};
use proctable::{Record, SlabTable};
use std::alloc::{AllocError, Global};
use std::process::Abort;
use std::test::Fail;

type Jobs = IndexedTable<SlabTable>;

/// The leader of the process group whose members are counted.
const LEADER: u32 = 298;

/// Returns a table of process 1 only.
#[tactic(auto, using(jobs::proofs::NumberLemmas::nobody_there))]
fn first(alloc: Global) -> Result<Jobs, AllocError> {
    let mut jobs = Jobs::empty(alloc);
    jobs.reserve(Pid::INIT)?;
    let fields = Record::first(alloc)?;
    jobs.insert(Pid::INIT, Pid::NONE, fields);
    Ok(jobs)
}

/// Inserts a child into the process group of its parent. Returns false if the child's number is 0 or taken, or if there
/// is no such parent.
fn bear(jobs: &mut Jobs, parent: Pid, child: Pid) -> Result<bool, AllocError> {
    if child == Pid::NONE || jobs.get(child).is_some() {
        return Ok(false);
    }
    let Some(_up) = jobs.get(parent) else {
        return Ok(false);
    };
    jobs.reserve(child)?;
    let fields = jobs.newborn(parent, 2)?;
    jobs.insert(child, parent, fields);
    Ok(true)
}

/// Makes a process the leader of a process group of its own. Does nothing if there is no such process.
fn lead(jobs: &mut Jobs, pid: Pid) {
    if jobs.get(pid).is_some() {
        jobs.change_seen(pid, |fields| fields.group = pid);
    }
}

/// Makes a process stop, continue or terminate. Does nothing if there is no such process.
fn become_life(jobs: &mut Jobs, pid: Pid, life: Life) {
    if jobs.get(pid).is_some() {
        jobs.change_seen(pid, |fields| fields.life = life);
    }
}

/// Makes process 1 the parent of the children of another process.
fn orphan(jobs: &mut Jobs, pid: Pid) {
    if pid != Pid::INIT && jobs.get(Pid::INIT).is_some() && jobs.get(pid).is_some() {
        jobs.adopt(pid, Pid::INIT);
    }
}

/// Returns true if the process group has these counts, is orphaned exactly if it has no anchors, and no slot is read
/// for that.
fn has_counts(jobs: &Jobs, group: Pid, anchors: usize, stopped: usize) -> bool {
    let before = jobs.visits();
    jobs.anchors(group) == anchors
        && jobs.stopped_in(group) == stopped
        && jobs.is_orphaned(group) == (anchors == 0)
        && jobs.visits() == before
}

/// Reads the members of a process group, at most ten. Returns how many they are, and how many slots were read.
fn read_members(jobs: &mut Jobs, group: Pid) -> (usize, u128) {
    let before = jobs.visits();
    let mut count: usize = 0;
    let mut last = Pid::NONE;
    for _ in 0..10 {
        if let Some(pid) = jobs.next_member(group, last) {
            if jobs.get(pid).is_some() {
                count = count.wrapping_add(1);
            }
            last = pid;
        }
    }
    (count, jobs.visits().wrapping_sub(before))
}

/// Returns a table of 300 processes. Process 298 leads a process group, and its children 299 and 300 are the other
/// members.
fn three_beside_many(alloc: Global) -> Result<Option<Jobs>, AllocError> {
    let mut jobs = first(alloc)?;
    for number in 2..=300_u32 {
        let parent = if number > LEADER { LEADER } else { 1 };
        let (Some(child), Some(parent)) = (Pid::new(number), Pid::new(parent)) else {
            return Ok(None);
        };
        if !bear(&mut jobs, parent, child)? {
            return Ok(None);
        }
        if number == LEADER {
            lead(&mut jobs, child);
        }
    }
    Ok(Some(jobs))
}

#[test]
fn counts_of_a_group_read_no_slot(rt: HostRuntime) -> Result<(), Fail> {
    let mut jobs = three_beside_many(rt.alloc())?.expect(&rt, "300 processes");
    let leader = Pid::new(LEADER).expect(&rt, "a number");
    let second = Pid::new(299).expect(&rt, "a number");
    let third = Pid::new(300).expect(&rt, "a number");
    // Only the leader is an anchor, because the parent of the two others is in their group.
    assert!(rt; has_counts(&jobs, leader, 1, 0) && has_counts(&jobs, Pid::INIT, 0, 0));
    orphan(&mut jobs, leader);
    assert!(rt; has_counts(&jobs, leader, 3, 0));
    become_life(&mut jobs, second, Life::Stopped);
    assert!(rt; has_counts(&jobs, leader, 3, 1) && has_counts(&jobs, Pid::INIT, 0, 0));
    become_life(&mut jobs, third, Life::Zombie(Status::exited(0)));
    assert!(rt; has_counts(&jobs, leader, 2, 1));
    let (count, slots) = read_members(&mut jobs, leader);
    assert!(rt; count == 3 && slots <= 12);
    become_life(&mut jobs, second, Life::Running);
    become_life(&mut jobs, leader, Life::Stopped);
    assert!(rt; has_counts(&jobs, leader, 2, 1));
    become_life(&mut jobs, leader, Life::Zombie(Status::exited(0)));
    become_life(&mut jobs, second, Life::Zombie(Status::exited(0)));
    assert!(rt; has_counts(&jobs, leader, 0, 0));
    drop(jobs);
    Ok(())
}
