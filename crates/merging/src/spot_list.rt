//! Spots, kept as counted runs.

ghost use Rattle.std.specs.Prelude.{◌≡◌, ◌<◌, ◌^◌, ◌++◌, [], ◌∷◌, false, length, replicate, IfOk, MatchBool, OnErr, OnOk};
ghost use Rattle.counting.specs.Tallies.{is_before as comes_before, is_earlier as has_earlier};
ghost use Rattle.merging.specs.SpotLists.{AreRuns, begin_above, begin_below, spots_of};

use std::alloc::{AllocError, Global};
use std::marker::Model;

/// A spot that is repeated, with the number of times, from 1.
#[derive(Clone, Copy)]
struct SpotRun {
    spot: u64,
    times: usize,
}

/// The spots of a beginning of a schedule. Each run of equal spots takes the same memory, however long it is.
#[derive(Drop)]
pub struct SpotList {
    /// No two adjacent runs have the same spot.
    runs: Vec<SpotRun>,
    len: usize,
}

impl Model for SpotList {
    ghost use Rattle.std.specs.Prelude.{◌≡◌, List, ℕ, length};
    ghost use Rattle.merging.specs.SpotLists.{AreRuns, spots_of};

    ghost Value = { List ℕ };

    ghost view = { λ l. spots_of l.runs.items };

    ghost invariant = { λ l. AreRuns l.runs.items × (l.len ≡ length (spots_of l.runs.items)) };
}

/// Returns true if the first spot of these runs is earlier than this one.
fn begins_below(runs: &[SpotRun], spot: u64) -> bool
    ensures { result ≡ begin_below runs.now spot }
{
    match runs.split_first() {
        Some((run, _)) => run.spot < spot,
        None => false,
    }
}

/// Returns true if the first spot of these runs is later than this one.
fn begins_above(runs: &[SpotRun], spot: u64) -> bool
    ensures { result ≡ begin_above runs.now spot }
{
    match runs.split_first() {
        Some((run, _)) => spot < run.spot,
        None => false,
    }
}

/// Returns true if the first of two equally long lists has the earlier spot where they first differ.
fn is_earlier(runs: &[SpotRun], others: &[SpotRun]) -> bool
    requires runs { AreRuns runs.now }
    requires others { AreRuns others.now }
    ensures { result ≡ has_earlier (spots_of runs.now) (spots_of others.now) }
{
    let (Some((run, rest)), Some((other, other_rest))) = (runs.split_first(), others.split_first())
    else {
        return false;
    };
    if run.spot != other.spot {
        return run.spot < other.spot;
    }
    if run.times < other.times {
        return begins_below(rest, other.spot);
    }
    if run.times > other.times {
        return begins_above(other_rest, run.spot);
    }
    is_earlier(rest, other_rest)
}

/// Adds a spot to the last run and returns true, if that run has the same spot. Otherwise returns false.
fn grow_last(runs: &mut Vec<SpotRun>, spot: u64) -> bool
    requires runs { AreRuns runs.old.items }
    requires few { length (spots_of runs.old.items) < 2 ^ 40 }
    ensures spots { MatchBool result (spots_of runs.new.items ≡ spots_of runs.old.items ++ spot ∷ []) (runs.new.items ≡ runs.old.items) }
    ensures runs { AreRuns runs.new.items }
    ensures other { result ≡ false → AreRuns (runs.old.items ++ record { spot = spot; times = 1 } ∷ []) }
{
    match runs.last_mut() {
        Some(last) if last.spot == spot => {
            last.times += 1;
            true
        }
        _ => false,
    }
}

/// Adds a spot, to the last run if that has the same spot. If memory runs out, the runs stay unchanged.
#[tactic(auto, using(crate::proofs::SpotLemmas::spots_push))]
fn push_run(runs: &mut Vec<SpotRun>, spot: u64) -> Result<(), AllocError>
    requires runs { AreRuns runs.old.items }
    requires few { length (spots_of runs.old.items) < 2 ^ 40 }
    ensures ok { OnOk result (spots_of runs.new.items ≡ spots_of runs.old.items ++ spot ∷ []) }
    ensures err { OnErr result (runs.new.items ≡ runs.old.items) }
    ensures runs { AreRuns runs.new.items }
{
    if !grow_last(runs, spot) {
        runs.push(SpotRun { spot, times: 1 })?;
    }
    Ok(())
}

/// Adds the spots of a run.
fn add_run(spots: &mut Vec<u64>, run: SpotRun) -> Result<(), AllocError>
    ensures { OnOk result (spots.new.items ≡ spots.old.items ++ replicate run.times run.spot) }
{
    for _time in 0..run.times {
        spots.push(run.spot)?;
    }
    Ok(())
}

impl SpotList {
    /// Returns an empty list.
    pub fn new(alloc: Global) -> SpotList
        ensures { result ≡ [] }
    {
        SpotList {
            runs: Vec::new(alloc),
            len: 0,
        }
    }

    /// Returns a copy.
    pub fn try_clone(&self, alloc: Global) -> Result<SpotList, AllocError>
        ensures { IfOk result (λ spots. spots ≡ self.now) }
    {
        Ok(SpotList {
            runs: Vec::from_slice(alloc, self.runs.as_slice())?,
            len: self.len,
        })
    }

    /// Returns the number of spots.
    pub fn len(&self) -> usize
        ensures { result ≡ length self.now }
    {
        self.len
    }

    /// Adds a spot after the others. If memory runs out, the list stays unchanged.
    pub fn push(&mut self, spot: u64) -> Result<(), AllocError>
        requires { length self.old < 2 ^ 40 }
        ensures ok { OnOk result (self.new ≡ self.old ++ spot ∷ []) }
        ensures err { OnErr result (self.new ≡ self.old) }
    {
        push_run(&mut self.runs, spot)?;
        self.len += 1;
        Ok(())
    }

    /// Returns true if a schedule with these spots comes before one with the other spots in a family.
    pub fn is_before(&self, other: &SpotList) -> bool
        ensures { result ≡ comes_before self.now other.now }
    {
        self.len < other.len
            || (self.len == other.len && is_earlier(self.runs.as_slice(), other.runs.as_slice()))
    }

    /// Returns the spots, one by one.
    pub fn to_vec(&self, alloc: Global) -> Result<Vec<u64>, AllocError>
        ensures { IfOk result (λ spots. spots.items ≡ self.now) }
    {
        let mut spots = Vec::new(alloc);
        for run in self.runs.iter() {
            add_run(&mut spots, *run)?;
        }
        Ok(spots)
    }
}
