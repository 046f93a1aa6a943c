//! The sizes of families.

ghost use Rattle.std.specs.Prelude.{◌≡◌, ◌+◌, ◌*◌, ◌<◌, ◌≤◌, ◌^◌, length};
ghost use Rattle.std.specs.Option.{SomeIff};
ghost use Rattle.schedules.specs.Families.{choose, family, ways};

use crate::{MOST_LOOSE, MOST_TICKS};

/// Returns the number of ways to choose `chosen + 1` of `of + chosen + 1` things, if `size` is the number of ways to
/// choose `chosen` of `of + chosen`. Returns `None` if the number is above `limit`.
fn with_one_more(size: u64, of: u64, chosen: usize, limit: u64) -> Option<u64>
    requires few { chosen < MOST_TICKS }
    requires of { of ≤ 2 ^ 63 + MOST_LOOSE }
    requires size { size ≡ choose (of + chosen) chosen }
    ensures { SomeIff result (choose (of + (chosen + 1)) (chosen + 1) ≤ limit) (choose (of + (chosen + 1)) (chosen + 1)) }
{
    let more = chosen as u128 + 1;
    let things = u128::from(of) + more;
    // The division is exact.
    let next = u128::from(size) * things / more;
    if next > u128::from(limit) {
        return None;
    }
    Some(next as u64)
}

/// Returns the number of ways to choose `chosen` of `of + chosen` things, or `None` if it is above `limit`.
fn ways_to_choose(of: u64, chosen: usize, limit: u64) -> Option<u64>
    requires few { chosen ≤ MOST_TICKS }
    requires of { of ≤ 2 ^ 63 + MOST_LOOSE }
    ensures { SomeIff result (choose (of + chosen) chosen ≤ limit) (choose (of + chosen) chosen) }
{
    if limit == 0 {
        return None;
    }
    let mut size = 1;
    for k in 0..chosen {
        size = with_one_more(size, of, k, limit)?;
    }
    Some(size)
}

/// Returns the number of schedules with at most `ticks` ticks and with `loose` loose events, all before the first
/// `upto` events, or `None` if it is above `limit`.
pub fn family_size(upto: u64, ticks: usize, loose: usize, limit: u64) -> Option<u64>
    requires ticks { ticks ≤ MOST_TICKS }
    requires loose { loose ≤ MOST_LOOSE }
    requires upto { upto ≤ 2 ^ 63 }
    ensures { SomeIff result (length (family upto ticks loose) ≤ limit) (length (family upto ticks loose)) }
{
    if upto == 0 && loose > 0 {
        return Some(0);
    }
    let mut size = ways_to_choose(upto + loose as u64, ticks, limit)?;
    for before in 0..loose {
        size = size.checked_mul(upto + before as u64)?;
    }
    if size > limit { None } else { Some(size) }
}
