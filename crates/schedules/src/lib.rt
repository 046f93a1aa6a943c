//! Schedules: the ways to insert ticks and loose events into a list of events, their number, and a way through them.
//! Also writes lists of events as texts, with comments.
//!
//! `Schedule::{first, next}` go through a family without loose events. `family_size` is exact, or `None` above the
//! limit. `families_are_whole`: with n places, k ticks and m loose events there are C(n+m+k, k) * n * (n+1) * .. *
//! (n+m-1) schedules, each once. `write_events` writes at most 10^12 events as a text, from which each world with the
//! consoles of its keys and hangups reads these events.
#![tactic(auto)]

ghost use Rattle.std.specs.Prelude.{◌≡◌, ◌≢◌, ◌+◌, ◌*◌, ◌≤◌, ◌↔◌, ℕ, List, length, map, All, AllPairs, Contains};
ghost use Rattle.std.specs.List.Sorted.{IsNonDecreasing};
ghost use Rattle.posix.specs.declared.event.Event.{Event};
ghost use Rattle.schedules.specs.Families.{Spots, family, IsSchedule, IsBefore, choose, place_of, ways};
ghost use Rattle.schedules.specs.Schedules.{scheduled, from_front};

pub mod eventtext;
mod places;
pub mod schedule;
pub mod sizes;
pub mod spots;

pub use eventtext::{Remark, write_events};
pub use schedule::Schedule;
pub use sizes::family_size;
pub use spots::{event_of, is_tick, place_of, put_at, spot};

/// The most ticks that a schedule inserts.
pub const MOST_TICKS: usize = 1_000_000;

/// The most loose events that a schedule inserts.
pub const MOST_LOOSE: usize = 32;

/// States that a family has all schedules of its kind, each once, in order.
///
/// A schedule inserts at most `ticks` ticks, and each loose event once, all before the first `upto` events. Schedules
/// with fewer spots come first; of equally many spots, the one that has the earlier spot where two first differ. With
/// `n` places and at most `k` ticks there are as many schedules as ways to choose `k` of `n + k` things. There are `n`
/// ways to insert a first loose event, times `n + 1` for a second one, and so on. Each loose event is one more place
/// for a tick.
pub fn families_are_whole()
    ensures members { (upto ticks loose : ℕ) (ps : Spots) → Contains (family upto ticks loose) ps ↔ IsSchedule upto ticks loose ps }
    ensures in_order { (upto ticks loose : ℕ) → AllPairs IsBefore (family upto ticks loose) }
    ensures once { (upto ticks loose : ℕ) → AllPairs (λ ps qs. ps ≢ qs) (family upto ticks loose) }
    ensures size { (upto ticks loose : ℕ) → length (family upto ticks loose) ≡ ways upto loose * choose (upto + loose + ticks) ticks }
{}

/// States what the events of a schedule are, from the front: those before the first spot, what is inserted there, and
/// so on.
///
/// A schedule has as many events as the list, and one more for each spot. If the list itself has such an event, or two
/// loose events are equal, two schedules can have the same events: they count as two.
pub fn schedules_go_from_the_front()
    ensures front { (loose events : List Event) (ps : Spots) → IsNonDecreasing (map (place_of (length loose)) ps) → All (λ q. place_of (length loose) q ≤ length events) ps
        → scheduled loose events ps ≡ from_front loose 0 events ps }
    ensures length { (loose events : List Event) (ps : Spots) → length (scheduled loose events ps) ≡ length events + length ps }
{}
