//! Spots: a spot says what is inserted, and before which event of a list.

ghost use Rattle.std.specs.Prelude.{◌≡◌, ◌==◌, ◌<◌, ◌≤◌, ◌^◌, length};
ghost use Rattle.schedules.specs.Families.{kind_of, place_of as place_of_spot, spot as spot_of};
ghost use Rattle.schedules.specs.Schedules.{event_of as event_of_kind, put_at as put_at_spot};

use crate::MOST_LOOSE;
use posix::Event;

/// Returns the spot for a kind of insertion before the event with this place, with this many loose events.
pub fn spot(loose: usize, place: u64, kind: u8) -> u64
    requires few { loose ≤ MOST_LOOSE }
    requires place { place < 2 ^ 40 }
    ensures { result ≡ spot_of loose place kind }
{
    place * (loose as u64 + 1) + u64::from(kind)
}

/// Returns the place of the event that a spot is before, with this many loose events.
pub fn place_of(loose: usize, spot: u64) -> u64
    requires { loose ≤ MOST_LOOSE }
    ensures { result ≡ place_of_spot loose spot }
{
    spot / (loose as u64 + 1)
}

/// Returns true if a tick is inserted at a spot, rather than a loose event.
pub fn is_tick(loose: usize, spot: u64) -> bool
    requires { loose ≤ MOST_LOOSE }
    ensures { result ≡ (kind_of loose spot == 0) }
{
    spot % (loose as u64 + 1) == 0
}

/// Returns the event of a kind: a tick for 0, and for kinds from 1 a loose event.
pub fn event_of(loose: &[Event], kind: usize) -> Event
    ensures { result ≡ event_of_kind loose.now kind }
{
    if kind == 0 {
        return Event::Tick;
    }
    match loose.get(kind - 1) {
        Some(event) => *event,
        None => Event::Tick,
    }
}

/// Returns the event that is inserted at a spot.
pub fn put_at(loose: &[Event], spot: u64) -> Event
    requires { length loose.now ≤ MOST_LOOSE }
    ensures { result ≡ put_at_spot loose.now spot }
{
    event_of(loose, (spot % (loose.len() as u64 + 1)) as usize)
}
