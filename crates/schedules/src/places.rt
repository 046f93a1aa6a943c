//! Goes through the lists of equally many places.

ghost use Rattle.std.specs.Prelude.{◌≡◌, ◌+◌, ◌<◌, suc, length, drop, slice_index, IfSome, None};
ghost use Rattle.schedules.specs.Walks.{Advances, next_of_ticks};

/// Returns the index of the last place that can be raised by one and stay below `upto`, if there is one.
fn last_to_go(places: &[u64], upto: u64) -> Option<usize>
    ensures none { result ≡ None → next_of_ticks upto places.now ≡ None }
    ensures some { IfSome result (λ i. (i < length places.now) × (slice_index places.now i + 1 < upto) × (next_of_ticks upto (drop (suc i) places.now) ≡ None)) }
{
    let mut behind = places.len();
    while behind > 0 {
        behind -= 1;
        if places[behind] < upto.saturating_sub(1) {
            return Some(behind);
        }
    }
    None
}

/// Goes to the next list of equally many places, all below `upto`. Returns false if there is none; then nothing
/// changes.
///
/// Raises the last place that can be raised by one, and sets those after it to the same place.
pub(crate) fn advance(places: &mut [u64], upto: u64) -> bool
    ensures { Advances result upto places.old places.new }
{
    let Some(at) = last_to_go(places, upto) else {
        return false;
    };
    let later = places[at] + 1;
    places[at..].fill(later);
    true
}
