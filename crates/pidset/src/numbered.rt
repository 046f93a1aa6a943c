//! Items with numbers, in rising order of these numbers in a vector.

ghost use Rattle.std.specs.Prelude.{◌≡◌, ◌+◌, ◌<◌, ◌≤◌, ◌==◌, ℕ, false, nat_lt, map, filter, insert, length, slice_get, vec_len, vec_capacity, IfOk, IfErr};
ghost use Rattle.std.specs.Option.{option_copied, option_map_or};
ghost use Rattle.pidset.specs.Numbers.{Rises, IsNumberAt, IsInsertionPoint, index_behind};

use posix::Pid;

/// An item that has a number.
pub trait Numbered: Drop {
    /// The number of the item.
    ghost number: { Self → ℕ };

    /// Returns the number of the item.
    fn number(&self) -> u128
        ensures { result ≡ number self.now };
}

impl Numbered for Pid {
    ghost number = { λ p. p };

    fn number(&self) -> u128 {
        let pid = *self;
        u128::from(pid.number())
    }
}

impl Numbered for u32 {
    ghost number = { λ n. n };

    fn number(&self) -> u128 {
        u128::from(*self)
    }
}

/// Returns the index of the item with the number of `key`, or the index where it would be inserted.
pub fn search<T: Numbered, K: Numbered>(items: &[T], key: &K) -> Result<usize, usize>
    requires { Rises (map T.number items.now) }
    ensures found { IfOk result (IsNumberAt (map T.number items.now) (K.number key.now)) }
    ensures absent { IfErr result (IsInsertionPoint (map T.number items.now) (K.number key.now)) }
{
    let number = key.number();
    let Some(last) = items.last() else {
        return Err(0);
    };
    // Most inserted numbers are above all others.
    let greatest = last.number();
    if greatest < number {
        return Err(items.len());
    }
    // Most other numbers equal the first or go before it.
    let least = items[0].number();
    if number < least {
        return Err(0);
    }
    if number == least {
        return Ok(0);
    }
    // If the number is present, usually so is every number from it to the last, and this is its index.
    let behind = greatest - number;
    if behind < items.len() as u128 {
        let at = items.len() - 1 - behind as usize;
        if stands_at(items, at, number) {
            return Ok(at);
        }
    }
    items.binary_search_by_key(&number, |item| item.number())
}

/// Returns true if the item at an index exists and has this number.
#[inline]
pub(crate) fn stands_at<T: Numbered>(items: &[T], at: usize, number: u128) -> bool
    ensures { result ≡ option_map_or (λ item. T.number item == number) (slice_get items.now at) false }
{
    match items.get(at) {
        Some(item) => item.number() == number,
        None => false,
    }
}

/// Returns the item after the one found, or the item at the insertion point if none was found.
#[inline]
pub(crate) fn behind<T>(items: &[T], place: Result<usize, usize>) -> Option<&T>
    requires { IfOk place (λ at. at < length items.now) }
    ensures { option_copied result ≡ slice_get items.now (index_behind place) }
{
    match place {
        Ok(at) => items.get(at + 1),
        Err(at) => items.get(at),
    }
}

/// Returns the item with the lowest number above that of `key`.
#[tactic(auto, using(crate::proofs::ItemLemmas::behind_place))]
pub fn next_above<'a, T: Numbered, K: Numbered>(items: &'a [T], key: &K) -> Option<&'a T>
    requires { Rises (map T.number items.now) }
    ensures { option_copied result ≡ slice_get (filter (λ item. nat_lt (K.number key.now) (T.number item)) items.now) 0 }
{
    behind(items, search(items, key))
}

/// Inserts an item at an index, within the vector's capacity.
pub fn insert_at<T: Drop>(items: &mut Vec<T>, at: usize, item: T)
    requires at { at ≤ vec_len items.old }
    requires room { vec_len items.old < vec_capacity items.old }
    ensures items { items.new.items ≡ insert items.old.items at item }
    ensures len { vec_len items.new ≡ vec_len items.old + 1 }
    ensures capacity { vec_capacity items.new ≡ vec_capacity items.old }
{
    let _ = items.insert(at, item);
}
