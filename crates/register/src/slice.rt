//! Registers in lent slices: the first places of a slice hold the records, as many as a count says, and the places behind
//! them are free. The records may stand in any order, so that they are searched one by one.
ghost use Rattle.std.specs.Prelude.{◌≡◌, ◌+◌, ◌<◌, ◌≤◌, ◌∷◌, ◌++◌, length, take, drop, nat_lt, slice_index_or};
ghost use Rattle.std.specs.Ordering.{is_lt};
ghost use Rattle.std.specs.List.{position, insert, remove};
ghost use Rattle.register.specs.Lists.{first, without, changed, rises};
ghost use Rattle.register.specs.Slices.{spot, insertion, taken, register_inserted, slice_inserted, left, slice_removed};

use crate::key::Keyed;
use std::mem;

/// No place was free.
#[derive(Clone, Copy, PartialEq, Eq, Debug)]
pub struct Full;

/// The first of `count` records that has this key.
pub fn find<T: Keyed + Copy>(records: &[T], count: usize, key: &T::Key) -> Option<T>
    ensures { result ≡ first (λ x. T.Key.eq (T.keyed x) key.now) (take count records.now) }
{
    let register = first_places(records, count);
    register.iter().find(|record| record.key() == *key).copied()
}

/// Puts a record in the place of the first of `count` that has its key, and returns that one. Nothing changes where none
/// has.
pub fn replace<T: Keyed + Copy>(records: &mut [T], count: usize, new: T) -> Option<T>
    ensures replaced { result ≡ first (λ x. T.Key.eq (T.keyed x) (T.keyed new)) (take count records.old) }
    ensures after { records.new ≡ changed (λ x. T.Key.eq (T.keyed x) (T.keyed new)) (λ _. new) (take count records.old) ++ drop count records.old }
    ensures register { take count records.new ≡ changed (λ x. T.Key.eq (T.keyed x) (T.keyed new)) (λ _. new) (take count records.old) }
{
    let at = place_of(first_places(records, count), &new.key())?;
    Some(mem::replace(&mut records[at], new))
}

/// Puts a record in the place of the first of `count` that has its key, and returns that one. Where none has, and a place
/// behind them is free, the record goes before the first whose key is above its own.
pub fn insert<T: Keyed + Copy>(records: &mut [T], count: usize, new: T) -> Result<Option<T>, Full>
    ensures how { result ≡ insertion (first (λ x. T.Key.eq (T.keyed x) (T.keyed new)) (take count records.old)) (nat_lt count (length records.old)) }
    ensures after { records.new ≡ slice_inserted result (λ x. T.Key.eq (T.keyed x) (T.keyed new)) (λ x. is_lt (T.Key.cmp (T.keyed new) (T.keyed x))) new count records.old }
    ensures register { take (taken result count) records.new ≡ register_inserted result (λ x. T.Key.eq (T.keyed x) (T.keyed new)) (λ x. is_lt (T.Key.cmp (T.keyed new) (T.keyed x))) new (take count records.old) }
{
    if let Some(old) = replace(records, count, new) {
        return Ok(Some(old));
    }
    if records.len() <= count {
        return Err(Full);
    }
    let at = place_above(first_places(records, count), &new.key());
    enter(records, count, at, new);
    Ok(None)
}

/// Takes the first of `count` records that has this key out, and leaves it behind the others.
pub fn remove<T: Keyed + Copy>(records: &mut [T], count: usize, key: &T::Key) -> Option<T>
    ensures removed { result ≡ first (λ x. T.Key.eq (T.keyed x) key.now) (take count records.old) }
    ensures after { records.new ≡ slice_removed result (λ x. T.Key.eq (T.keyed x) key.now) count records.old }
    ensures register { count ≤ length records.old → take (left result count) records.new ≡ without (λ x. T.Key.eq (T.keyed x) key.now) (take count records.old) }
{
    let held = first_places(records, count);
    let end = held.len();
    let at = place_of(held, key)?;
    Some(strike(records, end, at))
}

/// Whether each record's key is below the next one's.
pub fn rises<T: Keyed>(records: &[T]) -> bool
    ensures { result ≡ rises (λ x y. is_lt (T.Key.cmp (T.keyed x) (T.keyed y))) records.now }
{
    records.is_sorted_by(|a, b| a.key() < b.key())
}

// The first `count` places of a slice, or all where it has fewer.
fn first_places<T>(records: &[T], count: usize) -> &[T]
    ensures { result.now ≡ take count records.now }
{
    &records[..count.min(records.len())]
}

// How many records stand before the first that has this key, where one has.
fn place_of<T: Keyed>(records: &[T], key: &T::Key) -> Option<usize>
    ensures { result ≡ position (λ x. T.Key.eq (T.keyed x) key.now) records.now }
{
    records.iter().position(|record| record.key() == *key)
}

// How many records stand before the first whose key is above this one.
fn place_above<T: Keyed>(records: &[T], key: &T::Key) -> usize
    ensures place { result ≡ spot (λ x. is_lt (T.Key.cmp key.now (T.keyed x))) records.now }
    ensures within { result ≤ length records.now }
{
    records
        .iter()
        .position(|record| *key < record.key())
        .unwrap_or(records.len())
}

// Puts a record at a place of the first `count` or right behind them, and moves those from there on up by one.
fn enter<T: Copy>(records: &mut [T], count: usize, at: usize, new: T)
    requires { (at ≤ count) × (count < length records.old) }
    ensures { records.new ≡ insert (take count records.old) at new ++ drop (count + 1) records.old }
{
    records.copy_within(at..count, at + 1);
    records[at] = new;
}

// Takes the record at a place out of the first `count`, and leaves it behind the others.
fn strike<T: Copy>(records: &mut [T], count: usize, at: usize) -> T
    requires { (at < count) × (count ≤ length records.old) }
    ensures struck { result ≡ slice_index_or records.old at result }
    ensures after { records.new ≡ remove (take count records.old) at ++ (result ∷ drop count records.old) }
{
    let held = &mut records[..count];
    let old = held[at];
    held[at..].rotate_left(1);
    old
}
