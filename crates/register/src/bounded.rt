//! Registers that hold their own places, at most as many as their type says.
ghost use Rattle.std.specs.Prelude.{◌≡◌, ◌==◌, ◌≤◌, if◌then◌else◌, [], ◌∷◌, ◌++◌, length, nat_lt, nat_le, Ok, Err};
ghost use Rattle.std.specs.Ordering.{is_lt};
ghost use Rattle.register.specs.Lists.{first, without, changed};
ghost use Rattle.register.specs.Slices.{full, insertion, register_inserted};

use crate::key::Keyed;
use crate::slice::{self, Full};
use std::marker::Model;

/// At most `N` records, in the first places of an array.
#[derive(Clone, Debug, Drop)]
pub struct Register<T, const N: usize> {
    places: [T; N],
    count: usize,
}

// Clauses see the records in turn.
impl<T, const N: usize> Model for Register<T, N> {
    ghost use Rattle.std.specs.Prelude.{◌≤◌, List, take};

    ghost Value = { List T };

    ghost view = { λ r. take r.count r.places };

    ghost invariant = { λ r. r.count ≤ N };
}

impl<T: Keyed + Copy, const N: usize> Register<T, N> {
    /// No record yet; `blank` stands in the free places.
    pub fn new(blank: T) -> Self
        ensures { result ≡ [] }
    {
        Register {
            places: [blank; N],
            count: 0,
        }
    }

    /// These records in turn, where they are at most `N`; `blank` stands in the free places.
    pub fn with_records(blank: T, records: &[T]) -> Result<Self, Full>
        ensures { result ≡ (if nat_le (length records.now) N then Ok records.now else Err full) }
    {
        if records.len() > N {
            return Err(Full);
        }
        let mut places = [blank; N];
        places[..records.len()].copy_from_slice(records);
        Ok(Register {
            places,
            count: records.len(),
        })
    }

    /// The records in turn.
    pub fn as_slice(&self) -> &[T]
        ensures items { result.now ≡ self.now }
        ensures within { length self.now ≤ N }
    {
        &self.places[..self.count]
    }

    /// How many records there are.
    pub fn len(&self) -> usize
        ensures count { result ≡ length self.now }
        ensures within { length self.now ≤ N }
    {
        self.as_slice().len()
    }

    /// Whether there is no record.
    pub fn is_empty(&self) -> bool
        ensures { result ≡ (length self.now == 0) }
    {
        self.count == 0
    }

    /// Whether no place is free.
    pub fn is_full(&self) -> bool
        ensures full { result ≡ (length self.now == N) }
        ensures within { length self.now ≤ N }
    {
        self.count == N
    }

    /// The first record that has this key.
    pub fn find(&self, key: &T::Key) -> Option<T>
        ensures { result ≡ first (λ x. T.Key.eq (T.keyed x) key.now) self.now }
    {
        slice::find(&self.places, self.count, key)
    }

    /// Puts a record in the place of the first that has its key, and returns that one. Nothing changes where none has.
    pub fn replace(&mut self, new: T) -> Option<T>
        ensures replaced { result ≡ first (λ x. T.Key.eq (T.keyed x) (T.keyed new)) self.old }
        ensures after { self.new ≡ changed (λ x. T.Key.eq (T.keyed x) (T.keyed new)) (λ _. new) self.old }
        ensures within { length self.new ≤ N }
    {
        slice::replace(&mut self.places, self.count, new)
    }

    /// Puts a record in the place of the first that has its key, and returns that one. Where none has, and a place is
    /// free, the record goes before the first whose key is above its own.
    pub fn insert(&mut self, new: T) -> Result<Option<T>, Full>
        ensures how { result ≡ insertion (first (λ x. T.Key.eq (T.keyed x) (T.keyed new)) self.old) (nat_lt (length self.old) N) }
        ensures after { self.new ≡ register_inserted result (λ x. T.Key.eq (T.keyed x) (T.keyed new)) (λ x. is_lt (T.Key.cmp (T.keyed new) (T.keyed x))) new self.old }
        ensures within { length self.new ≤ N }
    {
        let replaced = slice::insert(&mut self.places, self.count, new)?;
        if replaced.is_none() {
            self.count += 1;
        }
        Ok(replaced)
    }

    /// Puts a record behind the others.
    pub fn push(&mut self, new: T) -> Result<(), Full>
        ensures how { result ≡ (if nat_lt (length self.old) N then Ok tt else Err full) }
        ensures after { self.new ≡ (if nat_lt (length self.old) N then self.old ++ new ∷ [] else self.old) }
        ensures within { length self.new ≤ N }
    {
        if self.is_full() {
            return Err(Full);
        }
        self.places[self.count] = new;
        self.count += 1;
        Ok(())
    }

    /// Takes the first record that has this key out.
    pub fn remove(&mut self, key: &T::Key) -> Option<T>
        ensures removed { result ≡ first (λ x. T.Key.eq (T.keyed x) key.now) self.old }
        ensures after { self.new ≡ without (λ x. T.Key.eq (T.keyed x) key.now) self.old }
        ensures within { length self.new ≤ N }
    {
        let removed = slice::remove(&mut self.places, self.count, key);
        if removed.is_some() {
            self.count -= 1;
        }
        removed
    }
}
