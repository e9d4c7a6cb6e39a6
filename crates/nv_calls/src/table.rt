// A list that grows at its end, and of which any item may be let go.
ghost use Rattle.std.specs.Prelude.{◌≡◌, ◌≢◌, ◌+◌, ◌≤◌, ◌<◌, ◌++◌, ℕ, [], ◌∷◌, length, remove, slice_get, slice_set, slice_index, Some, OnOk, IfSome, IfNone};
ghost use Rattle.nv_calls.specs.Tables.{Ascends};

use crate::whole::Whole;
use std::alloc::{AllocError, Global};
use std::marker::Model;
use std::mem;

// Where a number stands if none is gone between the first that is there and it: mostly so, and found without a search.
fn guess(numbers: &[usize], number: usize) -> Option<usize>
    ensures { IfSome result (λ p. (p < length numbers.now) × (slice_index numbers.now p ≡ number)) }
{
    let place = number.checked_sub(*numbers.first()?)?;
    if *numbers.get(place)? == number {
        Some(place)
    } else {
        None
    }
}

/// Items numbered from 0 in the order in which they came, of which some may be let go. In contracts it is the whole list, with the
/// numbers of those that are there, ascending. A place is a place among those that are there.
#[derive(Drop)]
pub struct Table<T> {
    whole: Whole<T>,
    count: usize,
    numbers: Vec<usize>,
    kept: Vec<T>,
}

impl<T> Model for Table<T> {
    ghost use Rattle.std.specs.Prelude.{◌≡◌, ◌≤◌, length, vec_len, vec_capacity};
    ghost use Rattle.nv_calls.specs.Tables.{Sparse, Ascends, Keeps, table_most};

    ghost Value = { Sparse T };

    ghost view = { λ t. record { items = t.whole.items; numbers = t.numbers.items; most = table_most t.count (vec_len t.numbers) (vec_capacity t.numbers) (vec_capacity t.kept) } };

    ghost invariant = { λ t. (t.count ≡ length t.whole.items) × Ascends t.count t.numbers.items × Keeps t.whole.items t.numbers.items t.kept.items × (length t.numbers.items ≡ vec_len t.numbers) × (length t.kept.items ≡ vec_len t.kept) × (vec_len t.numbers ≤ t.count) × (t.count ≤ 18446744073709551615) };
}

impl<T> Table<T> {
    /// Nothing yet.
    pub fn new(alloc: Global) -> Table<T>
        ensures items { result.items ≡ [] }
        ensures numbers { result.numbers ≡ [] }
    {
        Table {
            whole: Whole::new(),
            count: 0,
            numbers: Vec::new(alloc),
            kept: Vec::new(alloc),
        }
    }

    /// How many came, with those that are gone.
    pub fn len(&self) -> usize
        ensures { result ≡ length self.now.items }
    {
        self.count
    }

    /// The numbers of those that are there.
    pub fn numbers(&self) -> &[usize]
        ensures numbers { result.now ≡ self.now.numbers }
        ensures ascending { Ascends (length self.now.items) self.now.numbers }
        ensures few { length self.now.numbers ≤ length self.now.items }
    {
        self.numbers.as_slice()
    }

    /// Those that are there, each at its place.
    pub fn kept(&self) -> &[T]
        ensures as_many { length result.now ≡ length self.now.numbers }
        ensures each { (p : ℕ) → p < length self.now.numbers → slice_get result.now p ≡ slice_get self.now.items (slice_index self.now.numbers p) }
        ensures all { length self.now.numbers ≡ length self.now.items → result.now ≡ self.now.items }
    {
        self.kept.as_slice()
    }

    /// The place of the item with this number, if it is there.
    pub fn place(&self, number: usize) -> Option<usize>
        ensures there { IfSome result (λ p. (p < length self.now.numbers) × (slice_index self.now.numbers p ≡ number) × (number < length self.now.items)) }
        ensures gone { IfNone result ((p : ℕ) → p < length self.now.numbers → slice_index self.now.numbers p ≢ number) }
        ensures all { length self.now.numbers ≡ length self.now.items → number < length self.now.items → result ≡ Some number }
    {
        let numbers = self.numbers.as_slice();
        if let Some(place) = guess(numbers, number) {
            return Some(place);
        }
        match numbers.binary_search(&number) {
            Ok(place) => Some(place),
            Err(_) => None,
        }
    }

    /// The item at a place.
    pub fn at(&self, place: usize) -> &T
        requires { place < length self.now.numbers }
        ensures { slice_get self.now.items (slice_index self.now.numbers place) ≡ Some result.now }
    {
        &self.kept[place]
    }

    /// The number of the item at a place.
    pub fn number(&self, place: usize) -> usize
        requires { place < length self.now.numbers }
        ensures is { result ≡ slice_index self.now.numbers place }
        ensures inside { result < length self.now.items }
    {
        self.numbers[place]
    }

    /// Memory for so many more.
    pub fn reserve(&mut self, more: usize) -> Result<(), AllocError>
        ensures items { self.new.items ≡ self.old.items }
        ensures numbers { self.new.numbers ≡ self.old.numbers }
        ensures most { self.old.most ≤ self.new.most }
        ensures ok { OnOk result (length self.new.items + more ≤ self.new.most) }
    {
        if more > usize::MAX - self.count {
            return Err(AllocError);
        }
        self.numbers.reserve(more)?;
        self.kept.reserve(more)?;
        Ok(())
    }

    /// One more, for which there is memory. Its number is how many came before it.
    pub fn push(&mut self, one: T)
        requires { length self.old.items < self.old.most }
        ensures items { self.new.items ≡ self.old.items ++ one ∷ [] }
        ensures numbers { self.new.numbers ≡ self.old.numbers ++ length self.old.items ∷ [] }
        ensures most { self.new.most ≡ self.old.most }
    {
        self.whole = self.whole.and(&one);
        self.numbers.push_reserved(self.count);
        self.kept.push_reserved(one);
        self.count += 1;
    }

    /// Another item at a place, for the one that was there.
    pub fn replace(&mut self, place: usize, one: T) -> T
        requires { place < length self.old.numbers }
        ensures was { slice_get self.old.items (slice_index self.old.numbers place) ≡ Some result }
        ensures items { self.new.items ≡ slice_set self.old.items (slice_index self.old.numbers place) one }
        ensures numbers { self.new.numbers ≡ self.old.numbers }
        ensures most { self.new.most ≡ self.old.most }
    {
        self.whole = self.whole.with(self.numbers[place], &one);
        mem::replace(&mut self.kept[place], one)
    }
}

impl<T: Drop> Table<T> {
    /// The item at a place isn't there any more.
    pub fn let_go(&mut self, place: usize)
        requires { place < length self.old.numbers }
        ensures items { self.new.items ≡ self.old.items }
        ensures numbers { self.new.numbers ≡ remove self.old.numbers place }
        ensures most { self.old.most ≤ self.new.most }
    {
        self.numbers.remove(place);
        self.kept.remove(place);
    }
}
