// A list that only proofs read. It takes no memory, and its methods do nothing at run time.
ghost use Rattle.std.specs.Prelude.{◌≡◌, List, [], ◌∷◌, ◌++◌, slice_set};
ghost use Rattle.std.specs.Borrow.{ftrue};

use std::marker::{Model, PhantomData};

/// A list that has no bytes, which a clause reads as `items`. Only the clauses tie it to what was there: whoever has one says in its own
/// model what of it is there.
#[derive(Drop)]
pub struct Whole<T> {
    of: PhantomData<T>,
    pub ghost items: { List T },
}

impl<T> Model for Whole<T> {
    ghost also_owns = { λ _. ftrue };
}

// It owns nothing.
unsafe impl<T: Send> Send for Whole<T> {}

impl<T> Whole<T> {
    /// Nothing yet.
    pub fn new() -> Whole<T>
        ensures { result.items ≡ [] }
    {
        Whole { of: PhantomData }
    }

    /// The same with one more.
    pub fn and(&self, _one: &T) -> Whole<T>
        ensures { result.items ≡ self.now.items ++ _one.now ∷ [] }
    {
        Whole { of: PhantomData }
    }

    /// The same with these too.
    pub fn and_all(&self, _more: &[T]) -> Whole<T>
        ensures { result.items ≡ self.now.items ++ _more.now }
    {
        Whole { of: PhantomData }
    }

    /// The same with another item at this place.
    pub fn with(&self, _place: usize, _one: &T) -> Whole<T>
        ensures { result.items ≡ slice_set self.now.items _place _one.now }
    {
        Whole { of: PhantomData }
    }
}
