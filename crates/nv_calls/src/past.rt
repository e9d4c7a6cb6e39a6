// A list that grows at its end, and whose beginning may be let go.
ghost use Rattle.std.specs.Prelude.{◌≡◌, ◌+◌, ◌≤◌, ◌<◌, ◌++◌, [], ◌∷◌, List, length, drop, OnOk};

use crate::whole::Whole;
use std::alloc::{AllocError, Global};
use std::marker::Model;

/// In contracts it is the whole list, of which so many items from the first on are gone: they have no bytes, and what clauses say of
/// them was proved while they were there.
#[derive(Drop)]
pub struct Past<T> {
    whole: Whole<T>,
    gone: usize,
    kept: Vec<T>,
}

impl<T> Model for Past<T> {
    ghost use Rattle.std.specs.Prelude.{◌≡◌, ◌+◌, ◌≤◌, length, drop, vec_len, vec_capacity};
    ghost use Rattle.nv_calls.specs.Known.{Known, most_of};

    ghost Value = { Known T };

    ghost view = { λ p. record { items = p.whole.items; gone = p.gone; most = most_of p.gone (vec_capacity p.kept) } };

    ghost invariant = { λ p. (p.kept.items ≡ drop p.gone p.whole.items) × (p.gone + vec_len p.kept ≡ length p.whole.items) × (length p.whole.items ≤ 18446744073709551615) };
}

impl<T> Past<T> {
    /// Nothing yet.
    pub fn new(alloc: Global) -> Past<T>
        ensures items { result.items ≡ [] }
        ensures gone { result.gone ≡ 0 }
    {
        Past {
            whole: Whole::new(),
            gone: 0,
            kept: Vec::new(alloc),
        }
    }

    /// How long it is, with what is gone.
    pub fn len(&self) -> usize
        ensures { result ≡ length self.now.items }
    {
        self.gone + self.kept.len()
    }

    /// How many are gone.
    pub fn gone(&self) -> usize
        ensures { result ≡ self.now.gone }
    {
        self.gone
    }

    /// What is there.
    pub fn kept(&self) -> &[T]
        ensures kept { result.now ≡ drop self.now.gone self.now.items }
        ensures inside { self.now.gone + length result.now ≡ length self.now.items }
    {
        self.kept.as_slice()
    }

    /// Memory for so many more.
    pub fn reserve(&mut self, more: usize) -> Result<(), AllocError>
        ensures items { self.new.items ≡ self.old.items }
        ensures gone { self.new.gone ≡ self.old.gone }
        ensures most { self.old.most ≤ self.new.most }
        ensures ok { OnOk result (length self.new.items + more ≤ self.new.most) }
    {
        if more > usize::MAX - (self.gone + self.kept.len()) {
            return Err(AllocError);
        }
        self.kept.reserve(more)?;
        Ok(())
    }

    /// One more, for which there is memory.
    pub fn push(&mut self, one: T)
        requires { length self.old.items < self.old.most }
        ensures items { self.new.items ≡ self.old.items ++ one ∷ [] }
        ensures gone { self.new.gone ≡ self.old.gone }
        ensures last { self.new.gone < length self.new.items }
        ensures most { self.new.most ≡ self.old.most }
    {
        self.whole = self.whole.and(&one);
        self.kept.push_reserved(one);
    }

    /// The last of them, which is there.
    pub fn last(&self) -> &T
        requires { self.now.gone < length self.now.items }
        ensures { (past : List T) (x : T) → self.now.items ≡ past ++ x ∷ [] → result.now ≡ x }
    {
        let kept = self.kept.as_slice();
        &kept[kept.len() - 1]
    }
}

impl<T: Copy> Past<T> {
    /// These too, for which there is memory.
    pub fn append(&mut self, more: &[T])
        requires { length self.old.items + length more.now ≤ self.old.most }
        ensures items { self.new.items ≡ self.old.items ++ more.now }
        ensures gone { self.new.gone ≡ self.old.gone }
        ensures most { self.old.most ≤ self.new.most }
    {
        self.whole = self.whole.and_all(more);
        let _ = self.kept.extend_from_slice(more);
    }
}

impl<T: Drop> Past<T> {
    /// Nothing of it is there any more, and its memory is given back.
    pub fn give_back(&mut self, alloc: Global)
        ensures items { self.new.items ≡ self.old.items }
        ensures gone { self.new.gone ≡ length self.old.items }
    {
        self.let_go();
        self.kept = Vec::new(alloc);
    }

    /// Nothing of it is there any more but the memory.
    pub fn let_go(&mut self)
        ensures items { self.new.items ≡ self.old.items }
        ensures gone { self.new.gone ≡ length self.old.items }
        ensures most { self.old.most ≤ self.new.most }
    {
        self.gone += self.kept.len();
        self.kept.clear();
    }

    /// One more, for which there is memory, and of those before it nothing is there any more.
    pub fn push_alone(&mut self, one: T)
        requires { length self.old.items < self.old.most }
        ensures items { self.new.items ≡ self.old.items ++ one ∷ [] }
        ensures gone { self.new.gone ≡ length self.old.items }
        ensures last { self.new.gone < length self.new.items }
        ensures most { self.old.most ≤ self.new.most }
    {
        self.let_go();
        self.push(one);
    }
}
