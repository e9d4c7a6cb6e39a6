// Names with what they are defined as.
ghost use Rattle.std.specs.Prelude.{◌≡◌, ℕ, List, [], OnOk, OnErr};
ghost use Rattle.nv_bytes.specs.Names.{defined, knowing};

use std::alloc::{AllocError, Global};
use std::collections::BTreeMap;
use std::marker::Model;

/// What each name was first defined as.
#[derive(Drop)]
pub struct Names<'a, D: Drop + Copy> {
    first: BTreeMap<&'a [u8], D>,
}

impl<'a, D: Drop + Copy> Model for Names<'a, D> {
    ghost use Rattle.std.specs.Prelude.{List, ℕ};
    ghost use Rattle.nv_bytes.specs.Names.{named};

    ghost Value = { List (List ℕ × D) };

    ghost view = { λ names. named names.first.entries };
}

impl<'a, D: Drop + Copy> Names<'a, D> {
    pub fn new(alloc: Global) -> Self
        ensures { result ≡ [] }
    {
        Names {
            first: BTreeMap::new(alloc),
        }
    }

    /// What the name is defined as.
    pub fn find(&self, name: &[u8]) -> Option<D>
        ensures { result ≡ defined self.now name.now }
    {
        self.first.get(name).copied()
    }

    /// Defines the name, if it isn't defined yet.
    pub fn define(&mut self, name: &'a [u8], definition: D) -> Result<(), AllocError>
        ensures ok { OnOk result ((other : List ℕ) → defined self.new other ≡ knowing self.old name.now definition other) }
        ensures err { OnErr result (self.new ≡ self.old) }
    {
        if self.first.contains_key(name) {
            return Ok(());
        }
        self.first.insert(name, definition)?;
        Ok(())
    }
}
