//! A set of prefixes.
ghost use Rattle.std.specs.Prelude.{◌≡◌, OnOk, OnErr};
ghost use Rattle.std.specs.Ordering.{nat_cmp};
ghost use Rattle.std.specs.FinSet as set;

use crate::memory::Memory;
use std::alloc::Global;
use std::collections::BTreeSet;
use std::marker::Model;

/// A set of prefixes: the numbers that a refinement column answered. A look-up takes a number of steps that
/// grows with the logarithm of the set's size, whatever the prefixes are.
#[derive(Drop)]
pub struct Members {
    prefixes: BTreeSet<u128>,
}

impl Model for Members {
    ghost use Rattle.std.specs.Ordering.{nat_cmp};
    ghost use Rattle.std.specs.FinSet as set;
    ghost use Rattle.std.specs.Coded.{coded_ℕ};

    ghost Value = { set.FinSet nat_cmp };

    ghost coded = { set.code coded_ℕ };

    ghost view = { λ a. set.from_list a.prefixes.keys };
}

impl Members {
    /// The empty set.
    pub fn new(alloc: Global) -> Members
        ensures { result ≡ set.empty }
    {
        Members {
            prefixes: BTreeSet::new(alloc),
        }
    }

    /// Adds a prefix. An `Err` changes nothing.
    pub fn add(&mut self, prefix: u128) -> Result<(), Memory>
        ensures ok { OnOk result (self.new ≡ set.insert self.old prefix) }
        ensures err { OnErr result (self.new ≡ self.old) }
    {
        match self.prefixes.insert(prefix) {
            Ok(_) => Ok(()),
            Err(_) => Err(Memory),
        }
    }

    /// How many prefixes are in the set.
    pub fn len(&self) -> u64
        ensures { result ≡ set.len self.now }
    {
        self.prefixes.len() as u64
    }

    /// Whether a prefix is in the set.
    pub fn has(&self, prefix: u128) -> bool
        ensures { result ≡ set.contains self.now prefix }
    {
        self.prefixes.contains(&prefix)
    }
}
