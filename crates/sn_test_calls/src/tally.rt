//! How many calls of each kind answered as they are to.
use crate::trouble::Trouble;
use std::alloc::Global;

/// A kind of calls, and how many of them answered as wanted and otherwise.
#[derive(Drop)]
pub struct Kind {
    name: String,
    alike: u64,
    different: u64,
}

impl Kind {
    /// The kind's name.
    pub fn name(&self) -> &str {
        self.name.as_str()
    }

    /// How many calls answered as wanted.
    pub fn alike(&self) -> u64 {
        self.alike
    }

    /// How many calls answered otherwise.
    pub fn different(&self) -> u64 {
        self.different
    }

    fn count(&mut self, differs: bool) {
        if differs {
            self.different = self.different.saturating_add(1);
        } else {
            self.alike = self.alike.saturating_add(1);
        }
    }
}

/// The kinds of the calls that were made, in the order in which each came first.
#[derive(Drop)]
pub struct Tally {
    kinds: Vec<Kind>,
}

impl Tally {
    /// No call.
    pub fn new(alloc: Global) -> Tally {
        Tally {
            kinds: Vec::new(alloc),
        }
    }

    /// Counts a call of a kind.
    pub fn count(&mut self, alloc: Global, name: &str, differs: bool) -> Result<(), Trouble> {
        for kind in self.kinds.iter_mut() {
            if kind.name.as_str() == name {
                kind.count(differs);
                return Ok(());
            }
        }
        let mut kind = Kind {
            name: String::from_str(alloc, name)?,
            alike: 0,
            different: 0,
        };
        kind.count(differs);
        self.kinds.push(kind)?;
        Ok(())
    }

    /// The kinds, each with its counts.
    pub fn kinds(&self) -> &[Kind] {
        &self.kinds
    }

    /// How many calls of all kinds answered as wanted, and how many otherwise.
    pub fn sums(&self) -> (u64, u64) {
        let (mut alike, mut different) = (0u64, 0u64);
        for kind in &self.kinds {
            alike = alike.saturating_add(kind.alike);
            different = different.saturating_add(kind.different);
        }
        (alike, different)
    }
}
