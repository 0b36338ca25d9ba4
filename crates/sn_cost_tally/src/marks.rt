//! A mark for each place of a chain of registers, as one bit.
ghost use Rattle.std.specs.Prelude.{◌≡◌, ◌<◌, ◌≤◌, ◌++◌, length, drop, replicate, false, true, ◌&&◌, slice_index_or, slice_set, OnOk, if◌then◌else◌};

use sn_base::memory::Memory;
use std::alloc::Global;
use std::marker::Model;

/// A mark for each place, which contracts see as a list of truth values.
#[derive(Drop)]
pub struct Marks {
    words: Vec<u64>,
    count: usize,
}

impl Model for Marks {
    ghost use Rattle.std.specs.Prelude.{List, Bool, ◌≤◌, ◌*◌, length};
    ghost use Rattle.sn_cost_tally.specs.Marks.{marks_of};

    ghost Value = { List Bool };

    ghost view = { λ m. marks_of m.count m.words.items };

    ghost invariant = { λ m. m.count ≤ 64 * length m.words.items };
}

/// Sets the first words to 0.
fn erase(words: &mut [u64], count: usize)
    requires { count ≤ length words.old }
    ensures { words.new ≡ replicate count 0 ++ drop count words.old }
{
    words[..count].fill(0);
}

impl Marks {
    /// No mark.
    pub fn new(alloc: Global) -> Marks
        ensures { length result ≡ 0 }
    {
        Marks {
            words: Vec::new(alloc),
            count: 0,
        }
    }

    /// One mark for each of this many places, none of them set. Takes memory only where more are needed than ever before.
    ///
    /// # Errors
    /// Out of memory.
    pub fn clear(&mut self, alloc: Global, count: usize) -> Result<(), Memory>
        ensures { OnOk result (self.new ≡ replicate count false) }
    {
        let words = count / 64 + 1;
        if words <= self.words.len() {
            erase(self.words.as_mut_slice(), words);
        } else {
            self.words = vec![in alloc; 0; words]?;
        }
        self.count = count;
        Ok(())
    }

    /// Sets the mark of a place, if a place is looked for. Whether one is looked for still, since the mark was set before. No jump depends
    /// on a mark: which of them are set can't be foreseen.
    pub fn take(&mut self, place: usize, looking: bool) -> bool
        requires { place < length self.old }
        ensures still { result ≡ (looking && slice_index_or self.old place false) }
        ensures taken { self.new ≡ (if looking then slice_set self.old place true else self.old) }
    {
        let word = &mut self.words[place / 64];
        let bit = place % 64;
        let taken = *word >> bit & 1 == 1;
        *word |= u64::from(looking) << bit;
        looking & taken
    }
}
