//! What the fronts of a query answered in the window that was trained last.
ghost use Rattle.std.specs.Prelude.{◌≡◌, ◌<◌, ◌^◌, length, None, []};
ghost use Rattle.std.specs.FinSet as set;
ghost use Rattle.sn_cost.specs.Training.{IsKept};
ghost use Rattle.sn_refine.specs.Steps.{kept_at};
ghost use Rattle.sn_windows.specs.Rising.{IsAbove};

use sn_base::members::Members;
use sn_base::seq::Seq;
use sn_ops::packets::Kept;
use sn_refine::refined::follows;
use std::alloc::Global;

/// What the fronts of a query answered in the window that was trained last.
#[derive(Drop)]
pub(crate) struct Fronts {
    /// The window that was trained last.
    pub last: Option<u64>,
    /// The prefixes that each front answered in it, by the front's number: bit i for level i. Only those are asked for that end before the finest level.
    pub sets: Seq<Members>,
}

impl Fronts {
    /// No window was trained yet.
    pub(crate) fn new(alloc: Global) -> Fronts
        ensures last { result.last ≡ None }
        ensures sets { result.sets ≡ [] }
    {
        Fronts {
            last: None,
            sets: Seq::new(alloc),
        }
    }

    /// The prefixes that a front answered in the window before this one: none where that was not given.
    fn answered_before<'a>(&'a self, w: u64, front: u32, none: &'a Members) -> &'a Members
        requires above { IsAbove self.now.last w }
        requires none { none.now ≡ set.empty }
        ensures { result.now ≡ kept_at self.now.last self.now.sets w front }
    {
        if !follows(self.last, w) {
            return none;
        }
        match self.sets.as_slice().get(front as usize) {
            Some(members) => members,
            None => none,
        }
    }

    /// The prefixes by which the level after a front of these levels sees the tuples of a window. It sees all after no level.
    pub(crate) fn kept_after<'a>(
        &'a self,
        levels: &[u32],
        front: u32,
        w: u64,
        none: &'a Members,
    ) -> Option<Kept<'a>>
        requires above { IsAbove self.now.last w }
        requires front { front < 2 ^ length levels.now }
        requires none { none.now ≡ set.empty }
        ensures { IsKept levels.now self.now.last self.now.sets w front result }
    {
        if front == 0 {
            return None;
        }
        Some(Kept {
            members: self.answered_before(w, front, none),
            bits: levels[front.ilog2() as usize],
        })
    }
}
