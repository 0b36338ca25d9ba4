//! The plans of queries on a switch, as a space.
ghost use Rattle.std.specs.Prelude.{◌≡◌, ◌<◌, ◌+◌, ◌^◌, length, map, IfOk};
ghost use Rattle.sn_switch.specs.Texts.{IsSwitch};
ghost use Rattle.sn_tree_space.specs.Space.{IsPartial, IsSmall};
ghost use Rattle.sn_plan_choices.specs.Costs.{entry_in, HasPlaces};
ghost use Rattle.sn_plan_choices.proofs.Easy.{plans_laws};
ghost use Rattle.sn_plan_space.specs.Known.{known_query, numbered};
ghost use Rattle.sn_plan_space.specs.Reading.{plan_space};
ghost use Rattle.sn_plan_space.specs.Totals.{HasLimits};

use crate::known::KnownQuery;
use crate::queries::queries_of;
use crate::reading::{follow_at, lower_at, position_after, totals_after};
use sn_base::memory::Memory;
use sn_base::seq::Seq;
use sn_plan_choices::costs::CostTable;
use sn_switch::switch::Switch;
use sn_tree_space::follow::Follow;
use sn_tree_space::plans::Plans;
use sn_types::typed::Typed;

/// The plans of typed queries on a switch, with the costs of their pieces. What each choice costs and takes is worked out once.
#[derive(Drop)]
pub struct Planning<'a> {
    t: &'a Typed,
    s: &'a Switch,
    c: &'a CostTable,
    known: Seq<KnownQuery>,
    ghost limits: { HasLimits s.now },
    ghost known_is: { known ≡ map (known_query s.now (entry_in c.now)) (numbered 0 t.now.queries) },
}

impl<'a> Planning<'a> {
    /// The plans of these queries on this switch, where the table was made for them.
    ///
    /// # Errors
    /// Out of memory.
    pub fn make(t: &'a Typed, s: &'a Switch, c: &'a CostTable) -> Result<Planning<'a>, Memory>
        requires switch { IsSwitch s.now }
        requires places { HasPlaces c.now (length t.now.queries) }
        ensures { IfOk result (λ planning. plan_space planning.t.now.queries planning.s.now planning.c.now ≡ plan_space t.now.queries s.now c.now) }
    {
        let known = queries_of(t.alloc, s, c, t.queries.as_slice())?;
        Ok(Planning { t, s, c, known })
    }
}

impl Plans for Planning<'_> {
    ghost space = { λ p. plan_space p.t.now.queries p.s.now p.c.now };

    fn next_choices(&self, partial: &[u32]) -> Follow {
        let position = position_after(self.s.stages, self.known.as_slice(), partial);
        follow_at(position, self.s.stages)
    }

    fn is_broken(&self, partial: &[u32]) -> bool {
        totals_after(self.s.stages, self.known.as_slice(), partial).is_too_much(self.s)
    }

    fn lower(&self, partial: &[u32]) -> u64 {
        lower_at(position_after(self.s.stages, self.known.as_slice(), partial))
    }

    ghost laws = { λ p. plans_laws p.s.now (entry_in p.c.now) p.t.now.queries };
}
