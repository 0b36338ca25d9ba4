//! What a search asks of a space of plans.
ghost use Rattle.std.specs.Prelude.{◌≡◌, ◌<◌, ◌+◌, ◌^◌};
ghost use Rattle.sn_tree_space.specs.Space.{Space, SpaceLaws, IsPartial, IsSmall};

use crate::follow::Follow;

/// A space of plans: every plan is a list of choices, taken one after another. None of its calls takes memory.
pub trait Plans {
    /// The space.
    ghost space: { Self → Space };

    /// What may follow a partial plan.
    fn next_choices(&self, partial: &[u32]) -> Follow
        requires { IsPartial (space self.now) partial.now }
        ensures value { result ≡ (space self.now).follow partial.now }
        ensures small { IsSmall result };

    /// Whether a partial plan is broken, and so each plan after it.
    fn is_broken(&self, partial: &[u32]) -> bool
        requires { IsPartial (space self.now) partial.now }
        ensures { result ≡ (space self.now).broken partial.now };

    /// The lower bound of a partial plan: no plan after it costs less. At a complete one it is the cost.
    fn lower(&self, partial: &[u32]) -> u64
        requires { IsPartial (space self.now) partial.now }
        ensures { result ≡ (space self.now).lower partial.now };

    /// What makes it a space.
    ghost laws: { (s : Self) → SpaceLaws (space s) };
}
