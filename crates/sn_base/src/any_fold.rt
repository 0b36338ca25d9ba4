//! The four folds as one type.
ghost use Rattle.sn_base.specs.AnyFold.{any_has, any_unit, any_step, any_laws};

use crate::fold::{Fold, Max, Min, Or, SatSum};

/// One of the four folds. It does what the fold in it does.
#[derive(Clone, Copy, Debug, PartialEq, Eq)]
pub enum AnyFold {
    SatSum(SatSum),
    Max(Max),
    Min(Min),
    Or(Or),
}

impl Fold for AnyFold {
    ghost takes = { any_has };

    ghost start = { any_unit };

    ghost join = { any_step };

    ghost laws = { any_laws };

    fn has(self, a: u64) -> bool {
        match self {
            AnyFold::SatSum(f) => f.has(a),
            AnyFold::Max(f) => f.has(a),
            AnyFold::Min(f) => f.has(a),
            AnyFold::Or(f) => f.has(a),
        }
    }

    fn unit(self) -> u64 {
        match self {
            AnyFold::SatSum(f) => f.unit(),
            AnyFold::Max(f) => f.unit(),
            AnyFold::Min(f) => f.unit(),
            AnyFold::Or(f) => f.unit(),
        }
    }

    fn step(self, a: u64, b: u64) -> u64 {
        match self {
            AnyFold::SatSum(f) => f.step(a, b),
            AnyFold::Max(f) => f.step(a, b),
            AnyFold::Min(f) => f.step(a, b),
            AnyFold::Or(f) => f.step(a, b),
        }
    }
}
