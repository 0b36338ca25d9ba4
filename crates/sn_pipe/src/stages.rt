//! The stages of a pipe, one after another.
ghost use Rattle.std.specs.Prelude.{◌≡◌, ◌+◌, ◌≤◌, IfSome, length, map};
ghost use Rattle.std.specs.Option.{option_map};
ghost use Rattle.sn_pipe.specs.Passing.{CanPass};
ghost use Rattle.sn_pipe.specs.Stages.{cleared, item_at, item_from, stages_after};

use crate::stage::{Passage, StageOf};
use sn_base::any_row::AnyRow;

/// Takes a row through stages, the first of which has number `first`. Where it gives an item, the answer is the number of the operator at
/// which it leaves, and `row` is the item's row. A row that another one is made of isn't copied before that: a copy of columns that have
/// just been written waits until the memory has them.
pub(crate) fn pass<R: AnyRow>(
    stages: &mut [StageOf<R>],
    level: u32,
    first: u8,
    row: &mut R,
) -> Option<u8>
    requires few { first + length stages.old ≤ 12 }
    requires can { CanPass level stages.old (R.columns row.old) }
    ensures item { option_map (λ i. item_at i (R.columns row.new)) result ≡ item_from level first stages.old (R.columns row.old) }
    ensures stages { stages.new ≡ stages_after level stages.old (R.columns row.old) }
    ensures operator { IfSome result (λ i. i ≤ 12) }
{
    let Some((stage, following)) = stages.split_first_mut() else {
        return Some(first);
    };
    let mut other = R::empty();
    match stage.pass(level, row, &mut other) {
        Passage::Same => pass(following, level, first + 1, row),
        Passage::Other => {
            let operator = pass(following, level, first + 1, &mut other)?;
            *row = other;
            Some(operator)
        }
        Passage::Stays => None,
        Passage::Over => Some(first),
    }
}

/// Empties all registers.
pub(crate) fn clear<R: AnyRow>(stages: &mut [StageOf<R>])
    ensures { stages.new ≡ map cleared stages.old }
{
    for stage in stages.iter_mut() {
        stage.clear();
    }
}
