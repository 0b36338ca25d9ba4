//! The widths of columns.
ghost use Rattle.std.specs.Prelude.{◌≡◌, ◌≤◌, ◌-◌};
ghost use Rattle.sn_types_faults.specs.Widths.{constant_width, folded_width, fold_of};

use sn_base::any_fold::AnyFold;
use sn_base::fold::{Max, Min, Or, SatSum};
use sn_query_grammar::ast::FoldWord;

/// The least width of at least 1 that holds a number.
pub fn constant_width(number: u64) -> u32
    ensures { result ≡ constant_width number }
{
    (64 - number.leading_zeros()).max(1)
}

/// The width of a column that a fold makes, from the width that it states and that of its column.
pub fn folded_width(word: FoldWord, own: u32, column: u32) -> u32
    ensures { result ≡ folded_width word own column }
{
    match word {
        FoldWord::Sum => own,
        FoldWord::Max | FoldWord::Min | FoldWord::Or => column,
    }
}

/// The fold of a word over values of this many bits.
pub fn fold_of(word: FoldWord, width: u32) -> AnyFold
    ensures { result ≡ fold_of word width }
{
    let v = width.clamp(1, 64);
    match word {
        FoldWord::Sum => AnyFold::SatSum(SatSum { v }),
        FoldWord::Max => AnyFold::Max(Max { v }),
        FoldWord::Min => AnyFold::Min(Min { v }),
        FoldWord::Or => AnyFold::Or(Or { v }),
    }
}
