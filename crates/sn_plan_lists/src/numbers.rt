//! The numbers of paths, fronts and options.
ghost use Rattle.std.specs.Prelude.{◌≡◌, ◌≤◌, ◌<◌, take, length};
ghost use Rattle.sn_switch.specs.Texts.{IsSwitch};
ghost use Rattle.sn_plan_fit.specs.Paths.{is_among};
ghost use Rattle.sn_plan_choices.specs.Settings.{IsNarrow};
ghost use Rattle.sn_plan_lists.specs.Costs.{is_upto, front_of};
ghost use Rattle.sn_plan_lists.specs.Numbers.{path_number, is_setting, option_number};

use sn_plan_choices::setting::{Setting, branch_option, branch_options};
use sn_plan_grammar::plan::Piece;
use sn_switch::switch::Switch;
use sn_types::typed_query::TypedBranch;

fn stands_on(path: &[u32], level: u32) -> bool
    ensures { result ≡ is_among path.now level }
{
    path.iter().any(|other| level == *other)
}

/// The number of a path among those of these levels.
pub(crate) fn path_number(levels: &[u32], path: &[u32]) -> u32
    requires { length levels.now ≤ 4 }
    ensures { result ≡ path_number levels.now path.now }
{
    let mut number = 0;
    let mut bit = 1;
    for i in 1..levels.len() {
        if stands_on(path, levels[i - 1]) {
            number += bit;
        }
        bit *= 2;
    }
    number
}

/// Whether a level stands on a path, up to another.
fn is_upto(path: &[u32], level: u32, known: u32) -> bool
    ensures { result ≡ is_upto path.now level known }
{
    stands_on(path, known) && known <= level
}

/// The front of a path up to a level: bit i is set where level i of these stands on it.
pub(crate) fn front_of(levels: &[u32], path: &[u32], level: u32) -> u32
    requires { length levels.now ≤ 4 }
    ensures value { result ≡ front_of levels.now path.now level }
    ensures small { result < 16 }
{
    let mut front = 0;
    let mut bit = 1;
    for known in levels {
        if is_upto(path, level, *known) {
            front += bit;
        }
        bit *= 2;
    }
    front
}

/// Whether a piece has this option.
fn has_option(piece: &Piece, option: Setting) -> bool
    requires { option.used ≤ 2 }
    ensures { result ≡ is_setting (piece.now.cut, piece.now.slots) (option.cut, take option.used option.sizes) }
{
    let sizes = &option.sizes[..option.used as usize];
    piece.cut == option.cut && piece.slots.as_slice() == sizes
}

/// The number of a piece's option among those of its branch.
pub(crate) fn option_number(s: &Switch, branch: &TypedBranch, piece: &Piece) -> u32
    requires switch { IsSwitch s.now }
    requires narrow { IsNarrow branch.now }
    ensures value { result ≡ option_number s.now branch.now (piece.now.cut, piece.now.slots) }
    ensures most { result ≤ 208 }
{
    let count = branch_options(s, branch);
    for n in 0..count {
        if has_option(piece, branch_option(s, branch, n)) {
            return n;
        }
    }
    count
}
