//! The options of a piece: a cut, and the sizes of the stateful operators before it.
ghost use Rattle.std.specs.Prelude.{◌≡◌, ◌<◌, ◌≤◌, ℕ, [], length, slice_get, unwrap_or};
ghost use Rattle.sn_switch.specs.Texts.{IsSwitch};
ghost use Rattle.sn_types.specs.Typed.{query_at, branch_at};
ghost use Rattle.sn_plan_choices.specs.Options.{size_lists, options, option_at};
ghost use Rattle.sn_plan_choices.specs.Settings.{IsNarrow, written};

use sn_plan_fit::piece::prefix;
use sn_switch::switch::Switch;
use sn_types::cuts::stateful;
use sn_types::typed::Typed;
use sn_types::typed_query::TypedBranch;

/// An option of a piece.
#[derive(Clone, Copy, Debug, PartialEq, Eq)]
pub struct Setting {
    /// How many of the branch's first operators stand in the switch.
    pub cut: u32,
    /// How many of the sizes count: one for each distinct and reduce before the cut.
    pub used: u32,
    /// The sizes of their registers, in slots. The others are 0.
    pub sizes: [u32; 2],
}

/// The number of lists of this many sizes.
fn ways(sizes: &[u32], count: usize) -> u32
    requires sizes { length sizes.now ≤ 4 }
    requires count { count ≤ 2 }
    ensures value { result ≡ length (size_lists sizes.now count) }
    ensures most { result ≤ 16 }
{
    let known = sizes.len() as u32;
    if count == 0 {
        1
    } else if count == 1 {
        known
    } else {
        known * known
    }
}

/// The option of a cut with no size.
fn unused(cut: u32) -> Setting
    ensures { result ≡ written (cut, []) }
{
    Setting {
        cut,
        used: 0,
        sizes: [0, 0],
    }
}

/// The option of a cut with list n of this many sizes.
fn setting_at(sizes: &[u32], cut: u32, count: usize, n: u32) -> Setting
    requires count { count ≤ 2 }
    requires n { n < length (size_lists sizes.now count) }
    ensures value { result ≡ written (cut, unwrap_or (slice_get (size_lists sizes.now count) n) []) }
    ensures cut { result.cut ≡ cut }
    ensures few { result.used ≤ 2 }
{
    let n = n as usize;
    let known = sizes.len();
    if count == 0 {
        unused(cut)
    } else if count == 1 {
        Setting {
            cut,
            used: 1,
            sizes: [sizes[n], 0],
        }
    } else {
        Setting {
            cut,
            used: 2,
            sizes: [sizes[n / known], sizes[n % known]],
        }
    }
}

/// How many options a piece of a branch has.
pub fn branch_options(s: &Switch, branch: &TypedBranch) -> u32
    requires switch { IsSwitch s.now }
    requires narrow { IsNarrow branch.now }
    ensures count { result ≡ length (options s.now branch.now) }
    ensures most { result ≤ 208 }
{
    let mut count = 0;
    for cut in 0..branch.max_cut + 1 {
        count += ways(s.slots.as_slice(), stateful(prefix(branch, cut)));
    }
    count
}

/// Option n of a piece of a branch. Past the last one it is that of cut 0.
pub fn branch_option(s: &Switch, branch: &TypedBranch, n: u32) -> Setting
    requires switch { IsSwitch s.now }
    requires narrow { IsNarrow branch.now }
    ensures value { result ≡ written (option_at s.now branch.now n) }
    ensures cut { result.cut ≤ branch.now.max_cut }
    ensures few { result.used ≤ 2 }
{
    let sizes = s.slots.as_slice();
    let mut left = n;
    for cut in 0..branch.max_cut + 1 {
        let count = stateful(prefix(branch, cut));
        let known = ways(sizes, count);
        if left < known {
            return setting_at(sizes, cut, count, left);
        }
        left -= known;
    }
    unused(0)
}

/// How many options a piece of this branch has: each cut of the branch, with each list of sizes for the stateful operators before it. The switch
/// is one that a text can stand for. It takes no memory.
pub fn options(t: &Typed, s: &Switch, q: u32, b: u32) -> u32
    requires switch { IsSwitch s.now }
    requires query { q < length t.now.queries }
    requires branch { b < length (query_at t.now.queries q).branches }
    ensures count { result ≡ length (options s.now (branch_at t.now.queries q b)) }
    ensures most { result ≤ 208 }
{
    branch_options(s, t.branch(q, b))
}

/// An option of a piece of this branch, by its number: the cuts rise, and within a cut the lists of sizes come in lexicographic order of the
/// switch's sizes. The switch is one that a text can stand for. It takes no memory.
pub fn option_at(t: &Typed, s: &Switch, q: u32, b: u32, n: u32) -> Setting
    requires switch { IsSwitch s.now }
    requires query { q < length t.now.queries }
    requires branch { b < length (query_at t.now.queries q).branches }
    requires option { n < length (options s.now (branch_at t.now.queries q b)) }
    ensures { result ≡ written (option_at s.now (branch_at t.now.queries q b) n) }
{
    branch_option(s, t.branch(q, b), n)
}
