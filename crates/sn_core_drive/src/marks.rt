//! The bits of a word that are 1.
ghost use Rattle.std.specs.Prelude.{◌≡◌, ◌<◌, ◌≤◌, Some, length, slice_get};
ghost use Rattle.std.specs.Int.{bit_at};
ghost use Rattle.sn_core_drive.specs.Picking.{marked, marked_from};

/// How many there are.
pub(crate) fn count_marked(word: u64) -> u32
    ensures count { result ≡ length (marked word) }
    ensures most { result ≤ 64 }
{
    word.count_ones()
}

/// The first of them from this place on, where there is one.
fn next_marked(word: u64, from: u32) -> u32
    requires { 0 < length (marked_from word from) }
    ensures within { result < 64 }
    ensures marked { bit_at word result ≡ 1 }
    ensures same { marked_from word from ≡ marked_from word result }
{
    let left = word >> from;
    from + left.trailing_zeros()
}

/// The one of this number, counted from the lowest.
pub(crate) fn nth_marked(word: u64, n: u32) -> u32
    requires { n < length (marked word) }
    ensures { slice_get (marked word) n ≡ Some result }
{
    let mut place = next_marked(word, 0);
    for _ in 0..n {
        place = next_marked(word, place + 1);
    }
    place
}
