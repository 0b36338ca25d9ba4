//! The front of a list of numbers.
ghost use Rattle.std.specs.Prelude.{◌≡◌, ◌≤◌, take, drop, length, slice_index};

use sn_plan_grammar::short::Short;
use std::alloc::Global;

/// The first number, and 0 where there is none.
pub(crate) fn first(numbers: &[u32]) -> u32
    ensures { result ≡ slice_index numbers.now 0 }
{
    match numbers {
        [] => 0,
        [first, ..] => *first,
    }
}

/// The first n numbers, or all of them, and the rest.
pub(crate) fn split<'a>(numbers: &'a [u32], count: usize) -> (&'a [u32], &'a [u32])
    ensures front { result.0.now ≡ take count numbers.now }
    ensures following { result.1.now ≡ drop count numbers.now }
{
    numbers.split_at(count.min(numbers.len()))
}

/// At most eight numbers as a short list.
pub(crate) fn short(alloc: Global, numbers: &[u32]) -> Short
    requires { length numbers.now ≤ 8 }
    ensures { result ≡ numbers.now }
{
    match Short::new(alloc, numbers) {
        Some(held) => held,
        None => unreachable!(),
    }
}
