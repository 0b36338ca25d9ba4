//! Numbers that are drawn, the same in each run.

use sn_gen::draws::Draws;

/// Draws a number below another, or 0 where there is none below.
pub fn below(draws: &mut Draws, most: usize) -> usize {
    let drawn = draws.draw();
    if most == 0 {
        0
    } else {
        (drawn % most as u64) as usize
    }
}

/// Draws one of these numbers, or 0 where there are none.
pub fn one_of(draws: &mut Draws, numbers: &[u64]) -> u64 {
    match numbers.get(below(draws, numbers.len())) {
        Some(number) => *number,
        None => 0,
    }
}
